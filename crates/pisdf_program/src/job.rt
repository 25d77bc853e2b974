// The way to the compiled job of the top graph.
ghost use Rattle.std.specs.Prelude.{◌≡◌, ◌⊎◌, ◌≤◌, [], Err, length};
ghost use Rattle.kernel_gate.specs.Table.{the_signatures};
ghost use Rattle.param_resolver.specs.EarlyCheck.{early_faults};
ghost use Rattle.pisdf_meaning.specs.Run.{top_needs};
ghost use Rattle.pisdf_program.specs.Job.{Compiles, EndsJob, JobEnd, at_top};
ghost use Rattle.pisdf_program.specs.Uncompiled.{IsLeftTo};
ghost use Rattle.pisdf_program.specs.Loaded.{AreGood};
ghost use Rattle.quiescent_driver.specs.Top.{top_of};

use crate::load::Input;
use job_compiler::{Compiled, compile};
use kernel_gate::Gate;
use level_schedule::Unscheduled;
use pisdf_meaning::{Cause, Path, Refusal, first_delays, schedule_cause, top_level, top_needs};
use pisdf_model::{Graph, Graphs};
use quiescent_driver::{Stop, Streams, top_of};
use sdf_level::Level;
use std::alloc::Global;

/// A refusal at the path of the top graph.
fn refused_at(alloc: Global, top: &Graph, cause: Cause) -> Stop
    ensures { (result ≡ Stop.Refused (at_top top.now cause)) ⊎ (result ≡ Stop.Memory) }
{
    let Ok(name) = top.name.clone() else {
        return Stop::Memory;
    };
    match Path::new(alloc, name) {
        Ok(path) => Stop::Refused(Refusal { path, cause }),
        Err(_) => Stop::Memory,
    }
}

/// Why there is no job, where the level of the top graph has no schedule.
fn uncompiled(alloc: Global, top: &Graph, fault: Unscheduled) -> Stop
    ensures { IsLeftTo top.now fault result }
{
    match fault {
        Unscheduled::Rates => refused_at(alloc, top, Cause::Rates),
        Unscheduled::Limit { what, value } => refused_at(alloc, top, Cause::Limit { what, value }),
        Unscheduled::Deadlock { left } => {
            match schedule_cause(alloc, top, Unscheduled::Deadlock { left }) {
                Ok(cause) => refused_at(alloc, top, cause),
                Err(_) => Stop::Memory,
            }
        }
        Unscheduled::Memory => Stop::Memory,
    }
}

/// Compiles the level of the top graph.
fn compile_level(alloc: Global, top: &Graph, level: &Level, workers: u32) -> Result<Compiled, Stop>
    requires { 1 ≤ workers }
    ensures compiles { Compiles top.now workers level.now result ⊎ (result ≡ Err Stop.Memory) }
    ensures only { (end : JobEnd) → Compiles top.now workers level.now end → (result ≡ end) ⊎ (result ≡ Err Stop.Memory) }
{
    match compile(alloc, level, workers) {
        Ok(job) => Ok(job),
        Err(fault) => Err(uncompiled(alloc, top, fault)),
    }
}

/// The way from the streams of the first iteration, whose early check finds nothing, to its job.
fn lead_to_job<K: Gate>(
    alloc: Global,
    graphs: &Graphs,
    streams: &Streams<'_>,
    workers: u32,
    gate: &K,
) -> Result<Compiled, Stop>
    requires good { AreGood graphs.now }
    requires kernels { K.kernels gate.now ≡ the_signatures }
    requires workers { 1 ≤ workers }
    requires needs { streams.now.needs.now ≡ top_needs graphs.now }
    requires fit { length streams.now.needs.now ≡ length streams.now.tokens.now }
    requires sound { early_faults graphs.now.graphs graphs.now.top [] ≡ [] }
    ensures ends { EndsJob graphs.now streams.now.tokens.now workers result ⊎ (result ≡ Err Stop.Memory) }
    ensures only { (end : JobEnd) → EndsJob graphs.now streams.now.tokens.now workers end → (result ≡ end) ⊎ (result ≡ Err Stop.Memory) }
{
    match streams.first_lack(0) {
        Some(lack) => return Err(Stop::from(lack)),
        None => {}
    }
    let Ok(ins) = streams.taken(alloc, 0) else {
        return Err(Stop::Memory);
    };
    let Ok(delays) = first_delays(alloc, graphs) else {
        return Err(Stop::Memory);
    };
    match top_level(alloc, graphs, &delays, ins.as_slice(), gate) {
        Ok(set) => compile_level(alloc, top_of(graphs), &set.level, workers),
        Err(fault) => Err(Stop::from(fault)),
    }
}

/// The compiled job of the top graph in the first iteration, or how an iteration of a run
/// ends before its level is run. Of the top graph's actors the configuration actors alone fire.
pub(crate) fn first_job<K: Gate>(
    alloc: Global,
    input: &Input,
    workers: u32,
    gate: &K,
) -> Result<Compiled, Stop>
    requires good { AreGood input.now.graphs }
    requires kernels { K.kernels gate.now ≡ the_signatures }
    requires workers { 1 ≤ workers }
    requires fit { length input.now.streams ≡ length (top_of input.now.graphs).inputs }
    ensures ends { EndsJob input.now.graphs input.now.streams workers result ⊎ (result ≡ Err Stop.Memory) }
    ensures only { (end : JobEnd) → EndsJob input.now.graphs input.now.streams workers end → (result ≡ end) ⊎ (result ≡ Err Stop.Memory) }
{
    let graphs = &input.graphs;
    let needs = match top_needs(alloc, graphs) {
        Ok(needs) => needs,
        Err(fault) => return Err(Stop::from(fault)),
    };
    let streams = Streams {
        needs: needs.items(),
        tokens: input.streams.items(),
    };
    lead_to_job(alloc, graphs, &streams, workers, gate)
}
