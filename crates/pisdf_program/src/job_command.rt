// The commands that tell of the compiled job of the top graph.
ghost use Rattle.std.specs.Prelude.{◌≡◌, ◌≢◌, ◌≤◌, ◌<◌, ◌⊎◌, Ok, Err, IfErr, IfOk, length};
ghost use Rattle.kernel_gate.specs.Table.{the_signatures};
ghost use Rattle.pisdf_program.specs.Result.{AreTold, FromFiles, TellsEnd, TellsJob};
ghost use Rattle.pisdf_program.specs.Worked.{FilesRose, IsThere, ReadsNothing, Works};

use crate::job::first_job;
use crate::load::load_input;
use crate::status::Status;
use crate::stop::stop_status;
use job_compiler::Compiled;
use job_report::{JobText, job_text};
use kernel_gate::Gate;
use outer_world::{Shelf, Sink, put_text};
use pisdf_model::Graphs;
use quiescent_driver::{Stop, top_of};
use std::alloc::Global;

/// Puts what is told of a job, in one put.
fn put_job<O: Sink>(
    alloc: Global,
    what: JobText,
    graphs: &Graphs,
    job: &Compiled,
    out: &mut O,
) -> Result<String, Status>
    requires there { graphs.now.top < length graphs.now.graphs }
    requires workers { 1 ≤ job.now.workers }
    ensures works { Works (TellsEnd what graphs.now (Ok job.now)) (O.written out.old) (O.written out.new) (O.faults out.old) (O.faults out.new) result }
    ensures there { IsThere (Unit {0}) (TellsEnd what graphs.now (Ok job.now)) result }
    ensures fault { IfErr result (λ s. (s ≡ Status.WantOfMemory) ⊎ (s ≡ Status.WriteFault)) }
{
    let Ok(text) = job_text(alloc, what, graphs.graphs.items(), top_of(graphs), job) else {
        return Err(Status::WantOfMemory);
    };
    match put_text(out, text.as_bytes()) {
        Ok(()) => Ok(String::new(alloc)),
        Err(_) => Err(Status::WriteFault),
    }
}

/// Puts what is told of a job, or answers why there is none.
fn tell_end<O: Sink>(
    alloc: Global,
    what: JobText,
    graphs: &Graphs,
    end: Result<Compiled, Stop>,
    out: &mut O,
) -> Result<String, Status>
    requires there { graphs.now.top < length graphs.now.graphs }
    requires workers { IfOk end (λ job. 1 ≤ job.workers) }
    ensures works { Works (TellsEnd what graphs.now end) (O.written out.old) (O.written out.new) (O.faults out.old) (O.faults out.new) result }
    ensures there { IsThere (Unit {0}) (TellsEnd what graphs.now end) result }
    ensures memory { end ≡ Err Stop.Memory → result ≡ Err Status.WantOfMemory }
    ensures read { IfErr result ReadsNothing }
{
    match end {
        Ok(job) => put_job(alloc, what, graphs, &job, out),
        Err(stop) => Err(stop_status(alloc, graphs, stop)),
    }
}

/// Tells of the compiled job of the top graph in the first iteration, for so many workers. The answer is no text for
/// standard error, or a status.
pub(crate) fn tell_job<S: Shelf, O: Sink, K: Gate>(
    alloc: Global,
    what: JobText,
    graph: &str,
    tokens: &str,
    workers: u32,
    shelf: &mut S,
    out: &mut O,
    gate: &K,
) -> Result<String, Status>
    requires kernels { K.kernels gate.now ≡ the_signatures }
    requires workers { 1 ≤ workers }
    ensures works { Works (FromFiles (TellsJob what workers) (S.holds shelf.old graph.now) (S.holds shelf.old tokens.now)) (O.written out.old) (O.written out.new) (O.faults out.old) (O.faults out.new) result }
    ensures there { IsThere (AreTold (S.holds shelf.old graph.now) (S.holds shelf.old tokens.now)) (FromFiles (TellsJob what workers) (S.holds shelf.old graph.now) (S.holds shelf.old tokens.now)) result }
    ensures read { IfErr result (FilesRose graph.now tokens.now (S.faults shelf.old) (S.faults shelf.new)) }
    ensures usage { result ≢ Err Status.Usage }
{
    let input = match load_input(alloc, shelf, graph, tokens, gate.signatures()) {
        Ok(input) => input,
        Err(status) => return Err(status),
    };
    let end = first_job(alloc, &input, workers, gate);
    tell_end(alloc, what, &input.graphs, end, out)
}
