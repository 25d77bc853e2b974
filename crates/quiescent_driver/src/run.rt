// A run over its iterations, each of which a closure makes.
ghost use Rattle.std.specs.Prelude.{◌≡◌, ◌<◌, ◌≤◌, [], length, map, IfErr, IfOk, OnOk};
ghost use Rattle.std.specs.Arc.{arc_value};
ghost use Rattle.kernel_gate.specs.Signed.{unnamed};
ghost use Rattle.param_resolver.specs.EarlyCheck.{early_faults};
ghost use Rattle.pisdf_model.specs.Valid.{AreValid};
ghost use Rattle.pisdf_meaning.specs.Run.{IsRun, Run, top_needs};
ghost use Rattle.pisdf_meaning.specs.Sound.{AreValidFor};
ghost use Rattle.quiescent_driver.specs.Carrying.{Suits};
ghost use Rattle.quiescent_driver.specs.Given.{IsTopState};
ghost use Rattle.quiescent_driver.specs.Iterated.{Gives};
ghost use Rattle.quiescent_driver.specs.Making.{IsMade, Makes, MayBegin, MayMake};
ghost use Rattle.quiescent_driver.specs.Reached.{EndsFrom};
ghost use Rattle.quiescent_driver.specs.Runs.{EndsLike, EndsRun};
ghost use Rattle.quiescent_driver.specs.Stepped.{PutsText, Steps, StopsAt};
ghost use Rattle.quiescent_driver.specs.Streams.{rest_of};
ghost use Rattle.quiescent_driver.specs.Texts.{iteration_text};
ghost use Rattle.quiescent_driver.specs.Top.{top_of};

use crate::carried::Carried;
use crate::end::RunEnd;
use crate::maker::{Made, make_by_queues, make_by_workers};
use crate::stop::Stop;
use crate::streams::Streams;
use crate::texts::iteration_text;
use job_compiler::kept;
use kernel_gate::Gate;
use outer_world::{Sink, put_text};
use pisdf_meaning::{Delays, Iteration, first_delays, one_meaning, top_needs};
use pisdf_model::{Graph, Graphs};
use sdf_level::List;
use std::alloc::{AllocError, Global};
use std::sync::{Arc, Wait};
use std::thread::Threads;

/// The top graph.
pub fn top_of(graphs: &Graphs) -> &Graph
    requires { graphs.now.top < length graphs.now.graphs }
    ensures { result.now ≡ top_of graphs.now }
{
    &graphs.graphs.items()[graphs.top as usize]
}

/// Makes an iteration by `make`.
fn made<F: Fn(&mut Carried, &mut Delays, &[List<i64>]) -> Made>(
    graphs: &Arc<Graphs>,
    make: &F,
    carried: &mut Carried,
    delays: &mut Delays,
    ins: &[List<i64>],
) -> Result<Iteration, Stop>
    requires may { MayMake (arc_value graphs.now) (F.pre make.now) }
    requires makes { Makes (arc_value graphs.now) (F.post make.now) }
    requires levels { Suits (arc_value graphs.now) carried.old }
    requires begins { MayBegin (arc_value graphs.now) delays.old.lists ins.now }
    ensures made { IsMade (arc_value graphs.now) delays.old.lists ins.now delays.new.lists result }
    ensures levels { Suits (arc_value graphs.now) carried.new }
{
    make(carried, delays, ins)
}

/// Makes one iteration, which leaves its state for the next, or answers why it isn't done.
fn next_iteration<F: Fn(&mut Carried, &mut Delays, &[List<i64>]) -> Made>(
    alloc: Global,
    graphs: &Arc<Graphs>,
    streams: &Streams<'_>,
    number: u32,
    make: &F,
    carried: &mut Carried,
    delays: &mut Delays,
) -> Result<Iteration, Stop>
    requires there { (arc_value graphs.now).top < length (arc_value graphs.now).graphs }
    requires may { MayMake (arc_value graphs.now) (F.pre make.now) }
    requires makes { Makes (arc_value graphs.now) (F.post make.now) }
    requires levels { Suits (arc_value graphs.now) carried.old }
    requires needs { streams.now.needs.now ≡ top_needs (arc_value graphs.now) }
    requires fit { length streams.now.needs.now ≡ length streams.now.tokens.now }
    requires sound { early_faults (arc_value graphs.now).graphs (arc_value graphs.now).top [] ≡ [] }
    requires state { IsTopState (arc_value graphs.now) delays.old.lists }
    ensures gives { IfOk result (λ i. Gives (arc_value graphs.now) delays.old.lists (rest_of number (top_needs (arc_value graphs.now)) streams.now.tokens.now) i delays.new.lists) }
    ensures stops { IfErr result (StopsAt (arc_value graphs.now) delays.old.lists (rest_of number (top_needs (arc_value graphs.now)) streams.now.tokens.now)) }
    ensures state { OnOk result (IsTopState (arc_value graphs.now) delays.new.lists) }
    ensures levels { Suits (arc_value graphs.now) carried.new }
{
    match streams.first_lack(number) {
        Some(lack) => return Err(Stop::from(lack)),
        None => {}
    }
    let Ok(ins) = streams.taken(alloc, number) else {
        return Err(Stop::Memory);
    };
    made(graphs, make, carried, delays, ins.as_slice())
}

/// Puts the text of one iteration, or answers how the run ends with it.
pub(crate) fn put_iteration<O: Sink>(
    alloc: Global,
    graphs: &Arc<Graphs>,
    number: u32,
    iteration: &Iteration,
    out: &mut O,
) -> Result<(), RunEnd>
    requires there { (arc_value graphs.now).top < length (arc_value graphs.now).graphs }
    ensures puts { PutsText (iteration_text number (top_of (arc_value graphs.now)).outputs iteration.now) (O.written out.old) (O.written out.new) (O.faults out.old) (O.faults out.new) result }
    ensures never_falls { O.faults out.old ≤ O.faults out.new }
{
    let top = top_of(graphs);
    let Ok(text) = iteration_text(alloc, number, top.outputs.items(), iteration) else {
        return Err(RunEnd::Memory);
    };
    match put_text(out, text.as_slice()) {
        Ok(()) => Ok(()),
        Err(_) => Err(RunEnd::WriteFault),
    }
}

/// Makes and puts one iteration, which leaves its state for the next, or answers how the run ends with it.
fn step<O: Sink, F: Fn(&mut Carried, &mut Delays, &[List<i64>]) -> Made>(
    alloc: Global,
    graphs: &Arc<Graphs>,
    streams: &Streams<'_>,
    number: u32,
    make: &F,
    carried: &mut Carried,
    delays: &mut Delays,
    out: &mut O,
) -> Result<(), RunEnd>
    requires there { (arc_value graphs.now).top < length (arc_value graphs.now).graphs }
    requires may { MayMake (arc_value graphs.now) (F.pre make.now) }
    requires makes { Makes (arc_value graphs.now) (F.post make.now) }
    requires levels { Suits (arc_value graphs.now) carried.old }
    requires needs { streams.now.needs.now ≡ top_needs (arc_value graphs.now) }
    requires fit { length streams.now.needs.now ≡ length streams.now.tokens.now }
    requires sound { early_faults (arc_value graphs.now).graphs (arc_value graphs.now).top [] ≡ [] }
    requires state { IsTopState (arc_value graphs.now) delays.old.lists }
    ensures steps { Steps (arc_value graphs.now) number delays.old.lists delays.new.lists (rest_of number (top_needs (arc_value graphs.now)) streams.now.tokens.now) (O.written out.old) (O.written out.new) (O.faults out.old) (O.faults out.new) result }
    ensures never_falls { O.faults out.old ≤ O.faults out.new }
    ensures state { OnOk result (IsTopState (arc_value graphs.now) delays.new.lists) }
    ensures levels { Suits (arc_value graphs.now) carried.new }
{
    let iteration = match next_iteration(alloc, graphs, streams, number, make, carried, delays) {
        Ok(iteration) => iteration,
        Err(stop) => return Err(RunEnd::from(stop)),
    };
    put_iteration(alloc, graphs, number, &iteration, out)
}

/// Goes on with a run of so many iterations, of which the first were put and left this state.
pub(crate) fn run_from<O: Sink, F: Fn(&mut Carried, &mut Delays, &[List<i64>]) -> Made>(
    alloc: Global,
    graphs: &Arc<Graphs>,
    streams: &Streams<'_>,
    first: u32,
    iterations: u32,
    make: &F,
    carried: &mut Carried,
    delays: &mut Delays,
    out: &mut O,
) -> RunEnd
    requires there { (arc_value graphs.now).top < length (arc_value graphs.now).graphs }
    requires may { MayMake (arc_value graphs.now) (F.pre make.now) }
    requires makes { Makes (arc_value graphs.now) (F.post make.now) }
    requires levels { Suits (arc_value graphs.now) carried.old }
    requires needs { streams.now.needs.now ≡ top_needs (arc_value graphs.now) }
    requires fit { length streams.now.needs.now ≡ length streams.now.tokens.now }
    requires sound { early_faults (arc_value graphs.now).graphs (arc_value graphs.now).top [] ≡ [] }
    requires some { first ≤ iterations }
    requires state { IsTopState (arc_value graphs.now) delays.old.lists }
    ensures ends { EndsFrom (arc_value graphs.now) streams.now.tokens.now iterations first delays.old.lists (O.written out.old) (O.written out.new) (O.faults out.old) (O.faults out.new) result }
    ensures never_falls { O.faults out.old ≤ O.faults out.new }
{
    for number in first..iterations {
        match step(alloc, graphs, streams, number, make, carried, delays, out) {
            Ok(()) => {}
            Err(end) => return end,
        }
    }
    match streams.left(alloc, iterations) {
        Ok(left) => RunEnd::Done { left },
        Err(_) => RunEnd::Memory,
    }
}

/// Runs so many iterations, at least one, on streams from which each takes what the top graph needs.
fn run_some<O: Sink, F: Fn(&mut Carried, &mut Delays, &[List<i64>]) -> Made>(
    alloc: Global,
    graphs: &Arc<Graphs>,
    streams: &Streams<'_>,
    iterations: u32,
    make: &F,
    carried: &mut Carried,
    out: &mut O,
) -> RunEnd
    requires there { (arc_value graphs.now).top < length (arc_value graphs.now).graphs }
    requires may { MayMake (arc_value graphs.now) (F.pre make.now) }
    requires makes { Makes (arc_value graphs.now) (F.post make.now) }
    requires levels { Suits (arc_value graphs.now) carried.old }
    requires needs { streams.now.needs.now ≡ top_needs (arc_value graphs.now) }
    requires fit { length streams.now.needs.now ≡ length streams.now.tokens.now }
    requires sound { early_faults (arc_value graphs.now).graphs (arc_value graphs.now).top [] ≡ [] }
    ensures ends { EndsRun (arc_value graphs.now) streams.now.tokens.now iterations (O.written out.old) (O.written out.new) (O.faults out.old) (O.faults out.new) result }
    ensures never_falls { O.faults out.old ≤ O.faults out.new }
{
    let Ok(mut delays) = first_delays(alloc, graphs) else {
        return RunEnd::Memory;
    };
    run_from(
        alloc,
        graphs,
        streams,
        0,
        iterations,
        make,
        carried,
        &mut delays,
        out,
    )
}

/// How many tokens each stream holds.
fn lengths(alloc: Global, streams: &[List<i64>]) -> Result<List<u64>, AllocError>
    ensures { IfOk result (λ l. l ≡ map (λ t. length t) streams.now) }
{
    let counts: Vec<u64> = streams
        .iter()
        .map(|tokens| tokens.items().len() as u64)
        .collect(alloc)?;
    Ok(List::new(counts))
}

/// Runs so many iterations, each made by `make`, which is given what is carried from one to the next.
fn run_by<O: Sink, F: Fn(&mut Carried, &mut Delays, &[List<i64>]) -> Made>(
    alloc: Global,
    graphs: &Arc<Graphs>,
    streams: &[List<i64>],
    iterations: u32,
    make: &F,
    carried: &mut Carried,
    out: &mut O,
) -> RunEnd
    requires valid { AreValid (arc_value graphs.now) }
    requires may { MayMake (arc_value graphs.now) (F.pre make.now) }
    requires makes { Makes (arc_value graphs.now) (F.post make.now) }
    requires levels { Suits (arc_value graphs.now) carried.old }
    requires fit { length streams.now ≡ length (top_of (arc_value graphs.now)).inputs }
    ensures ends { EndsRun (arc_value graphs.now) streams.now iterations (O.written out.old) (O.written out.new) (O.faults out.old) (O.faults out.new) result }
    ensures never_falls { O.faults out.old ≤ O.faults out.new }
{
    if iterations == 0 {
        return match lengths(alloc, streams) {
            Ok(left) => RunEnd::Done { left },
            Err(_) => RunEnd::Memory,
        };
    }
    let needs = match top_needs(alloc, graphs) {
        Ok(needs) => needs,
        Err(fault) => {
            let stop = Stop::from(fault);
            return RunEnd::from(stop);
        }
    };
    let feed = Streams {
        needs: needs.items(),
        tokens: streams,
    };
    run_some(alloc, graphs, &feed, iterations, make, carried, out)
}

/// Runs so many iterations, each by 1 to 16 workers in threads, with a stream of tokens for each input of the top graph, whose
/// delays hold at first what the graph says. Each iteration's text is put once, whole, when it is done: a row for each parameter
/// that was chosen, and then a row of tokens for each output. It ends as a run by one thread does, whatever the order of the
/// workers' steps. The 64 compilations of jobs that were used last are kept from one iteration to the next. Without an iteration
/// nothing is checked. It may wait.
pub fn run_all<O: Sink, K: Gate + Sync, R: Threads + Wait + Sync>(
    rt: &R,
    alloc: Global,
    graphs: &Arc<Graphs>,
    streams: &[List<i64>],
    iterations: u32,
    workers: u32,
    gate: &K,
    out: &mut O,
) -> RunEnd
    requires valid { AreValidFor (unnamed (K.kernels gate.now)) (arc_value graphs.now) }
    requires fit { length streams.now ≡ length (top_of (arc_value graphs.now)).inputs }
    requires some { 0 < workers }
    requires few { workers ≤ 16 }
    ensures ends { EndsRun (arc_value graphs.now) streams.now iterations (O.written out.old) (O.written out.new) (O.faults out.old) (O.faults out.new) result }

    // The end is that of each run by one thread, whose texts were put, unless there was no memory or a put failed.
    ensures only { (r : Run) → IsRun (arc_value graphs.now) streams.now iterations r → EndsLike (arc_value graphs.now) r (O.written out.old) (O.written out.new) (O.faults out.old) (O.faults out.new) result }
    ensures never_falls { O.faults out.old ≤ O.faults out.new }
{
    one_meaning();
    let Ok(kept) = kept(alloc) else {
        return RunEnd::Memory;
    };
    let mut carried = Carried::new(Some(kept));
    let make = |carried: &mut Carried, delays: &mut Delays, ins: &[List<i64>]| -> Made
        requires valid { AreValidFor (unnamed (K.kernels gate.now)) (arc_value graphs.now) }
        requires some { 0 < workers }
        requires few { workers ≤ 16 }
        requires begins { MayBegin (arc_value graphs.now) delays.now.lists ins.now }
        requires levels { Suits (arc_value graphs.now) carried.now }
        ensures made { IsMade (arc_value graphs.entry.now) delays.entry.now.lists ins.entry.now delays.exit.now.lists result }
        ensures levels { Suits (arc_value graphs.entry.now) carried.exit.now }
    { make_by_workers(rt, alloc, graphs, delays, ins, workers, carried, gate) };
    run_by(alloc, graphs, streams, iterations, &make, &mut carried, out)
}

/// As `run_all`, by one thread that fires over queues in place of workers. It waits for nobody.
pub fn plain_run<O: Sink, K: Gate>(
    alloc: Global,
    graphs: &Arc<Graphs>,
    streams: &[List<i64>],
    iterations: u32,
    gate: &K,
    out: &mut O,
) -> RunEnd
    requires valid { AreValidFor (unnamed (K.kernels gate.now)) (arc_value graphs.now) }
    requires fit { length streams.now ≡ length (top_of (arc_value graphs.now)).inputs }
    ensures ends { EndsRun (arc_value graphs.now) streams.now iterations (O.written out.old) (O.written out.new) (O.faults out.old) (O.faults out.new) result }
    ensures only { (r : Run) → IsRun (arc_value graphs.now) streams.now iterations r → EndsLike (arc_value graphs.now) r (O.written out.old) (O.written out.new) (O.faults out.old) (O.faults out.new) result }
    ensures never_falls { O.faults out.old ≤ O.faults out.new }
{
    one_meaning();
    let mut carried = Carried::new(None);
    let make = |carried: &mut Carried, delays: &mut Delays, ins: &[List<i64>]| -> Made
        requires valid { AreValidFor (unnamed (K.kernels gate.now)) (arc_value graphs.now) }
        requires begins { MayBegin (arc_value graphs.now) delays.now.lists ins.now }
        requires levels { Suits (arc_value graphs.now) carried.now }
        ensures made { IsMade (arc_value graphs.entry.now) delays.entry.now.lists ins.entry.now delays.exit.now.lists result }
        ensures levels { Suits (arc_value graphs.entry.now) carried.exit.now }
    { make_by_queues(alloc, graphs, delays, ins, gate) };
    run_by(alloc, graphs, streams, iterations, &make, &mut carried, out)
}
