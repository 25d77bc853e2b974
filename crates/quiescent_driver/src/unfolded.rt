// A run in groups of iterations, each fired as one iteration of unfolded graphs.
ghost use Rattle.std.specs.Prelude.{ℕ, ◌≡◌, ◌+◌, ◌*◌, ◌/◌, ◌<◌, ◌≤◌, ◌^◌, [], length, IfErr, IfOk, IfSome, None, Ok as Good, OnOk};
ghost use Rattle.std.specs.Arc.{arc_value};
ghost use Rattle.kernel_gate.specs.Signed.{unnamed};
ghost use Rattle.param_resolver.specs.EarlyCheck.{early_faults};
ghost use Rattle.pisdf_model.specs.Hold.{initial};
ghost use Rattle.pisdf_model.specs.Valid.{AreValid};
ghost use Rattle.pisdf_meaning.specs.Run.{IsRun, Run, top_needs};
ghost use Rattle.pisdf_meaning.specs.Sound.{AreValidFor};
ghost use Rattle.quiescent_driver.specs.Carrying.{Suits};
ghost use Rattle.quiescent_driver.specs.Given.{IsTopState};
ghost use Rattle.quiescent_driver.specs.Making.{IsMade, MayBegin};
ghost use Rattle.quiescent_driver.specs.Reached.{EndsFrom, Iterate, PutsGroup, PutsInTurn, Reached};
ghost use Rattle.quiescent_driver.specs.Runs.{EndsLike, EndsRun};
ghost use Rattle.quiescent_driver.specs.Top.{top_of};
ghost use Rattle.quiescent_driver.specs.Unfolding.{StandsFor};

use crate::carried::Carried;
use crate::end::RunEnd;
use crate::fault::IterationFault;
use crate::iteration::run_iteration_by;
use crate::maker::{Made, make_by_workers};
use crate::run::{put_iteration, run_all, run_from};
use crate::streams::Streams;
use board_journal::Journal;
use job_compiler::kept;
use kernel_gate::Gate;
use outer_world::Sink;
use pisdf_meaning::{Delays, Iteration, first_delays, one_meaning, top_needs};
use pisdf_model::Graphs;
use sdf_level::List;
use std::alloc::{AllocError, Global};
use std::sync::{Arc, Wait};
use std::thread::Threads;
use unfold_rates::{UnfoldFault, Unfolded, unfold};

/// Puts the texts of iterations from this number on, or answers how the run ends with one of them.
fn put_in_turn<O: Sink>(
    alloc: Global,
    graphs: &Arc<Graphs>,
    number: u32,
    iterations: &[Iteration],
    out: &mut O,
) -> Result<(), RunEnd>
    requires there { (arc_value graphs.now).top < length (arc_value graphs.now).graphs }
    requires few { number + length iterations.now < 2 ^ 32 }
    ensures puts { PutsInTurn (arc_value graphs.now) number iterations.now (O.written out.old) (O.written out.new) (O.faults out.old) (O.faults out.new) result }
    ensures never_falls { O.faults out.old ≤ O.faults out.new }
{
    for place in 0..iterations.len() {
        let iteration = &iterations[place];
        match put_iteration(alloc, graphs, number + place as u32, iteration, out) {
            Ok(()) => {}
            Err(end) => return Err(end),
        }
    }
    Ok(())
}

/// The iterations of the group with this number, made at once, or none where a stream lacks tokens of them or the group is
/// refused. They leave their state.
fn next_group<K: Gate + Sync, R: Threads + Wait + Sync>(
    rt: &R,
    alloc: Global,
    graphs: &Arc<Graphs>,
    unfolded: &Unfolded,
    streams: &Streams<'_>,
    group: u32,
    workers: u32,
    carried: &mut Carried,
    delays: &mut Delays,
    gate: &K,
) -> Result<Option<List<Iteration>>, AllocError>
    requires valid { AreValidFor (unnamed (K.kernels gate.now)) (arc_value graphs.now) }
    requires stands { StandsFor (arc_value graphs.now) unfolded.now }
    requires needs { streams.now.needs.now ≡ top_needs (arc_value unfolded.now.graphs) }
    requires fit { length streams.now.needs.now ≡ length streams.now.tokens.now }
    requires state { IsTopState (arc_value graphs.now) delays.old.lists }
    requires some { 0 < workers }
    requires few { workers ≤ 16 }
    requires levels { Suits (arc_value unfolded.now.graphs) carried.old }
    ensures given { IfOk result (λ found. IfSome found (λ its. Iterate (arc_value graphs.now) streams.now.tokens.now (group * unfolded.now.times) delays.old.lists its delays.new.lists)) }
    ensures all { IfOk result (λ found. IfSome found (λ its. length its ≡ unfolded.now.times)) }
    ensures unchanged { result ≡ Good None → delays.new ≡ delays.old }
    ensures state { IsTopState (arc_value graphs.now) delays.new.lists }
    ensures levels { Suits (arc_value unfolded.now.graphs) carried.new }
{
    // Its clause says that the kernels give outputs of the lengths that they are asked for.
    let _signatures = gate.signatures();
    match streams.first_lack(group) {
        Some(_) => return Ok(None),
        None => {}
    }
    let ins = streams.taken(alloc, group)?;
    let iteration = match run_iteration_by(
        rt,
        alloc,
        &unfolded.graphs,
        delays,
        ins.as_slice(),
        workers,
        carried,
        gate,
        Journal::unreadable(),
    ) {
        Ok((iteration, _journal)) => iteration,
        Err(IterationFault::Refused(_, _)) => return Ok(None),
        Err(IterationFault::Memory) => return Err(AllocError),
    };
    let pieces = unfolded.cut(alloc, &iteration)?;
    Ok(Some(pieces))
}

/// Makes and puts the iterations of the group with this number. The answer is whether it was put: else nothing was, since a
/// stream lacks tokens of it or it is refused. Or the run ends with it.
fn step_group<O: Sink, K: Gate + Sync, R: Threads + Wait + Sync>(
    rt: &R,
    alloc: Global,
    graphs: &Arc<Graphs>,
    unfolded: &Unfolded,
    streams: &Streams<'_>,
    group: u32,
    workers: u32,
    carried: &mut Carried,
    delays: &mut Delays,
    gate: &K,
    out: &mut O,
) -> Result<bool, RunEnd>
    requires valid { AreValidFor (unnamed (K.kernels gate.now)) (arc_value graphs.now) }
    requires stands { StandsFor (arc_value graphs.now) unfolded.now }
    requires needs { streams.now.needs.now ≡ top_needs (arc_value unfolded.now.graphs) }
    requires fit { length streams.now.needs.now ≡ length streams.now.tokens.now }
    requires state { IsTopState (arc_value graphs.now) delays.old.lists }
    requires some { 0 < workers }
    requires few { workers ≤ 16 }
    requires numbers { group * unfolded.now.times + unfolded.now.times < 2 ^ 32 }
    requires levels { Suits (arc_value unfolded.now.graphs) carried.old }
    ensures puts { (n : ℕ) → group * unfolded.now.times + unfolded.now.times ≤ n → PutsGroup (arc_value graphs.now) streams.now.tokens.now n (group * unfolded.now.times) unfolded.now.times delays.old.lists delays.new.lists (O.written out.old) (O.written out.new) (O.faults out.old) (O.faults out.new) result }
    ensures never_falls { O.faults out.old ≤ O.faults out.new }
    ensures state { IsTopState (arc_value graphs.now) delays.new.lists }
    ensures levels { Suits (arc_value unfolded.now.graphs) carried.new }
{
    let Ok(found) = next_group(
        rt, alloc, graphs, unfolded, streams, group, workers, carried, delays, gate,
    ) else {
        return Err(RunEnd::Memory);
    };
    let Some(iterations) = found else {
        return Ok(false);
    };
    let number = group * unfolded.times;
    match put_in_turn(alloc, graphs, number, iterations.items(), out) {
        Ok(()) => Ok(true),
        Err(end) => Err(end),
    }
}

/// How many iterations so many groups are, of those that a run of so many iterations has room for.
fn iterations_in(groups: u32, times: u32, iterations: u32) -> u32
    requires some { 0 < times }
    requires within { groups ≤ iterations / times }
    ensures count { result ≡ groups * times }
    ensures within { result ≤ iterations }
{
    groups * times
}

/// Makes and puts groups of iterations from the first one on, as long as the run has so many iterations left, and the streams
/// their tokens, and no group is refused. The answer is how many iterations were put. They leave their state.
fn run_groups<O: Sink, K: Gate + Sync, R: Threads + Wait + Sync>(
    rt: &R,
    alloc: Global,
    graphs: &Arc<Graphs>,
    unfolded: &Unfolded,
    streams: &Streams<'_>,
    iterations: u32,
    workers: u32,
    carried: &mut Carried,
    delays: &mut Delays,
    gate: &K,
    out: &mut O,
) -> Result<u32, RunEnd>
    requires valid { AreValidFor (unnamed (K.kernels gate.now)) (arc_value graphs.now) }
    requires stands { StandsFor (arc_value graphs.now) unfolded.now }
    requires needs { streams.now.needs.now ≡ top_needs (arc_value unfolded.now.graphs) }
    requires fit { length streams.now.needs.now ≡ length streams.now.tokens.now }
    requires begins { delays.old.lists ≡ initial (arc_value graphs.now).graphs (arc_value graphs.now).top }
    requires some { 0 < workers }
    requires few { workers ≤ 16 }
    requires times { 0 < unfolded.now.times }
    requires levels { Suits (arc_value unfolded.now.graphs) carried.old }
    ensures reached { IfOk result (λ done. Reached (arc_value graphs.now) streams.now.tokens.now done delays.new.lists (O.written out.old) (O.written out.new)) }
    ensures within { IfOk result (λ done. done ≤ iterations) }
    ensures ends { IfErr result (EndsRun (arc_value graphs.now) streams.now.tokens.now iterations (O.written out.old) (O.written out.new) (O.faults out.old) (O.faults out.new)) }
    ensures never_falls { O.faults out.old ≤ O.faults out.new }
    ensures state { IsTopState (arc_value graphs.now) delays.new.lists }
    ensures levels { Suits (arc_value unfolded.now.graphs) carried.new }
{
    let groups = iterations / unfolded.times;
    for group in 0..groups {
        let put = match step_group(
            rt, alloc, graphs, unfolded, streams, group, workers, carried, delays, gate, out,
        ) {
            Ok(put) => put,
            Err(end) => return Err(end),
        };
        if !put {
            return Ok(iterations_in(group, unfolded.times, iterations));
        }
    }
    Ok(iterations_in(groups, unfolded.times, iterations))
}

/// How many tokens each input of the top graph takes in an iteration, where the early check finds nothing.
fn needs_of(alloc: Global, graphs: &Graphs) -> Result<List<u32>, AllocError>
    requires valid { AreValid graphs.now }
    requires sound { early_faults graphs.now.graphs graphs.now.top [] ≡ [] }
    ensures needs { IfOk result (λ needs. needs ≡ top_needs graphs.now) }
    ensures fit { IfOk result (λ needs. length needs ≡ length (top_of graphs.now).inputs) }
{
    match top_needs(alloc, graphs) {
        Ok(needs) => Ok(needs),
        Err(_) => Err(AllocError),
    }
}

/// Makes the iterations of a run one by one from a number on, and puts them.
fn run_singly<O: Sink, K: Gate + Sync, R: Threads + Wait + Sync>(
    rt: &R,
    alloc: Global,
    graphs: &Arc<Graphs>,
    streams: &[List<i64>],
    first: u32,
    iterations: u32,
    workers: u32,
    delays: &mut Delays,
    gate: &K,
    out: &mut O,
) -> RunEnd
    requires valid { AreValidFor (unnamed (K.kernels gate.now)) (arc_value graphs.now) }
    requires sound { early_faults (arc_value graphs.now).graphs (arc_value graphs.now).top [] ≡ [] }
    requires fit { length streams.now ≡ length (top_of (arc_value graphs.now)).inputs }
    requires state { IsTopState (arc_value graphs.now) delays.old.lists }
    requires within { first ≤ iterations }
    requires some { 0 < workers }
    requires few { workers ≤ 16 }
    ensures ends { EndsFrom (arc_value graphs.now) streams.now iterations first delays.old.lists (O.written out.old) (O.written out.new) (O.faults out.old) (O.faults out.new) result }
    ensures never_falls { O.faults out.old ≤ O.faults out.new }
{
    let Ok(needs) = needs_of(alloc, graphs) else {
        return RunEnd::Memory;
    };
    let Ok(kept) = kept(alloc) else {
        return RunEnd::Memory;
    };
    let mut carried = Carried::new(Some(kept));
    let feed = Streams {
        needs: needs.items(),
        tokens: streams,
    };
    let make = |carried: &mut Carried, delays: &mut Delays, ins: &[List<i64>]| -> Made
        requires valid { AreValidFor (unnamed (K.kernels gate.now)) (arc_value graphs.now) }
        requires some { 0 < workers }
        requires few { workers ≤ 16 }
        requires begins { MayBegin (arc_value graphs.now) delays.now.lists ins.now }
        requires levels { Suits (arc_value graphs.now) carried.now }
        ensures made { IsMade (arc_value graphs.entry.now) delays.entry.now.lists ins.entry.now delays.exit.now.lists result }
        ensures levels { Suits (arc_value graphs.entry.now) carried.exit.now }
    { make_by_workers(rt, alloc, graphs, delays, ins, workers, carried, gate) };
    run_from(
        alloc,
        graphs,
        &feed,
        first,
        iterations,
        &make,
        &mut carried,
        delays,
        out,
    )
}

/// Makes and puts groups of iterations, from the state with which a run begins. The answer is how many iterations were put, or how
/// the run ends with them.
fn begin_in_groups<O: Sink, K: Gate + Sync, R: Threads + Wait + Sync>(
    rt: &R,
    alloc: Global,
    graphs: &Arc<Graphs>,
    unfolded: &Unfolded,
    streams: &[List<i64>],
    iterations: u32,
    workers: u32,
    delays: &mut Delays,
    gate: &K,
    out: &mut O,
) -> Result<u32, RunEnd>
    requires valid { AreValidFor (unnamed (K.kernels gate.now)) (arc_value graphs.now) }
    requires stands { StandsFor (arc_value graphs.now) unfolded.now }
    requires fit { length streams.now ≡ length (top_of (arc_value graphs.now)).inputs }
    requires begins { delays.old.lists ≡ initial (arc_value graphs.now).graphs (arc_value graphs.now).top }
    requires some { 0 < workers }
    requires few { workers ≤ 16 }
    requires times { 0 < unfolded.now.times }
    ensures reached { IfOk result (λ done. Reached (arc_value graphs.now) streams.now done delays.new.lists (O.written out.old) (O.written out.new)) }
    ensures within { IfOk result (λ done. done ≤ iterations) }
    ensures ends { IfErr result (EndsRun (arc_value graphs.now) streams.now iterations (O.written out.old) (O.written out.new) (O.faults out.old) (O.faults out.new)) }
    ensures never_falls { O.faults out.old ≤ O.faults out.new }
    ensures state { IsTopState (arc_value graphs.now) delays.new.lists }
{
    let Ok(needs) = needs_of(alloc, &unfolded.graphs) else {
        return Err(RunEnd::Memory);
    };
    let Ok(kept) = kept(alloc) else {
        return Err(RunEnd::Memory);
    };
    let mut carried = Carried::new(Some(kept));
    let feed = Streams {
        needs: needs.items(),
        tokens: streams,
    };
    run_groups(
        rt,
        alloc,
        graphs,
        unfolded,
        &feed,
        iterations,
        workers,
        &mut carried,
        delays,
        gate,
        out,
    )
}

/// Runs so many iterations: groups of them as long as they are put, and the rest one by one. The compilations of groups are kept
/// apart from those of single iterations, whose top graphs have other levels.
fn run_in_groups<O: Sink, K: Gate + Sync, R: Threads + Wait + Sync>(
    rt: &R,
    alloc: Global,
    graphs: &Arc<Graphs>,
    unfolded: &Unfolded,
    streams: &[List<i64>],
    iterations: u32,
    workers: u32,
    gate: &K,
    out: &mut O,
) -> RunEnd
    requires valid { AreValidFor (unnamed (K.kernels gate.now)) (arc_value graphs.now) }
    requires stands { StandsFor (arc_value graphs.now) unfolded.now }
    requires fit { length streams.now ≡ length (top_of (arc_value graphs.now)).inputs }
    requires some { 0 < workers }
    requires few { workers ≤ 16 }
    requires times { 0 < unfolded.now.times }
    ensures ends { EndsRun (arc_value graphs.now) streams.now iterations (O.written out.old) (O.written out.new) (O.faults out.old) (O.faults out.new) result }
    ensures never_falls { O.faults out.old ≤ O.faults out.new }
{
    let Ok(mut delays) = first_delays(alloc, graphs) else {
        return RunEnd::Memory;
    };
    let done = match begin_in_groups(
        rt,
        alloc,
        graphs,
        unfolded,
        streams,
        iterations,
        workers,
        &mut delays,
        gate,
        out,
    ) {
        Ok(done) => done,
        Err(end) => return end,
    };
    run_singly(
        rt,
        alloc,
        graphs,
        streams,
        done,
        iterations,
        workers,
        &mut delays,
        gate,
        out,
    )
}

/// As `run_all`, with work of so many neighbouring iterations, 1 to 64, side by side, where so many can be fired as one. A group
/// of iterations is fired so where so many are left, and the tokens of all of them. Where a group is refused, it and all after
/// it are made again one by one, from the state before it. Each iteration's text is put once, whole, as `run_all` puts it.
pub fn run_unfolded<O: Sink, K: Gate + Sync, R: Threads + Wait + Sync>(
    rt: &R,
    alloc: Global,
    graphs: &Arc<Graphs>,
    streams: &[List<i64>],
    iterations: u32,
    times: u32,
    workers: u32,
    gate: &K,
    out: &mut O,
) -> RunEnd
    requires valid { AreValidFor (unnamed (K.kernels gate.now)) (arc_value graphs.now) }
    requires fit { length streams.now ≡ length (top_of (arc_value graphs.now)).inputs }
    requires some_times { 1 ≤ times }
    requires few_times { times ≤ 64 }
    requires some { 0 < workers }
    requires few { workers ≤ 16 }
    ensures ends { EndsRun (arc_value graphs.now) streams.now iterations (O.written out.old) (O.written out.new) (O.faults out.old) (O.faults out.new) result }

    // The end is that of each run by one thread, whose texts were put, unless there was no memory or a put failed.
    ensures only { (r : Run) → IsRun (arc_value graphs.now) streams.now iterations r → EndsLike (arc_value graphs.now) r (O.written out.old) (O.written out.new) (O.faults out.old) (O.faults out.new) result }
    ensures never_falls { O.faults out.old ≤ O.faults out.new }
{
    one_meaning();
    // A group of one iteration is that iteration.
    if times == 1 || iterations < times {
        return run_all(rt, alloc, graphs, streams, iterations, workers, gate, out);
    }
    match unfold(alloc, graphs, times) {
        Ok(unfolded) => run_in_groups(
            rt, alloc, graphs, &unfolded, streams, iterations, workers, gate, out,
        ),
        Err(UnfoldFault::NotExact) => {
            run_all(rt, alloc, graphs, streams, iterations, workers, gate, out)
        }
        Err(UnfoldFault::Memory) => RunEnd::Memory,
    }
}
