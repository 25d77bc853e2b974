// The command that tells the journals of a run by many workers.
ghost use Rattle.std.specs.Prelude.{◌≡◌, ◌≢◌, ◌<◌, ◌≤◌, [], Err, length, IfErr, IfOk, OnOk, true};
ghost use Rattle.std.specs.Arc.{arc_value};
ghost use Rattle.kernel_gate.specs.Table.{the_signatures};
ghost use Rattle.param_resolver.specs.EarlyCheck.{early_faults};
ghost use Rattle.pisdf_meaning.specs.Run.{top_needs};
ghost use Rattle.quiescent_driver.specs.Journals.{key_at};
ghost use Rattle.pisdf_program.specs.Journals.{ClosesWith, EndsBoards, HasNoBoard, StepsBoard};
ghost use Rattle.pisdf_program.specs.Loaded.{AreGood};
ghost use Rattle.pisdf_program.specs.Result.{AreTold, FromFiles, Journals};
ghost use Rattle.quiescent_driver.specs.Streams.{rest_of};
ghost use Rattle.quiescent_driver.specs.Top.{top_of};
ghost use Rattle.pisdf_program.specs.Worked.{FilesRose, IsThere, ReportsBoards, Works};
ghost use Rattle.quiescent_driver.specs.Endings.{IsWhole};
ghost use Rattle.quiescent_driver.specs.Given.{IsTopState};

use crate::journal_text::journal_text;
use crate::load::load_input;
use crate::program::report;
use crate::status::Status;
use board_journal::Journal;
use job_compiler::{Kept, kept};
use kernel_gate::Gate;
use outer_world::{Shelf, Sink, put_text};
use pisdf_meaning::{Delays, Refusal, first_delays, top_needs};
use pisdf_model::Graphs;
use quiescent_driver::{IterationFault, RunEnd, Stop, Streams, run_iteration};
use sdf_level::List;
use std::alloc::Global;
use std::sync::{Arc, Wait};
use std::thread::Threads;

/// What a closed board leaves: its journal, and the refusal of the iteration, where it is refused.
#[derive(Drop)]
struct Closed {
    journal: Journal,
    refusal: Option<Refusal>,
}

/// Makes one iteration by so many workers, which leaves its state for the next, or answers why it has no board.
fn next_board<K: Gate + Sync, R: Threads + Wait + Sync>(
    rt: &R,
    alloc: Global,
    graphs: &Arc<Graphs>,
    streams: &Streams<'_>,
    number: u32,
    workers: u32,
    kept: &mut Option<Kept>,
    delays: &mut Delays,
    gate: &K,
) -> Result<Closed, Stop>
    requires good { AreGood (arc_value graphs.now) }
    requires kernels { K.kernels gate.now ≡ the_signatures }
    requires needs { streams.now.needs.now ≡ top_needs (arc_value graphs.now) }
    requires fit { length streams.now.needs.now ≡ length streams.now.tokens.now }
    requires sound { early_faults (arc_value graphs.now).graphs (arc_value graphs.now).top [] ≡ [] }
    requires state { IsTopState (arc_value graphs.now) delays.old.lists }
    requires some { 0 < workers }
    requires most { workers ≤ 16 }
    ensures closes { IfOk result (λ c. ClosesWith (arc_value graphs.now) delays.old.lists delays.new.lists (rest_of number (top_needs (arc_value graphs.now)) streams.now.tokens.now) c.refusal) }
    ensures whole { IfOk result (λ c. IsWhole (key_at (arc_value graphs.now) the_signatures streams.now.tokens.now workers number delays.old.lists) c.journal.entries) }
    ensures readable { IfOk result (λ c. c.journal.readable ≡ true) }
    ensures none { IfErr result (HasNoBoard (arc_value graphs.now) (rest_of number (top_needs (arc_value graphs.now)) streams.now.tokens.now)) }
    ensures state { IsTopState (arc_value graphs.now) delays.new.lists }
{
    match streams.first_lack(number) {
        Some(lack) => return Err(Stop::from(lack)),
        None => {}
    }
    let Ok(ins) = streams.taken(alloc, number) else {
        return Err(Stop::Memory);
    };
    match run_iteration(
        rt,
        alloc,
        graphs,
        delays,
        ins.as_slice(),
        workers,
        kept,
        gate,
    ) {
        Ok((_iteration, journal)) => Ok(Closed {
            journal,
            refusal: None,
        }),
        Err(IterationFault::Refused(refusal, journal)) => Ok(Closed {
            journal,
            refusal: Some(refusal),
        }),
        Err(IterationFault::Memory) => Err(Stop::Memory),
    }
}

/// Makes one iteration and puts its journal, or answers how the run ends with it.
fn step_board<O: Sink, K: Gate + Sync, R: Threads + Wait + Sync>(
    rt: &R,
    alloc: Global,
    graphs: &Arc<Graphs>,
    streams: &Streams<'_>,
    number: u32,
    workers: u32,
    kept: &mut Option<Kept>,
    delays: &mut Delays,
    gate: &K,
    out: &mut O,
) -> Result<(), RunEnd>
    requires good { AreGood (arc_value graphs.now) }
    requires kernels { K.kernels gate.now ≡ the_signatures }
    requires needs { streams.now.needs.now ≡ top_needs (arc_value graphs.now) }
    requires fit { length streams.now.needs.now ≡ length streams.now.tokens.now }
    requires sound { early_faults (arc_value graphs.now).graphs (arc_value graphs.now).top [] ≡ [] }
    requires state { IsTopState (arc_value graphs.now) delays.old.lists }
    requires some { 0 < workers }
    requires most { workers ≤ 16 }
    ensures steps { StepsBoard (arc_value graphs.now) streams.now.tokens.now workers number delays.old.lists delays.new.lists (O.written out.old) (O.written out.new) (O.faults out.old) (O.faults out.new) result }
    ensures never_falls { O.faults out.old ≤ O.faults out.new }
    ensures state { IsTopState (arc_value graphs.now) delays.new.lists }
{
    let closed = match next_board(
        rt, alloc, graphs, streams, number, workers, kept, delays, gate,
    ) {
        Ok(closed) => closed,
        Err(stop) => return Err(RunEnd::from(stop)),
    };
    let Closed { journal, refusal } = closed;
    let Ok(text) = journal_text(alloc, number, &journal) else {
        return Err(RunEnd::Memory);
    };
    match put_text(out, text.as_bytes()) {
        Ok(()) => {}
        Err(_) => return Err(RunEnd::WriteFault),
    }
    match refusal {
        Some(refusal) => Err(RunEnd::Refused(refusal)),
        None => Ok(()),
    }
}

/// Puts the journals of so many iterations, at least one, on streams from which each takes what the top graph needs.
fn run_boards<O: Sink, K: Gate + Sync, R: Threads + Wait + Sync>(
    rt: &R,
    alloc: Global,
    graphs: &Arc<Graphs>,
    streams: &Streams<'_>,
    iterations: u32,
    workers: u32,
    kept: &mut Option<Kept>,
    gate: &K,
    out: &mut O,
) -> Result<(), RunEnd>
    requires good { AreGood (arc_value graphs.now) }
    requires kernels { K.kernels gate.now ≡ the_signatures }
    requires needs { streams.now.needs.now ≡ top_needs (arc_value graphs.now) }
    requires fit { length streams.now.needs.now ≡ length streams.now.tokens.now }
    requires sound { early_faults (arc_value graphs.now).graphs (arc_value graphs.now).top [] ≡ [] }
    requires some { 0 < workers }
    requires most { workers ≤ 16 }
    ensures ends { EndsBoards (arc_value graphs.now) streams.now.tokens.now workers iterations (O.written out.old) (O.written out.new) (O.faults out.old) (O.faults out.new) result }
    ensures never_falls { O.faults out.old ≤ O.faults out.new }
{
    let Ok(mut delays) = first_delays(alloc, graphs) else {
        return Err(RunEnd::Memory);
    };
    for number in 0..iterations {
        match step_board(
            rt,
            alloc,
            graphs,
            streams,
            number,
            workers,
            kept,
            &mut delays,
            gate,
            out,
        ) {
            Ok(()) => {}
            Err(end) => return Err(end),
        }
    }
    Ok(())
}

/// Puts the journals of so many iterations. Each is put once, whole, when its board is closed. Without an iteration nothing is
/// checked.
fn run_journals<O: Sink, K: Gate + Sync, R: Threads + Wait + Sync>(
    rt: &R,
    alloc: Global,
    graphs: &Arc<Graphs>,
    streams: &[List<i64>],
    iterations: u32,
    workers: u32,
    gate: &K,
    out: &mut O,
) -> Result<(), RunEnd>
    requires good { AreGood (arc_value graphs.now) }
    requires kernels { K.kernels gate.now ≡ the_signatures }
    requires fit { length streams.now ≡ length (top_of (arc_value graphs.now)).inputs }
    requires some { 0 < workers }
    requires most { workers ≤ 16 }
    ensures ends { EndsBoards (arc_value graphs.now) streams.now workers iterations (O.written out.old) (O.written out.new) (O.faults out.old) (O.faults out.new) result }
    ensures never_falls { O.faults out.old ≤ O.faults out.new }
{
    if iterations == 0 {
        return Ok(());
    }
    let needs = match top_needs(alloc, graphs) {
        Ok(needs) => needs,
        Err(fault) => {
            let stop = Stop::from(fault);
            return Err(RunEnd::from(stop));
        }
    };
    let Ok(kept) = kept(alloc) else {
        return Err(RunEnd::Memory);
    };
    let feed = Streams {
        needs: needs.items(),
        tokens: streams,
    };
    let mut kept = Some(kept);
    run_boards(
        rt, alloc, graphs, &feed, iterations, workers, &mut kept, gate, out,
    )
}

/// No text after a run that is done, or the status that it ended with.
fn report_boards(alloc: Global, graphs: &Graphs, end: Result<(), RunEnd>) -> Result<String, Status>
    requires { graphs.now.top < length graphs.now.graphs }
    ensures { ReportsBoards graphs.now end result }
{
    match end {
        Ok(()) => Ok(String::new(alloc)),
        Err(end) => report(alloc, graphs, end),
    }
}

/// Tells the journals of a run of a graph file on a token file by so many workers. The answer is no text for standard error,
/// or a status.
pub(crate) fn tell_journals<S: Shelf, O: Sink, K: Gate + Sync, R: Threads + Wait + Sync>(
    rt: &R,
    alloc: Global,
    graph: &str,
    tokens: &str,
    iterations: u32,
    workers: u32,
    shelf: &mut S,
    out: &mut O,
    gate: &K,
) -> Result<String, Status>
    requires kernels { K.kernels gate.now ≡ the_signatures }
    requires some { 0 < workers }
    requires most { workers ≤ 16 }
    ensures works { Works (FromFiles (Journals iterations workers) (S.holds shelf.old graph.now) (S.holds shelf.old tokens.now)) (O.written out.old) (O.written out.new) (O.faults out.old) (O.faults out.new) result }
    ensures there { IsThere (AreTold (S.holds shelf.old graph.now) (S.holds shelf.old tokens.now)) (FromFiles (Journals iterations workers) (S.holds shelf.old graph.now) (S.holds shelf.old tokens.now)) result }
    ensures read { IfErr result (FilesRose graph.now tokens.now (S.faults shelf.old) (S.faults shelf.new)) }
    ensures usage { result ≢ Err Status.Usage }
{
    let input = match load_input(alloc, shelf, graph, tokens, gate.signatures()) {
        Ok(input) => input,
        Err(status) => return Err(status),
    };
    let Ok(graphs) = Arc::new(alloc, input.graphs) else {
        return Err(Status::WantOfMemory);
    };
    let streams = input.streams.items();
    let end = run_journals(rt, alloc, &graphs, streams, iterations, workers, gate, out);
    report_boards(alloc, &graphs, end)
}
