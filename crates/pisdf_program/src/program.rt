// The top call.
ghost use Rattle.std.specs.Prelude.{ℕ, ◌≡◌, ◌≢◌, ◌⊎◌, ◌↔◌, ◌<◌, ◌≤◌, ◌==◌, true, map, IfErr, IsTrue, length, string_bytes};
ghost use Rattle.std.specs.Arc.{arc_value};
ghost use Rattle.kernel_gate.specs.Signed.{unnamed};
ghost use Rattle.kernel_gate.specs.Table.{the_signatures};
ghost use Rattle.pisdf_meaning.specs.Sound.{AreValidFor};
ghost use Rattle.quiescent_driver.specs.Runs.{EndsRun};
ghost use Rattle.quiescent_driver.specs.Top.{top_of};
ghost use Rattle.pisdf_program.specs.SoakEnd.{IsSoakStatus};
ghost use Rattle.pisdf_program.specs.Loaded.{AreGood, is_answer};
ghost use Rattle.pisdf_program.specs.Result.{AreTold, Knows, Outcome, ResultOf, RunsFile};
ghost use Rattle.pisdf_program.specs.Words as table;
ghost use Rattle.pisdf_program.specs.Worked.{Completes, Concludes, CountRose, Ended, FilesRose, IsThere, PutsLine, Reports, TellsUnlessCut, Works};

use crate::audit::tell_audit;
use crate::job_command::tell_job;
use crate::journal::tell_journals;
use crate::line::{MEMORY, left_lines, line_of};
use crate::load::load_input;
use crate::soak::soak;
use crate::status::Status;
use crate::stop::short_status;
use crate::upgrade::upgrade;
use crate::words::{Command, read_words};
use kernel_gate::Gate;
use outer_world::{Shelf, Sink, put_text};
use pisdf_model::Graphs;
use quiescent_driver::{RunEnd, plain_run, run_all, run_unfolded, top_of};
use sdf_level::List;
use std::alloc::Global;
use std::sync::{Arc, Wait};
use std::thread::Threads;

/// The lines for the streams with tokens left after a run that is done, or the status that it ended with.
pub(crate) fn report(alloc: Global, graphs: &Graphs, end: RunEnd) -> Result<String, Status>
    requires { graphs.now.top < length graphs.now.graphs }
    ensures { Reports graphs.now end result }
{
    let inputs = top_of(graphs).inputs.items();
    match end {
        RunEnd::Done { left } => match left_lines(alloc, inputs, left.items()) {
            Ok(lines) => Ok(lines),
            Err(_) => Err(Status::WantOfMemory),
        },
        RunEnd::Short { stream, has, needs } => Err(short_status(
            alloc, graphs, stream, has, needs,
        )),
        RunEnd::Refused(refusal) => Err(Status::RunRefused(refusal)),
        RunEnd::WriteFault => Err(Status::WriteFault),
        RunEnd::Memory => Err(Status::WantOfMemory),
    }
}

/// Runs graphs on their streams by `run`.
fn end_of<O: Sink, F: Fn(&Arc<Graphs>, &[List<i64>], &mut O) -> RunEnd>(
    run: &F,
    graphs: &Arc<Graphs>,
    streams: &[List<i64>],
    iterations: u32,
    out: &mut O,
) -> RunEnd
    requires may { (graphs : _) (streams : _) (out : _) → AreGood (arc_value graphs.now) → length streams.now ≡ length (top_of (arc_value graphs.now)).inputs → F.pre run.now graphs streams out }
    requires runs { (graphs : _) (streams : _) (out : _) (end : _) (left : _) → AreGood (arc_value graphs.now) → length streams.now ≡ length (top_of (arc_value graphs.now)).inputs → F.post run.now graphs streams out end left → EndsRun (arc_value graphs.now) streams.now iterations (O.written out.now) (O.written left.now) (O.faults out.now) (O.faults left.now) end }
    requires good { AreGood (arc_value graphs.now) }
    requires fit { length streams.now ≡ length (top_of (arc_value graphs.now)).inputs }
    ensures { EndsRun (arc_value graphs.now) streams.now iterations (O.written out.old) (O.written out.new) (O.faults out.old) (O.faults out.new) result }
{
    run(graphs, streams, out)
}

/// Runs a graph file on a token file by `run`. The answer is the lines for standard error after a run that is done, or another
/// status; nothing was put to standard error yet.
fn run_files<S: Shelf, O: Sink, K: Gate, F: Fn(&Arc<Graphs>, &[List<i64>], &mut O) -> RunEnd>(
    alloc: Global,
    graph: &str,
    tokens: &str,
    iterations: u32,
    run: &F,
    shelf: &mut S,
    out: &mut O,
    gate: &K,
) -> Result<String, Status>
    requires kernels { K.kernels gate.now ≡ the_signatures }
    requires may { (graphs : _) (streams : _) (out : _) → AreGood (arc_value graphs.now) → length streams.now ≡ length (top_of (arc_value graphs.now)).inputs → F.pre run.now graphs streams out }
    requires runs { (graphs : _) (streams : _) (out : _) (end : _) (left : _) → AreGood (arc_value graphs.now) → length streams.now ≡ length (top_of (arc_value graphs.now)).inputs → F.post run.now graphs streams out end left → EndsRun (arc_value graphs.now) streams.now iterations (O.written out.now) (O.written left.now) (O.faults out.now) (O.faults left.now) end }
    ensures works { Works (RunsFile (S.holds shelf.old graph.now) iterations (S.holds shelf.old tokens.now)) (O.written out.old) (O.written out.new) (O.faults out.old) (O.faults out.new) result }
    ensures there { IsThere (AreTold (S.holds shelf.old graph.now) (S.holds shelf.old tokens.now)) (RunsFile (S.holds shelf.old graph.now) iterations (S.holds shelf.old tokens.now)) result }
    ensures read { IfErr result (FilesRose graph.now tokens.now (S.faults shelf.old) (S.faults shelf.new)) }
    ensures usage { result ≢ Err Status.Usage }
{
    let input = match load_input(alloc, shelf, graph, tokens, gate.signatures()) {
        Ok(input) => input,
        Err(status) => return Err(status),
    };
    let Ok(graphs) = Arc::new(alloc, input.graphs) else {
        return Err(Status::WantOfMemory);
    };
    let end = end_of(run, &graphs, input.streams.items(), iterations, out);
    report(alloc, &graphs, end)
}

/// Runs a graph file on a token file by so many workers.
fn run<S: Shelf, O: Sink, K: Gate + Sync, R: Threads + Wait + Sync>(
    rt: &R,
    alloc: Global,
    graph: &str,
    tokens: &str,
    iterations: u32,
    workers: u32,
    shelf: &mut S,
    out: &mut O,
    gate: &K,
) -> Result<String, Status>
    requires kernels { K.kernels gate.now ≡ the_signatures }
    requires some { 0 < workers }
    requires few { workers ≤ 16 }
    ensures works { Works (RunsFile (S.holds shelf.old graph.now) iterations (S.holds shelf.old tokens.now)) (O.written out.old) (O.written out.new) (O.faults out.old) (O.faults out.new) result }
    ensures there { IsThere (AreTold (S.holds shelf.old graph.now) (S.holds shelf.old tokens.now)) (RunsFile (S.holds shelf.old graph.now) iterations (S.holds shelf.old tokens.now)) result }
    ensures read { IfErr result (FilesRose graph.now tokens.now (S.faults shelf.old) (S.faults shelf.new)) }
    ensures usage { result ≢ Err Status.Usage }
{
    let run = |graphs: &Arc<Graphs>, streams: &[List<i64>], out: &mut O| -> RunEnd
        requires valid { AreValidFor (unnamed (K.kernels gate.now)) (arc_value graphs.now) }
        requires fit { length streams.now ≡ length (top_of (arc_value graphs.now)).inputs }
        requires some { 0 < workers }
        requires few { workers ≤ 16 }
        ensures { EndsRun (arc_value graphs.entry.now) streams.entry.now iterations (O.written out.entry.now) (O.written out.exit.now) (O.faults out.entry.now) (O.faults out.exit.now) result }
    { run_all(rt, alloc, graphs, streams, iterations, workers, gate, out) };
    run_files(alloc, graph, tokens, iterations, &run, shelf, out, gate)
}

/// Runs a graph file on a token file by one thread over queues. It waits for nobody.
fn plain<S: Shelf, O: Sink, K: Gate>(
    alloc: Global,
    graph: &str,
    tokens: &str,
    iterations: u32,
    shelf: &mut S,
    out: &mut O,
    gate: &K,
) -> Result<String, Status>
    requires kernels { K.kernels gate.now ≡ the_signatures }
    ensures works { Works (RunsFile (S.holds shelf.old graph.now) iterations (S.holds shelf.old tokens.now)) (O.written out.old) (O.written out.new) (O.faults out.old) (O.faults out.new) result }
    ensures there { IsThere (AreTold (S.holds shelf.old graph.now) (S.holds shelf.old tokens.now)) (RunsFile (S.holds shelf.old graph.now) iterations (S.holds shelf.old tokens.now)) result }
    ensures read { IfErr result (FilesRose graph.now tokens.now (S.faults shelf.old) (S.faults shelf.new)) }
    ensures usage { result ≢ Err Status.Usage }
{
    let run = |graphs: &Arc<Graphs>, streams: &[List<i64>], out: &mut O| -> RunEnd
        requires valid { AreValidFor (unnamed (K.kernels gate.now)) (arc_value graphs.now) }
        requires fit { length streams.now ≡ length (top_of (arc_value graphs.now)).inputs }
        ensures { EndsRun (arc_value graphs.entry.now) streams.entry.now iterations (O.written out.entry.now) (O.written out.exit.now) (O.faults out.entry.now) (O.faults out.exit.now) result }
    { plain_run(alloc, graphs, streams, iterations, gate, out) };
    run_files(alloc, graph, tokens, iterations, &run, shelf, out, gate)
}

/// Runs a graph file on a token file by so many workers, with so many iterations fired as one where that can be.
fn run_in_groups<S: Shelf, O: Sink, K: Gate + Sync, R: Threads + Wait + Sync>(
    rt: &R,
    alloc: Global,
    times: u32,
    graph: &str,
    tokens: &str,
    iterations: u32,
    workers: u32,
    shelf: &mut S,
    out: &mut O,
    gate: &K,
) -> Result<String, Status>
    requires kernels { K.kernels gate.now ≡ the_signatures }
    requires some_times { 1 ≤ times }
    requires few_times { times ≤ 64 }
    requires some { 0 < workers }
    requires few { workers ≤ 16 }
    ensures works { Works (RunsFile (S.holds shelf.old graph.now) iterations (S.holds shelf.old tokens.now)) (O.written out.old) (O.written out.new) (O.faults out.old) (O.faults out.new) result }
    ensures there { IsThere (AreTold (S.holds shelf.old graph.now) (S.holds shelf.old tokens.now)) (RunsFile (S.holds shelf.old graph.now) iterations (S.holds shelf.old tokens.now)) result }
    ensures read { IfErr result (FilesRose graph.now tokens.now (S.faults shelf.old) (S.faults shelf.new)) }
    ensures usage { result ≢ Err Status.Usage }
{
    let run = |graphs: &Arc<Graphs>, streams: &[List<i64>], out: &mut O| -> RunEnd
        requires valid { AreValidFor (unnamed (K.kernels gate.now)) (arc_value graphs.now) }
        requires fit { length streams.now ≡ length (top_of (arc_value graphs.now)).inputs }
        requires some_times { 1 ≤ times }
        requires few_times { times ≤ 64 }
        requires some { 0 < workers }
        requires few { workers ≤ 16 }
        ensures { EndsRun (arc_value graphs.entry.now) streams.entry.now iterations (O.written out.entry.now) (O.written out.exit.now) (O.faults out.entry.now) (O.faults out.exit.now) result }
    {
        run_unfolded(
            rt, alloc, graphs, streams, iterations, times, workers, gate, out,
        )
    };
    run_files(alloc, graph, tokens, iterations, &run, shelf, out, gate)
}

/// Does what the words ask for, up to what is put to standard error.
fn work<S: Shelf, O: Sink, K: Gate + Sync, R: Threads + Wait + Sync>(
    rt: &R,
    alloc: Global,
    words: &[String],
    shelf: &mut S,
    out: &mut O,
    gate: &K,
) -> Result<String, Status>
    requires kernels { K.kernels gate.now ≡ the_signatures }
    ensures works { Works (ResultOf (map string_bytes words.now) (S.holds shelf.old)) (O.written out.old) (O.written out.new) (O.faults out.old) (O.faults out.new) result }
    ensures there { IsThere (Knows (table.command_of (map string_bytes words.now)) (S.holds shelf.old)) (ResultOf (map string_bytes words.now) (S.holds shelf.old)) result }
    ensures read { IfErr result (CountRose (table.command_of (map string_bytes words.now)) (S.faults shelf.old) (S.faults shelf.new)) }
    ensures usage { table.command_of (map string_bytes words.now) ≡ None → (result ≡ Err Status.Usage) × (shelf.new ≡ shelf.old) }
    ensures only { result ≡ Err Status.Usage → table.command_of (map string_bytes words.now) ≡ None }
    ensures soak { (number workers : ℕ) → table.command_of (map string_bytes words.now) ≡ Some (table.Soak number workers) → IfErr result IsSoakStatus × (shelf.new ≡ shelf.old) }
{
    let Some(command) = read_words(words) else {
        return Err(Status::Usage);
    };
    match command {
        Command::Run {
            graph,
            tokens,
            iterations,
            workers,
        } => run(
            rt, alloc, graph, tokens, iterations, workers, shelf, out, gate,
        ),
        Command::Plain {
            graph,
            tokens,
            iterations,
        } => plain(alloc, graph, tokens, iterations, shelf, out, gate),
        Command::Unfold {
            times,
            graph,
            tokens,
            iterations,
            workers,
        } => run_in_groups(
            rt, alloc, times, graph, tokens, iterations, workers, shelf, out, gate,
        ),
        Command::Job {
            what,
            graph,
            tokens,
            workers,
        } => tell_job(alloc, what, graph, tokens, workers, shelf, out, gate),
        Command::Journal {
            graph,
            tokens,
            iterations,
            workers,
        } => tell_journals(
            rt, alloc, graph, tokens, iterations, workers, shelf, out, gate,
        ),
        Command::Audit {
            graph,
            tokens,
            iterations,
            workers,
            journal,
        } => tell_audit(
            alloc, graph, tokens, iterations, workers, journal, shelf, out, gate,
        ),
        Command::Soak { number, workers } => soak(rt, alloc, number, workers, out, gate),
        Command::Upgrade { graph } => upgrade(alloc, graph, shelf, out, gate),
    }
}

/// Puts a line, and answers the status, or that the put failed.
fn put_line<E: Sink>(err: &mut E, line: &[u8], status: Status) -> Status
    ensures { PutsLine line.now status (E.written err.old) (E.written err.new) (E.faults err.old) (E.faults err.new) result }
{
    match put_text(err, line) {
        Ok(()) => status,
        Err(_) => Status::WriteFault,
    }
}

fn is_write_fault(status: &Status) -> bool
    ensures { IsTrue result ↔ (status.now ≡ Status.WriteFault) }
{
    matches!(status, Status::WriteFault)
}

/// Puts the line of a status, and nothing after a failed put.
fn tell<E: Sink>(alloc: Global, err: &mut E, status: Status) -> Status
    ensures tells { TellsUnlessCut status (E.written err.old) (E.written err.new) (E.faults err.old) (E.faults err.new) result }
    ensures usage { status ≡ Status.Usage → (result ≡ Status.Usage) ⊎ (result ≡ Status.WriteFault) }
{
    if is_write_fault(&status) {
        return Status::WriteFault;
    }
    match line_of(alloc, &status) {
        Ok(line) => put_line(err, line.bytes(), status),
        Err(_) => put_line(err, MEMORY.as_bytes(), Status::WantOfMemory),
    }
}

/// Puts the text for standard error.
fn conclude<E: Sink>(alloc: Global, err: &mut E, worked: Result<String, Status>) -> Status
    ensures concludes { Concludes worked (E.written err.old) (E.written err.new) (E.faults err.old) (E.faults err.new) result }
    ensures usage { worked ≡ Err Status.Usage → (result ≡ Status.Usage) ⊎ (result ≡ Status.WriteFault) }
{
    match worked {
        Ok(lines) => put_line(err, lines.as_str().as_bytes(), Status::Done),
        Err(status) => tell(alloc, err, status),
    }
}

/// Does what the words ask for: loads the files that they name from the shelf, puts the texts to `out` and the line of
/// the status, or the lines of the streams with tokens left, to `err`.
pub fn run_program<S: Shelf, O: Sink, E: Sink, K: Gate + Sync, R: Threads + Wait + Sync>(
    rt: &R,
    alloc: Global,
    words: &[String],
    shelf: &mut S,
    out: &mut O,
    err: &mut E,
    gate: &K,
) -> Status
    requires kernels { K.kernels gate.now ≡ the_signatures }
    ensures read { CountRose (table.command_of (map string_bytes words.now)) (S.faults shelf.old) (S.faults shelf.new) result }
    ensures usage { table.command_of (map string_bytes words.now) ≡ None → ((result ≡ Status.Usage) ⊎ (result ≡ Status.WriteFault)) × (shelf.new ≡ shelf.old) }
    ensures only_usage { result ≡ Status.Usage → table.command_of (map string_bytes words.now) ≡ None }
    // A soak run loads no file, refuses none and lacks no tokens.
    ensures soak { (number workers : ℕ) → table.command_of (map string_bytes words.now) ≡ Some (table.Soak number workers) → IsSoakStatus result × (shelf.new ≡ shelf.old) }
    ensures complete { Completes (ResultOf (map string_bytes words.now) (S.holds shelf.old)) (table.command_of (map string_bytes words.now)) (S.faults shelf.old) (S.faults shelf.new) (O.faults out.old) (O.faults out.new) (E.faults err.old) (E.faults err.new) result }
    // Where the files that the command loads are told, an answer is the status of such a result.
    ensures there { Knows (table.command_of (map string_bytes words.now)) (S.holds shelf.old) → is_answer result ≡ true → (o : Outcome) × ResultOf (map string_bytes words.now) (S.holds shelf.old) o }
    ensures ended { Ended (ResultOf (map string_bytes words.now) (S.holds shelf.old)) (O.written out.old) (O.written out.new) (E.written err.old) (E.written err.new) (O.faults out.old) (O.faults out.new) (E.faults err.old) (E.faults err.new) result }
{
    let worked = work(rt, alloc, words, shelf, out, gate);
    conclude(alloc, err, worked)
}
