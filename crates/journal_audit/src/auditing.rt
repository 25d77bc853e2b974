// The verdict on a text.
ghost use Rattle.std.specs.Prelude.{◌≡◌, ◌+◌, ◌^◌, ◌<◌, ◌≤◌, ℕ, [], length, IfOk, Ok, Some};
ghost use Rattle.std.specs.Arc.{arc_value};
ghost use Rattle.kernel_gate.specs.Signed.{unnamed};
ghost use Rattle.param_resolver.specs.EarlyCheck.{early_faults};
ghost use Rattle.pisdf_meaning.specs.Run.{top_needs};
ghost use Rattle.pisdf_meaning.specs.Sound.{AreValidFor};
ghost use Rattle.quiescent_driver.specs.Top.{top_of};
ghost use Rattle.journal_laws.specs.Texts.{MayRun};
ghost use Rattle.journal_audit.specs.FirstBad.{IsFirstBad, IsWholeWith};
ghost use Rattle.journal_audit.specs.Reading.{FitsReading, HasReadBoards, HasReadTo, HasReadUp};
ghost use Rattle.journal_audit.specs.Replays.{EndsBoard};
ghost use Rattle.journal_audit.specs.Verdicts.{IsVerdict};

use crate::board::read_board;
use crate::verdict::Verdict;
use audit_job::Answer;
use board_rules::{boards_end, journals_tell_one_thread};
use job_compiler::{Kept, kept};
use journal_laws::{
    entries_are_lines, legal_journals_end, paths_are_plain, texts_are_one, texts_go_on,
};
use kernel_gate::Gate;
use pisdf_meaning::{
    Delays, PlainFault, first_delays, meanings_exist, one_meaning, runnable, sizes_kept, top_needs,
};
use pisdf_model::Graphs;
use quiescent_driver::Streams;
use sdf_level::List;
use std::alloc::{AllocError, Global};
use std::sync::Arc;
use worker_crew::board_laws;

/// How far a text was read: so many boards, so many bytes, and so many lines.
#[derive(Debug, Clone, Copy, Drop)]
pub(crate) struct Reading {
    pub(crate) boards: u32,
    pub(crate) bytes: usize,
    pub(crate) lines: u64,
}

/// What comes after a board.
#[derive(Debug, Clone, Copy, PartialEq, Eq, Drop)]
pub(crate) enum Next {
    /// The board of the next iteration.
    Board,
    /// No board: the iteration was refused, or has none.
    Nothing,
    /// The journal of the board goes on, but the text doesn't.
    Bad,
}

/// What comes after a board whose top job ended so, with the state for the next iteration, if there is one.
fn next_after(end: Option<Answer>, delays: &mut Delays) -> Next
    ensures { EndsBoard end delays.old.lists delays.new.lists result }
{
    match end {
        Some(Answer::Gives(given)) => {
            *delays = Delays { lists: given.state };
            Next::Board
        }
        Some(Answer::Schedules(_)) => Next::Nothing,
        Some(Answer::Refuses(_)) => Next::Nothing,
        None => Next::Bad,
    }
}

/// Reads the journal of the board of one iteration, if it has one.
fn read_iteration<K: Gate>(
    alloc: Global,
    graphs: &Graphs,
    streams: &Streams<'_>,
    number: u32,
    workers: u32,
    journal: &[u8],
    delays: &mut Delays,
    reading: &mut Reading,
    kept: &mut Kept,
    gate: &K,
) -> Result<Next, AllocError>
    requires run { MayRun graphs.now (K.kernels gate.now) streams.now.tokens.now (number + 1) workers }
    requires needs { streams.now.needs.now ≡ top_needs graphs.now }
    requires fit { length streams.now.needs.now ≡ length streams.now.tokens.now }
    requires sound { early_faults graphs.now.graphs graphs.now.top [] ≡ [] }
    requires read { HasReadBoards graphs.now (K.kernels gate.now) streams.now.tokens.now workers journal.now number delays.old.lists reading.old }
    ensures { IfOk result (λ next. (iterations : ℕ) → number < iterations → MayRun graphs.now (K.kernels gate.now) streams.now.tokens.now iterations workers → HasReadTo graphs.now (K.kernels gate.now) streams.now.tokens.now iterations workers journal.now (number + 1) delays.new.lists reading.new next) }
{
    entries_are_lines();
    paths_are_plain();
    legal_journals_end();
    meanings_exist();
    sizes_kept();
    runnable();
    boards_end();
    journals_tell_one_thread();
    if streams.first_lack(number).is_some() {
        return Ok(Next::Nothing);
    }
    let ins = streams.taken(alloc, number)?;
    let text = &journal[reading.bytes..];
    let read = read_board(
        alloc,
        graphs,
        delays,
        ins.as_slice(),
        workers,
        number,
        text,
        kept,
        gate,
    )?;
    reading.boards += 1;
    reading.bytes += read.bytes;
    reading.lines += read.lines;
    Ok(next_after(read.end, delays))
}

/// Reads the journals of so many iterations: how far the text is good, and what comes then.
fn read_all<K: Gate>(
    alloc: Global,
    graphs: &Graphs,
    streams: &Streams<'_>,
    iterations: u32,
    workers: u32,
    journal: &[u8],
    reading: &mut Reading,
    gate: &K,
) -> Result<Next, AllocError>
    requires run { MayRun graphs.now (K.kernels gate.now) streams.now.tokens.now iterations workers }
    requires needs { streams.now.needs.now ≡ top_needs graphs.now }
    requires fit { length streams.now.needs.now ≡ length streams.now.tokens.now }
    requires sound { early_faults graphs.now.graphs graphs.now.top [] ≡ [] }
    requires none { reading.old ≡ record { boards = 0; bytes = 0; lines = 0 } }
    ensures { IfOk result (λ next. HasReadUp graphs.now (K.kernels gate.now) streams.now.tokens.now iterations workers journal.now reading.new next) }
{
    let mut delays = first_delays(alloc, graphs)?;
    let mut kept = kept(alloc)?;
    for number in 0..iterations {
        let next = read_iteration(
            alloc,
            graphs,
            streams,
            number,
            workers,
            journal,
            &mut delays,
            reading,
            &mut kept,
            gate,
        )?;
        match next {
            Next::Board => {}
            Next::Nothing => return Ok(Next::Nothing),
            Next::Bad => return Ok(Next::Bad),
        }
    }
    Ok(Next::Nothing)
}

/// Reads a text as far as it is good.
fn read_text<K: Gate>(
    alloc: Global,
    graphs: &Graphs,
    streams: &[List<i64>],
    iterations: u32,
    workers: u32,
    journal: &[u8],
    reading: &mut Reading,
    gate: &K,
) -> Result<Next, AllocError>
    requires run { MayRun graphs.now (K.kernels gate.now) streams.now iterations workers }
    requires none { reading.old ≡ record { boards = 0; bytes = 0; lines = 0 } }
    ensures { IfOk result (λ next. HasReadUp graphs.now (K.kernels gate.now) streams.now iterations workers journal.now reading.new next) }
{
    if iterations == 0 {
        return Ok(Next::Nothing);
    }
    let needs = match top_needs(alloc, graphs) {
        Ok(needs) => needs,
        Err(PlainFault::Refused(_)) => return Ok(Next::Nothing),
        Err(PlainFault::Memory) => return Err(AllocError),
    };
    let feed = Streams {
        needs: needs.items(),
        tokens: streams,
    };
    read_all(
        alloc, graphs, &feed, iterations, workers, journal, reading, gate,
    )
}

/// The verdict on a text that was read so far, after which this comes.
fn verdict_on(reading: Reading, next: Next, journal: &[u8]) -> Verdict
    requires { FitsReading journal.now reading }
    ensures legal { next ≡ Next.Nothing → reading.bytes ≡ length journal.now → result ≡ Verdict.Legal reading.boards reading.lines }
    ensures longer { next ≡ Next.Nothing → reading.bytes < length journal.now → result ≡ Verdict.Illegal (reading.lines + 1) }
    ensures bad { next ≡ Next.Bad → result ≡ Verdict.Illegal (reading.lines + 1) }
{
    if next == Next::Nothing && reading.bytes == journal.len() {
        Verdict::Legal {
            boards: reading.boards,
            entries: reading.lines,
        }
    } else {
        Verdict::Illegal {
            line: reading.lines + 1,
        }
    }
}

/// The verdict on a text, which is true of it.
fn judge<K: Gate>(
    alloc: Global,
    graphs: &Graphs,
    streams: &[List<i64>],
    iterations: u32,
    workers: u32,
    journal: &[u8],
    gate: &K,
) -> Result<Verdict, AllocError>
    requires valid { AreValidFor (unnamed (K.kernels gate.now)) graphs.now }
    requires fit { length streams.now ≡ length (top_of graphs.now).inputs }
    requires some { 0 < workers }
    requires few { workers ≤ 16 }
    ensures { IfOk result (IsVerdict graphs.now (K.kernels gate.now) streams.now iterations workers journal.now) }
{
    entries_are_lines();
    paths_are_plain();
    texts_go_on();
    texts_are_one();
    legal_journals_end();
    meanings_exist();
    sizes_kept();
    runnable();
    board_laws();
    // Its clause says that the kernels give outputs of the lengths that they are asked for.
    let _signatures = gate.signatures();
    let mut reading = Reading {
        boards: 0,
        bytes: 0,
        lines: 0,
    };
    let next = read_text(
        alloc,
        graphs,
        streams,
        iterations,
        workers,
        journal,
        &mut reading,
        gate,
    )?;
    Ok(verdict_on(reading, next, journal))
}

/// Whether a text is that of the journals of a run of so many iterations by so many workers, 1 to 16: one legal journal that has
/// ended for each board, in order. There is a stream of tokens for each input of the top graph. Else it is told which line is the
/// first with which no such text begins: of a text that only ends too early the line after its last. A line without a line feed
/// is no line of such a text. Each board is replayed over plain values.
///
/// # Errors
///
/// Want of memory.
pub fn audit<K: Gate>(
    alloc: Global,
    graphs: &Arc<Graphs>,
    streams: &[List<i64>],
    iterations: u32,
    workers: u32,
    journal: &[u8],
    gate: &K,
) -> Result<Verdict, AllocError>
    requires valid { AreValidFor (unnamed (K.kernels gate.now)) (arc_value graphs.now) }
    requires fit { length streams.now ≡ length (top_of (arc_value graphs.now)).inputs }
    requires some { 0 < workers }
    requires few { workers ≤ 16 }
    ensures legal { (boards entries : ℕ) → result ≡ Ok (Verdict.Legal boards entries) → IsWholeWith (arc_value graphs.now) (K.kernels gate.now) streams.now iterations workers journal.now boards entries }
    ensures illegal { (line : ℕ) → result ≡ Ok (Verdict.Illegal line) → IsFirstBad (arc_value graphs.now) (K.kernels gate.now) streams.now iterations workers journal.now line }
    ensures only_legal { (boards entries : ℕ) → IsWholeWith (arc_value graphs.now) (K.kernels gate.now) streams.now iterations workers journal.now boards entries → IfOk result (λ verdict. verdict ≡ Verdict.Legal boards entries) }
    ensures only_illegal { (line : ℕ) → IsFirstBad (arc_value graphs.now) (K.kernels gate.now) streams.now iterations workers journal.now line → IfOk result (λ verdict. verdict ≡ Verdict.Illegal line) }
{
    one_meaning();
    judge(alloc, graphs, streams, iterations, workers, journal, gate)
}
