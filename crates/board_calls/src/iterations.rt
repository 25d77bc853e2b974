// The iterations of a run, each on a board of its own.
ghost use Rattle.std.specs.Prelude.{◌≡◌, ◌≤◌, [], IfOk, Ok, true};
ghost use Rattle.std.specs.Arc.{arc_value};
ghost use Rattle.kernel_gate.specs.Table.{the_signatures};
ghost use Rattle.kernel_gate.specs.Value.{lengths};
ghost use Rattle.param_resolver.specs.EarlyCheck.{early_faults};
ghost use Rattle.pisdf_meaning.specs.Run.{top_needs};
ghost use Rattle.firing_board.specs.Ends.{IsOver};
ghost use Rattle.firing_board.specs.Keeping.{AreKeptLevelsOf};
ghost use Rattle.firing_board.specs.Runs.{AreAllIdle};
ghost use Rattle.quiescent_driver.specs.Endings.{EndsWith};
ghost use Rattle.quiescent_driver.specs.Given.{IsTopState, key_with};
ghost use Rattle.board_calls.specs.Ends.{left_by};
ghost use Rattle.board_calls.specs.Given.{AreSound};
ghost use Rattle.board_calls.specs.Holding.{HasOurKernels, IsCrewOf};

use crate::carried::{Carried, lend, take_back};
use crate::crew::{finish_all, has_ended, step};
use crate::given::{Taken, take_ins, top_of};
use crate::held::Held;
use crate::holding::idle;
use crate::texts::{push_iteration, push_journal, push_refusal};
use crate::told::Told;
use crate::turns::Turns;
use board_lock::NotMade;
use case_rows::Trouble;
use firing_board::{Board, BoardEnd};
use kernel_gate::{Gate, lengths_given};
use kernel_library::Library;
use pisdf_meaning::{Delays, PlainFault, first_delays, runnable, sizes_kept, top_needs};
use pisdf_model::Graphs;
use sdf_level::List;
use std::alloc::{AllocError, Global};
use std::sync::{Arc, Wait};
use std::thread::Threads;
use worker_crew::{board_laws, run_crew};

/// A board that has taken so many steps is given up.
const MOST_STEPS: u32 = 4_000_000;

/// How a run goes.
#[derive(Clone, Copy)]
pub(crate) struct Plan<'a> {
    pub(crate) iterations: u32,
    pub(crate) workers: u32,
    /// Whether each worker is a thread. Else it is simulated, and then the others tell who steps when.
    pub(crate) threads: bool,
    /// Who steps first on each board.
    pub(crate) order: &'a [u32],
    /// How many steps are drawn after these, and the number with which this begins.
    pub(crate) drawn: u32,
    pub(crate) seed: u64,
}

/// Takes steps until all is done.
fn play(
    alloc: Global,
    board: &mut Board,
    held: &mut Vec<Held>,
    turns: &mut Turns<'_>,
    told: &mut Told,
) -> Result<(), Trouble>
    requires crew { IsCrewOf board.old held.old.items }
    requires workers { turns.old.workers ≡ board.old.key.workers }
    ensures crew { IsCrewOf board.new held.new.items }
    ensures key { board.new.key ≡ board.old.key }
{
    for _ in 0..MOST_STEPS {
        let worker = turns.next();
        let done = step(alloc, board, held, worker, told)?;
        told.see_open(board.open_jobs());
        if done {
            return Ok(());
        }
    }
    Err(Trouble::Member("the end"))
}

/// Plays a board, of which no worker runs anything, with a list of what workers hold, until none runs anything again; whether it
/// has ended then.
fn play_all(
    alloc: Global,
    board: &mut Board,
    turns: &mut Turns<'_>,
    told: &mut Told,
) -> Result<bool, Trouble>
    requires kernels { HasOurKernels board.old }
    requires idle { AreAllIdle board.old }
    requires workers { turns.old.workers ≡ board.old.key.workers }
    ensures idle { AreAllIdle board.new }
    ensures key { board.new.key ≡ board.old.key }
    ensures over { result ≡ Ok true → IsOver board.new }
{
    board_laws();
    let workers = turns.workers;
    let mut held = idle(alloc, workers)?;
    let played = play(alloc, board, &mut held, turns, told);
    let finished = finish_all(alloc, board, held, workers, told);
    played?;
    finished?;
    has_ended(alloc, board, told)
}

/// The outcome of a board of which no worker runs anything, where it has ended.
fn outcome_of(
    alloc: Global,
    board: Board,
    ended: Result<bool, Trouble>,
) -> Result<BoardEnd, Trouble>
    requires idle { AreAllIdle board }
    requires over { ended ≡ Ok true → IsOver board }
    ensures { IfOk result (EndsWith board.key) }
{
    match ended {
        Ok(true) => Ok(board.outcome(alloc)?),
        Ok(false) => {
            board.end();
            Err(Trouble::Member("the end"))
        }
        Err(trouble) => {
            board.end();
            Err(trouble)
        }
    }
}

/// Plays a board to its end, with what is kept before it, and after it.
fn end_of(
    alloc: Global,
    mut board: Board,
    carried: &mut Carried,
    turns: &mut Turns<'_>,
    told: &mut Told,
) -> Result<BoardEnd, Trouble>
    requires kernels { HasOurKernels board }
    requires idle { AreAllIdle board }
    requires workers { turns.old.workers ≡ board.key.workers }
    requires levels { AreKeptLevelsOf board.key.graphs carried.old.levels }
    ensures ends { IfOk result (EndsWith board.key) }
    ensures levels { AreKeptLevelsOf board.key.graphs carried.new.levels }
{
    lend(&mut board, carried);
    let ended = play_all(alloc, &mut board, turns, told);
    take_back(&mut board, carried);
    outcome_of(alloc, board, ended)
}

/// Runs a board by a crew of threads to its end, with what is kept before it, and after it.
fn crew_end_of<R: Threads + Wait + Sync>(
    rt: &R,
    alloc: Global,
    mut board: Board,
    workers: u32,
    carried: &mut Carried,
) -> Result<BoardEnd, Trouble>
    requires kernels { HasOurKernels board }
    requires idle { AreAllIdle board }
    requires workers { workers ≡ board.key.workers }
    requires levels { AreKeptLevelsOf board.key.graphs carried.old.levels }
    ensures ends { IfOk result (EndsWith board.key) }
    ensures levels { AreKeptLevelsOf board.key.graphs carried.new.levels }
{
    lend(&mut board, carried);
    match run_crew(rt, alloc, board, workers, &Library) {
        Ok(mut board) => {
            take_back(&mut board, carried);
            Ok(board.outcome(alloc)?)
        }
        Err(NotMade { state: mut board }) => {
            take_back(&mut board, carried);
            board.end();
            Err(Trouble::Memory)
        }
    }
}

/// Runs the board of an iteration to its end, as the plan says.
fn finish<R: Threads + Wait + Sync>(
    rt: &R,
    alloc: Global,
    board: Board,
    plan: &Plan<'_>,
    number: u32,
    carried: &mut Carried,
    told: &mut Told,
) -> Result<BoardEnd, Trouble>
    requires kernels { HasOurKernels board }
    requires idle { AreAllIdle board }
    requires workers { plan.now.workers ≡ board.key.workers }
    requires levels { AreKeptLevelsOf board.key.graphs carried.old.levels }
    ensures ends { IfOk result (EndsWith board.key) }
    ensures levels { AreKeptLevelsOf board.key.graphs carried.new.levels }
{
    if plan.threads {
        return crew_end_of(rt, alloc, board, plan.workers, carried);
    }
    let seed = plan.seed.wrapping_add(u64::from(number));
    let mut turns = Turns::new(plan.order, plan.drawn, seed, plan.workers);
    end_of(alloc, board, carried, &mut turns, told)
}

/// Tells the end of a board; whether another iteration may come.
fn see_board(
    graphs: &Graphs,
    number: u32,
    delays: &mut Delays,
    end: BoardEnd,
    told: &mut Told,
) -> Result<bool, Trouble>
    requires { AreSound graphs.now }
    ensures { delays.new ≡ left_by end delays.old }
{
    match end {
        BoardEnd::Done {
            iteration,
            delays: left,
            journal,
        } => {
            *delays = left;
            push_iteration(
                &mut told.out,
                number,
                top_of(graphs).outputs.items(),
                &iteration,
            )?;
            push_journal(&mut told.journal, number, &journal)?;
            Ok(true)
        }
        BoardEnd::Refused { refusal, journal } => {
            push_refusal(&mut told.err, &refusal)?;
            push_journal(&mut told.journal, number, &journal)?;
            Ok(false)
        }
        BoardEnd::Starved => Err(Trouble::Memory),
    }
}

/// The board of an iteration, in which nothing is claimed.
fn start_board(
    alloc: Global,
    graphs: &Arc<Graphs>,
    delays: &Delays,
    ins: &[List<i64>],
    workers: u32,
) -> Result<Board, AllocError>
    requires sound { AreSound (arc_value graphs.now) }
    requires early { early_faults (arc_value graphs.now).graphs (arc_value graphs.now).top [] ≡ [] }
    requires inputs { lengths ins.now ≡ top_needs (arc_value graphs.now) }
    requires state { IsTopState (arc_value graphs.now) delays.now.lists }
    requires some { 1 ≤ workers }
    requires few { workers ≤ 16 }
    ensures key { IfOk result (λ b. b.key ≡ key_with (arc_value graphs.now) the_signatures delays.now.lists ins.now workers) }
    ensures idle { IfOk result AreAllIdle }
{
    lengths_given();
    Board::start(
        alloc,
        graphs.clone()?,
        Library.signatures(),
        delays,
        ins,
        workers,
    )
}

/// Runs the board of an iteration; whether another iteration may come.
fn iterate<R: Threads + Wait + Sync>(
    rt: &R,
    alloc: Global,
    graphs: &Arc<Graphs>,
    ins: &[List<i64>],
    plan: &Plan<'_>,
    number: u32,
    delays: &mut Delays,
    carried: &mut Carried,
    told: &mut Told,
) -> Result<bool, Trouble>
    requires sound { AreSound (arc_value graphs.now) }
    requires early { early_faults (arc_value graphs.now).graphs (arc_value graphs.now).top [] ≡ [] }
    requires inputs { lengths ins.now ≡ top_needs (arc_value graphs.now) }
    requires state { IsTopState (arc_value graphs.now) delays.old.lists }
    requires some { 1 ≤ plan.now.workers }
    requires few { plan.now.workers ≤ 16 }
    requires levels { AreKeptLevelsOf (arc_value graphs.now) carried.old.levels }
    ensures state { IsTopState (arc_value graphs.now) delays.new.lists }
    ensures levels { AreKeptLevelsOf (arc_value graphs.now) carried.new.levels }
{
    runnable();
    lengths_given();
    sizes_kept();
    let board = start_board(alloc, graphs, delays, ins, plan.workers)?;
    let end = finish(rt, alloc, board, plan, number, carried, told)?;
    see_board(graphs, number, delays, end, told)
}

/// Runs the iterations of a plan, until one is refused or finds too few tokens.
pub(crate) fn run<R: Threads + Wait + Sync>(
    rt: &R,
    alloc: Global,
    graphs: &Arc<Graphs>,
    streams: &[List<i64>],
    plan: &Plan<'_>,
    carried: &mut Carried,
    told: &mut Told,
) -> Result<(), Trouble>
    requires sound { AreSound (arc_value graphs.now) }
    requires some { 1 ≤ plan.now.workers }
    requires few { plan.now.workers ≤ 16 }
    requires levels { AreKeptLevelsOf (arc_value graphs.now) carried.old.levels }
{
    let needs = match top_needs(alloc, graphs) {
        Ok(needs) => needs,
        Err(PlainFault::Refused(refusal)) => return push_refusal(&mut told.err, &refusal),
        Err(PlainFault::Memory) => return Err(Trouble::Memory),
    };
    let mut delays = first_delays(alloc, graphs)?;
    for number in 0..plan.iterations {
        let inputs = top_of(graphs).inputs.items();
        match take_ins(alloc, inputs, streams, needs.items(), number)? {
            Taken::All(ins) => {
                let ins = ins.as_slice();
                if !iterate(
                    rt,
                    alloc,
                    graphs,
                    ins,
                    plan,
                    number,
                    &mut delays,
                    carried,
                    told,
                )? {
                    return Ok(());
                }
            }
            Taken::Short(line) => {
                told.err.push_str(line.as_str())?;
                return Ok(());
            }
        }
    }
    Ok(())
}
