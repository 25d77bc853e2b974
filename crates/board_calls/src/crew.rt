// Workers that are simulated: each step of one of them is a claim, or runs and finishes what it holds.
ghost use Rattle.std.specs.Prelude.{◌≡◌, ◌<◌, IfOk, Ok, false, true, length, slice_index_or};
ghost use Rattle.std.specs.Bool.{OnTrue};
ghost use Rattle.firing_board.specs.Ends.{IsOver};
ghost use Rattle.firing_board.specs.Runs.{AreAllIdle, IsIdle};
ghost use Rattle.board_calls.specs.Holding.{GivesBack, HasOurKernels, Holds, IsCrewOf, StepsOf, held_by};

use crate::giving_back::{compile, configure, copy, fire};
use crate::held::Held;
use crate::holding::{held_by, put, take};
use crate::told::Told;
use case_rows::Trouble;
use firing_board::{Board, Claim};
use std::alloc::Global;
use worker_crew::{board_laws, work_fits};

/// Whether nothing is left to claim or to finish.
fn is_done(claim: &Claim) -> bool {
    matches!(claim, Claim::Finished)
}

/// Whether memory was wanted.
fn is_starved(claim: &Claim) -> bool {
    matches!(claim, Claim::Starved)
}

/// The answer of a step that goes on.
fn not_done(finished: Result<(), Trouble>) -> Result<bool, Trouble>
    ensures { IfOk result (λ done. done ≡ false) }
{
    match finished {
        Ok(()) => Ok(false),
        Err(trouble) => Err(trouble),
    }
}

/// The answer of a claim that was told.
fn told_done(told: Result<(), Trouble>, starved: bool, done: bool) -> Result<bool, Trouble> {
    match told {
        Ok(()) if starved => Err(Trouble::Memory),
        Ok(()) => Ok(done),
        Err(trouble) => Err(trouble),
    }
}

/// The answer of several finishes, of which these are the first and the last.
fn both(first: Result<(), Trouble>, last: Result<(), Trouble>) -> Result<(), Trouble> {
    match first {
        Ok(()) => last,
        Err(trouble) => Err(trouble),
    }
}

/// Runs what a worker holds, and finishes it.
fn finish(
    alloc: Global,
    board: &mut Board,
    worker: u32,
    held: Held,
    told: &mut Told,
) -> Result<(), Trouble>
    requires kernels { HasOurKernels board.old }
    requires holds { Holds board.old worker held }
    ensures { GivesBack worker board.old board.new }
{
    match held {
        Held::Nothing => Ok(()),
        Held::Fire(ticket, frame) => fire(board, ticket, frame, told),
        Held::Configure(ticket, frame) => configure(board, ticket, frame, told),
        Held::Copy(ticket, node, frame) => copy(board, ticket, node, frame, told),
        Held::Compile(ticket, task) => compile(alloc, board, ticket, task, told),
    }
}

/// Claims for a worker that runs nothing, which then holds what it gets.
fn claim(alloc: Global, board: &mut Board, worker: u32) -> Claim
    requires { IsIdle board.old worker }
    ensures steps { StepsOf worker board.old board.new }
    ensures holds { Holds board.new worker (held_by result) }
    ensures over { result ≡ Claim.Finished → IsOver board.new }
{
    board_laws();
    work_fits();
    let _before = board.journal();
    board.claim(alloc, worker)
}

/// Claims for a worker that holds nothing; whether all is done.
///
/// # Errors
///
/// Want of memory.
fn ask(
    alloc: Global,
    board: &mut Board,
    held: &mut Vec<Held>,
    worker: u32,
    told: &mut Told,
) -> Result<bool, Trouble>
    requires crew { IsCrewOf board.old held.old.items }
    requires known { worker < board.old.key.workers }
    requires nothing { slice_index_or held.old.items worker Held.Nothing ≡ Held.Nothing }
    ensures crew { IsCrewOf board.new held.new.items }
    ensures key { board.new.key ≡ board.old.key }
{
    board_laws();
    let _before = board.journal();
    let claim = claim(alloc, board, worker);
    let _after = board.journal();
    let done = is_done(&claim);
    let starved = is_starved(&claim);
    let next = held_by(claim);
    let seen = told.see_claim(worker, &next, done);
    put(held, worker, next);
    told_done(seen, starved, done)
}

/// Finishes what a worker holds.
///
/// # Errors
///
/// Want of memory.
fn finish_held(
    alloc: Global,
    board: &mut Board,
    held: &mut Vec<Held>,
    worker: u32,
    told: &mut Told,
) -> Result<bool, Trouble>
    requires crew { IsCrewOf board.old held.old.items }
    requires known { worker < board.old.key.workers }
    ensures crew { IsCrewOf board.new held.new.items }
    ensures key { board.new.key ≡ board.old.key }
{
    board_laws();
    let _before = board.journal();
    let holding = take(held, worker);
    let finished = finish(alloc, board, worker, holding, told);
    let _after = board.journal();
    not_done(finished)
}

/// Whether a worker holds nothing.
fn holds_nothing(held: &Vec<Held>, worker: u32) -> bool
    requires { worker < length held.now.items }
    ensures { OnTrue result (slice_index_or held.now.items worker Held.Nothing ≡ Held.Nothing) }
{
    match &held[worker as usize] {
        Held::Nothing => true,
        _ => false,
    }
}

/// A step of a worker; whether all is done.
///
/// # Errors
///
/// Want of memory.
pub(crate) fn step(
    alloc: Global,
    board: &mut Board,
    held: &mut Vec<Held>,
    worker: u32,
    told: &mut Told,
) -> Result<bool, Trouble>
    requires crew { IsCrewOf board.old held.old.items }
    requires known { worker < board.old.key.workers }
    ensures crew { IsCrewOf board.new held.new.items }
    ensures key { board.new.key ≡ board.old.key }
{
    if holds_nothing(held, worker) {
        ask(alloc, board, held, worker, told)
    } else {
        finish_held(alloc, board, held, worker, told)
    }
}

/// Finishes what the workers still hold, the last worker's first.
///
/// # Errors
///
/// Want of memory.
pub(crate) fn finish_all(
    alloc: Global,
    board: &mut Board,
    held: Vec<Held>,
    workers: u32,
    told: &mut Told,
) -> Result<(), Trouble>
    requires crew { IsCrewOf board.old held.items }
    requires workers { workers ≡ board.old.key.workers }
    ensures idle { AreAllIdle board.new }
    ensures key { board.new.key ≡ board.old.key }
{
    board_laws();
    let mut held = held;
    let mut worker = workers;
    let mut all = Ok(());
    while let Some(holding) = held.pop() {
        let _before = board.journal();
        worker -= 1;
        let finished = finish(alloc, board, worker, holding, told);
        let _after = board.journal();
        all = both(all, finished);
    }
    let _journal = board.journal();
    held.destroy_empty();
    all
}

/// Whether a board of which no worker runs anything has ended. An item that is handed out in its place is finished at once.
///
/// # Errors
///
/// Want of memory.
pub(crate) fn has_ended(alloc: Global, board: &mut Board, told: &mut Told) -> Result<bool, Trouble>
    requires kernels { HasOurKernels board.old }
    requires idle { AreAllIdle board.old }
    ensures idle { AreAllIdle board.new }
    ensures key { board.new.key ≡ board.old.key }
    ensures over { result ≡ Ok true → IsOver board.new }
{
    board_laws();
    let _before = board.journal();
    match claim(alloc, board, 0) {
        Claim::Finished => {
            let _ended = board.journal();
            Ok(true)
        }
        other => {
            let finished = finish(alloc, board, 0, held_by(other), told);
            let _after = board.journal();
            not_done(finished)
        }
    }
}
