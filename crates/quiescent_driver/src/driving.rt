// The board of an iteration, from its start to its outcome.
ghost use Rattle.std.specs.Prelude.{◌≡◌, None, false, true, if◌then◌else◌, is_some, IfOk};
ghost use Rattle.kernel_gate.specs.Signed.{unnamed};
ghost use Rattle.firing_board.specs.Keeping.{AreKeptLevelsOf};
ghost use Rattle.firing_board.specs.Runs.{AreAllIdle};
ghost use Rattle.quiescent_driver.specs.Carrying.{Suits};
ghost use Rattle.quiescent_driver.specs.Endings.{EndsWith};

use crate::carried::Carried;
use board_lock::NotMade;
use firing_board::{Board, BoardEnd};
use job_compiler::Kept;
use job_preparing::KeptLevels;
use kernel_gate::Gate;
use std::alloc::{AllocError, Global};
use std::mem;
use std::sync::Wait;
use std::thread::Threads;
use worker_crew::run_crew_by;

/// Moves the compilations that are kept, if any are, into the board.
pub fn lend_kept(board: &mut Board, kept: &mut Option<Kept>)
    requires { AreAllIdle board.old }
    ensures board { board.new ≡ (if is_some kept.old then record board.old { kept = true } else board.old) }
    ensures given { kept.new ≡ None }
    ensures key { board.new.key ≡ board.old.key }
    ensures idle { AreAllIdle board.new }
{
    match mem::replace(kept, None) {
        Some(compilations) => board.put_kept(compilations),
        None => {}
    }
}

/// Moves the levels that are kept, if any are, into a board of their graphs.
pub fn lend_levels(board: &mut Board, levels: &mut Option<KeptLevels>)
    requires { AreKeptLevelsOf board.old.key.graphs levels.old }
    ensures board { board.new ≡ board.old }
    ensures given { levels.new ≡ None }
{
    match mem::replace(levels, None) {
        Some(levels) => board.put_levels(levels),
        None => {}
    }
}

/// Moves what is kept out of a board.
fn take_back(board: &mut Board, carried: &mut Carried)
    ensures board { board.new ≡ record board.old { kept = false } }
    ensures levels { Suits board.old.key.graphs carried.new }
{
    carried.levels = board.take_levels();
    carried.kept = board.take_kept();
}

/// Runs a board of which no worker runs anything to its end. It uses the compilations and levels that are kept, and keeps those
/// that it makes, and as many threads as the workload asks for.
///
/// # Errors
///
/// Want of memory. The board is given up.
pub(crate) fn drive<K: Gate + Sync, R: Threads + Wait + Sync>(
    rt: &R,
    alloc: Global,
    mut board: Board,
    workers: u32,
    carried: &mut Carried,
    gate: &K,
) -> Result<BoardEnd, AllocError>
    requires workers { workers ≡ board.key.workers }
    requires kernels { board.key.signatures ≡ unnamed (K.kernels gate.now) }
    requires idle { AreAllIdle board }
    requires levels { Suits board.key.graphs carried.old }
    ensures ends { IfOk result (EndsWith board.key) }
    ensures levels { Suits board.key.graphs carried.new }
{
    lend_levels(&mut board, &mut carried.levels);
    lend_kept(&mut board, &mut carried.kept);
    match run_crew_by(rt, alloc, board, workers, gate, &mut carried.workload) {
        Ok(mut board) => {
            take_back(&mut board, carried);
            board.outcome(alloc)
        }
        Err(NotMade { state: mut board }) => {
            take_back(&mut board, carried);
            board.end();
            Err(AllocError)
        }
    }
}
