// A crew of workers, each in a thread.
ghost use Rattle.std.specs.Prelude.{◌≡◌, IfErr, IfOk, IfSome, IsSome};
ghost use Rattle.std.specs.Thread.{IsSync};
ghost use Rattle.kernel_gate.specs.Signed.{unnamed};
ghost use Rattle.firing_board.specs.Ends.{IsOver};
ghost use Rattle.firing_board.specs.Runs.{AreAllIdle};
ghost use Rattle.worker_crew.specs.Passes.{AllMayWork, AreIdle, HasSeenOver};
ghost use Rattle.worker_crew.specs.Worked.{HasWorked};

use crate::alone::work_alone;
use crate::laws::board_laws;
use crate::slot::{full, put, take};
use crate::working::work;
use crate::workload::Workload;
use board_lock::{Lock, NotMade, Pass};
use firing_board::Board;
use kernel_gate::Gate;
use std::alloc::Global;
use std::sync::Wait;
use std::thread::{Threads, join_mut};

/// Each number of the pass works, in a thread of its own. A thread borrows the slot that its pass stands in: a closure that
/// owned the pass would have to be one that may be dropped, and a board is never dropped.
fn crew<K: Gate + Sync, R: Threads + Wait + Sync>(
    rt: &R,
    alloc: Global,
    lock: &Lock<Board>,
    pass: Pass<Board>,
    gate: &K,
) -> Pass<Board>
    requires lock { pass.lock ≡ lock.now }
    requires may { AllMayWork (unnamed (K.kernels gate.now)) pass.known }
    requires idle { AreIdle pass.known }
    ensures lock { result.lock ≡ lock.now }
    ensures worked { HasWorked pass.known result.known }
    ensures over { HasSeenOver result.known }
{
    if pass.count() < 2 {
        return work(rt, alloc, lock, pass, gate);
    }
    let half = pass.count() / 2;
    let (first, second) = lock.split(pass, half);
    let mut one = Some(first);
    let mut other = Some(second);
    join_mut(
        rt,
        &mut ||
            requires { IsSync R.row × IsSome one × IfSome one (λ p. (p.lock ≡ lock.now) × AllMayWork (unnamed (K.kernels gate.now)) p.known × AreIdle p.known) }
            ensures { IsSome one.exit × IfSome one.entry (λ p. IfSome one.exit (λ q. (q.lock ≡ lock.entry.now) × HasWorked p.known q.known × HasSeenOver q.known)) }
        {
            let pass = take(&mut one);
            put(&mut one, crew(rt, alloc, lock, pass, gate));
        },
        &mut ||
            requires { IsSync R.row × IsSome other × IfSome other (λ p. (p.lock ≡ lock.now) × AllMayWork (unnamed (K.kernels gate.now)) p.known × AreIdle p.known) }
            ensures { IsSome other.exit × IfSome other.entry (λ p. IfSome other.exit (λ q. (q.lock ≡ lock.entry.now) × HasWorked p.known q.known × HasSeenOver q.known)) }
        {
            let pass = take(&mut other);
            put(&mut other, crew(rt, alloc, lock, pass, gate));
        },
    );
    lock.join(full(one), full(other))
}

/// The first numbers of the pass work, so many, each in a thread of its own, and then the others look whether the board is over.
/// With no number but one, that works alone.
fn crew_of<K: Gate + Sync, R: Threads + Wait + Sync>(
    rt: &R,
    alloc: Global,
    lock: &Lock<Board>,
    pass: Pass<Board>,
    gate: &K,
    threads: u32,
) -> Pass<Board>
    requires lock { pass.lock ≡ lock.now }
    requires may { AllMayWork (unnamed (K.kernels gate.now)) pass.known }
    requires idle { AreIdle pass.known }
    ensures lock { result.lock ≡ lock.now }
    ensures worked { HasWorked pass.known result.known }
    ensures over { HasSeenOver result.known }
{
    let threads = threads.max(1);
    if threads >= pass.count() {
        return crew(rt, alloc, lock, pass, gate);
    }
    let (first, others) = lock.split(pass, threads);
    let first = crew(rt, alloc, lock, first, gate);
    let others = work(rt, alloc, lock, others, gate);
    lock.join(first, others)
}

/// The numbers of the pass work in as many threads as the workload asks for, at first perhaps one of them alone.
fn crew_by<K: Gate + Sync, R: Threads + Wait + Sync>(
    rt: &R,
    alloc: Global,
    lock: &Lock<Board>,
    pass: Pass<Board>,
    gate: &K,
    workload: &mut Workload,
) -> Pass<Board>
    requires lock { pass.lock ≡ lock.now }
    requires may { AllMayWork (unnamed (K.kernels gate.now)) pass.known }
    requires idle { AreIdle pass.known }
    ensures lock { result.lock ≡ lock.now }
    ensures worked { HasWorked pass.known result.known }
    ensures over { HasSeenOver result.known }
{
    let threads = workload.begin(pass.count());
    if threads > 1 {
        return crew_of(rt, alloc, lock, pass, gate, threads);
    }
    let (pass, over) = work_alone(rt, alloc, lock, pass, gate, workload);
    if over {
        return pass;
    }
    let threads = workload.call(rt, pass.count());
    crew_of(rt, alloc, lock, pass, gate, threads)
}

/// Runs a board of which no worker runs anything until it is over: its journal has ended, or memory was wanted. No worker runs
/// anything then. All its workers may run items of it, in as many threads as `workload` asks for by what the run's boards before it
/// have shown, at most one for each worker. Where a thread can't be started, the half of the workers that it was for works in
/// the thread that wanted it, once the other half has. It may wait.
///
/// # Errors
///
/// Want of memory. The board is as it was given.
pub fn run_crew_by<K: Gate + Sync, R: Threads + Wait + Sync>(
    rt: &R,
    alloc: Global,
    board: Board,
    workers: u32,
    gate: &K,
    workload: &mut Workload,
) -> Result<Board, NotMade<Board>>
    requires workers { workers ≡ board.key.workers }
    requires kernels { board.key.signatures ≡ unnamed (K.kernels gate.now) }
    requires idle { AreAllIdle board }
    ensures key { IfOk result (λ b. b.key ≡ board.key) }
    ensures over { IfOk result IsOver }
    ensures idle { IfOk result AreAllIdle }
    ensures refused { IfErr result (λ r. r.state ≡ board) }
{
    board_laws();
    let _journal = board.journal();
    let (lock, pass) = Lock::start(alloc, board, workers)?;
    let pass = crew_by(rt, alloc, &lock, pass, gate, workload);
    let board = lock.close(pass);
    let _journal = board.journal();
    Ok(board)
}

/// As `run_crew_by`, with each worker in a thread of its own: nothing is known of the board's kernels.
///
/// # Errors
///
/// Want of memory. The board is as it was given.
pub fn run_crew<K: Gate + Sync, R: Threads + Wait + Sync>(
    rt: &R,
    alloc: Global,
    board: Board,
    workers: u32,
    gate: &K,
) -> Result<Board, NotMade<Board>>
    requires workers { workers ≡ board.key.workers }
    requires kernels { board.key.signatures ≡ unnamed (K.kernels gate.now) }
    requires idle { AreAllIdle board }
    ensures key { IfOk result (λ b. b.key ≡ board.key) }
    ensures over { IfOk result IsOver }
    ensures idle { IfOk result AreAllIdle }
    ensures refused { IfErr result (λ r. r.state ≡ board) }
{
    let mut workload = Workload::new();
    run_crew_by(rt, alloc, board, workers, gate, &mut workload)
}
