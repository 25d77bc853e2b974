// A worker asks for an item.
ghost use Rattle.std.specs.Prelude.{◌≡◌, List as Seq};
ghost use Rattle.kernel_gate.specs.Signed.{Counts};
ghost use Rattle.worker_crew.specs.Asked.{HasAsked};
ghost use Rattle.worker_crew.specs.Passes.{IsIdleAt, MayWork};

use crate::pace::Pace;
use crate::under_lock::{MAX_COPIES, claim_held};
use board_lock::{Lock, Pass, Pauses};
use firing_board::{Board, Claim};
use std::alloc::Global;
use std::sync::Wait;

/// Claims an item for the pass's number, which runs none, in one holding of the lock.
fn ask<R: Wait>(
    rt: &R,
    alloc: Global,
    lock: &Lock<Board>,
    pass: Pass<Board>,
) -> (Pass<Board>, Claim)
    requires lock { pass.lock ≡ lock.now }
    requires may { (kernels : Seq Counts) × MayWork kernels pass.known }
    requires idle { IsIdleAt pass.known 0 }
    ensures lock { result.0.lock ≡ lock.now }
    ensures asked { HasAsked pass.known result.0.known result.1 }
{
    claim_held(alloc, lock.enter(rt, pass), MAX_COPIES)
}

/// Asks again and again for the pass's number, which runs none, until there is an item or the board is over. It rests first, where
/// it doesn't pay that the worker takes part, and it pauses before each time, longer each time.
pub(crate) fn await_item<R: Wait>(
    rt: &R,
    alloc: Global,
    lock: &Lock<Board>,
    mut pass: Pass<Board>,
    pace: &mut Pace,
) -> (Pass<Board>, Claim)
    requires lock { pass.lock ≡ lock.now }
    requires may { (kernels : Seq Counts) × MayWork kernels pass.known }
    requires idle { IsIdleAt pass.known 0 }
    ensures lock { result.0.lock ≡ lock.now }
    ensures asked { HasAsked pass.known result.0.known result.1 }
{
    pace.rest();
    let mut pauses = Pauses::new();
    for _ in rt.forever() {
        pauses.pause();
        let (next, claim) = ask(rt, alloc, lock, pass);
        let Claim::Wait = claim else {
            return (next, claim);
        };
        pass = next;
    }
    unreachable!()
}
