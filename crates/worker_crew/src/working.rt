// A worker, until the board is over.
ghost use Rattle.std.specs.Prelude.{◌≡◌};
ghost use Rattle.kernel_gate.specs.Signed.{unnamed};
ghost use Rattle.worker_crew.specs.Passes.{HasSeenOver, IsIdleAt, MayWork};
ghost use Rattle.worker_crew.specs.Worked.{HasWorked};

use crate::asking::await_item;
use crate::pace::Pace;
use crate::running::{compile, configure, copy, fire};
use board_lock::{Lock, Pass};
use firing_board::{Board, Claim};
use kernel_gate::Gate;
use std::alloc::Global;
use std::sync::Wait;

/// Works for the pass's number, which is the least of its numbers and runs nothing, until the board is over: it claims items,
/// runs them outside the lock, and finishes them. An item is finished and the next one claimed in one holding of the lock; where
/// that is a small copy, it is made in the same holding, as are 15 more at the most. Where nothing may be claimed until others
/// finish, it pauses, and asks again. It may wait. Each claim that it adds to the journal is followed by its finish, among the entries of this number.
pub fn work<K: Gate + Sync, R: Wait>(
    rt: &R,
    alloc: Global,
    lock: &Lock<Board>,
    mut pass: Pass<Board>,
    gate: &K,
) -> Pass<Board>
    requires lock { pass.lock ≡ lock.now }
    requires may { MayWork (unnamed (K.kernels gate.now)) pass.known }
    requires idle { IsIdleAt pass.known 0 }
    ensures lock { result.lock ≡ lock.now }
    ensures worked { HasWorked pass.known result.known }
    ensures over { HasSeenOver result.known }
{
    let mut pace = Pace::new();
    let mut claim = Claim::Wait;
    for _ in rt.forever() {
        let (next, claimed) = match claim {
            Claim::Fire(ticket, frame) => {
                fire(rt, alloc, lock, pass, gate, ticket, frame, &mut pace)
            }
            Claim::Configure(ticket, frame) => {
                configure(rt, alloc, lock, pass, gate, ticket, frame)
            }
            Claim::Copy(ticket, node, frame) => {
                copy(rt, alloc, lock, pass, ticket, node, frame, &mut pace)
            }
            Claim::Compile(ticket, task) => compile(rt, alloc, lock, pass, ticket, task),
            Claim::Wait => await_item(rt, alloc, lock, pass, &mut pace),
            Claim::Finished => return pass,
            Claim::Starved => return pass,
        };
        pass = next;
        claim = claimed;
    }
    unreachable!()
}
