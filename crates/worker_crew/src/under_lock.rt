// What a worker does while it holds the lock: it claims items, and makes the copies that are small.
ghost use Rattle.std.specs.Prelude.{◌≡◌, ◌↔◌, ◌<◌, ◌^◌, ◌∷◌, [], List as Seq, IsTrue, Some, length};
ghost use Rattle.board_lock.specs.Passes.{Finds, MayLeave, known_after};
ghost use Rattle.board_rules.specs.declared.entry.Entry.TheVariants as entry;
ghost use Rattle.kernel_gate.specs.Signed.{Counts};
ghost use Rattle.firing_board.specs.Locking.{board_meant};
ghost use Rattle.worker_crew.specs.Asked.{Asked, HasAsked, HasClaimed, IsToCopy};
ghost use Rattle.worker_crew.specs.Passes.{IsIdleAt, MayWork};
ghost use Rattle.worker_crew.specs.Small.{IsSmallCopy};
ghost use Rattle.worker_crew.specs.Worked.{HasAdded};

use crate::laws::{board_laws, work_fits};
use board_lock::{Held, Pass};
use firing_board::{Board, Claim, Ticket};
use kernel_gate::Frame;
use sdf_level::Node;
use special_actors::run_special;
use std::alloc::Global;

/// The most copies that a worker makes in one holding of the lock.
pub(crate) const MAX_COPIES: u32 = 16;

/// The most tokens that a copy writes which is made under the lock, and the most inputs and outputs that it has.
const MAX_TOKENS: usize = 64;

const MAX_PORTS: u32 = 64;

/// Whether a copy is small enough to be made under the lock: it should take less time than the lock takes to move to another
/// worker and back.
fn is_small(frame: &Frame) -> bool
    requires ins { length frame.now.inputs < 2 ^ 32 }
    requires outs { length frame.now.outputs < 2 ^ 32 }
    ensures { IsTrue result ↔ IsSmallCopy frame.now }
{
    let ports = frame.outputs();
    if frame.inputs() > MAX_PORTS || ports > MAX_PORTS {
        return false;
    }
    let mut room = MAX_TOKENS;
    for port in 0..ports {
        let tokens = frame.output_len(port);
        if tokens > room {
            return false;
        }
        room -= tokens;
    }
    true
}

/// Claims an item for the number of the pass that holds the lock, which runs none.
pub(crate) fn claim_here<'a>(alloc: Global, mut held: Held<'a, Board>) -> (Held<'a, Board>, Claim)
    requires leave { MayLeave board_meant held.turn.known held.turn.found held.state.value }
    requires found { Finds board_meant (known_after board_meant held.turn.known held.state.value) held.state.value }
    requires may { (kernels : Seq Counts) × MayWork kernels (known_after board_meant held.turn.known held.state.value) }
    requires idle { IsIdleAt (known_after board_meant held.turn.known held.state.value) 0 }
    ensures turn { result.0.turn ≡ held.entry.turn }
    ensures leave { MayLeave board_meant held.entry.turn.known held.entry.turn.found result.0.state.value }
    ensures found { Finds board_meant (known_after board_meant held.entry.turn.known result.0.state.value) result.0.state.value }
    ensures asked { Asked (known_after board_meant held.entry.turn.known held.entry.state.value) (known_after board_meant held.entry.turn.known result.0.state.value) result.1 }
{
    board_laws();
    work_fits();
    let worker = held.number();
    // Each board says of itself that its journal is legal.
    let _journal = held.state.journal();
    let claim = held.state.claim(alloc, worker);
    (held, claim)
}

/// Copies the inputs of a node to its outputs, and gives back its frame.
pub(crate) fn copy_here<'a>(
    mut held: Held<'a, Board>,
    ticket: Ticket,
    node: Node,
    mut frame: Frame,
) -> Held<'a, Board>
    requires leave { MayLeave board_meant held.turn.known held.turn.found held.state.value }
    requires found { Finds board_meant (known_after board_meant held.turn.known held.state.value) held.state.value }
    requires ticket { ticket.worker ≡ held.turn.known.number }
    requires claimed { HasClaimed (known_after board_meant held.turn.known held.state.value) (Some frame.places) (IsToCopy node frame) }
    ensures turn { result.turn ≡ held.entry.turn }
    ensures leave { MayLeave board_meant held.entry.turn.known held.entry.turn.found result.state.value }
    ensures found { Finds board_meant (known_after board_meant held.entry.turn.known result.state.value) result.state.value }
    ensures added { HasAdded (known_after board_meant held.entry.turn.known held.entry.state.value) (known_after board_meant held.entry.turn.known result.state.value) (entry.Finish held.entry.turn.known.number ∷ []) }
{
    board_laws();
    run_special(&node, &mut frame);
    let _journal = held.state.journal();
    held.state.finish_fire(ticket, frame, Ok(()));
    held
}

/// Claims an item for the number of the pass that holds the lock, which runs none, and leaves the lock. Where that is a small
/// copy, it is made at once, and the next item is claimed, so many times at the most.
pub(crate) fn claim_held<'a>(
    alloc: Global,
    held: Held<'a, Board>,
    copies: u32,
) -> (Pass<Board>, Claim)
    requires leave { MayLeave board_meant held.turn.known held.turn.found held.state.value }
    requires found { Finds board_meant (known_after board_meant held.turn.known held.state.value) held.state.value }
    requires may { (kernels : Seq Counts) × MayWork kernels (known_after board_meant held.turn.known held.state.value) }
    requires idle { IsIdleAt (known_after board_meant held.turn.known held.state.value) 0 }
    ensures lock { result.0.lock ≡ held.entry.turn.lock }
    ensures asked { HasAsked (known_after board_meant held.entry.turn.known held.entry.state.value) result.0.known result.1 }
{
    let (held, claim) = claim_here(alloc, held);
    match claim {
        Claim::Copy(ticket, node, frame) => {
            if copies == 0 || !is_small(&frame) {
                return (held.leave(), Claim::Copy(ticket, node, frame));
            }
            claim_held(alloc, copy_here(held, ticket, node, frame), copies - 1)
        }
        other => (held.leave(), other),
    }
}

/// As `claim_held`, or leaves the lock without a claim, where the worker is to rest.
pub(crate) fn go_on<'a>(alloc: Global, held: Held<'a, Board>, rests: bool) -> (Pass<Board>, Claim)
    requires leave { MayLeave board_meant held.turn.known held.turn.found held.state.value }
    requires found { Finds board_meant (known_after board_meant held.turn.known held.state.value) held.state.value }
    requires may { (kernels : Seq Counts) × MayWork kernels (known_after board_meant held.turn.known held.state.value) }
    requires idle { IsIdleAt (known_after board_meant held.turn.known held.state.value) 0 }
    ensures lock { result.0.lock ≡ held.entry.turn.lock }
    ensures asked { HasAsked (known_after board_meant held.entry.turn.known held.entry.state.value) result.0.known result.1 }
{
    if rests {
        return (held.leave(), Claim::Wait);
    }
    claim_held(alloc, held, MAX_COPIES)
}
