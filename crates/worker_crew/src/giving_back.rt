// A worker gives back what it ran, and asks for the next item.
ghost use Rattle.std.specs.Prelude.{◌≡◌, ◌∷◌, [], IsOk, None, Some};
ghost use Rattle.board_rules.specs.declared.entry.Entry.TheVariants as entry;
ghost use Rattle.firing_board.specs.Finishes.{MayComeBack, MayEnd};
ghost use Rattle.worker_crew.specs.Asked.{AskedAfter, HasClaimed};

use crate::laws::board_laws;
use crate::pace::Pace;
use crate::under_lock::{MAX_COPIES, claim_held, go_on};
use board_lock::{Lock, Pass};
use firing_board::{Board, Claim, Ticket};
use job_preparing::CompileEnd;
use kernel_gate::{Frame, KernelFault};
use std::alloc::Global;
use std::sync::Wait;

/// How many steps were taken since this claim.
fn steps_since(board: &Board, ticket: Ticket) -> u64 {
    let steps = board.journal().len().saturating_sub(ticket.entry);
    steps.saturating_sub(1) as u64
}

/// Gives back the frame of a kernel or a node, which had so many tokens, and claims the next item, in one holding of the lock;
/// or leaves the lock without a claim, where it doesn't pay that the worker takes part.
pub(crate) fn give_back<R: Wait>(
    rt: &R,
    alloc: Global,
    lock: &Lock<Board>,
    pass: Pass<Board>,
    ticket: Ticket,
    frame: Frame,
    answer: Result<(), KernelFault>,
    tokens: u64,
    pace: &mut Pace,
) -> (Pass<Board>, Claim)
    requires lock { pass.lock ≡ lock.now }
    requires ticket { ticket.worker ≡ pass.known.number }
    requires claimed { HasClaimed pass.known (Some frame.places) (λ key. MayComeBack key frame answer (IsOk answer)) }
    ensures lock { result.0.lock ≡ lock.now }
    ensures asked { AskedAfter pass.known (entry.Finish pass.known.number ∷ []) result.0.known result.1 }
{
    board_laws();
    let mut held = lock.enter(rt, pass);
    let _journal = held.state.journal();
    let steps = steps_since(&held.state, ticket);
    pace.count(tokens, steps);
    held.state.finish_fire(ticket, frame, answer);
    go_on(alloc, held, pace.is_lost())
}

/// Gives back the frame of a configuration actor's kernel, and claims the next item, in one holding of the lock.
pub(crate) fn give_back_configured<R: Wait>(
    rt: &R,
    alloc: Global,
    lock: &Lock<Board>,
    pass: Pass<Board>,
    ticket: Ticket,
    frame: Frame,
    answer: Result<(), KernelFault>,
) -> (Pass<Board>, Claim)
    requires lock { pass.lock ≡ lock.now }
    requires ticket { ticket.worker ≡ pass.known.number }
    requires claimed { HasClaimed pass.known (Some frame.places) (λ key. MayComeBack key frame answer (IsOk answer)) }
    ensures lock { result.0.lock ≡ lock.now }
    ensures asked { AskedAfter pass.known (entry.Finish pass.known.number ∷ []) result.0.known result.1 }
{
    board_laws();
    let mut held = lock.enter(rt, pass);
    let _journal = held.state.journal();
    held.state.finish_configure(ticket, frame, answer);
    claim_held(alloc, held, MAX_COPIES)
}

/// Gives back how a compilation ended, and claims the next item, in one holding of the lock. Where memory was wanted, the board
/// is over.
pub(crate) fn give_back_compiled<R: Wait>(
    rt: &R,
    alloc: Global,
    lock: &Lock<Board>,
    pass: Pass<Board>,
    ticket: Ticket,
    end: CompileEnd,
) -> (Pass<Board>, Claim)
    requires lock { pass.lock ≡ lock.now }
    requires ticket { ticket.worker ≡ pass.known.number }
    requires claimed { HasClaimed pass.known None (λ key. MayEnd key end) }
    ensures lock { result.0.lock ≡ lock.now }
    ensures asked { AskedAfter pass.known (entry.Finish pass.known.number ∷ []) result.0.known result.1 }
{
    board_laws();
    let mut held = lock.enter(rt, pass);
    let _journal = held.state.journal();
    let _refused = held.state.finish_compile(alloc, ticket, end);
    claim_held(alloc, held, MAX_COPIES)
}
