// A worker runs an item that it has claimed, outside the lock, gives it back, and asks for the next one.
ghost use Rattle.std.specs.Prelude.{◌≡◌, ◌∷◌, [], None, Some};
ghost use Rattle.board_rules.specs.declared.entry.Entry.TheVariants as entry;
ghost use Rattle.kernel_gate.specs.Signed.{IsFrameOf, unnamed};
ghost use Rattle.worker_crew.specs.Asked.{AskedAfter, HasClaimed, IsToCompile, IsToCopy, IsToFire};
ghost use Rattle.worker_crew.specs.Passes.{MayWork};

use crate::giving_back::{give_back, give_back_compiled, give_back_configured};
use crate::laws::compilations_end;
use crate::pace::{LARGE_COPY, Pace};
use board_lock::{Lock, Pass};
use firing_board::{Board, Claim, Ticket};
use job_preparing::CompileTask;
use kernel_gate::{Frame, Gate};
use sdf_level::Node;
use special_actors::run_special;
use std::alloc::Global;
use std::sync::Wait;

/// How many tokens a kernel reads at its first input and writes at its first output.
pub(crate) fn tokens_of<K: Gate>(gate: &K, frame: &Frame) -> u64
    requires { IsFrameOf (unnamed (K.kernels gate.now)) frame.now }
{
    let signature = &gate.signatures()[frame.kind() as usize];
    let read = if signature.ins > 0 {
        frame.input(0).len()
    } else {
        0
    };
    let written = if signature.outs > 0 {
        frame.output_len(0)
    } else {
        0
    };
    read.saturating_add(written) as u64
}

/// Fires a kernel, gives back its frame, and asks; or rests before it asks.
pub(crate) fn fire<K: Gate, R: Wait>(
    rt: &R,
    alloc: Global,
    lock: &Lock<Board>,
    pass: Pass<Board>,
    gate: &K,
    ticket: Ticket,
    mut frame: Frame,
    pace: &mut Pace,
) -> (Pass<Board>, Claim)
    requires lock { pass.lock ≡ lock.now }
    requires may { MayWork (unnamed (K.kernels gate.now)) pass.known }
    requires ticket { ticket.worker ≡ pass.known.number }
    requires claimed { HasClaimed pass.known (Some frame.places) (IsToFire frame) }
    ensures lock { result.0.lock ≡ lock.now }
    ensures asked { AskedAfter pass.known (entry.Finish pass.known.number ∷ []) result.0.known result.1 }
{
    let tokens = tokens_of(gate, &frame);
    let answer = gate.fire(&mut frame);
    give_back(rt, alloc, lock, pass, ticket, frame, answer, tokens, pace)
}

/// Fires the kernel of a configuration actor, gives back its frame, and asks.
pub(crate) fn configure<K: Gate, R: Wait>(
    rt: &R,
    alloc: Global,
    lock: &Lock<Board>,
    pass: Pass<Board>,
    gate: &K,
    ticket: Ticket,
    mut frame: Frame,
) -> (Pass<Board>, Claim)
    requires lock { pass.lock ≡ lock.now }
    requires may { MayWork (unnamed (K.kernels gate.now)) pass.known }
    requires ticket { ticket.worker ≡ pass.known.number }
    requires claimed { HasClaimed pass.known (Some frame.places) (IsToFire frame) }
    ensures lock { result.0.lock ≡ lock.now }
    ensures asked { AskedAfter pass.known (entry.Finish pass.known.number ∷ []) result.0.known result.1 }
{
    let answer = gate.fire(&mut frame);
    give_back_configured(rt, alloc, lock, pass, ticket, frame, answer)
}

/// Copies a node's inputs to its outputs, gives back its frame, and asks.
pub(crate) fn copy<R: Wait>(
    rt: &R,
    alloc: Global,
    lock: &Lock<Board>,
    pass: Pass<Board>,
    ticket: Ticket,
    node: Node,
    mut frame: Frame,
    pace: &mut Pace,
) -> (Pass<Board>, Claim)
    requires lock { pass.lock ≡ lock.now }
    requires ticket { ticket.worker ≡ pass.known.number }
    requires claimed { HasClaimed pass.known (Some frame.places) (IsToCopy node frame) }
    ensures lock { result.0.lock ≡ lock.now }
    ensures asked { AskedAfter pass.known (entry.Finish pass.known.number ∷ []) result.0.known result.1 }
{
    run_special(&node, &mut frame);
    give_back(
        rt,
        alloc,
        lock,
        pass,
        ticket,
        frame,
        Ok(()),
        LARGE_COPY,
        pace,
    )
}

/// Compiles a firing of a graph, gives back how that ended, and asks.
pub(crate) fn compile<R: Wait>(
    rt: &R,
    alloc: Global,
    lock: &Lock<Board>,
    pass: Pass<Board>,
    ticket: Ticket,
    task: CompileTask,
) -> (Pass<Board>, Claim)
    requires lock { pass.lock ≡ lock.now }
    requires ticket { ticket.worker ≡ pass.known.number }
    requires claimed { HasClaimed pass.known None (IsToCompile task) }
    ensures lock { result.0.lock ≡ lock.now }
    ensures asked { AskedAfter pass.known (entry.Finish pass.known.number ∷ []) result.0.known result.1 }
{
    compilations_end();
    let end = task.run(alloc);
    give_back_compiled(rt, alloc, lock, pass, ticket, end)
}
