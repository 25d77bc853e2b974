// A worker that works alone: it runs items, kernels too, while it holds the lock, for which nobody waits.
ghost use Rattle.std.specs.Prelude.{◌≡◌, ◌∷◌, [], IsTrue, Some, None};
ghost use Rattle.board_lock.specs.Passes.{Finds, MayLeave, known_after};
ghost use Rattle.board_rules.specs.declared.entry.Entry.TheVariants as entry;
ghost use Rattle.kernel_gate.specs.Signed.{unnamed};
ghost use Rattle.firing_board.specs.Locking.{board_meant};
ghost use Rattle.worker_crew.specs.Alone.{TellsOver};
ghost use Rattle.worker_crew.specs.Asked.{HasClaimed, IsToCompile, IsToFire};
ghost use Rattle.worker_crew.specs.Passes.{HasSeenOver, IsIdleAt, MayWork};
ghost use Rattle.worker_crew.specs.Worked.{HasAdded, HasWorked};

use crate::laws::{board_laws, compilations_end};
use crate::running::tokens_of;
use crate::turn_end::TurnEnd;
use crate::under_lock::{claim_here, copy_here};
use crate::workload::{COMPILATION, Workload};
use board_lock::{Held, Lock, Pass};
use firing_board::{Board, Claim, Ticket};
use job_preparing::CompileTask;
use kernel_gate::{Frame, Gate};
use std::alloc::Global;
use std::sync::Wait;

/// Fires a kernel, and gives back its frame.
fn fire_here<'a, K: Gate>(
    mut held: Held<'a, Board>,
    gate: &K,
    ticket: Ticket,
    mut frame: Frame,
    workload: &mut Workload,
) -> Held<'a, Board>
    requires leave { MayLeave board_meant held.turn.known held.turn.found held.state.value }
    requires found { Finds board_meant (known_after board_meant held.turn.known held.state.value) held.state.value }
    requires may { MayWork (unnamed (K.kernels gate.now)) (known_after board_meant held.turn.known held.state.value) }
    requires ticket { ticket.worker ≡ held.turn.known.number }
    requires claimed { HasClaimed (known_after board_meant held.turn.known held.state.value) (Some frame.places) (IsToFire frame) }
    ensures turn { result.turn ≡ held.entry.turn }
    ensures leave { MayLeave board_meant held.entry.turn.known held.entry.turn.found result.state.value }
    ensures found { Finds board_meant (known_after board_meant held.entry.turn.known result.state.value) result.state.value }
    ensures added { HasAdded (known_after board_meant held.entry.turn.known held.entry.state.value) (known_after board_meant held.entry.turn.known result.state.value) (entry.Finish held.entry.turn.known.number ∷ []) }
{
    board_laws();
    let tokens = tokens_of(gate, &frame);
    workload.add(tokens);
    let answer = gate.fire(&mut frame);
    let _journal = held.state.journal();
    held.state.finish_fire(ticket, frame, answer);
    held
}

/// Fires the kernel of a configuration actor, and gives back its frame.
fn configure_here<'a, K: Gate>(
    mut held: Held<'a, Board>,
    gate: &K,
    ticket: Ticket,
    mut frame: Frame,
) -> Held<'a, Board>
    requires leave { MayLeave board_meant held.turn.known held.turn.found held.state.value }
    requires found { Finds board_meant (known_after board_meant held.turn.known held.state.value) held.state.value }
    requires may { MayWork (unnamed (K.kernels gate.now)) (known_after board_meant held.turn.known held.state.value) }
    requires ticket { ticket.worker ≡ held.turn.known.number }
    requires claimed { HasClaimed (known_after board_meant held.turn.known held.state.value) (Some frame.places) (IsToFire frame) }
    ensures turn { result.turn ≡ held.entry.turn }
    ensures leave { MayLeave board_meant held.entry.turn.known held.entry.turn.found result.state.value }
    ensures found { Finds board_meant (known_after board_meant held.entry.turn.known result.state.value) result.state.value }
    ensures added { HasAdded (known_after board_meant held.entry.turn.known held.entry.state.value) (known_after board_meant held.entry.turn.known result.state.value) (entry.Finish held.entry.turn.known.number ∷ []) }
{
    board_laws();
    let answer = gate.fire(&mut frame);
    let _journal = held.state.journal();
    held.state.finish_configure(ticket, frame, answer);
    held
}

/// Compiles a firing of a graph, and gives back how that ended. Where memory was wanted, the board is over.
fn compile_here<'a>(
    alloc: Global,
    mut held: Held<'a, Board>,
    ticket: Ticket,
    task: CompileTask,
    workload: &mut Workload,
) -> Held<'a, Board>
    requires leave { MayLeave board_meant held.turn.known held.turn.found held.state.value }
    requires found { Finds board_meant (known_after board_meant held.turn.known held.state.value) held.state.value }
    requires ticket { ticket.worker ≡ held.turn.known.number }
    requires claimed { HasClaimed (known_after board_meant held.turn.known held.state.value) None (IsToCompile task) }
    ensures turn { result.turn ≡ held.entry.turn }
    ensures leave { MayLeave board_meant held.entry.turn.known held.entry.turn.found result.state.value }
    ensures found { Finds board_meant (known_after board_meant held.entry.turn.known result.state.value) result.state.value }
    ensures added { HasAdded (known_after board_meant held.entry.turn.known held.entry.state.value) (known_after board_meant held.entry.turn.known result.state.value) (entry.Finish held.entry.turn.known.number ∷ []) }
{
    board_laws();
    compilations_end();
    if !task.has_kept() {
        workload.add(COMPILATION);
    }
    let end = task.run(alloc);
    let _journal = held.state.journal();
    let _refused = held.state.finish_compile(alloc, ticket, end);
    held
}

/// Claims an item for the number of the pass that holds the lock, which runs none, runs it, and gives it back.
fn turn_here<'a, K: Gate>(
    alloc: Global,
    held: Held<'a, Board>,
    gate: &K,
    workload: &mut Workload,
) -> (Held<'a, Board>, TurnEnd)
    requires leave { MayLeave board_meant held.turn.known held.turn.found held.state.value }
    requires found { Finds board_meant (known_after board_meant held.turn.known held.state.value) held.state.value }
    requires may { MayWork (unnamed (K.kernels gate.now)) (known_after board_meant held.turn.known held.state.value) }
    requires idle { IsIdleAt (known_after board_meant held.turn.known held.state.value) 0 }
    ensures turn { result.0.turn ≡ held.entry.turn }
    ensures leave { MayLeave board_meant held.entry.turn.known held.entry.turn.found result.0.state.value }
    ensures found { Finds board_meant (known_after board_meant held.entry.turn.known result.0.state.value) result.0.state.value }
    ensures worked { HasWorked (known_after board_meant held.entry.turn.known held.entry.state.value) (known_after board_meant held.entry.turn.known result.0.state.value) }
    ensures over { TellsOver (known_after board_meant held.entry.turn.known result.0.state.value) result.1 }
{
    let (held, claim) = claim_here(alloc, held);
    match claim {
        Claim::Fire(ticket, frame) => (
            fire_here(held, gate, ticket, frame, workload),
            TurnEnd::Ran,
        ),
        Claim::Configure(ticket, frame) => {
            (configure_here(held, gate, ticket, frame), TurnEnd::Ran)
        }
        Claim::Copy(ticket, node, frame) => (copy_here(held, ticket, node, frame), TurnEnd::Ran),
        Claim::Compile(ticket, task) => {
            (
                compile_here(alloc, held, ticket, task, workload),
                TurnEnd::Ran,
            )
        }
        Claim::Wait => (held, TurnEnd::Waits),
        Claim::Finished => (held, TurnEnd::Over),
        Claim::Starved => (held, TurnEnd::Over),
    }
}

/// Works for the pass's number, which is the least of its numbers and runs nothing, in one holding of the lock, until the board is
/// over; or until its workload is great, where there are others to be called. The answer is whether the board is over. Each claim that
/// it adds to the journal is followed by its finish.
pub(crate) fn work_alone<K: Gate, R: Wait>(
    rt: &R,
    alloc: Global,
    lock: &Lock<Board>,
    pass: Pass<Board>,
    gate: &K,
    workload: &mut Workload,
) -> (Pass<Board>, bool)
    requires lock { pass.lock ≡ lock.now }
    requires may { MayWork (unnamed (K.kernels gate.now)) pass.known }
    requires idle { IsIdleAt pass.known 0 }
    ensures lock { result.0.lock ≡ lock.now }
    ensures worked { HasWorked pass.known result.0.known }
    ensures over { IsTrue result.1 → HasSeenOver result.0.known }
{
    let others = pass.count() > 1;
    let mut held = lock.enter(rt, pass);
    for _ in rt.forever() {
        let (next, end) = turn_here(alloc, held, gate, workload);
        match end {
            TurnEnd::Ran => {
                if others && workload.is_great() {
                    return (next.leave(), false);
                }
                held = next;
            }
            TurnEnd::Waits => return (next.leave(), false),
            TurnEnd::Over => return (next.leave(), true),
        }
    }
    unreachable!()
}
