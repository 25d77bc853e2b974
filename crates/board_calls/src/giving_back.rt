// What a worker holds is run, and comes back to the board.
ghost use Rattle.std.specs.Prelude.{◌≡◌, IsOk, None, Some};
ghost use Rattle.firing_board.specs.Finishes.{MayComeBack, MayEnd};
ghost use Rattle.worker_crew.specs.Asked.{IsToCompile, IsToCopy, IsToFire};
ghost use Rattle.board_calls.specs.Holding.{GivesBack, HasClaimed, HasOurKernels};

use crate::told::Told;
use case_rows::Trouble;
use firing_board::{Board, Ticket};
use job_preparing::{CompileEnd, CompileTask};
use kernel_gate::{Frame, Gate, KernelFault};
use kernel_library::Library;
use sdf_level::Node;
use special_actors::run_special;
use std::alloc::Global;
use worker_crew::{board_laws, compilations_end};

/// Gives back the frame of a kernel or a node.
fn give_back(board: &mut Board, ticket: Ticket, frame: Frame, answer: Result<(), KernelFault>)
    requires { HasClaimed board.old ticket.worker ticket (Some frame.places) (MayComeBack board.old.key frame answer (IsOk answer)) }
    ensures { GivesBack ticket.worker board.old board.new }
{
    board_laws();
    let _before = board.journal();
    board.finish_fire(ticket, frame, answer);
    let _after = board.journal();
}

/// Gives back the frame of a configuration actor's kernel.
fn give_back_configured(
    board: &mut Board,
    ticket: Ticket,
    frame: Frame,
    answer: Result<(), KernelFault>,
)
    requires { HasClaimed board.old ticket.worker ticket (Some frame.places) (MayComeBack board.old.key frame answer (IsOk answer)) }
    ensures { GivesBack ticket.worker board.old board.new }
{
    board_laws();
    let _before = board.journal();
    board.finish_configure(ticket, frame, answer);
    let _after = board.journal();
}

/// Gives back how a compilation ended.
fn give_back_compiled(
    alloc: Global,
    board: &mut Board,
    ticket: Ticket,
    end: CompileEnd,
) -> Result<(), Trouble>
    requires { HasClaimed board.old ticket.worker ticket None (MayEnd board.old.key end) }
    ensures { GivesBack ticket.worker board.old board.new }
{
    board_laws();
    let _before = board.journal();
    let finished = board.finish_compile(alloc, ticket, end);
    let _after = board.journal();
    match finished {
        Ok(()) => Ok(()),
        Err(_) => Err(Trouble::Memory),
    }
}

/// Fires a kernel.
pub(crate) fn fire(
    board: &mut Board,
    ticket: Ticket,
    mut frame: Frame,
    told: &mut Told,
) -> Result<(), Trouble>
    requires kernels { HasOurKernels board.old }
    requires claimed { HasClaimed board.old ticket.worker ticket (Some frame.places) (IsToFire frame board.old.key) }
    ensures { GivesBack ticket.worker board.old board.new }
{
    let answer = Library.fire(&mut frame);
    let seen = told.see_answer(ticket.worker, &frame, answer);
    give_back(board, ticket, frame, answer);
    seen
}

/// Fires the kernel of a configuration actor.
pub(crate) fn configure(
    board: &mut Board,
    ticket: Ticket,
    mut frame: Frame,
    told: &mut Told,
) -> Result<(), Trouble>
    requires kernels { HasOurKernels board.old }
    requires claimed { HasClaimed board.old ticket.worker ticket (Some frame.places) (IsToFire frame board.old.key) }
    ensures { GivesBack ticket.worker board.old board.new }
{
    let answer = Library.fire(&mut frame);
    let seen = told.see_answer(ticket.worker, &frame, answer);
    give_back_configured(board, ticket, frame, answer);
    seen
}

/// Copies a node's inputs to its outputs.
pub(crate) fn copy(
    board: &mut Board,
    ticket: Ticket,
    node: Node,
    mut frame: Frame,
    told: &mut Told,
) -> Result<(), Trouble>
    requires { HasClaimed board.old ticket.worker ticket (Some frame.places) (IsToCopy node frame board.old.key) }
    ensures { GivesBack ticket.worker board.old board.new }
{
    run_special(&node, &mut frame);
    let seen = told.see_answer(ticket.worker, &frame, Ok(()));
    give_back(board, ticket, frame, Ok(()));
    seen
}

/// Compiles a firing of a graph.
pub(crate) fn compile(
    alloc: Global,
    board: &mut Board,
    ticket: Ticket,
    task: CompileTask,
    told: &mut Told,
) -> Result<(), Trouble>
    requires { HasClaimed board.old ticket.worker ticket None (IsToCompile task board.old.key) }
    ensures { GivesBack ticket.worker board.old board.new }
{
    board_laws();
    compilations_end();
    let _journal = board.journal();
    let end = task.run(alloc);
    let seen = told.see_end(ticket.worker, &end);
    give_back_compiled(alloc, board, ticket, end)?;
    seen
}
