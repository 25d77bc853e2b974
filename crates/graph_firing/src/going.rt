// How a job goes on from stage to stage, and how it is given up.
ghost use Rattle.std.specs.Prelude.{◌≡◌, ◌≤◌, ℕ, Some, length, IfOk};
ghost use Rattle.job_preparing.specs.CompileTasks.{IsEndOf};
ghost use Rattle.job_preparing.specs.Handing.{IsNothingLent, answers};
ghost use Rattle.job_preparing.specs.View as preparing;
ghost use Rattle.job_rules.specs.Items.{compile_number, first_refusal};
ghost use Rattle.job_rules.specs.Meant.{IsFit};
ghost use Rattle.pisdf_model.specs.Valid.{AreValid};
ghost use Rattle.graph_firing.specs.Invariants.{node_lent};
ghost use Rattle.graph_firing.specs.Stages.{GoesOnWith, HasNoNodes};

use crate::nodes::run;
use crate::stage::Stage;
use job_preparing::{CompileEnd, Configuring, JobGiven};
use pisdf_meaning::Refusal;
use std::alloc::{AllocError, Global};
use std::mem;

/// Goes on to the next stage from one that has no nodes.
pub(crate) fn go_on(stage: &mut Stage, next: Stage)
    requires { HasNoNodes stage.old }
    ensures { stage.new ≡ next }
{
    match mem::replace(stage, next) {
        Stage::Waiting => {}
        Stage::Compiling => {}
        Stage::Refused(_) => {}
        Stage::Nodes(_nodes) => unreachable!(),
    }
}

/// The stage after a compilation: the nodes, each of which is free, or the refusal.
pub(crate) fn next_stage(
    alloc: Global,
    configuring: &Configuring,
    workers: u32,
    end: CompileEnd,
) -> Result<Stage, AllocError>
    requires valid { AreValid configuring.now.graphs }
    requires fit { IsFit configuring.now.graphs.graphs configuring.now.firing }
    requires ready { preparing.IsReady configuring.now }
    requires end { IsEndOf configuring.now.graphs.graphs workers configuring.now.firing (preparing.left_by configuring.now) end }
    ensures { IfOk result (GoesOnWith configuring.now workers end) }
{
    match end {
        CompileEnd::Ready(level) => {
            let running = run(alloc, configuring, level)?;
            Ok(Stage::Nodes(running))
        }
        CompileEnd::Refused(cause) => {
            let path = configuring.firing().path.copy()?;
            Ok(Stage::Refused(Refusal { path, cause }))
        }
        CompileEnd::Memory => Err(AllocError),
    }
}

/// The refusal of a configuration actor, one of which was refused.
pub(crate) fn refused_early(configuring: Configuring) -> Refusal
    requires { (refusal : Refusal) × (first_refusal (answers configuring.marks) 0 (compile_number (preparing.graph_in configuring)) ≡ Some refusal) }
    ensures { first_refusal (answers configuring.marks) 0 (compile_number (preparing.graph_in configuring)) ≡ Some result }
{
    match configuring.refusal() {
        Some(refusal) => refusal,
        None => unreachable!(),
    }
}

/// Gives up the nodes, where they are there.
pub(crate) fn end_stage(stage: Stage)
    requires { IsNothingLent (node_lent stage) }
{
    match stage {
        Stage::Waiting => {}
        Stage::Compiling => {}
        Stage::Refused(_) => {}
        Stage::Nodes(running) => running.end(),
    }
}
