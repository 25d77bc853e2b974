// The schedule of a graph's level.
ghost use Rattle.std.specs.Prelude.{◌≡◌, ◌⊎◌, IfOk};
ghost use Rattle.level_schedule.specs.declared.unscheduled.Unscheduled.TheVariants.{Memory};
ghost use Rattle.param_resolver.specs.Numbering.{acting};
ghost use Rattle.pisdf_meaning.specs.Causes.{schedule_cause};
ghost use Rattle.pisdf_meaning.specs.Endings.{Answers};
ghost use Rattle.pisdf_meaning.specs.Preparing.{Schedules};

use crate::firing::Firing;
use crate::left_over::actors_left;
use crate::naming::refused;
use crate::refusal::{Cause, PlainFault};
use level_schedule::{LevelSchedule, Unscheduled, schedule};
use pisdf_model::Graph;
use sdf_level::Level;
use std::alloc::{AllocError, Global};

/// The cause where a graph's level has no schedule.
pub fn schedule_cause(alloc: Global, graph: &Graph, fault: Unscheduled) -> Result<Cause, AllocError>
    ensures { IfOk result (λ cause. cause ≡ schedule_cause (acting graph.now) fault) }
{
    match fault {
        Unscheduled::Rates => Ok(Cause::Rates),
        Unscheduled::Limit { what, value } => Ok(Cause::Limit { what, value }),
        Unscheduled::Deadlock { left } => Ok(Cause::Deadlock {
            left: actors_left(alloc, graph.actors.items(), left.items())?,
        }),
        Unscheduled::Memory => Ok(Cause::Rates),
    }
}

/// The schedule of a graph's level, or the refusal of the graph's firing for want of one.
pub(crate) fn scheduled(
    alloc: Global,
    graph: &Graph,
    firing: &Firing,
    level: &Level,
) -> Result<LevelSchedule, PlainFault>
    ensures { Answers (Schedules graph.now firing.now level.now) result }
{
    match schedule(alloc, level) {
        Ok(schedule) => Ok(schedule),
        Err(Unscheduled::Memory) => Err(PlainFault::Memory),
        Err(fault) => {
            let cause = schedule_cause(alloc, graph, fault)?;
            Err(refused(&firing.path, cause))
        }
    }
}
