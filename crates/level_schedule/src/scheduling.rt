ghost use Rattle.std.specs.Prelude.{◌≡◌, ◌⊎◌, IfOk, IfErr, Ok, Err};
ghost use Rattle.level_schedule.specs.Schedules.{IsScheduled, IsUnscheduled};

use crate::excess::{Excess, first_over};
use crate::unscheduled::Unscheduled;
use balance_solver::repetition;
use firing_order::order;
use interface_rules::factor;
use sdf_level::{Level, List, Turn};
use std::alloc::Global;

/// How one thread fires a level.
#[derive(Debug, Drop)]
pub struct LevelSchedule {
    /// The repetition vector: how often each actor fires.
    pub counts: List<u32>,
    /// Its firings in the order of one thread: in every place the least actor that can fire there.
    pub order: List<Turn>,
}

/// The schedule of a level. There is at most one.
///
/// # Errors
///
/// Exactly one of these, where there is no schedule: `Rates` where the level has no repetition vector; else `Limit` with
/// the first of firings, links and tokens whose count is over its limit; else `Deadlock`. And `Memory` where there was
/// none.
pub fn schedule(alloc: Global, level: &Level) -> Result<LevelSchedule, Unscheduled>
    ensures scheduled { IfOk result (IsScheduled level.now) }
    ensures unscheduled { IfErr result (λ fault. IsUnscheduled level.now fault ⊎ (fault ≡ Unscheduled.Memory)) }

    // Where there is a schedule the answer is that one, and where there is a fault that one, unless there was no memory.
    ensures only_schedule { (s : LevelSchedule) → IsScheduled level.now s → (result ≡ Ok s) ⊎ (result ≡ Err Unscheduled.Memory) }
    ensures only_fault { (fault : Unscheduled) → IsUnscheduled level.now fault → (result ≡ Err fault) ⊎ (result ≡ Err Unscheduled.Memory) }
{
    let base = repetition(alloc, level)?;
    let counts = factor(alloc, level, base.items())?;
    if let Some(Excess { what, value }) = first_over(level, counts.items()) {
        return Err(Unscheduled::Limit { what, value });
    }
    let order = order(alloc, level, counts.items())?;
    Ok(LevelSchedule { counts, order })
}
