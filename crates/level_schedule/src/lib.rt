//! How one thread fires a level: how often each actor fires, and in which order; or why there is no such schedule (Lee and
//! Messerschmitt 1987).
#![tactic(auto)]

mod counting;
mod excess;
mod laws;
mod scheduling;
mod unscheduled;

pub use counting::are_within_limits;
pub use laws::schedules_exist;
pub use scheduling::{LevelSchedule, schedule};
pub use unscheduled::{Unscheduled, What};
