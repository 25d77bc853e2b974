//! The configuration actors of one firing of a graph, each of which fires once before the others, and the compilation of the
//! firing, which is made apart from its job.
#![tactic(auto)]

mod acting;
mod asking;
mod compile_task;
mod compiling;
mod configuring;
mod ending;
mod handing;
mod kept_one;
mod known;
mod left_told;
mod levels;
mod slim;
mod stage;
mod starting;
mod trace;

pub use acting::{acting_at, keeps_at};
pub use asking::{config_call, config_places, early_for};
pub use compile_task::CompileTask;
pub use compiling::{CompileEnd, Made, ReadyLevel, make};
pub use configuring::Configuring;
pub use handing::{ConfiguredFiring, JobGiven};
pub use kept_one::key_for;
pub use known::KnownEarly;
pub use left_told::LeftTold;
pub use levels::{AtHand, KeptLevels};
pub use starting::{configure, no_traces};
pub use trace::Trace;
