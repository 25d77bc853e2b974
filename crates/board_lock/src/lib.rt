//! A lock round one state, whose passes know what they have done to it.
#![tactic(auto)]

mod lock;
mod locked;
mod pass;
mod pauses;
mod rule;
mod view;

pub use lock::{Lock, NotMade};
pub use locked::Locked;
pub use pass::{Held, Pass, Turn};
pub use pauses::Pauses;
