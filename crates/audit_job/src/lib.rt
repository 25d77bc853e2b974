//! One open job, as plain values: which of its items a worker is offered first, what each item is to do, what it answers, and how
//! the job ends. A journal is checked against it. It shares no state with the jobs that boards run.
#![tactic(auto)]

mod answer;
mod candidates;
mod compiling;
mod configuring;
mod copying;
mod ending;
mod firing;
mod items;
mod job;
mod marking;
mod naming;
mod offering;
mod outlets;
mod reading;
mod rows;
mod wires;
mod working;

pub use answer::{Answer, Kind, Mark};
pub use ending::outcome;
pub use items::{call_of, is_quiet, kind_of, open};
pub use job::{Job, Nodes};
pub use marking::{claim, end_call, finish, mark_open};
pub use naming::{item_of, step_of};
pub use offering::{Offer, compare_urgency, first_offer};
