//! One job: one firing of a graph, expanded to its single-rate graph. Its nodes are claimed with frames of leased cells, in any
//! order that its edges allow, and finished with what they wrote.
#![tactic(auto)]

mod job;
mod laws;
mod leases;
mod nodes;
mod opening;
mod ready;
mod rooms;
mod side;
mod stage;
mod starting;
mod stock;

pub use job::{Job, JobEnd};
pub use laws::{cells_have_one_owner, full_buffers_hold_tokens, live_buffers_are_apart};
pub use starting::start;
