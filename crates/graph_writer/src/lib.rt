//! Writes graphs as graph files, in the canonical form: compact JSON, members in the order of their bytes.
#![tactic(auto)]

mod actor;
mod fifo;
mod graph;
mod later_version;
mod list;
mod members;
mod names;
mod param;
mod port;
mod root;

pub use later_version::upgrade;
pub use root::write;
