//! Offsets for the buffers of a graph in one run of cells: first fit, by size downwards.
#![tactic(auto)]

mod by_offset;
mod enter;
mod gap;
mod least;
mod opening;
mod order;
mod placing;
mod progress;

pub use placing::{Placement, place};
