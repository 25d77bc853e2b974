//! Which buffers of a single-rate graph may never share cells.
#![tactic(auto)]

mod bits;
mod closure;
mod relation;

pub use closure::reach;
pub use relation::Reach;
