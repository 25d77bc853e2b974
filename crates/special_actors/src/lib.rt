//! The nodes of a single-rate graph that fire no kernel, after PREESM's special actors: each copies tokens from the inputs
//! of its frame to the outputs.
#![tactic(auto)]

mod gathering;
mod repeating;
mod running;
mod spreading;

pub use running::run_special;
