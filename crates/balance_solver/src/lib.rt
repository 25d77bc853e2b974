//! How often each actor of a level fires, before its sources and sinks are looked at: the least vector that solves the
//! balance equations (Lee and Messerschmitt 1987).
#![tactic(auto)]

mod join;
mod pair;
mod solve;
mod unsolved;

pub use solve::repetition;
pub use unsolved::Unsolved;
