//! Laws of unfolded levels: several iterations of a level as one, which has the rates of its sources and sinks multiplied.
//! The functions do nothing; their contracts are the laws. They hold for tokens of any type, for faults of any type, and
//! for any relation between a firing's inputs and its answer.
#![tactic(auto)]

mod counts;
mod runs;

pub use counts::{copies_admissible, counts_multiplied, unfolded_level, unfolded_scheduled};
pub use runs::{
    copies_run, ends_joined, level_runs_cut, parts_run, runs_cut, runs_like, tokens_cut,
};
