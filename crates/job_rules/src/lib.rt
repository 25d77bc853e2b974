//! The rules of a job, which is one firing of a graph: what its items do, once all before them is there, and how it ends; and
//! that it ends as the firing does in one thread.
#![tactic(auto)]

mod laws;

pub use laws::{jobs_mean_firings, rules_are_lawful, tasks_fit};
