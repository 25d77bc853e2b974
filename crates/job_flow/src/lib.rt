//! Jobs: one firing of one graph, expanded to its single-rate graph. What its nodes read and write, when one is ready, how the
//! job ends; and that it ends as the run of one thread does.
#![tactic(auto)]

mod laws;

pub use laws::{edges_have_ports, faults_renamed, frames_told, jobs_end_as_runs, ready_stays};
