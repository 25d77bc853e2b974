use crate::trace::Trace;
use pisdf_meaning::{Configured, Firing};
use sdf_level::List;

/// What a firing of a graph gave, as it goes on to the job that called it.
#[derive(Drop)]
pub struct JobGiven {
    /// The tokens of each output interface.
    pub outs: List<List<i64>>,
    /// The state that it leaves: a list for each FIFO, then one for each actor.
    pub state: List<List<i64>>,
    /// The values of the chosen parameters of the job and of those below it.
    pub trace: Trace,
    /// The values of the graph's exports.
    pub exports: List<i64>,
}

/// A firing whose configuration actors all gave something.
#[derive(Drop)]
pub struct ConfiguredFiring {
    pub firing: Firing,
    /// What each configuration actor left, in file order, without its trace.
    pub configured: List<Configured>,
    /// The trace of each.
    pub traces: List<Trace>,
}
