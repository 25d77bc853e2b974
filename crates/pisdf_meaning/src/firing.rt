use crate::outcome::TraceRow;
use crate::path::Path;
use sdf_level::List;

/// What a firing of a graph is given.
#[derive(Drop)]
pub struct Firing {
    /// Where the job stands.
    pub path: Path,
    /// The place of the graph in its file.
    pub graph: u32,
    /// The values of the graph's inherited parameters, in file order.
    pub inherited: List<i64>,
    /// The tokens of each input interface.
    pub inputs: List<List<i64>>,
    /// The state with which the firing begins: a list for each FIFO, then one for each actor.
    pub state: List<List<i64>>,
}

/// What it gives.
#[derive(Drop)]
pub struct Given {
    /// The tokens of each output interface.
    pub outs: List<List<i64>>,
    /// The state that it leaves.
    pub state: List<List<i64>>,
    /// The values of the chosen parameters of the job and of those below it.
    pub trace: List<TraceRow>,
    /// The values of the graph's exports.
    pub exports: List<i64>,
}

/// What a configuration actor leaves.
#[derive(Drop)]
pub struct Configured {
    /// The tokens of each output.
    pub outs: List<List<i64>>,
    /// The values of the parameters that it sets.
    pub sets: List<i64>,
    /// The state of its graph, in one line; nothing, if it fires a kernel.
    pub state: List<i64>,
    /// The trace of its graph.
    pub trace: List<TraceRow>,
}

/// What one firing of an actor of a level gave.
#[derive(Drop)]
pub(crate) struct Made {
    /// The tokens of each output.
    pub(crate) outs: List<List<i64>>,
    /// The trace of the graph that it fired, if it did.
    pub(crate) trace: List<TraceRow>,
}
