use crate::path::Path;
use param_expr::Name;
use sdf_level::List;

/// The state that an iteration leaves to the next: a list of tokens for each FIFO of the top graph, in file order, which
/// is empty where its tokens start anew at each firing; and then a list for each of its actors, in file order: the state
/// of the graph that a hierarchical actor names, in one line, and nothing for another actor.
#[derive(Drop)]
pub struct Delays {
    pub lists: List<List<i64>>,
}

/// A parameter's value in one job.
#[derive(Drop)]
pub struct TraceRow {
    pub path: Path,
    pub name: Name,
    pub value: i64,
}

/// What one firing of the top graph gave: a list of tokens for each output interface in file order, and the values of
/// the chosen parameters: of each job its own in file order, and then those of its children by actor and firing number.
#[derive(Drop)]
pub struct Iteration {
    pub outs: List<List<i64>>,
    pub trace: List<TraceRow>,
}
