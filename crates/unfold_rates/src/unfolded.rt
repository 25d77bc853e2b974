use pisdf_model::Graphs;
use sdf_level::List;
use std::sync::Arc;

/// Graphs one iteration of which is so many iterations of other graphs.
#[derive(Drop)]
pub struct Unfolded {
    /// The other graphs, each rate of an interface of the top graph multiplied by `times`.
    pub graphs: Arc<Graphs>,
    /// How often each actor of the top graph fires in one iteration of the other graphs.
    pub counts: List<u32>,
    /// How many iterations of the other graphs are one of these.
    pub times: u32,
}
