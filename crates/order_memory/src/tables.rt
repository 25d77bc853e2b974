use placement::Placement;
use sdf_level::List;

/// What each worker does in turn, and where the buffers lie.
#[derive(Debug, Drop)]
pub struct Ordered {
    /// for each worker its nodes, in the order in which it runs them
    pub orders: List<List<u32>>,
    /// where the buffer of each edge lies
    pub placement: Placement,
}
