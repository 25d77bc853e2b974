use crate::slots::Slot;
use sdf_level::List;

/// The list schedule of a graph, and what bounds its length.
#[derive(Debug, Drop)]
pub struct Report {
    /// for each node where and when it runs
    pub entries: List<Slot>,
    /// the greatest end, 0 with no node
    pub length: u64,
    /// the cost of the critical path
    pub critical: u64,
    /// the nodes of the critical path, in its order
    pub path: List<u32>,
    /// the sum of all costs
    pub work: u64,
}
