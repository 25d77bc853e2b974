// What the nodes of a single-rate graph cost, and its edges as pairs.
ghost use Rattle.std.specs.Prelude.{◌≡◌, ◌≢◌, ◌+◌, ◌<◌, ◌^◌, All, IfOk, sum_by};
ghost use Rattle.worker_mapping.specs.Costs.{pairs_of, AreCosts};

use sdf_level::Edge;
use std::alloc::{AllocError, Global};

/// The tail and the head of each edge. The only error is want of memory.
pub fn edge_pairs(alloc: Global, edges: &[Edge]) -> Result<Vec<(u32, u32)>, AllocError>
    ensures { IfOk result (λ pairs. pairs.items ≡ pairs_of edges.now) }
{
    edges
        .iter()
        .map(|edge| (edge.tail, edge.head))
        .collect(alloc)
}

/// For each node 1 and the sizes of all its edges. The only error is want of memory.
pub fn node_costs(alloc: Global, nodes: u32, edges: &[Edge]) -> Result<Vec<u32>, AllocError>
    requires ends { All (λ edge. (edge.tail < nodes) × (edge.head < nodes)) edges.now }
    requires two_ends { All (λ edge. edge.tail ≢ edge.head) edges.now }
    requires fits { 1 + sum_by (λ edge. edge.size) edges.now < 2 ^ 32 }
    ensures { IfOk result (λ costs. AreCosts nodes edges.now costs.items) }
{
    let mut costs = vec![in alloc; 1u32; nodes as usize]?;
    for edge in edges {
        costs[edge.tail as usize] += edge.size;
        costs[edge.head as usize] += edge.size;
    }
    Ok(costs)
}
