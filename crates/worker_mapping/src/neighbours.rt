// The nodes at the edges of each node.
ghost use Rattle.std.specs.Prelude.{IfOk};
ghost use Rattle.worker_mapping.specs.Graph.{AreThere};
ghost use Rattle.sdf_level.specs.Lists.{lists_of};
ghost use Rattle.worker_mapping.specs.Neighbours.{AreAfter, AreCounted};

use sdf_level::empty_lists;
use std::alloc::{AllocError, Global};

/// For each node the nodes at its outgoing edges, one for each edge.
pub(crate) fn nodes_after(
    alloc: Global,
    nodes: u32,
    edges: &[(u32, u32)],
) -> Result<Vec<Vec<u32>>, AllocError>
    requires { AreThere nodes edges.now }
    ensures { IfOk result (λ lists. AreAfter nodes edges.now (lists_of lists.items)) }
{
    let mut after = empty_lists(alloc, nodes as usize)?;
    for edge in edges {
        let (tail, head) = *edge;
        after[tail as usize].push(head)?;
    }
    Ok(after)
}

/// For each node how many edges lead to it.
pub fn edges_before(
    alloc: Global,
    nodes: u32,
    edges: &[(u32, u32)],
) -> Result<Vec<usize>, AllocError>
    requires { AreThere nodes edges.now }
    ensures { IfOk result (λ counts. AreCounted nodes edges.now counts.items) }
{
    let mut before = vec![in alloc; 0usize; nodes as usize]?;
    for edge in edges {
        before[edge.1 as usize] += 1;
    }
    Ok(before)
}
