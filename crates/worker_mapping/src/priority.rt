// The priority of each node: the heaviest path that begins at it.
ghost use Rattle.std.specs.Prelude.{◌≡◌, ◌^◌, ◌<◌, length, map, slice_index, All, IfOk};
ghost use Rattle.worker_mapping.specs.Ranked.{IsByRank};
ghost use Rattle.worker_mapping.specs.Graph.{AreThere, Rise, graph_of, greatest, IsPriority};
ghost use Rattle.sdf_level.specs.Lists.{lists_of};
ghost use Rattle.worker_mapping.specs.Neighbours.{AreAfter};

use std::alloc::{AllocError, Global};

/// The greatest priority of these nodes, 0 where there are none.
fn most_of(nodes: &[u32], priority: &[u64]) -> u64
    requires { All (λ n. n < length priority.now) nodes.now }
    ensures { result ≡ greatest (map (slice_index priority.now) nodes.now) }
{
    let mut most = 0u64;
    for node in nodes {
        most = most.max(priority[*node as usize]);
    }
    most
}

/// The nodes with their ranks, by rank upwards.
fn by_rank(alloc: Global, ranks: &[u32]) -> Result<Vec<(u32, u32)>, AllocError>
    requires { length ranks.now < 2 ^ 32 }
    ensures { IfOk result (λ order. IsByRank ranks.now order.items) }
{
    let mut order = Vec::with_capacity(alloc, ranks.len())?;
    for (node, rank) in ranks.iter().enumerate() {
        order.push((*rank, node as u32))?;
    }
    order.sort_unstable_by_key(|entry| entry.0);
    Ok(order)
}

/// The priority of each node: its cost and the greatest priority of the nodes at its outgoing edges.
pub(crate) fn priorities(
    alloc: Global,
    nodes: u32,
    edges: &[(u32, u32)],
    ranks: &[u32],
    costs: &[u32],
    after: &[Vec<u32>],
) -> Result<Vec<u64>, AllocError>
    requires edges { AreThere nodes edges.now }
    requires ranks { length ranks.now ≡ nodes }
    requires rising { Rise ranks.now edges.now }
    requires costs { length costs.now ≡ nodes }
    requires after { AreAfter nodes edges.now (lists_of after.now) }
    ensures { let graph = graph_of nodes edges.now costs.now in
        IfOk result (λ priority. IsPriority graph priority.items) }
{
    let mut order = by_rank(alloc, ranks)?;
    let mut priority = vec![in alloc; 0u64; costs.len()]?;
    while let Some((_rank, node)) = order.pop() {
        let n = node as usize;
        let most = most_of(&after[n], &priority);
        priority[n] = costs[n] as u64 + most;
    }
    Ok(priority)
}
