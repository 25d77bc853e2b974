// Graphs of nodes and edges, as the rows of placement and mapping give them.
ghost use Rattle.std.specs.Prelude.{◌≡◌, ◌<◌, IfOk, IsTrue, length, slice_index};
ghost use Rattle.worker_mapping.specs.Graph.{AreThere, Rise};

use case_rows::{Trouble, items, small, small_of, smalls};
use serde_json::Value;
use std::alloc::Global;

/// The nodes, edges and ranks of a row, none of which are checked.
#[derive(Drop)]
pub struct Edges {
    pub nodes: u32,
    /// The tail and the head of each.
    pub edges: Vec<(u32, u32)>,
    /// The rank of each node.
    pub ranks: Vec<u32>,
}

/// A pair of numbers.
pub fn pair_of(item: &Value, name: &'static str) -> Result<(u32, u32), Trouble> {
    let Some(ends) = item.as_array() else {
        return Err(Trouble::Member(name));
    };
    match ends.as_slice() {
        [first, second] => Ok((small_of(first, name)?, small_of(second, name)?)),
        _ => Err(Trouble::Member(name)),
    }
}

/// The pairs of a chain, behind those that are there.
fn push_chain(pairs: &mut Vec<(u32, u32)>, count: u32) -> Result<(), Trouble> {
    for tail in 0..count {
        pairs.push((tail, tail.saturating_add(1)))?;
    }
    Ok(())
}

/// The row's pairs of numbers of this name. Instead of a pair there may stand a chain of pairs: `{"chain": n}` are the
/// pairs of 0 and 1, of 1 and 2, and so on, n of them.
pub fn pairs(alloc: Global, row: &Value, name: &'static str) -> Result<Vec<(u32, u32)>, Trouble> {
    let mut pairs = Vec::new(alloc);
    for item in items(row, name)? {
        if item.is_array() {
            pairs.push(pair_of(item, name)?)?;
        } else {
            push_chain(&mut pairs, small(item, "chain")?)?;
        }
    }
    Ok(pairs)
}

/// The row's nodes, edges and ranks.
pub fn edges_of(alloc: Global, row: &Value) -> Result<Edges, Trouble> {
    Ok(Edges {
        nodes: small(row, "nodes")?,
        edges: pairs(alloc, row, "edges")?,
        ranks: smalls(alloc, row, "ranks")?,
    })
}

/// Whether both ends of each edge are nodes.
pub fn are_there(nodes: u32, edges: &[(u32, u32)]) -> bool
    ensures { IsTrue result → AreThere nodes edges.now }
{
    edges.iter().all(|edge| edge.0 < nodes && edge.1 < nodes)
}

/// The rank of a node, 0 where it has none.
pub fn rank_at(ranks: &[u32], node: u32) -> u32
    ensures { result ≡ slice_index ranks.now node }
{
    ranks.get(node as usize).copied().unwrap_or(0)
}

/// Whether the ranks rise along each edge.
pub fn rise(ranks: &[u32], edges: &[(u32, u32)]) -> bool
    ensures { IsTrue result → Rise ranks.now edges.now }
{
    edges
        .iter()
        .all(|edge| rank_at(ranks, edge.0) < rank_at(ranks, edge.1))
}

/// The nodes of a row with their costs, and workers for them.
#[derive(Drop)]
pub struct Costed {
    pub graph: Edges,
    /// The cost of each node.
    pub costs: Vec<u32>,
    pub workers: u32,
}

/// The row's nodes, edges, ranks, costs and workers, where a schedule can be made for them.
pub fn costed_of(alloc: Global, row: &Value) -> Result<Costed, Trouble>
    ensures there { IfOk result (λ c. AreThere c.graph.nodes c.graph.edges.items) }
    ensures ranks { IfOk result (λ c. length c.graph.ranks.items ≡ c.graph.nodes) }
    ensures rising { IfOk result (λ c. Rise c.graph.ranks.items c.graph.edges.items) }
    ensures costs { IfOk result (λ c. length c.costs.items ≡ c.graph.nodes) }
    ensures workers { IfOk result (λ c. 0 < c.workers) }
{
    let workers = small(row, "workers")?;
    let costs = smalls(alloc, row, "costs")?;
    let graph = edges_of(alloc, row)?;
    let nodes = graph.nodes as usize;
    if graph.ranks.len() != nodes || costs.len() != nodes || workers == 0 {
        return Err(Trouble::Member("costs"));
    }
    let edges = graph.edges.as_slice();
    if !are_there(graph.nodes, edges) || !rise(graph.ranks.as_slice(), edges) {
        return Err(Trouble::Member("edges"));
    }
    Ok(Costed {
        graph,
        costs,
        workers,
    })
}
