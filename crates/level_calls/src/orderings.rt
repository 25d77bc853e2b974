// Orders of workers, and placements under them.
ghost use Rattle.std.specs.Prelude.{◌≡◌, ◌<◌, ◌≤◌, ◌^◌, All, IfSome, IsTrue, length, slice_index};
ghost use Rattle.std.specs.List.{sum_by};

use crate::edges::{pairs, rank_at};
use case_rows::{Trouble, answer_in, lists_text, small, smalls};
use order_memory::{Ordered, ordered};
use sdf_level::{Edge, List, Node, SingleRate};
use serde_json::Value;
use std::alloc::{AllocError, Global};
use worker_mapping::Mapping;

/// So many nodes, which are sources all.
fn nodes_of(alloc: Global, count: u32) -> Result<Vec<Node>, AllocError> {
    let mut nodes = Vec::new(alloc);
    for number in 0..count {
        nodes.push(Node::Source(number))?;
    }
    Ok(nodes)
}

/// The edges between the nodes of these pairs, whose ports are all 0, with these sizes.
fn sized_edges(
    alloc: Global,
    pairs: &[(u32, u32)],
    sizes: &[u32],
) -> Result<Vec<Edge>, AllocError> {
    let mut edges = Vec::new(alloc);
    for (ends, size) in pairs.iter().zip(sizes) {
        edges.push(Edge {
            tail: ends.0,
            tail_port: 0,
            head: ends.1,
            head_port: 0,
            size: *size,
        })?;
    }
    Ok(edges)
}

/// The row's edges, whose ports are all 0.
fn edges_of(alloc: Global, row: &Value) -> Result<Vec<Edge>, Trouble> {
    let pairs = pairs(alloc, row, "edges")?;
    let sizes = smalls(alloc, row, "sizes")?;
    if sizes.len() != pairs.len() {
        return Err(Trouble::Member("sizes"));
    }
    Ok(sized_edges(alloc, pairs.as_slice(), sizes.as_slice())?)
}

/// The single-rate graph of a row, whose nodes are sources all, and whose ports are all 0.
fn graph_of(alloc: Global, row: &Value) -> Result<SingleRate, Trouble> {
    Ok(SingleRate {
        nodes: List::new(nodes_of(alloc, small(row, "nodes")?)?),
        edges: List::new(edges_of(alloc, row)?),
        ranks: List::new(smalls(alloc, row, "ranks")?),
    })
}

/// Whether both ends of each edge are nodes.
fn are_ends(nodes: usize, edges: &[Edge]) -> bool
    ensures { IsTrue result → All (λ e. (e.tail < nodes) × (e.head < nodes)) edges.now }
{
    edges.iter().all(|edge| (edge.tail as usize) < nodes && (edge.head as usize) < nodes)
}

/// Whether the ranks rise along each edge.
fn ranks_rise(ranks: &[u32], edges: &[Edge]) -> bool
    ensures { IsTrue result → All (λ e. slice_index ranks.now e.tail < slice_index ranks.now e.head) edges.now }
{
    edges.iter().all(|edge| rank_at(ranks, edge.tail) < rank_at(ranks, edge.head))
}

/// Whether no buffer is empty.
fn are_filled(edges: &[Edge]) -> bool
    ensures { IsTrue result → All (λ e. 1 ≤ e.size) edges.now }
{
    edges.iter().all(|edge| 1 <= edge.size)
}

/// The sum of the sizes, where it is a number of 32 bits.
#[tactic(auto, using(std::proofs::lemmas::Grind::common_steps))]
fn space_of(edges: &[Edge]) -> Option<u32>
    ensures { IfSome result (λ space. space ≡ sum_by (λ e. e.size) edges.now) }
{
    let mut space = 0u32;
    for edge in edges {
        space = space.checked_add(edge.size)?;
    }
    Some(space)
}

/// Whether each home is a worker.
fn are_workers(home: &[u32], workers: u32) -> bool
    ensures { IsTrue result → All (λ h. h < workers) home.now }
{
    home.iter().all(|worker| *worker < workers)
}

/// Whether the graph is one that workers can be ordered for.
fn is_sound(graph: &SingleRate) -> bool
    ensures ends { IsTrue result → All (λ e. (e.tail < length graph.now.nodes) × (e.head < length graph.now.nodes)) graph.now.edges }
    ensures ranks { IsTrue result → length graph.now.ranks ≡ length graph.now.nodes }
    ensures rising { IsTrue result → All (λ e. slice_index graph.now.ranks e.tail < slice_index graph.now.ranks e.head) graph.now.edges }
    ensures few_nodes { IsTrue result → length graph.now.nodes ≤ 1000000 }
    ensures few_edges { IsTrue result → length graph.now.edges ≤ 1000000 }
    ensures filled { IsTrue result → All (λ e. 1 ≤ e.size) graph.now.edges }
    ensures sum { IsTrue result → sum_by (λ e. e.size) graph.now.edges < 2 ^ 32 }
{
    let nodes = graph.nodes.items().len();
    let edges = graph.edges.items();
    let ranks = graph.ranks.items();
    nodes <= 1_000_000
        && edges.len() <= 1_000_000
        && ranks.len() == nodes
        && are_ends(nodes, edges)
        && ranks_rise(ranks, edges)
        && are_filled(edges)
        && space_of(edges).is_some()
}

/// The orders, the offsets and the height.
fn text_of(alloc: Global, ordered: &Ordered) -> Result<String, AllocError> {
    let orders = lists_text(alloc, ordered.orders.items())?;
    let offsets = ordered.placement.offsets.items();
    let height = ordered.placement.height;
    format!(in alloc; "[{orders}, {offsets:?}, {height}]")
}

/// The orders of so many workers on which the nodes have these homes, and the offsets and the height of the placement of the
/// buffers.
fn placed_orders(
    alloc: Global,
    graph: &SingleRate,
    mapping: &Mapping,
    workers: u32,
) -> Result<Value, Trouble> {
    let home = mapping.home.items();
    if home.len() < graph.nodes.items().len() || !are_workers(home, workers) {
        return Err(Trouble::Member("home"));
    }
    if !is_sound(graph) {
        return Err(Trouble::Member("edges"));
    }
    let ordered = ordered(alloc, graph, mapping, workers)?;
    answer_in(alloc, text_of(alloc, &ordered))
}

/// The orders of the row's workers on which its nodes have the row's homes, and the offsets and the height of the placement of
/// its buffers.
pub fn orders_and_offsets(alloc: Global, row: &Value) -> Result<Value, Trouble> {
    let workers = small(row, "workers")?;
    let graph = graph_of(alloc, row)?;
    let mapping = Mapping {
        home: List::new(smalls(alloc, row, "home")?),
        priority: List::new(Vec::new(alloc)),
    };
    placed_orders(alloc, &graph, &mapping, workers)
}
