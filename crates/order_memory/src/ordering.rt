ghost use Rattle.std.specs.Prelude.{◌≡◌, ℕ, ◌+◌, ◌<◌, ◌≤◌, ◌^◌, List as Seq, length, slice_index, All, IfOk};
ghost use Rattle.std.specs.List.{sum_by};
ghost use Rattle.memory_exclusion.specs.Paths.{Excludes};
ghost use Rattle.placement_checker.specs.Placed.{Valid, Tight};
ghost use Rattle.worker_mapping.specs.Costs.{pairs_of};
ghost use Rattle.order_memory.specs.Orders.{AreOrders, after_of, sizes_of};
ghost use Rattle.order_memory.specs.Runs.{Event, IsOrderedRun, LiveAreApart, FinishesAll};

use crate::line::line_of;
use crate::orders::{after_pairs, orders_of};
use crate::places::places_of;
use crate::tables::Ordered;
use memory_exclusion::reach;
use placement::place;
use sdf_level::{Edge, List, SingleRate};
use std::alloc::{AllocError, Global};
use worker_mapping::{Mapping, edge_pairs};

/// The size of each buffer.
fn buffer_sizes(alloc: Global, edges: &[Edge]) -> Result<Vec<u32>, AllocError>
    ensures { IfOk result (λ sizes. sizes.items ≡ sizes_of edges.now) }
{
    edges.iter().map(|edge| edge.size).collect(alloc)
}

/// The orders of the workers under a mapping, and a placement of the buffers for them (allocation after scheduling).
///
/// Each worker runs the nodes at home on it in the order of one line of all nodes, in which every place holds the least node
/// of those whose edges' tails all stand earlier. Two buffers may share cells where a path over edges and over neighbours in an
/// order leads from the head of the one to the tail of the other. The placement is first fit by size downwards, as without
/// orders, and can be higher than without them. The only error is want of memory.
pub fn ordered(
    alloc: Global,
    graph: &SingleRate,
    mapping: &Mapping,
    workers: u32,
) -> Result<Ordered, AllocError>
    requires ends { All (λ e. (e.tail < length graph.now.nodes) × (e.head < length graph.now.nodes)) graph.now.edges }
    requires ranks { length graph.now.ranks ≡ length graph.now.nodes }
    requires rising { All (λ e. slice_index graph.now.ranks e.tail < slice_index graph.now.ranks e.head) graph.now.edges }
    requires homes { length graph.now.nodes ≤ length mapping.now.home }
    requires workers { (n : ℕ) → n < length graph.now.nodes → slice_index mapping.now.home n < workers }
    requires few { length graph.now.edges + length graph.now.nodes < 2 ^ 32 }
    requires filled { All (λ e. 1 ≤ e.size) graph.now.edges }
    requires sum { sum_by (λ e. e.size) graph.now.edges < 2 ^ 32 }
    ensures orders { let edges = pairs_of graph.now.edges in
        IfOk result (λ o. AreOrders (length graph.now.nodes) edges mapping.now.home workers o.orders) }
    ensures only_orders { let edges = pairs_of graph.now.edges in
        IfOk result (λ o. (other : Seq (Seq ℕ)) → AreOrders (length graph.now.nodes) edges mapping.now.home workers other → other ≡ o.orders) }
    ensures long { IfOk result (λ o. length o.placement.offsets ≡ length graph.now.edges) }
    ensures valid { IfOk result (λ o. let after = after_of (pairs_of graph.now.edges) o.orders in
        Valid (sizes_of graph.now.edges) (Excludes after) o.placement.offsets o.placement.height) }
    ensures tight { IfOk result (λ o. let after = after_of (pairs_of graph.now.edges) o.orders in
        Tight (sizes_of graph.now.edges) (Excludes after) o.placement.offsets o.placement.height) }

    // Where each worker keeps its order, buffers that are live at once share no cell, and a run can finish every node.
    ensures apart { let edges = pairs_of graph.now.edges in
        IfOk result (λ o. (run : Seq Event) → IsOrderedRun edges o.orders run → LiveAreApart edges (sizes_of graph.now.edges) o.placement.offsets run) }
    ensures possible { let edges = pairs_of graph.now.edges in
        IfOk result (λ o. (run : Seq Event) × IsOrderedRun edges o.orders run × FinishesAll (length graph.now.nodes) run) }
{
    let nodes = graph.nodes.items().len() as u32;
    let edges = edge_pairs(alloc, graph.edges.items())?;
    let line = line_of(alloc, nodes, &edges)?;
    let orders = orders_of(alloc, mapping.home.items(), workers, &line)?;
    let after = after_pairs(alloc, &edges, &orders)?;
    let places = places_of(alloc, nodes, &line)?;
    let exclusion = reach(alloc, nodes, &after, &places)?;
    let sizes = buffer_sizes(alloc, graph.edges.items())?;
    let placement = place(alloc, &sizes, &exclusion)?;
    Ok(Ordered {
        orders: List::new(orders),
        placement,
    })
}
