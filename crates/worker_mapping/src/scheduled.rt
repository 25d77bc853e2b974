ghost use Rattle.std.specs.Prelude.{◌≡◌, ◌<◌, ℕ, length, slice_index, IfOk};
ghost use Rattle.worker_mapping.specs.Graph.{AreThere, Rise, IsPriority, graph_of};
ghost use Rattle.worker_mapping.specs.Paths.{IsHeaviestFrom};
ghost use Rattle.worker_mapping.specs.Schedule.{IsSchedule};

use crate::entry::Entry;
use crate::neighbours::nodes_after;
use crate::priority::priorities;
use crate::schedule::list_schedule;
use sdf_level::List;
use std::alloc::{AllocError, Global};

/// The list schedule of a graph, and what it goes by.
#[derive(Debug, Drop)]
pub struct ListSchedule {
    /// for each node the greatest sum of costs along a path that begins at it
    pub priority: List<u64>,
    /// a line for each node, in the order in which nodes are placed
    pub entries: List<Entry>,
}

/// The list schedule from which `map` takes the homes (Graham 1969), of the nodes of a graph without a cycle. What it is
/// given is as for `map`. The only error is want of memory.
pub fn schedule_nodes(
    alloc: Global,
    nodes: u32,
    edges: &[(u32, u32)],
    ranks: &[u32],
    costs: &[u32],
    workers: u32,
) -> Result<ListSchedule, AllocError>
    requires edges { AreThere nodes edges.now }
    requires ranks { length ranks.now ≡ nodes }
    requires rising { Rise ranks.now edges.now }
    requires costs { length costs.now ≡ nodes }
    requires workers { 0 < workers }
    ensures priority { IfOk result (λ s. IsPriority (graph_of nodes edges.now costs.now) s.priority) }
    ensures heaviest { let graph = graph_of nodes edges.now costs.now in
        IfOk result (λ s. (n : ℕ) → n < nodes → IsHeaviestFrom graph n (slice_index s.priority n)) }
    ensures schedule { let graph = graph_of nodes edges.now costs.now in
        IfOk result (λ s. IsSchedule graph workers s.priority s.entries) }
{
    let after = nodes_after(alloc, nodes, edges)?;
    let priority = priorities(alloc, nodes, edges, ranks, costs, &after)?;
    let entries = list_schedule(alloc, nodes, edges, costs, workers, &priority, &after)?;
    Ok(ListSchedule {
        priority: List::new(priority),
        entries: List::new(entries),
    })
}
