ghost use Rattle.std.specs.Prelude.{◌≡◌, ℕ, ◌<◌, ◌≤◌, List, length, slice_index, IfOk};
ghost use Rattle.std.specs.List.{AllByRecursion};
ghost use Rattle.worker_mapping.specs.Graph.{AreThere, Rise, IsPriority, graph_of};
ghost use Rattle.worker_mapping.specs.Paths.{IsHeaviestFrom};
ghost use Rattle.worker_mapping.specs.Schedule.{AreHomes, IsOneSchedule, times_placed};

use crate::entry::Entry;
use crate::scheduled::{ListSchedule, schedule_nodes};
use sdf_level::List;
use std::alloc::{AllocError, Global};

/// Where each node runs first, and how urgent it is.
#[derive(Debug, Drop)]
pub struct Mapping {
    /// for each node its worker in the list schedule
    pub home: List<u32>,
    /// for each node the greatest sum of costs along a path that begins at it
    pub priority: List<u64>,
}

/// The worker of each node's entry.
fn homes(alloc: Global, nodes: u32, entries: &[Entry]) -> Result<Vec<u32>, AllocError>
    requires there { AllByRecursion (λ e. e.node < nodes) entries.now }
    requires once { (n : ℕ) → n < nodes → times_placed entries.now n ≤ 1 }
    ensures long { IfOk result (λ home. length home.items ≡ nodes) }
    ensures each { IfOk result (λ home. AllByRecursion (λ e. slice_index home.items e.node ≡ e.worker) entries.now) }
{
    let mut home = vec![in alloc; 0u32; nodes as usize]?;
    for entry in entries {
        home[entry.node as usize] = entry.worker;
    }
    Ok(home)
}

/// The homes and priorities of the nodes of a graph without a cycle.
///
/// An edge is the number of its tail and that of its head; two nodes may have several. `ranks` and
/// `costs` have an entry for each node, and ranks rise along each edge. Workers are numbered from 0.
///
/// The priority of a node is its cost and the greatest priority of the nodes at its outgoing edges
/// (its level in Hu 1961). The homes are those of the list schedule (Graham 1969) in which, until
/// every node is placed, the worker that is free earliest, the least number at a tie, takes a node
/// as soon as it is free and some node is ready: of those ready by then the one of greatest
/// priority, the least number at a tie. A node is ready when all nodes before it have ended.
///
/// It takes time near linear in the edges, and for each node in the workers and in the logarithm of
/// the nodes that wait for nothing but a worker. The only error is want of memory.
pub fn map(
    alloc: Global,
    nodes: u32,
    edges: &[(u32, u32)],
    ranks: &[u32],
    costs: &[u32],
    workers: u32,
) -> Result<Mapping, AllocError>
    requires edges { AreThere nodes edges.now }
    requires ranks { length ranks.now ≡ nodes }
    requires rising { Rise ranks.now edges.now }
    requires costs { length costs.now ≡ nodes }
    requires workers { 0 < workers }
    ensures priority { IfOk result (λ m. IsPriority (graph_of nodes edges.now costs.now) m.priority) }
    ensures heaviest { let graph = graph_of nodes edges.now costs.now in
        IfOk result (λ m. (n : ℕ) → n < nodes → IsHeaviestFrom graph n (slice_index m.priority n)) }
    ensures homes { let graph = graph_of nodes edges.now costs.now in
        IfOk result (λ m. AreHomes graph workers m.priority m.home) }

    // The rules leave no choice.
    ensures only_priority { let graph = graph_of nodes edges.now costs.now in
        IfOk result (λ m. (other : List ℕ) → IsPriority graph other → other ≡ m.priority) }
    ensures one_schedule { let graph = graph_of nodes edges.now costs.now in
        IfOk result (λ m. IsOneSchedule graph workers m.priority) }
    ensures only_homes { let graph = graph_of nodes edges.now costs.now in
        IfOk result (λ m. (other : List ℕ) → AreHomes graph workers m.priority other → other ≡ m.home) }
{
    let ListSchedule { priority, entries } = schedule_nodes(
        alloc, nodes, edges, ranks, costs, workers,
    )?;
    let home = homes(alloc, nodes, entries.items())?;
    Ok(Mapping {
        home: List::new(home),
        priority,
    })
}
