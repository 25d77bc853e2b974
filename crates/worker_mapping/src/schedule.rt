// The list schedule of a graph.
ghost use Rattle.std.specs.Prelude.{◌≡◌, ℕ, ◌<◌, List, length, IfOk};
ghost use Rattle.worker_mapping.specs.Graph.{AreThere, Rise, graph_of};
ghost use Rattle.sdf_level.specs.Lists.{lists_of};
ghost use Rattle.worker_mapping.specs.Neighbours.{AreAfter};
ghost use Rattle.worker_mapping.specs.Schedule.{IsSchedule};

use crate::entry::Entry;
use crate::growing::{Growing, Work};
use std::alloc::{AllocError, Global};

/// The entries of the list schedule, in the order in which they are placed.
pub(crate) fn list_schedule(
    alloc: Global,
    nodes: u32,
    edges: &[(u32, u32)],
    costs: &[u32],
    workers: u32,
    priority: &[u64],
    after: &[Vec<u32>],
) -> Result<Vec<Entry>, AllocError>
    requires edges { AreThere nodes edges.now }
    requires costs { length costs.now ≡ nodes }
    requires workers { 0 < workers }
    requires priority { length priority.now ≡ nodes }
    requires after { AreAfter nodes edges.now (lists_of after.now) }
    requires acyclic { (ranks : List ℕ) × Rise ranks edges.now }
    ensures { let graph = graph_of nodes edges.now costs.now in
        IfOk result (λ entries. IsSchedule graph workers priority.now entries.items) }
{
    let work = Work {
        nodes,
        edges,
        costs,
        workers,
        priority,
        after,
    };
    let mut growing = Growing::new(alloc, &work)?;
    while let Some(entry) = growing.take(&work)? {
        growing.enter(&work, entry)?;
    }
    Ok(growing.end())
}
