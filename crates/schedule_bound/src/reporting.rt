ghost use Rattle.std.specs.Prelude.{◌≡◌, ◌+◌, ◌-◌, ◌*◌, ◌<◌, ◌≤◌, ◌^◌, ℕ, List, length, sum, IfOk};
ghost use Rattle.worker_mapping.specs.Graph.{AreThere, Rise, graph_of};
ghost use Rattle.schedule_bound.specs.declared.slots.Slot.{Slot};
ghost use Rattle.schedule_bound.specs.Slots.{length_of};
ghost use Rattle.schedule_bound.specs.Feasible.{IsFeasible};
ghost use Rattle.schedule_bound.specs.Listed.{IsListed};
ghost use Rattle.schedule_bound.specs.Critical.{IsCritical};

use crate::critical::{critical_path, greatest_of};
use crate::listed::{length_of, slots_of};
use crate::tables::Report;
use sdf_level::List;
use std::alloc::{AllocError, Global};
use worker_mapping::schedule_nodes;

/// The sum of the costs.
fn work_of(costs: &[u32]) -> u64
    requires { length costs.now < 2 ^ 32 }
    ensures { result ≡ sum costs.now }
{
    costs.iter().map(|cost| u64::from(*cost)).sum()
}

/// A report on the list schedule of a graph without a cycle (Graham 1969).
///
/// An edge is the number of its tail and that of its head; two nodes may have several. `ranks` and `costs` have an entry for
/// each node, and ranks rise along each edge. Workers are numbered from 0. The only error is want of memory.
pub fn report(
    alloc: Global,
    nodes: u32,
    edges: &[(u32, u32)],
    ranks: &[u32],
    costs: &[u32],
    workers: u32,
) -> Result<Report, AllocError>
    requires edges { AreThere nodes edges.now }
    requires ranks { length ranks.now ≡ nodes }
    requires rising { Rise ranks.now edges.now }
    requires costs { length costs.now ≡ nodes }
    requires workers { 0 < workers }
    ensures listed { let graph = graph_of nodes edges.now costs.now in IfOk result (λ r. IsListed graph workers r.entries) }
    ensures feasible { let graph = graph_of nodes edges.now costs.now in IfOk result (λ r. IsFeasible graph workers r.entries) }
    ensures length { IfOk result (λ r. r.length ≡ length_of r.entries) }
    ensures critical { let graph = graph_of nodes edges.now costs.now in IfOk result (λ r. IsCritical graph r.path r.critical) }
    ensures work { IfOk result (λ r. r.work ≡ sum costs.now) }

    // No schedule is shorter than the critical path, nor than the work shared out over the workers.
    ensures no_shorter { let graph = graph_of nodes edges.now costs.now in
        IfOk result (λ r. (slots : List Slot) → IsFeasible graph workers slots → r.critical ≤ length_of slots) }
    ensures no_faster { let graph = graph_of nodes edges.now costs.now in
        IfOk result (λ r. (slots : List Slot) → IsFeasible graph workers slots → r.work ≤ workers * length_of slots) }

    // The list schedule is no longer than the work shared out, and the critical path on all workers but one.
    ensures no_longer { IfOk result (λ r. workers * r.length ≤ r.work + (workers - 1) * r.critical) }
{
    let schedule = schedule_nodes(alloc, nodes, edges, ranks, costs, workers)?;
    let priority = schedule.priority.items();
    let path = critical_path(alloc, nodes, edges, ranks, costs, priority)?;
    let entries = slots_of(alloc, nodes, schedule.entries.items())?;
    Ok(Report {
        length: length_of(&entries),
        entries: List::new(entries),
        critical: greatest_of(priority),
        path: List::new(path),
        work: work_of(costs),
    })
}
