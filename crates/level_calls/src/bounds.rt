// Reports on the list schedules of graphs.
use crate::edges::costed_of;
use case_rows::{Trouble, answer_in};
use schedule_bound::{Report, Slot, report};
use serde_json::Value;
use std::alloc::{AllocError, Global};

/// The slots of the nodes: of each its worker, its start and its end.
fn rows_of_slots(alloc: Global, slots: &[Slot]) -> Result<Vec<[u64; 3]>, AllocError> {
    let mut rows = Vec::new(alloc);
    for slot in slots {
        rows.push([u64::from(slot.worker), slot.start, slot.end])?;
    }
    Ok(rows)
}

/// The parts of a report, in their order.
fn text_of(alloc: Global, report: &Report) -> Result<String, AllocError> {
    let slots = rows_of_slots(alloc, report.entries.items())?;
    let length = report.length;
    let critical = report.critical;
    let path = report.path.items();
    let work = report.work;
    format!(in alloc; "[{slots:?}, {length}, {critical}, {path:?}, {work}]")
}

/// The report on the list schedule of the row's nodes, which have these costs, on so many workers: the worker, the start
/// and the end of each node, the length, the cost of the critical path, its nodes, and the work.
pub fn reported(alloc: Global, row: &Value) -> Result<Value, Trouble> {
    let costed = costed_of(alloc, row)?;
    let report = report(
        alloc,
        costed.graph.nodes,
        costed.graph.edges.as_slice(),
        costed.graph.ranks.as_slice(),
        costed.costs.as_slice(),
        costed.workers,
    )?;
    answer_in(alloc, text_of(alloc, &report))
}
