// The text of a job's memory.
ghost use Rattle.std.specs.Prelude.{◌≡◌, ◌++◌, IfOk, OnOk, string_bytes};
ghost use Rattle.job_report.specs.Memory.{memory_text, offset_row, offset_rows, orders_rows, ordered_row, worker_row, worker_rows};

use crate::plan::push_height;
use job_compiler::Compiled;
use order_memory::Ordered;
use sdf_level::List;
use std::alloc::{AllocError, Global};
use std::fmt::Write;

fn push_ordered(text: &mut String, height: u32) -> Result<(), AllocError>
    ensures { OnOk result (string_bytes text.new ≡ string_bytes text.old ++ ordered_row height) }
{
    write!(text, "ordered,{height}\n")
}

fn push_offset(text: &mut String, edge: usize, offset: u32) -> Result<(), AllocError>
    ensures { OnOk result (string_bytes text.new ≡ string_bytes text.old ++ offset_row edge offset) }
{
    write!(text, "offset,{edge},{offset}\n")
}

fn push_offsets(text: &mut String, offsets: &[u32]) -> Result<(), AllocError>
    ensures { OnOk result (string_bytes text.new ≡ string_bytes text.old ++ offset_rows offsets.now) }
{
    for (edge, offset) in offsets.iter().enumerate() {
        push_offset(text, edge, *offset)?;
    }
    Ok(())
}

fn push_node(text: &mut String, worker: usize, node: u32) -> Result<(), AllocError>
    ensures { OnOk result (string_bytes text.new ≡ string_bytes text.old ++ worker_row worker node) }
{
    write!(text, "order,{worker},{node}\n")
}

fn push_worker(text: &mut String, worker: usize, nodes: &[u32]) -> Result<(), AllocError>
    ensures { OnOk result (string_bytes text.new ≡ string_bytes text.old ++ worker_rows worker nodes.now) }
{
    for node in nodes {
        push_node(text, worker, *node)?;
    }
    Ok(())
}

fn push_orders(text: &mut String, orders: &[List<u32>]) -> Result<(), AllocError>
    ensures { OnOk result (string_bytes text.new ≡ string_bytes text.old ++ orders_rows orders.now) }
{
    for (worker, nodes) in orders.iter().enumerate() {
        push_worker(text, worker, nodes.items())?;
    }
    Ok(())
}

/// The height of the plan's cells, that of the cells under the orders, a row for each edge with its offset there, and for each
/// worker a row for each of its nodes, in its order.
pub(crate) fn memory_text(
    alloc: Global,
    job: &Compiled,
    ordered: &Ordered,
) -> Result<String, AllocError>
    ensures { IfOk result (λ text. string_bytes text ≡ memory_text job.now ordered.now) }
{
    let mut text = String::new(alloc);
    push_height(&mut text, job.placement().height)?;
    push_ordered(&mut text, ordered.placement.height)?;
    push_offsets(&mut text, ordered.placement.offsets.items())?;
    push_orders(&mut text, ordered.orders.items())?;
    Ok(text)
}
