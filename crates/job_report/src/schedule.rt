// The text of a report on a schedule.
ghost use Rattle.std.specs.Prelude.{◌≡◌, ◌++◌, IfOk, OnOk, string_bytes};
ghost use Rattle.job_report.specs.Schedule.{path_row, schedule_text, start_row, start_rows};

use schedule_bound::{Report, Slot};
use std::alloc::{AllocError, Global};
use std::fmt::Write;

fn push_path(text: &mut String, path: &[u32]) -> Result<(), AllocError>
    ensures { OnOk result (string_bytes text.new ≡ string_bytes text.old ++ path_row path.now) }
{
    text.push_str("path")?;
    for node in path {
        write!(text, ",{node}")?;
    }
    text.push_str("\n")
}

fn push_start(text: &mut String, node: usize, slot: Slot) -> Result<(), AllocError>
    ensures { OnOk result (string_bytes text.new ≡ string_bytes text.old ++ start_row node slot) }
{
    let Slot { worker, start, end } = slot;
    write!(text, "start,{node},{worker},{start},{end}\n")
}

fn push_starts(text: &mut String, slots: &[Slot]) -> Result<(), AllocError>
    ensures { OnOk result (string_bytes text.new ≡ string_bytes text.old ++ start_rows slots.now) }
{
    for (node, slot) in slots.iter().enumerate() {
        push_start(text, node, *slot)?;
    }
    Ok(())
}

/// A report: the cost of the critical path, the work, the length of the list schedule, the nodes of the critical path, and
/// for each node where and when it runs.
pub(crate) fn schedule_text(alloc: Global, report: &Report) -> Result<String, AllocError>
    ensures { IfOk result (λ text. string_bytes text ≡ schedule_text report.now) }
{
    let critical = report.critical;
    let work = report.work;
    let length = report.length;
    let mut text = format!(in alloc; "critical,{critical}\nwork,{work}\nlength,{length}\n")?;
    push_path(&mut text, report.path.items())?;
    push_starts(&mut text, report.entries.items())?;
    Ok(text)
}
