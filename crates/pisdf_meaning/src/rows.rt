// Rows of traces.
ghost use Rattle.std.specs.Prelude.{◌≡◌, ◌<◌, ◌++◌, List as Seq, [], set, slice_index_or, length, IfOk, OnOk};
ghost use Rattle.sdf_level.specs.Lists.{lists_of};

use crate::naming::copy_name;
use crate::outcome::TraceRow;
use std::alloc::{AllocError, Global};

fn copy_row(alloc: Global, row: &TraceRow) -> Result<TraceRow, AllocError>
    ensures { IfOk result (λ r. r ≡ row.now) }
{
    Ok(TraceRow {
        path: row.path.copy()?,
        name: copy_name(alloc, &row.name)?,
        value: row.value,
    })
}

/// Adds copies of rows.
///
/// # Errors
///
/// Want of memory. Some of the rows may have been added.
pub fn append_rows(
    alloc: Global,
    rows: &mut Vec<TraceRow>,
    more: &[TraceRow],
) -> Result<(), AllocError>
    ensures { OnOk result (rows.new.items ≡ rows.old.items ++ more.now) }
{
    for row in more {
        rows.push(copy_row(alloc, row)?)?;
    }
    Ok(())
}

/// The same for the rows of one actor.
pub(crate) fn append_to(
    alloc: Global,
    rows: &mut [Vec<TraceRow>],
    actor: u32,
    more: &[TraceRow],
) -> Result<(), AllocError>
    requires { actor < length rows.old }
    ensures { OnOk result (lists_of rows.new ≡ set (lists_of rows.old) actor (slice_index_or (lists_of rows.old) actor [] ++ more.now)) }
{
    append_rows(alloc, &mut rows[actor as usize], more)
}
