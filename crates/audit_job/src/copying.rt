// Copies of what items gave.
ghost use Rattle.std.specs.Prelude.{◌≡◌, IfOk};
ghost use Rattle.job_rules.specs.Words.{left_of};

use pisdf_meaning::{Configured, Given, TraceRow, append_rows, copy_lists, copy_tokens, in_line};
use sdf_level::List;
use std::alloc::{AllocError, Global};

/// The same rows.
fn copy_rows(alloc: Global, rows: &[TraceRow]) -> Result<List<TraceRow>, AllocError>
    ensures { IfOk result (λ copies. copies ≡ rows.now) }
{
    let mut copies = Vec::new(alloc);
    append_rows(alloc, &mut copies, rows)?;
    Ok(List::new(copies))
}

/// What a configuration actor leaves that gives this.
pub(crate) fn left_of(alloc: Global, given: &Given) -> Result<Configured, AllocError>
    ensures { IfOk result (λ one. one ≡ left_of given.now) }
{
    Ok(Configured {
        outs: copy_lists(alloc, given.outs.items())?,
        sets: copy_tokens(alloc, given.exports.items())?,
        state: in_line(alloc, given.state.items())?,
        trace: copy_rows(alloc, given.trace.items())?,
    })
}
