// Rows of a trace, by the firing in which they stand.
ghost use Rattle.std.specs.Prelude.{◌≡◌, ◌≤◌, ◌++◌, IsTrue, drop, length, map, IfOk, OnOk};
ghost use Rattle.std.specs.List.{AllPass};
ghost use Rattle.pisdf_meaning.specs.declared.outcome.TraceRow.{TraceRow as Row};
ghost use Rattle.pisdf_meaning.specs.Endings.{child_path};
ghost use Rattle.firing_laws.specs.Moving.{moved_row as moved};
ghost use Rattle.unfold_rates.specs.Cut.{is_within as within};
ghost use Rattle.unfold_rates.specs.Spans.{IsSpan};

use param_expr::Name;
use pisdf_meaning::{Path, TraceRow};
use std::alloc::{AllocError, Global};

/// The path of a firing of an actor of the top graph.
pub(crate) fn firing_path(
    alloc: Global,
    top: &Name,
    actor: &Name,
    firing: u32,
) -> Result<Name, AllocError>
    ensures { IfOk result (λ path. path ≡ child_path top.now actor.now firing) }
{
    let mut text = String::from_str(alloc, top.text())?;
    text.push_str("/")?;
    text.push_str(actor.text())?;
    text.push_str(":")?;
    let number = format!(in alloc; "{firing}")?;
    text.push_str(number.as_str())?;
    Ok(Name::new(text))
}

/// Whether a path is this one, or goes on from it with `/`.
fn is_within(path: &[u8], other: &[u8]) -> bool
    ensures { result ≡ within path.now other.now }
{
    other.starts_with(path) && (other.len() == path.len() || other[path.len()] == b'/')
}

/// Where the rows within a path end, that stand from a place on.
pub(crate) fn end_of_rows(rows: &[TraceRow], start: usize, path: &Name) -> usize
    requires { start ≤ length rows.now }
    ensures { IsSpan rows.now path.now start result }
{
    let mut end = start;
    while end < rows.len()
        && is_within(
            path.text().as_bytes(),
            rows[end].path.text().text().as_bytes(),
        )
    {
        end += 1;
    }
    end
}

/// What a path within another has after that.
fn rest_after<'a>(path: &'a str, from: &str) -> &'a str
    requires { IsTrue (within from.now path.now) }
    ensures { result.now ≡ drop (length from.now) path.now }
{
    match path.strip_prefix(from) {
        Some(rest) => rest,
        None => unreachable!(),
    }
}

/// The row at another path, which goes on as its own did.
fn moved_row(alloc: Global, row: &TraceRow, from: &Name, to: &Name) -> Result<TraceRow, AllocError>
    requires { IsTrue (within from.now row.now.path) }
    ensures { IfOk result (λ r. r ≡ moved from.now to.now row.now) }
{
    let mut text = String::from_str(alloc, to.text())?;
    text.push_str(rest_after(row.path.text().text(), from.text()))?;
    Ok(TraceRow {
        path: Path::new(alloc, Name::new(text))?,
        name: row.name.clone()?,
        value: row.value,
    })
}

/// Adds rows within a path, at another instead.
pub(crate) fn push_moved(
    alloc: Global,
    rows: &[TraceRow],
    from: &Name,
    to: &Name,
    trace: &mut Vec<TraceRow>,
) -> Result<(), AllocError>
    requires { AllPass (λ (row : Row). within from.now row.path) rows.now }
    ensures { OnOk result (trace.new.items ≡ trace.old.items ++ map (moved from.now to.now) rows.now) }
{
    for row in rows {
        trace.push(moved_row(alloc, row, from, to)?)?;
    }
    Ok(())
}
