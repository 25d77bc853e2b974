// The lines of links: what firings read of them and put on them, and what a run leaves of them.
ghost use Rattle.std.specs.Prelude.{◌≡◌, length};

use crate::edges::pair_of;
use case_rows::{Trouble, answer_in, level_of, lists, lists_text, member, small, smalls};
use level_lines::{kept, left, ports_of, put, read};
use sdf_level::Level;
use serde_json::Value;
use std::alloc::Global;

/// The row's lines.
fn lines_of(alloc: Global, row: &Value) -> Result<Vec<Vec<i64>>, Trouble> {
    let mut lines = Vec::new(alloc);
    for line in lists(alloc, row, "lines")?.into_items() {
        lines.push(line.into_items())?;
    }
    Ok(lines)
}

/// What the firing `read` of the row, an actor and the number of the firing, reads at each input port.
fn inputs_read(
    alloc: Global,
    row: &Value,
    level: &Level,
    lines: &[Vec<i64>],
) -> Result<Value, Trouble>
    requires { length lines.now ≡ length level.now.links }
{
    let (actor, turn) = pair_of(member(row, "read")?, "read")?;
    if actor >= level.actors {
        return Err(Trouble::Member("read"));
    }
    let sources = lists(alloc, row, "sources")?;
    if sources.items().len() != level.sources.items().len() {
        return Err(Trouble::Member("sources"));
    }
    let ports = ports_of(alloc, level)?;
    let inputs = read(alloc, level, &ports, sources.items(), lines, actor, turn)?;
    answer_in(alloc, lists_text(alloc, inputs.items()))
}

/// The lines after a firing of the row's actor `put` has put the row's `outputs` on them.
fn outputs_put(
    alloc: Global,
    row: &Value,
    level: &Level,
    lines: &mut [Vec<i64>],
) -> Result<Value, Trouble>
    requires { length lines.old ≡ length level.now.links }
{
    let actor = small(row, "put")?;
    if actor >= level.actors {
        return Err(Trouble::Member("put"));
    }
    let outputs = lists(alloc, row, "outputs")?;
    let ports = ports_of(alloc, level)?;
    put(level, &ports, lines, actor, outputs.items())?;
    answer_in(alloc, format!(in alloc; "{lines:?}"))
}

/// What is left on each link, of which the row's lines are all the tokens, after the row's counts of firings.
fn lines_left(
    alloc: Global,
    row: &Value,
    level: &Level,
    lines: &[Vec<i64>],
) -> Result<Value, Trouble>
    requires { length lines.now ≡ length level.now.links }
{
    let counts = smalls(alloc, row, "counts")?;
    if counts.len() != level.actors as usize {
        return Err(Trouble::Member("counts"));
    }
    let lists = left(alloc, level, counts.as_slice(), lines)?;
    answer_in(alloc, lists_text(alloc, lists.items()))
}

/// What the row asks of the lines of a level.
fn asked(
    alloc: Global,
    row: &Value,
    level: &Level,
    lines: &mut [Vec<i64>],
) -> Result<Value, Trouble> {
    if lines.len() != level.links.items().len() {
        return Err(Trouble::Member("lines"));
    }
    if row.get("read").is_some() {
        return inputs_read(alloc, row, level, lines);
    }
    if row.get("put").is_some() {
        return outputs_put(alloc, row, level, lines);
    }
    if row.get("counts").is_some() {
        return lines_left(alloc, row, level, lines);
    }
    let lists = kept(alloc, level, lines)?;
    answer_in(alloc, lists_text(alloc, lists.items()))
}

/// Of the row's level and the `lines` of its links: what the firing `read` reads; or the lines after the firing `put`; or
/// what is left after so many `counts`; or, with none of these, what the sinks keep.
pub fn lined(alloc: Global, row: &Value) -> Result<Value, Trouble> {
    let level = level_of(alloc, row)?;
    let mut lines = lines_of(alloc, row)?;
    asked(alloc, row, &level, lines.as_mut_slice())
}
