// New rows.
ghost use Rattle.std.specs.Prelude.{◌≡◌, ◌∷◌, ◌++◌, [], All, is_some, IfOk, None, OnErr, OnOk};
ghost use Rattle.graph_firing.specs.View.{IsOfferedCall};
ghost use Rattle.firing_board.specs.Table.Slots.{IsUnlent, IsVacant, SameRows};
ghost use Rattle.std.specs.List.{count_by};
ghost use Rattle.graph_firing.specs.Paths.{step_of};

use crate::table::row::Row;
use graph_firing::OpenJob;
use sdf_level::List;
use std::alloc::{AllocError, Global};

/// The row of the top job.
pub(crate) fn top_row(alloc: Global, job: OpenJob) -> Row
    ensures { result ≡ record { job = job; upper = None; place = []; steps = [] } }
{
    Row {
        job,
        upper: None,
        place: List::new(Vec::new(alloc)),
        steps: List::new(Vec::new(alloc)),
    }
}

/// The place of the job that an item of a row calls.
pub(crate) fn child_place(alloc: Global, row: &Row, item: usize) -> Result<List<usize>, AllocError>
    ensures { IfOk result (λ place. place ≡ item ∷ row.now.place) }
{
    let mut place = Vec::new(alloc);
    place.push(item)?;
    place.extend_from_slice(row.place.items())?;
    Ok(List::new(place))
}

/// The path of the job that an item of a row calls.
pub(crate) fn child_steps(
    alloc: Global,
    row: &Row,
    item: usize,
) -> Result<List<(u32, u32)>, AllocError>
    requires { IsOfferedCall row.now.job item }
    ensures { IfOk result (λ steps. steps ≡ row.now.steps ++ step_of row.now.job item ∷ []) }
{
    let mut steps = Vec::new(alloc);
    steps.extend_from_slice(row.steps.items())?;
    steps.push(row.job.step(item))?;
    Ok(List::new(steps))
}

/// Adds a key at which no row stands.
fn add_key(rows: &mut Vec<Option<Row>>) -> Result<(), AllocError>
    ensures added { OnOk result (rows.new.items ≡ rows.old.items ++ None ∷ []) }
    ensures refused { OnErr result (rows.new.items ≡ rows.old.items) }
{
    rows.reserve(1)?;
    rows.push_reserved(None);
    Ok(())
}

/// A key at which no row stands.
pub(crate) fn vacant_key(rows: &mut Vec<Option<Row>>) -> Result<usize, AllocError>
    ensures vacant { IfOk result (λ key. IsVacant rows.new.items key) }
    ensures same { SameRows rows.old.items rows.new.items }
{
    for key in 0..rows.len() {
        if rows[key].is_none() {
            return Ok(key);
        }
    }
    let key = rows.len();
    add_key(rows)?;
    Ok(key)
}

/// How many rows there are.
pub(crate) fn count_rows(rows: &[Option<Row>]) -> usize
    ensures { result ≡ count_by is_some rows.now }
{
    let mut count = 0;
    for row in rows {
        if row.is_some() {
            count += 1;
        }
    }
    count
}

/// Gives up rows of which nothing is lent.
pub(crate) fn end_rows(mut rows: Vec<Option<Row>>)
    requires { All IsUnlent rows.items }
{
    while let Some(slot) = rows.pop() {
        match slot {
            Some(
                Row {
                    job,
                    upper: _,
                    place: _,
                    steps: _,
                },
            ) => job.end(),
            None => {}
        }
    }
    rows.destroy_empty();
}
