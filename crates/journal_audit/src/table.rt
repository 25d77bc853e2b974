// The open jobs.
ghost use Rattle.std.specs.Prelude.{◌≡◌, ◌↔◌, ◌++◌, ◌∷◌, [], ℕ, IfOk, IsSome, IsTrue, None, Some};
ghost use Rattle.journal_audit.specs.Table.{IsAt, IsKeyOf, IsVacant, SameRows, row_at};

use audit_job::{Job, Offer};
use sdf_level::List;
use std::alloc::{AllocError, Global};

/// An open job, and where it stands.
#[derive(Drop)]
pub(crate) struct Row {
    pub(crate) job: Job,
    /// The number of the item that called the job, then the place of the job round it. That of the top job is empty.
    pub(crate) place: List<usize>,
}

/// An item of an open job: the key of the job's row, and the item's number.
#[derive(Debug, Clone, Copy, Drop)]
pub(crate) struct Run {
    pub(crate) row: usize,
    pub(crate) item: usize,
}

/// What a row offers.
#[derive(Debug, Clone, Copy, Drop)]
pub(crate) struct Asked {
    pub(crate) row: usize,
    pub(crate) offer: Offer,
}

/// The row at a key.
pub(crate) fn row_at(rows: &[Option<Row>], key: usize) -> &Row
    requires { IsSome (row_at rows.now key) }
    ensures { row_at rows.now key ≡ Some result.now }
{
    match &rows[key] {
        Some(row) => row,
        None => unreachable!(),
    }
}

/// Whether a row stands there, whose job is at a place.
fn is_at(slot: &Option<Row>, place: &[usize]) -> bool
    ensures { IsTrue result ↔ IsAt place.now slot.now }
{
    match slot {
        Some(row) => row.place.items() == place,
        None => false,
    }
}

/// The key of the row of the job at a place; none where there is no such row.
pub(crate) fn key_of(rows: &[Option<Row>], place: &[usize]) -> Option<usize>
    ensures { IsKeyOf rows.now place.now result }
{
    for key in 0..rows.len() {
        if is_at(&rows[key], place) {
            return Some(key);
        }
    }
    None
}

/// Adds a key at which no row stands.
fn add_key(rows: &mut Vec<Option<Row>>) -> Result<usize, AllocError>
    ensures { IfOk result (λ key. IsVacant rows.new.items key × SameRows rows.old.items rows.new.items) }
{
    let key = rows.len();
    rows.push(None)?;
    Ok(key)
}

/// A key at which no row stands.
pub(crate) fn vacant_key(rows: &mut Vec<Option<Row>>) -> Result<usize, AllocError>
    ensures { IfOk result (λ key. IsVacant rows.new.items key × SameRows rows.old.items rows.new.items) }
{
    for key in 0..rows.len() {
        if rows[key].is_none() {
            return Ok(key);
        }
    }
    add_key(rows)
}

/// The place of the job that an item of a job at a place calls.
pub(crate) fn child_place(
    alloc: Global,
    place: &List<usize>,
    item: usize,
) -> Result<List<usize>, AllocError>
    ensures { IfOk result (λ child. child ≡ item ∷ place.now) }
{
    let mut child = Vec::new(alloc);
    child.push(item)?;
    child.extend_from_slice(place.items())?;
    Ok(List::new(child))
}
