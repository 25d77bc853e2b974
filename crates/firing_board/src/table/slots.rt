// One row of a table.
ghost use Rattle.std.specs.Borrow.{sem};
ghost use Rattle.std.specs.Prelude.{◌≡◌, ◌<◌, ◌↔◌, IsTrue, None, Some, length, slice_index};
ghost use Rattle.graph_firing.specs.View.{IsQuiet};
ghost use Rattle.firing_board.specs.Table.Lending.{LendsJob};
ghost use Rattle.firing_board.specs.Table.Slots.{InSlot};

use crate::table::row::Row;
use graph_firing::OpenJob;
use sdf_level::List;
use std::mem;

/// The row.
pub(crate) fn row_in(slot: &Option<Row>) -> &Row
    requires { InSlot (λ job. Unit {0}) slot.now }
    ensures { slot.now ≡ Some result.now }
{
    match slot {
        Some(row) => row,
        None => unreachable!(),
    }
}

/// Takes the row away.
pub(crate) fn take_row(slot: &mut Option<Row>) -> Row
    requires { InSlot (λ job. Unit {0}) slot.old }
    ensures taken { slot.old ≡ Some result }
    ensures rest { slot.new ≡ None }
{
    match mem::replace(slot, None) {
        Some(row) => row,
        None => unreachable!(),
    }
}

/// Puts a row where none is.
pub(crate) fn put_row(slot: &mut Option<Row>, row: Row)
    requires { slot.old ≡ None }
    ensures { slot.new ≡ Some row }
{
    match mem::replace(slot, Some(row)) {
        None => {}
        Some(_) => unreachable!(),
    }
}

/// The job of the row.
pub(crate) fn job_in(slot: &mut Option<Row>) -> &mut OpenJob
    requires { InSlot (λ job. Unit {0}) slot.old }
    ensures* lends { sem 𝓛 (LendsJob slot.entry result) }
    ensures value { InSlot (λ job. result.now ≡ job) slot.old }
{
    match slot {
        Some(row) => &mut row.job,
        None => unreachable!(),
    }
}

/// Whether nothing more will come of the row's job.
pub(crate) fn is_quiet(slot: &Option<Row>) -> bool
    requires { InSlot (λ job. Unit {0}) slot.now }
    ensures { InSlot (λ job. IsTrue result ↔ IsQuiet job) slot.now }
{
    match slot {
        Some(row) => row.job.quiet(),
        None => unreachable!(),
    }
}

/// The item that called a job, by the job's place.
pub(crate) fn calling_item(place: &List<usize>) -> usize
    requires { 0 < length place.now }
    ensures { result ≡ slice_index place.now 0 }
{
    place.items()[0]
}
