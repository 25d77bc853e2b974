// Entries of tables, where there may be none.
ghost use Rattle.std.specs.Prelude.{◌≡◌, slice_index};
ghost use Rattle.job_report.specs.Rows.{name_at};

use param_expr::Name;

/// The name with a number, or none.
pub(crate) fn name_at(names: &[Name], number: usize) -> &str
    ensures { result.now ≡ name_at names.now number }
{
    if number < names.len() {
        names[number].text()
    } else {
        ""
    }
}

/// The entry at a place, or 0.
pub(crate) fn small_at(numbers: &[u32], place: usize) -> u32
    ensures { result ≡ slice_index numbers.now place }
{
    if place < numbers.len() {
        numbers[place]
    } else {
        0
    }
}

/// The entry at a place, or 0.
pub(crate) fn large_at(numbers: &[u64], place: usize) -> u64
    ensures { result ≡ slice_index numbers.now place }
{
    if place < numbers.len() {
        numbers[place]
    } else {
        0
    }
}
