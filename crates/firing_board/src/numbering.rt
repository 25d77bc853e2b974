ghost use Rattle.std.specs.Prelude.{◌≡◌, ◌≢◌, ◌<◌, ℕ, OnOk, length, slice_index_or};

use std::alloc::AllocError;

/// The number that is kept for a row; of a row that has none it is 0.
pub(crate) fn number_of(numbers: &[usize], row: usize) -> usize
    ensures { result ≡ slice_index_or numbers.now row 0 }
{
    if row < numbers.len() { numbers[row] } else { 0 }
}

/// Keeps a number for a row.
pub(crate) fn number_row(
    numbers: &mut Vec<usize>,
    row: usize,
    number: usize,
) -> Result<(), AllocError>
    ensures here { OnOk result (slice_index_or numbers.new.items row 0 ≡ number) }
    ensures others { OnOk result ((k : ℕ) → k ≢ row → slice_index_or numbers.new.items k 0 ≡ slice_index_or numbers.old.items k 0) }
{
    pad(numbers, row)?;
    numbers[row] = number;
    Ok(())
}

/// Makes the list longer than this number.
fn pad(numbers: &mut Vec<usize>, row: usize) -> Result<(), AllocError>
    ensures longer { OnOk result (row < length numbers.new.items) }
    ensures kept { OnOk result ((k : ℕ) → slice_index_or numbers.new.items k 0 ≡ slice_index_or numbers.old.items k 0) }
{
    while numbers.len() <= row {
        numbers.push(0)?;
    }
    Ok(())
}
