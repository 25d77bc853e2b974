ghost use Rattle.std.specs.Prelude.{ℕ, ◌≡◌, ◌==◌, ◌<◌, count_by, length, slice_index_or, IfOk};

use std::alloc::{AllocError, Global};

/// How often each place below a number stands in a list.
pub(crate) fn times_of(
    alloc: Global,
    places: &[u32],
    count: usize,
) -> Result<Vec<usize>, AllocError>
    ensures long { IfOk result (λ times. length times.items ≡ count) }
    ensures exact { IfOk result (λ times. (i : ℕ) → i < count → slice_index_or times.items i 0 ≡ count_by (λ s. s == i) places.now) }
{
    let mut times = vec![in alloc; 0; count]?;
    for place in places {
        let place = *place as usize;
        if place < count {
            times[place] += 1;
        }
    }
    Ok(times)
}
