// Where a buffer fits since others, which were in the way of the buffer before, are not in its own way.
ghost use Rattle.std.specs.Prelude.{ℕ, ◌≡◌, ◌+◌, ◌/◌, ◌^◌, ◌<◌, ◌≤◌, length, slice_index};
ghost use Rattle.std.specs.Int.{bit_at};
ghost use Rattle.placement_checker.specs.Rows.{RowHas};
ghost use Rattle.placement.specs.Placing.{in_order, all_in, HasReach, IsOpenTo, IsFree, IsShut};

use crate::gap::{Buffers, Sought, search};

/// Where each buffer that is placed lies, by number: its first cell, and how many it has.
#[derive(Clone, Copy)]
pub(crate) struct Spots<'a> {
    pub(crate) offsets: &'a [u32],
    pub(crate) sizes: &'a [u32],
}

/// The least offset below `best` at which the buffer would have one of the cells from `first` up to `end` and fits; else
/// `best`.
fn opened_at(placed: &Buffers, sought: &Sought<'_>, first: u32, end: u32, best: u32) -> u32
    requires small { IsOpenTo (length sought.now.row.now) sought.now.size (in_order placed.now.small) }
    requires large { IsOpenTo (length sought.now.row.now) sought.now.size (in_order placed.now.large) }
    requires reach { HasReach placed.now.small }
    requires filled { 1 ≤ sought.now.size }
    requires room { best + sought.now.size < 2 ^ 32 }
    ensures least { result ≤ best }
    ensures free { result < best → IsFree (RowHas sought.now.row.now) sought.now.size (all_in placed.now) result }
    ensures shut { IsShut (RowHas sought.now.row.now) sought.now.size (all_in placed.now) first end result }
{
    let start = first.saturating_sub(sought.size - 1);
    if best <= start {
        return best;
    }
    let bound = best.min(end);
    let found = search(placed, sought, start, bound);
    if found < bound { found } else { best }
}

/// The same for the cells of a buffer, if there is such a buffer.
fn opened_by(placed: &Buffers, sought: &Sought<'_>, spots: &Spots<'_>, e: usize, best: u32) -> u32
    requires small { IsOpenTo (length sought.now.row.now) sought.now.size (in_order placed.now.small) }
    requires large { IsOpenTo (length sought.now.row.now) sought.now.size (in_order placed.now.large) }
    requires reach { HasReach placed.now.small }
    requires filled { 1 ≤ sought.now.size }
    requires spots { length spots.now.offsets.now ≡ length spots.now.sizes.now }
    requires room { best + sought.now.size < 2 ^ 32 }
    ensures least { result ≤ best }
    ensures free { result < best → IsFree (RowHas sought.now.row.now) sought.now.size (all_in placed.now) result }
    ensures shut { e < length spots.now.offsets.now → IsShut (RowHas sought.now.row.now) sought.now.size (all_in placed.now) (slice_index spots.now.offsets.now e) (slice_index spots.now.offsets.now e + slice_index spots.now.sizes.now e) result }
{
    if spots.offsets.len() <= e {
        return best;
    }
    let first = spots.offsets[e];
    opened_at(
        placed,
        sought,
        first,
        first.saturating_add(spots.sizes[e]),
        best,
    )
}

/// The same for the buffers that a word has: bit `k` of the word is that of the buffer `first + k`.
fn opened_in_word(
    placed: &Buffers,
    sought: &Sought<'_>,
    spots: &Spots<'_>,
    first: usize,
    word: u64,
    best: u32,
) -> u32
    requires small { IsOpenTo (length sought.now.row.now) sought.now.size (in_order placed.now.small) }
    requires large { IsOpenTo (length sought.now.row.now) sought.now.size (in_order placed.now.large) }
    requires reach { HasReach placed.now.small }
    requires filled { 1 ≤ sought.now.size }
    requires spots { length spots.now.offsets.now ≡ length spots.now.sizes.now }
    requires first { first + 64 < 2 ^ 64 }
    requires room { best + sought.now.size < 2 ^ 32 }
    ensures least { result ≤ best }
    ensures free { result < best → IsFree (RowHas sought.now.row.now) sought.now.size (all_in placed.now) result }
    ensures shut { (bit : ℕ) → bit < 64 → first + bit < length spots.now.offsets.now → bit_at word bit ≡ 1 → IsShut (RowHas sought.now.row.now) sought.now.size (all_in placed.now) (slice_index spots.now.offsets.now (first + bit)) (slice_index spots.now.offsets.now (first + bit) + slice_index spots.now.sizes.now (first + bit)) result }
{
    let mut least = best;
    let mut left = word;
    while left != 0 {
        let bit = left.trailing_zeros();
        left &= !(1u64 << bit);
        least = opened_by(placed, sought, spots, first + bit as usize, least);
    }
    least
}

/// The same for the buffers that another row has and the buffer's own row lacks.
pub(crate) fn opened(
    placed: &Buffers,
    sought: &Sought<'_>,
    spots: &Spots<'_>,
    other: &[u64],
    best: u32,
) -> u32
    requires small { IsOpenTo (length sought.now.row.now) sought.now.size (in_order placed.now.small) }
    requires large { IsOpenTo (length sought.now.row.now) sought.now.size (in_order placed.now.large) }
    requires reach { HasReach placed.now.small }
    requires filled { 1 ≤ sought.now.size }
    requires spots { length spots.now.offsets.now ≡ length spots.now.sizes.now }
    requires rows { length sought.now.row.now ≡ length other.now }
    requires few { length other.now < 2 ^ 32 }
    requires room { best + sought.now.size < 2 ^ 32 }
    ensures least { result ≤ best }
    ensures free { result < best → IsFree (RowHas sought.now.row.now) sought.now.size (all_in placed.now) result }
    ensures shut { (e : ℕ) → e < length spots.now.offsets.now → RowHas other.now e → (RowHas sought.now.row.now e → ⊥) → IsShut (RowHas sought.now.row.now) sought.now.size (all_in placed.now) (slice_index spots.now.offsets.now e) (slice_index spots.now.offsets.now e + slice_index spots.now.sizes.now e) result }
{
    let mut least = best;
    for k in 0..other.len() {
        let lost = other[k] & !sought.row[k];
        least = opened_in_word(placed, sought, spots, 64 * k, lost, least);
    }
    least
}
