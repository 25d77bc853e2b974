// The least offset of a buffer.
ghost use Rattle.std.specs.Prelude.{ℕ, ◌≡◌, ◌+◌, ◌/◌, ◌^◌, ◌<◌, ◌≤◌, length, All, Any, IfSome};
ghost use Rattle.placement_checker.specs.Rows.{RowHas};
ghost use Rattle.placement.specs.Placing.{in_order, all_in, Blocks, HasReach, IsOpenTo, IsLast, IsLeast, StandsAt};

use crate::gap::{Buffers, Placed, Sought, search};
use crate::opening::{Spots, opened};
use placement_checker::has_bit;

/// What is known of the search before.
#[derive(Drop)]
pub(crate) struct Before {
    /// The buffer that was placed.
    pub(crate) buffer: Option<Placed>,
    /// A bit for each buffer that excludes it.
    pub(crate) row: Vec<u64>,
}

/// The least offset at which the buffer overlaps none that its row has, where one of these is in the way at each offset
/// below `start`.
fn first_fit(placed: &Buffers, sought: &Sought<'_>, start: u32) -> u32
    requires small { IsOpenTo (length sought.now.row.now) sought.now.size (in_order placed.now.small) }
    requires large { IsOpenTo (length sought.now.row.now) sought.now.size (in_order placed.now.large) }
    requires reach { HasReach placed.now.small }
    requires filled { 1 ≤ sought.now.size }
    requires room { start + sought.now.size < 2 ^ 32 }
    requires blocked { (lower : ℕ) → lower < start → Any (Blocks (RowHas sought.now.row.now) sought.now.size lower) (all_in placed.now) }
    ensures { IsLeast (RowHas sought.now.row.now) sought.now.size (all_in placed.now) result }
{
    search(placed, sought, start, u32::MAX)
}

/// The least offset of a buffer as large as the last one. Below the last one's offset there was no room for that, so there
/// is room for this one only where it has cells of a buffer that was in the way of the last one and isn't in its own.
fn least_beside(
    placed: &Buffers,
    spots: &Spots<'_>,
    sought: &Sought<'_>,
    last: &Placed,
    last_row: &[u64],
) -> u32
    requires small { IsOpenTo (length sought.now.row.now) sought.now.size (in_order placed.now.small) }
    requires large { IsOpenTo (length sought.now.row.now) sought.now.size (in_order placed.now.large) }
    requires reach { HasReach placed.now.small }
    requires filled { 1 ≤ sought.now.size }
    requires spots { length spots.now.offsets.now ≡ length spots.now.sizes.now }
    requires rows { length sought.now.row.now ≡ length last_row.now }
    requires few { length last_row.now < 2 ^ 32 }
    requires told { last.now.number / 64 < length sought.now.row.now }
    requires alike { last.now.offset + sought.now.size ≡ last.now.end }
    requires last { IsLast last_row.now (all_in placed.now) last.now }
    requires standing { All (StandsAt spots.now.offsets.now spots.now.sizes.now) (all_in placed.now) }
    ensures { IsLeast (RowHas sought.now.row.now) sought.now.size (all_in placed.now) result }
{
    let least = opened(placed, sought, spots, last_row, last.offset);
    if least < last.offset {
        return least;
    }
    let start = if has_bit(sought.row, last.number as usize) {
        last.end
    } else {
        last.offset
    };
    first_fit(placed, sought, start)
}

/// The least offset at which the buffer overlaps none that its row has. `spots` has the offset of each buffer that is
/// placed.
pub(crate) fn least_offset(
    placed: &Buffers,
    spots: &Spots<'_>,
    sought: &Sought<'_>,
    before: &Before,
) -> u32
    requires small { IsOpenTo (length sought.now.row.now) sought.now.size (in_order placed.now.small) }
    requires large { IsOpenTo (length sought.now.row.now) sought.now.size (in_order placed.now.large) }
    requires reach { HasReach placed.now.small }
    requires filled { 1 ≤ sought.now.size }
    requires room { sought.now.size < 2 ^ 32 }
    requires spots { length spots.now.offsets.now ≡ length spots.now.sizes.now }
    requires rows { length sought.now.row.now ≡ length before.now.row.items }
    requires few { length sought.now.row.now < 2 ^ 32 }
    requires told { IfSome before.now.buffer (λ p. (p.number / 64 < length sought.now.row.now) × (p.offset < p.end)) }
    requires last { IfSome before.now.buffer (IsLast before.now.row.items (all_in placed.now)) }
    requires standing { All (StandsAt spots.now.offsets.now spots.now.sizes.now) (all_in placed.now) }
    ensures { IsLeast (RowHas sought.now.row.now) sought.now.size (all_in placed.now) result }
{
    let Some(last) = before.buffer else {
        return first_fit(placed, sought, 0);
    };
    if last.end - last.offset != sought.size {
        return first_fit(placed, sought, 0);
    }
    least_beside(placed, spots, sought, &last, &before.row)
}
