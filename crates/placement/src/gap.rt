// The buffers placed so far, by their offsets, and where one more fits among them.
ghost use Rattle.std.specs.Prelude.{◌≡◌, ◌+◌, ◌/◌, ◌^◌, ◌<◌, ◌≤◌, [], length, IfOk};
ghost use Rattle.placement_checker.specs.Rows.{RowHas};
ghost use Rattle.placement.specs.Placing.{in_order, all_in, IsInOrder, HasReach, IsOpenTo, IsFound, IsGap, ArePassed, IsBehind};

use crate::by_offset::ByOffset;
use placement_checker::has_bit;
use std::alloc::{AllocError, Global};

/// A buffer in the cells from `offset` up to `end`.
#[derive(Clone, Copy)]
pub(crate) struct Placed {
    pub(crate) number: u32,
    pub(crate) offset: u32,
    pub(crate) end: u32,
}

/// The buffers placed so far: a few large ones, and the others.
#[derive(Drop)]
pub(crate) struct Buffers {
    pub(crate) small: ByOffset,
    pub(crate) large: ByOffset,
}

impl Buffers {
    /// No buffer, and room for so many small ones.
    pub(crate) fn with_capacity(alloc: Global, count: usize) -> Result<Buffers, AllocError>
        ensures small { IfOk result (λ buffers. in_order buffers.small ≡ []) }
        ensures large { IfOk result (λ buffers. in_order buffers.large ≡ []) }
        ensures order { IfOk result (λ buffers. IsInOrder buffers.small × IsInOrder buffers.large) }
    {
        Ok(Buffers {
            small: ByOffset::with_capacity(alloc, count)?,
            large: ByOffset::with_capacity(alloc, 0)?,
        })
    }
}

/// A buffer that looks for its offset.
#[derive(Clone, Copy)]
pub(crate) struct Sought<'a> {
    pub(crate) size: u32,
    /// A bit for each buffer that excludes it.
    pub(crate) row: &'a [u64],
}

/// How far a search has come: to an offset, and to a place among the buffers.
#[derive(Clone, Copy)]
struct Gap {
    place: usize,
    offset: u32,
}

/// Where a search goes on that has come to a buffer beginning before the end of what it looks for: at the offset, or
/// behind the buffer where that is in the way.
fn pass(p: &Placed, sought: &Sought<'_>, offset: u32) -> u32
    requires { p.now.number / 64 < length sought.now.row.now }
    ensures { IsBehind (RowHas sought.now.row.now) p.now offset result }
{
    if p.end <= offset || !has_bit(sought.row, p.number as usize) {
        return offset;
    }
    p.end
}

/// The place of the first buffer, from one on, that begins behind a gap of the size, and the offset of the gap: the least
/// from one on. Where that is not below `bound`, any offset from there on up to which there is no gap.
fn next_gap(placed: &ByOffset, sought: &Sought<'_>, from: Gap, bound: u32) -> Gap
    requires placed { IsOpenTo (length sought.now.row.now) sought.now.size (in_order placed.now) }
    requires filled { 1 ≤ sought.now.size }
    requires room { from.offset + sought.now.size < 2 ^ 32 }
    requires passed { ArePassed (RowHas sought.now.row.now) (in_order placed.now) from.place from.offset }
    ensures { IsGap (RowHas sought.now.row.now) sought.now.size (in_order placed.now) from.offset bound result.place result.offset }
{
    let mut offset = from.offset;
    for k in from.place..placed.len() {
        if bound <= offset {
            return Gap { place: k, offset };
        }
        let p = placed.at(k);
        if offset + sought.size <= p.offset {
            return Gap { place: k, offset };
        }
        offset = pass(p, sought, offset);
    }
    Gap {
        place: placed.len(),
        offset,
    }
}

/// The search from a place among the small ones on: see `search`.
fn search_from(placed: &Buffers, sought: &Sought<'_>, start: Gap, bound: u32) -> u32
    requires small { IsOpenTo (length sought.now.row.now) sought.now.size (in_order placed.now.small) }
    requires large { IsOpenTo (length sought.now.row.now) sought.now.size (in_order placed.now.large) }
    requires filled { 1 ≤ sought.now.size }
    requires room { start.offset + sought.now.size < 2 ^ 32 }
    requires passed { ArePassed (RowHas sought.now.row.now) (in_order placed.now.small) start.place start.offset }
    ensures { IsFound (RowHas sought.now.row.now) sought.now.size (all_in placed.now) start.offset bound result }
{
    let mut from = start;
    for k in 0..placed.large.len() {
        let gap = next_gap(&placed.small, sought, from, bound);
        if bound <= gap.offset {
            return gap.offset;
        }
        let p = placed.large.at(k);
        if gap.offset + sought.size <= p.offset {
            return gap.offset;
        }
        let offset = pass(p, sought, gap.offset);
        from = Gap {
            place: gap.place,
            offset,
        };
    }
    let last = next_gap(&placed.small, sought, from, bound);
    last.offset
}

/// The least offset from `start` on at which the buffer overlaps none that its row has. Where it is not below `bound`, any
/// offset from there on that is not above it.
pub(crate) fn search(placed: &Buffers, sought: &Sought<'_>, start: u32, bound: u32) -> u32
    requires small { IsOpenTo (length sought.now.row.now) sought.now.size (in_order placed.now.small) }
    requires large { IsOpenTo (length sought.now.row.now) sought.now.size (in_order placed.now.large) }
    requires reach { HasReach placed.now.small }
    requires filled { 1 ≤ sought.now.size }
    requires room { start + sought.now.size < 2 ^ 32 }
    ensures { IsFound (RowHas sought.now.row.now) sought.now.size (all_in placed.now) start bound result }
{
    if bound <= start {
        return start;
    }
    let place = placed.small.first_behind(start);
    let from = Gap {
        place,
        offset: start,
    };
    search_from(placed, sought, from, bound)
}
