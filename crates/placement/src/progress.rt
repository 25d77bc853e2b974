// One buffer after another gets its offset.
ghost use Rattle.std.specs.Prelude.{◌≡◌, ◌+◌, ◌^◌, ◌<◌, ◌≤◌, length, slice_index, sum, All, IfOk, OnOk};
ghost use Rattle.placement_checker.specs.Rows.{RowHas};
ghost use Rattle.placement.specs.Placing.{IsPlacingOrder, IsLeast};
ghost use Rattle.placement.specs.Progress.{placed_in, IsEmpty, IsKept, HasPlaced, CanPlace, Keeps};

use crate::enter::enter;
use crate::gap::{Buffers, Placed, Sought};
use crate::least::{Before, least_offset};
use crate::opening::Spots;
use crate::placing::Placement;
use placement_checker::Exclusion;
use sdf_level::List;
use std::alloc::{AllocError, Global};
use std::mem;

/// How far a placing has come.
#[derive(Drop)]
pub(crate) struct Progress {
    /// The first cell of each buffer that is placed, by number.
    pub(crate) offsets: Vec<u32>,
    pub(crate) placed: Buffers,
    pub(crate) before: Before,
    /// Room for the row of the buffer that is placed next.
    pub(crate) row: Vec<u64>,
    /// The greatest end of a placed buffer.
    pub(crate) height: u32,
}

impl Progress {
    /// None of so many buffers is placed. A row has `words` words.
    pub(crate) fn new(alloc: Global, count: usize, words: usize) -> Result<Progress, AllocError>
        ensures { IfOk result (IsEmpty count words) }
    {
        Ok(Progress {
            offsets: vec![in alloc; u32::MAX; count]?,
            before: Before {
                buffer: None,
                row: vec![in alloc; 0u64; words]?,
            },
            row: vec![in alloc; 0u64; words]?,
            height: 0,
            placed: Buffers::with_capacity(alloc, count)?,
        })
    }

    /// The least offset of a buffer whose row is written.
    fn next_offset(&self, sizes: &[u32], number: u32) -> u32
        requires { CanPlace sizes.now number self.now }
        ensures { IsLeast (RowHas self.now.row.items) (slice_index sizes.now number) (placed_in self.now) result }
    {
        let sought = Sought {
            size: sizes[number as usize],
            row: &self.row,
        };
        let spots = Spots {
            offsets: &self.offsets,
            sizes,
        };
        least_offset(&self.placed, &spots, &sought, &self.before)
    }

    /// Keeps where a buffer is placed.
    fn keep(&mut self, buffer: Placed) -> Result<(), AllocError>
        requires there { buffer.number < length self.old.offsets.items }
        requires kept { IsKept self.old }
        ensures { OnOk result (Keeps buffer self.old self.new) }
    {
        enter(&mut self.placed, buffer)?;
        self.offsets[buffer.number as usize] = buffer.offset;
        self.height = self.height.max(buffer.end);
        mem::swap(&mut self.row, &mut self.before.row);
        self.before.buffer = Some(buffer);
        Ok(())
    }

    /// Places the buffer at a place of the order, where those before it are placed.
    pub(crate) fn place_next<X: Exclusion>(
        &mut self,
        sizes: &[u32],
        exclusion: &X,
        order: &[u32],
        place: usize,
    ) -> Result<(), AllocError>
        requires order { IsPlacingOrder sizes.now order.now }
        requires inside { place < length order.now }
        requires range { length sizes.now ≤ X.range exclusion.now }
        requires filled { All (λ size. 1 ≤ size) sizes.now }
        requires sum { sum sizes.now < 2 ^ 32 }
        requires placed { HasPlaced sizes.now (X.excludes exclusion.now) (X.range exclusion.now) order.now place self.old }
        ensures { OnOk result (HasPlaced sizes.now (X.excludes exclusion.now) (X.range exclusion.now) order.now (place + 1) self.new) }
    {
        let number = order[place];
        exclusion.write_row(number, &mut self.row);
        let offset = self.next_offset(sizes, number);
        self.keep(Placed {
            number,
            offset,
            end: offset + sizes[number as usize],
        })
    }

    /// Where the buffers lie.
    pub(crate) fn end(self) -> Placement
        ensures { (result.offsets ≡ self.offsets.items) × (result.height ≡ self.height) }
    {
        Placement {
            offsets: List::new(self.offsets),
            height: self.height,
        }
    }
}
