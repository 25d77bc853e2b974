ghost use Rattle.std.specs.Prelude.{◌≡◌, ◌^◌, ◌<◌, ◌≤◌, length, sum, All, IfOk};
ghost use Rattle.placement_checker.specs.Placed.{Valid, Tight};
ghost use Rattle.placement.specs.Placing.{IsPlacingOrder};

use crate::order::placing_order;
use crate::progress::Progress;
use placement_checker::Exclusion;
use sdf_level::List;
use std::alloc::{AllocError, Global};

/// Where each buffer lies in one run of cells.
#[derive(Debug, Drop)]
pub struct Placement {
    /// The first cell of each buffer, by number.
    pub offsets: List<u32>,
    /// How many cells there are.
    pub height: u32,
}

/// First fit over the memory exclusion graph: by size downwards, then by number, each buffer gets
/// the least offset at which it overlaps no earlier one that excludes it. The height is the greatest
/// end, 0 with no buffer. `sizes` has the cells of each buffer, by number.
///
/// # Errors
///
/// Want of memory.
pub fn place<X: Exclusion>(
    alloc: Global,
    sizes: &[u32],
    exclusion: &X,
) -> Result<Placement, AllocError>
    requires range { length sizes.now ≤ X.range exclusion.now }
    requires filled { All (λ size. 1 ≤ size) sizes.now }
    requires sum { sum sizes.now < 2 ^ 32 }
    ensures long { IfOk result (λ p. length p.offsets ≡ length sizes.now) }
    ensures valid { IfOk result (λ p. Valid sizes.now (X.excludes exclusion.now) p.offsets p.height) }
    ensures tight { IfOk result (λ p. Tight sizes.now (X.excludes exclusion.now) p.offsets p.height) }
{
    let range = exclusion.range() as usize;
    prove!(sizes.len() <= range);
    let order = placing_order(alloc, sizes)?;
    place_in_order(alloc, sizes, exclusion, &order)
}

/// Places the buffers one after another in this order.
fn place_in_order<X: Exclusion>(
    alloc: Global,
    sizes: &[u32],
    exclusion: &X,
    order: &[u32],
) -> Result<Placement, AllocError>
    requires order { IsPlacingOrder sizes.now order.now }
    requires range { length sizes.now ≤ X.range exclusion.now }
    requires filled { All (λ size. 1 ≤ size) sizes.now }
    requires sum { sum sizes.now < 2 ^ 32 }
    ensures long { IfOk result (λ p. length p.offsets ≡ length sizes.now) }
    ensures tight { IfOk result (λ p. Tight sizes.now (X.excludes exclusion.now) p.offsets p.height) }
    ensures valid { IfOk result (λ p. Valid sizes.now (X.excludes exclusion.now) p.offsets p.height) }
{
    let words = (exclusion.range() as usize).div_ceil(64);
    let mut progress = Progress::new(alloc, sizes.len(), words)?;
    for place in 0..order.len() {
        progress.place_next(sizes, exclusion, order, place)?;
    }
    Ok(progress.end())
}
