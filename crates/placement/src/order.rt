ghost use Rattle.std.specs.Prelude.{◌≡◌, ◌^◌, ◌<◌, length, map, IfOk};
ghost use Rattle.placement.specs.Placing.{IsPlacingOrder};

use std::alloc::{AllocError, Global};
use std::cmp::Reverse;

/// The numbers of the buffers in the order of placing: by size downwards, then by number.
pub(crate) fn placing_order(alloc: Global, sizes: &[u32]) -> Result<Vec<u32>, AllocError>
    requires { length sizes.now < 2 ^ 32 }
    ensures { IfOk result (λ v. IsPlacingOrder sizes.now v.items) }
{
    let mut waiting = Vec::with_capacity(alloc, sizes.len())?;
    for number in 0..sizes.len() as u32 {
        waiting.push((Reverse(sizes[number as usize]), number))?;
    }
    waiting.sort()?;
    numbers(alloc, &waiting)
}

fn numbers(alloc: Global, waiting: &[(Reverse<u32>, u32)]) -> Result<Vec<u32>, AllocError>
    ensures { IfOk result (λ v. v.items ≡ map (λ buffer. buffer.1) waiting.now) }
{
    waiting.iter().map(|buffer| buffer.1).collect(alloc)
}
