// How a buffer joins those that are placed.
ghost use Rattle.std.specs.Prelude.{◌∷◌, OnOk, IsPermutation};
ghost use Rattle.placement.specs.Placing.{all_in, IsInOrder};

use crate::gap::{Buffers, Placed};
use std::alloc::AllocError;

/// How many buffers, the largest, are kept apart from the others. A search passes over all that lie behind one that reaches
/// behind its first cell, so that it passes over few where they are of like size.
const LARGE: usize = 8;

/// Enters a buffer among the large ones while these are few, and else among the small ones.
pub(crate) fn enter(placed: &mut Buffers, next: Placed) -> Result<(), AllocError>
    requires small { IsInOrder placed.old.small }
    requires large { IsInOrder placed.old.large }
    ensures same { OnOk result (IsPermutation (next ∷ all_in placed.old) (all_in placed.new)) }
    ensures small { OnOk result (IsInOrder placed.new.small) }
    ensures large { OnOk result (IsInOrder placed.new.large) }
{
    if placed.large.len() < LARGE {
        return placed.large.insert(next);
    }
    placed.small.insert(next)
}
