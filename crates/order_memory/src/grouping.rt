// Numbers by their keys.
ghost use Rattle.std.specs.Prelude.{◌≡◌, ◌<◌, length, All, IfOk};
ghost use Rattle.std.specs.List.{sum_by};
ghost use Rattle.sdf_level.specs.Lists.{lists_of};
ghost use Rattle.worker_mapping.specs.Neighbours.{AreAfter};

use sdf_level::empty_lists;
use std::alloc::{AllocError, Global};

/// For each key below `keys` the numbers that stand beside it, in their order. A pair is a key and a number.
pub(crate) fn grouped(
    alloc: Global,
    keys: u32,
    pairs: &[(u32, u32)],
) -> Result<Vec<Vec<u32>>, AllocError>
    requires { All (λ pair. pair.0 < keys) pairs.now }
    ensures lists { IfOk result (λ lists. AreAfter keys pairs.now (lists_of lists.items)) }
    ensures whole { IfOk result (λ lists. sum_by length (lists_of lists.items) ≡ length pairs.now) }
{
    let mut lists = empty_lists(alloc, keys as usize)?;
    for pair in pairs {
        let (key, number) = *pair;
        lists[key as usize].push(number)?;
    }
    Ok(lists)
}
