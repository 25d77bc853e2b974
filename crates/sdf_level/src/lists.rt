// Lists of lists.
ghost use Rattle.std.specs.Prelude.{IfOk};
ghost use Rattle.sdf_level.specs.Lists.{AreEmpty, lists_of};

use std::alloc::{AllocError, Global};

/// So many empty lists.
///
/// # Errors
///
/// Want of memory.
pub fn empty_lists<T: Drop>(alloc: Global, count: usize) -> Result<Vec<Vec<T>>, AllocError>
    ensures { IfOk result (λ lists. AreEmpty count (lists_of lists.items)) }
{
    let mut lists = Vec::with_capacity(alloc, count)?;
    for n in 0..count {
        lists.push(Vec::new(alloc))?;
    }
    Ok(lists)
}
