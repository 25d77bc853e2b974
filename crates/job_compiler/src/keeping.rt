ghost use Rattle.std.specs.Prelude.{◌≡◌, [], IfOk};

use crate::cache::{Kept, LastUsed};
use lru::LruCache;
use std::alloc::{AllocError, Global};
use std::num::NonZeroUsize;

/// The most values that are kept.
const KEPT_LIMIT: usize = 64;

/// No values, with room for `KEPT_LIMIT` of them.
///
/// # Errors
///
/// Want of memory.
pub fn none_used<T: Drop>(alloc: Global) -> Result<LastUsed<T>, AllocError>
    ensures { IfOk result (λ k. k ≡ []) }
{
    let limit = NonZeroUsize::new(KEPT_LIMIT).unwrap();
    Ok(LastUsed {
        cache: LruCache::new(alloc, limit)?,
    })
}

/// No compilations, with room for `KEPT_LIMIT` of them.
///
/// # Errors
///
/// Want of memory.
pub fn kept(alloc: Global) -> Result<Kept, AllocError>
    ensures { IfOk result (λ k. k ≡ []) }
{
    none_used(alloc)
}
