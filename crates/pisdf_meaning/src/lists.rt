// Copies of lists of tokens.
ghost use Rattle.std.specs.Prelude.{◌≡◌, IfOk};
ghost use Rattle.pisdf_meaning.specs.States.{tokens_at};

use sdf_level::List;
use std::alloc::{AllocError, Global};

/// An equal list.
pub fn copy_tokens(alloc: Global, tokens: &[i64]) -> Result<List<i64>, AllocError>
    ensures { IfOk result (λ copy. copy ≡ tokens.now) }
{
    Ok(List::new(Vec::from_slice(alloc, tokens)?))
}

/// Equal lists.
pub fn copy_lists(alloc: Global, lists: &[List<i64>]) -> Result<List<List<i64>>, AllocError>
    ensures { IfOk result (λ copies. copies ≡ lists.now) }
{
    let mut copies = Vec::with_capacity(alloc, lists.len())?;
    for list in lists {
        copies.push(copy_tokens(alloc, list.items())?)?;
    }
    Ok(List::new(copies))
}

/// The list at a place, or none.
pub fn tokens_at(lists: &[List<i64>], place: usize) -> &[i64]
    ensures { result.now ≡ tokens_at lists.now place }
{
    match lists.get(place) {
        Some(tokens) => tokens.items(),
        None => &[],
    }
}
