// The actors of a level that have firings left.
ghost use Rattle.std.specs.Prelude.{◌≡◌, ◌++◌, IfOk, OnOk};
ghost use Rattle.std.specs.List.{filter};
ghost use Rattle.param_resolver.specs.Numbering.{fires};
ghost use Rattle.pisdf_meaning.specs.Causes.{actors_left, left_of_actor};

use crate::naming::copy_name;
use crate::refusal::Left;
use pisdf_model::{Actor, is_configuration};
use sdf_level::List;
use std::alloc::{AllocError, Global};

/// Adds an actor with its count of firings left, if any is.
fn add_left(
    alloc: Global,
    left: &mut Vec<Left>,
    actor: &Actor,
    count: u32,
) -> Result<(), AllocError>
    ensures { OnOk result (left.new.items ≡ left.old.items ++ left_of_actor actor.now count) }
{
    if count > 0 {
        let name = copy_name(alloc, &actor.name)?;
        left.push(Left { name, count })?;
    }
    Ok(())
}

/// The actors that fire in a level and have firings left, in file order, where these are the counts left by their numbers
/// in the level.
pub(crate) fn actors_left(
    alloc: Global,
    actors: &[Actor],
    counts: &[u32],
) -> Result<List<Left>, AllocError>
    ensures { IfOk result (λ left. left ≡ actors_left (filter fires actors.now) counts.now) }
{
    let mut left = Vec::new(alloc);
    let mut number = 0;
    for actor in actors {
        if is_configuration(&actor.body) {
            continue;
        }
        if number >= counts.len() {
            break;
        }
        add_left(alloc, &mut left, actor, counts[number])?;
        number += 1;
    }
    Ok(List::new(left))
}
