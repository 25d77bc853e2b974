// The components of a level, as a number for each actor that connected actors share.
ghost use Rattle.std.specs.Prelude.{◌<◌, length, IfOk, OnOk};
ghost use Rattle.sdf_level.specs.Groups.{IsGrouping};
ghost use Rattle.sdf_level.specs.Numbered.{IsBetween, as_link};
ghost use Rattle.interface_rules.specs.Connections.{AreGrouped, Connects};

use sdf_level::{Groups, InnerLink, Level};
use std::alloc::{AllocError, Global};

/// Adds a link; one with a rate of 0 joins nothing.
fn join(alloc: Global, link: &InnerLink, groups: &mut Groups) -> Result<(), AllocError>
    requires link { IsBetween (length groups.old.number.items) link.now }
    requires grouped { IsGrouping (length groups.old.number.items) groups.old }
    ensures joined { OnOk result (Connects (length groups.old.number.items) (as_link link.now) groups.old.number.items groups.new.number.items) }
    ensures grouped { OnOk result (IsGrouping (length groups.old.number.items) groups.new) }
{
    let put = link.produced;
    let taken = link.consumed;
    if put == 0 || taken == 0 {
        return Ok(());
    }
    let first = groups.number[link.tail as usize];
    let second = groups.number[link.head as usize];
    if first == second {
        return Ok(());
    }
    groups.unite(alloc, first, second)
}

/// For each actor of a level the number of its component, which is below the count of actors: two actors have one number
/// exactly where links of positive rates connect them, in either direction.
///
/// # Errors
///
/// Want of memory.
pub fn components(alloc: Global, level: &Level) -> Result<Vec<u32>, AllocError>
    ensures { IfOk result (λ v. AreGrouped level.now.actors level.now.links v.items) }
{
    let links = level.inner_links(alloc)?;
    let mut groups = Groups::apart(alloc, level.actors)?;
    for link in &links {
        join(alloc, link, &mut groups)?;
    }
    Ok(groups.number)
}
