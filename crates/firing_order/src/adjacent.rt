// The links at each actor.
ghost use Rattle.std.specs.Prelude.{◌≡◌, ◌<◌, length, IfOk, OnOk};
ghost use Rattle.std.specs.List.{All};
ghost use Rattle.sdf_level.specs.Lists.{lists_of};
ghost use Rattle.sdf_level.specs.Numbered.{IsBetween};
ghost use Rattle.firing_order.specs.Adjacent.{Adds, AreAt, IsPushed};

use sdf_level::{InnerLink, empty_lists};
use std::alloc::{AllocError, Global};

/// Puts a link at the end of this actor's list.
fn push(lists: &mut [Vec<InnerLink>], actor: u32, link: InnerLink) -> Result<(), AllocError>
    requires { actor < length lists.old }
    ensures { OnOk result (IsPushed (lists_of lists.old) (lists_of lists.new) actor link) }
{
    lists[actor as usize].push(link)?;
    Ok(())
}

/// Puts a link into the list of each actor that is an end of it, once where it is both.
fn add(lists: &mut [Vec<InnerLink>], link: InnerLink) -> Result<(), AllocError>
    requires { IsBetween (length lists.old) link }
    ensures { OnOk result (Adds (length lists.old) link (lists_of lists.old) (lists_of lists.new)) }
{
    push(lists, link.tail, link)?;
    if link.head != link.tail {
        push(lists, link.head, link)?;
    }
    Ok(())
}

/// For each actor the links from it and into it.
pub(crate) fn links_at(
    alloc: Global,
    actors: u32,
    links: &[InnerLink],
) -> Result<Vec<Vec<InnerLink>>, AllocError>
    requires { All (IsBetween actors) links.now }
    ensures { IfOk result (λ lists. AreAt actors links.now (lists_of lists.items)) }
{
    let mut lists = empty_lists(alloc, actors as usize)?;
    for link in links {
        add(&mut lists, *link)?;
    }
    Ok(lists)
}
