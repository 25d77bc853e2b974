// Which links lead into each actor, and which from it.
ghost use Rattle.std.specs.Prelude.{ℕ, ◌≡◌, ◌<◌, ◌+◌, ◌^◌, [], length, slice_index_or, IfOk, IfSome, OnOk};
ghost use Rattle.sdf_level.specs.Lists.{lists_of};
ghost use Rattle.level_lines.specs.AtActors.{ArePorts, AreListed, IsListed, is_of, stands_at};

use sdf_level::{Head, Level, Link, Tail, empty_lists};
use std::alloc::{AllocError, Global};
use std::marker::Model;

/// The links at each actor of a level, by their numbers.
#[derive(Debug, Drop)]
pub struct Ports {
    into: Vec<Vec<u32>>,
    from: Vec<Vec<u32>>,
}

impl Model for Ports {
    ghost use Rattle.level_lines.specs.AtActors.{PortsView};
    ghost use Rattle.sdf_level.specs.Lists.{lists_of};

    ghost Value = { PortsView };

    ghost view = { λ p. record { into = lists_of p.into.items; from = lists_of p.from.items } };
}

impl Ports {
    /// The numbers of the links into an actor, in the order of the links.
    pub(crate) fn links_into(&self, actor: u32) -> &[u32]
        requires { actor < length self.now.into }
        ensures { result.now ≡ slice_index_or self.now.into actor [] }
    {
        self.into[actor as usize].as_slice()
    }

    /// The numbers of the links from an actor, in the order of the links.
    pub(crate) fn links_from(&self, actor: u32) -> &[u32]
        requires { actor < length self.now.from }
        ensures { result.now ≡ slice_index_or self.now.from actor [] }
    {
        self.from[actor as usize].as_slice()
    }
}

/// An end of a link.
#[derive(Clone, Copy, Debug, Drop)]
pub(crate) enum Side {
    Tail,
    Head,
}

/// The actor at this end of the link.
fn actor_at(link: &Link, side: Side) -> Option<u32>
    ensures { (actor : ℕ) → stands_at side actor link.now ≡ is_of actor result }
{
    match side {
        Side::Tail => match link.tail {
            Tail::Source(_) => None,
            Tail::Port { actor, .. } => Some(actor),
        },
        Side::Head => match link.head {
            Head::Sink(_) => None,
            Head::Port { actor, .. } => Some(actor),
        },
    }
}

/// Puts a number at the end of this actor's list, if there is one for it.
fn push(lists: &mut [Vec<u32>], actor: Option<u32>, number: u32) -> Result<(), AllocError>
    ensures { OnOk result (IsListed (lists_of lists.old) (lists_of lists.new) actor number) }
{
    if let Some(actor) = actor {
        if (actor as usize) < lists.len() {
            lists[actor as usize].push(number)?;
        }
    }
    Ok(())
}

/// For each actor the numbers of the links that have it at this end.
fn listed(
    alloc: Global,
    actors: u32,
    links: &[Link],
    side: Side,
) -> Result<Vec<Vec<u32>>, AllocError>
    requires { length links.now < 2 ^ 32 }
    ensures { IfOk result (λ lists. AreListed actors side links.now (lists_of lists.items)) }
{
    let mut lists = empty_lists(alloc, actors as usize)?;
    for i in 0..links.len() as u32 {
        push(&mut lists, actor_at(&links[i as usize], side), i)?;
    }
    Ok(lists)
}

/// The links at each actor. It takes a step for each actor and each link.
pub fn ports_of(alloc: Global, level: &Level) -> Result<Ports, AllocError>
    ensures { IfOk result (ArePorts level.now) }
{
    let into = listed(alloc, level.actors, level.links.items(), Side::Head)?;
    let from = listed(alloc, level.actors, level.links.items(), Side::Tail)?;
    Ok(Ports { into, from })
}
