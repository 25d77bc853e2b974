// Links between two actors, without the numbers of their ports.
ghost use Rattle.std.specs.Prelude.{◌≡◌, ◌<◌, ◌^◌, length, map, IfOk};
ghost use Rattle.std.specs.List.{All};
ghost use Rattle.std.specs.Option.{option_to_list};
ghost use Rattle.sdf_level.specs.Numbered.{IsBetween, inner_at, inner_links, inner_of};

use crate::level::Level;
use crate::link::{Head, Link, Tail};
use std::alloc::{AllocError, Global};

/// A link between two actors, without the numbers of its ports: a firing of `tail` puts `produced` tokens on it, one of
/// `head` takes `consumed`, and it holds `delay` at the start.
#[derive(Debug, Clone, Copy, PartialEq, Eq, Drop)]
pub struct InnerLink {
    pub tail: u32,
    pub produced: u32,
    pub head: u32,
    pub consumed: u32,
    pub delay: u32,
}

/// The link without the numbers of its ports, if it is between two actors.
fn inner(link: &Link) -> Option<InnerLink>
    ensures { map inner_of (option_to_list result) ≡ inner_at link.now.tail link.now.head link.now.delay }
{
    match (link.tail, link.head) {
        (
            Tail::Port {
                actor: tail,
                rate: produced,
                ..
            },
            Head::Port {
                actor: head,
                rate: consumed,
                ..
            },
        ) => Some(InnerLink {
            tail,
            produced,
            head,
            consumed,
            delay: link.delay,
        }),
        _ => None,
    }
}

impl Level {
    /// The links between two actors, in their order.
    pub fn inner_links(&self, alloc: Global) -> Result<Vec<InnerLink>, AllocError>
        ensures links { IfOk result (λ inner. map inner_of inner.items ≡ inner_links self.now.links) }
        ensures there { IfOk result (λ inner. All (IsBetween self.now.actors) inner.items) }
        ensures few { IfOk result (λ inner. length inner.items < 2 ^ 32) }
    {
        let mut between = Vec::new(alloc);
        for link in self.links.items() {
            if let Some(found) = inner(link) {
                between.push(found)?;
            }
        }
        Ok(between)
    }
}
