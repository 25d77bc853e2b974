// Disjoint groups of actors.
ghost use Rattle.std.specs.Prelude.{ℕ, ◌≡◌, ◌≢◌, ◌<◌, ◌++◌, [], length, set, slice_index, slice_index_or, IfOk, OnOk};
ghost use Rattle.std.specs.List.{All};
ghost use Rattle.sdf_level.specs.Groups.{AreRenumbered, AreUnited, IsGrouping};
ghost use Rattle.sdf_level.specs.Lists.{lists_of};

use std::alloc::{AllocError, Global};
use std::mem;

/// Disjoint groups of actors. To make two of them one takes a step for each actor of the smaller, so that in all no actor
/// is moved more often than the count of actors can be halved.
#[derive(Debug, Drop)]
pub struct Groups {
    /// For each actor the number of its group, which is below the count of actors.
    pub number: Vec<u32>,
    /// For each number the actors of that group, each once; none where no group has the number.
    pub actors: Vec<Vec<u32>>,
}

/// Gives these actors the number of a group.
fn renumber(number: &mut [u32], actors: &[u32], group: u32)
    requires { All (λ a. a < length number.old) actors.now }
    ensures { AreRenumbered number.old number.new actors.now group }
{
    for actor in actors {
        number[*actor as usize] = group;
    }
}

/// Leaves this list empty, and gives what it had.
fn take_out(alloc: Global, lists: &mut [Vec<u32>], at: u32) -> Vec<u32>
    requires { at < length lists.old }
    ensures taken { result.items ≡ slice_index_or (lists_of lists.old) at [] }
    ensures left { lists_of lists.new ≡ set (lists_of lists.old) at [] }
{
    mem::replace(&mut lists[at as usize], Vec::new(alloc))
}

/// Puts these actors at the end of this list.
fn append(lists: &mut [Vec<u32>], at: u32, actors: &[u32]) -> Result<(), AllocError>
    requires { at < length lists.old }
    ensures { OnOk result (lists_of lists.new ≡ set (lists_of lists.old) at (slice_index_or (lists_of lists.old) at [] ++ actors.now)) }
{
    lists[at as usize].extend_from_slice(actors)?;
    Ok(())
}

impl Groups {
    /// Each actor in a group of its own, which has its number.
    pub fn apart(alloc: Global, actors: u32) -> Result<Groups, AllocError>
        ensures grouped { IfOk result (IsGrouping actors) }
        ensures own { IfOk result (λ groups. (a : ℕ) → a < actors → slice_index groups.number.items a ≡ a) }
    {
        let mut number = Vec::new(alloc);
        let mut lists = Vec::new(alloc);
        for actor in 0..actors {
            number.push(actor)?;
            lists.push(vec![in alloc; actor]?)?;
        }
        Ok(Groups {
            number,
            actors: lists,
        })
    }

    /// Moves the actors of one group into another.
    fn merge(&mut self, alloc: Global, into: u32, from: u32) -> Result<(), AllocError>
        requires grouped { IsGrouping (length self.old.number.items) self.old }
        requires into { into < length self.old.number.items }
        requires from { from < length self.old.number.items }
        requires apart { into ≢ from }
        ensures grouped { OnOk result (IsGrouping (length self.old.number.items) self.new) }
        ensures united { OnOk result (AreUnited self.old.number.items self.new.number.items into from) }
    {
        let moved = take_out(alloc, &mut self.actors, from);
        renumber(&mut self.number, &moved, into);
        append(&mut self.actors, into, &moved)?;
        Ok(())
    }

    /// Makes two groups one, which has the number of one of them. The actors of the smaller are moved.
    ///
    /// # Errors
    ///
    /// [`AllocError`]; the groups are then no more of use.
    pub fn unite(&mut self, alloc: Global, first: u32, second: u32) -> Result<(), AllocError>
        requires grouped { IsGrouping (length self.old.number.items) self.old }
        requires first { first < length self.old.number.items }
        requires second { second < length self.old.number.items }
        requires apart { first ≢ second }
        ensures grouped { OnOk result (IsGrouping (length self.old.number.items) self.new) }
        ensures united { OnOk result (AreUnited self.old.number.items self.new.number.items first second) }
    {
        if self.actors[first as usize].len() < self.actors[second as usize].len() {
            self.merge(alloc, second, first)
        } else {
            self.merge(alloc, first, second)
        }
    }
}
