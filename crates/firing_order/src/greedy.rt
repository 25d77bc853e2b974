ghost use Rattle.std.specs.Prelude.{ℕ, ◌≡◌, ◌≤◌, ◌<◌, ◌↔◌, List as Seq, length, slice_index, IfOk, IfErr, IsErr, IsTrue};
ghost use Rattle.sdf_level.specs.Orders.{IsDeadlocked, IsLeft, IsTurnOrder};
ghost use Rattle.firing_order.specs.Answers.{IfLeft};
ghost use Rattle.firing_order.specs.Lacking.{IsRest};

use crate::adjacent::links_at;
use crate::lacking::{count, fire, next};
use crate::stuck::Stuck;
use sdf_level::{Level, List, Turn};
use std::alloc::{AllocError, Global};

/// The order in which one thread fires the actors of a level: in every place the least actor that has count left and, on
/// each link from another actor or itself, the tokens for one firing. `counts` has the number of firings of each actor, and
/// the answer one entry for each firing.
///
/// This decides deadlock (Lee and Messerschmitt 1987): where an actor fires as soon as it can, the firings only stop short
/// of the counts where no order could fire them all. A firing takes a step for each link from or into the actor that fires,
/// and the choice of that actor one for each actor.
///
/// # Errors
///
/// [`Stuck::Left`] exactly where no admissible list fires every actor its count, and [`Stuck::Memory`].
pub fn order(alloc: Global, level: &Level, counts: &[u32]) -> Result<List<Turn>, Stuck>
    requires { length counts.now ≡ level.now.actors }
    ensures order { IfOk result (IsTurnOrder level.now counts.now) }
    ensures only { IfOk result (λ turns. (other : Seq Turn) → IsTurnOrder level.now counts.now other → other ≡ turns) }

    // Where there is no order the answer says so, and where it says so there is none.
    ensures each_deadlock { IsDeadlocked level.now counts.now → IsErr result }
    ensures left_is_deadlock { IfErr result (IfLeft (λ _. IsDeadlocked level.now counts.now)) }
    ensures left { IfErr result (IfLeft (IsLeft level.now counts.now)) }
    ensures only_left { IfErr result (IfLeft (λ left. (other : Seq ℕ) → IsLeft level.now counts.now other → other ≡ left)) }
{
    let links = level.inner_links(alloc)?;
    let lists = links_at(alloc, level.actors, &links)?;
    let mut fired = vec![in alloc; 0u32; counts.len()]?;
    let mut lacking = vec![in alloc; 0usize; counts.len()]?;
    let mut turns = Vec::new(alloc);
    count(&links, &fired, &mut lacking);
    while let Some(actor) = next(level, counts, &fired, &lacking) {
        let before = fired[actor as usize];
        turns.push(Turn {
            actor,
            turn: before,
        })?;
        fire(actor, &lists[actor as usize], &mut fired, &mut lacking);
    }
    if is_done(counts, &fired) {
        Ok(List::new(turns))
    } else {
        Err(Stuck::Left(List::new(left(alloc, counts, &fired)?)))
    }
}

/// Whether each actor has fired its count.
fn is_done(counts: &[u32], fired: &[u32]) -> bool
    ensures { IsTrue result ↔ (counts.now ≡ fired.now) }
{
    counts == fired
}

/// What is left of each count.
fn left(alloc: Global, counts: &[u32], fired: &[u32]) -> Result<Vec<u32>, AllocError>
    requires one_each { length fired.now ≡ length counts.now }
    requires within { (a : ℕ) → a < length counts.now → slice_index fired.now a ≤ slice_index counts.now a }
    ensures { IfOk result (λ v. IsRest counts.now fired.now v.items) }
{
    let mut left = Vec::new(alloc);
    for a in 0..counts.len() {
        left.push(counts[a] - fired[a])?;
    }
    Ok(left)
}
