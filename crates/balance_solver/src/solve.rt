ghost use Rattle.std.specs.Prelude.{ℕ, ◌≡◌, List as Seq, IfOk, IsErr, IsErrOf};
ghost use Rattle.sdf_level.specs.Balance.{IsBase, HasNoVector};

use crate::join::join;
use crate::unsolved::Unsolved;
use sdf_level::{Groups, Level, List};
use std::alloc::Global;

/// The base vector (Lee and Messerschmitt 1987): for each actor, how often it fires in the least vector with entries from
/// 1 to `BASE_ENTRY_LIMIT` with which every link between two actors is given as many tokens as are taken from it.
///
/// # Errors
///
/// `NoVector` exactly where no such vector exists; so also where such a link has exactly one rate 0.
pub fn repetition(alloc: Global, level: &Level) -> Result<List<u32>, Unsolved>
    ensures base { IfOk result (λ q. IsBase level.now q) }
    ensures only { IfOk result (λ q. (other : Seq ℕ) → IsBase level.now other → other ≡ q) }
    ensures no_vector { IsErrOf result Unsolved.NoVector → HasNoVector level.now }
    ensures refused { HasNoVector level.now → IsErr result }
{
    let links = level.inner_links(alloc)?;
    let mut groups = Groups::apart(alloc, level.actors)?;
    let mut q = vec![in alloc; 1u32; level.actors as usize]?;
    for link in &links {
        if !join(alloc, link, &mut groups, &mut q)? {
            return Err(Unsolved::NoVector);
        }
    }
    Ok(List::new(q))
}
