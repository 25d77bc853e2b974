ghost use Rattle.std.specs.Prelude.{ℕ, ◌≡◌, List as Seq, IfOk, IsErr, IsErrOf};
ghost use Rattle.sdf_level.specs.Balance.{IsBase};
ghost use Rattle.sdf_level.specs.Repetition.{IsRepetition, HasNoRepetition, IsFirstMismatch};

use crate::component::components;
use crate::fault::InterfaceFault;
use crate::interface::factors;
use sdf_level::{Level, List};
use std::alloc::Global;

/// The repetition vector: the base vector, each component of it times the least factor of at least 1 with which, in all
/// its firings, each actor takes at least as many tokens from a source, and gives at least as many to a sink, as the rate
/// of that. The factor need not use up a multiple of that rate: the last repetition is cut.
///
/// # Errors
///
/// `Mismatch` exactly where a link with a source or sink has exactly one rate 0; the first such link.
pub fn factor(alloc: Global, level: &Level, base: &[u32]) -> Result<List<u32>, InterfaceFault>
    requires { IsBase level.now base.now }
    ensures repetition { IfOk result (λ q. IsRepetition level.now q) }
    ensures only { IfOk result (λ q. (other : Seq ℕ) → IsRepetition level.now other → other ≡ q) }
    ensures none { (link : ℕ) → IsErrOf result (InterfaceFault.Mismatch link) → HasNoRepetition level.now }
    ensures each_none { HasNoRepetition level.now → IsErr result }
    ensures mismatch { (link : ℕ) → IsErrOf result (InterfaceFault.Mismatch link) → IsFirstMismatch level.now link }
    ensures refused { (link : ℕ) → IsFirstMismatch level.now link → IsErr result }
{
    let group = components(alloc, level)?;
    let factors = factors(alloc, level, base, &group)?;
    let mut counts = Vec::new(alloc);
    for actor in 0..level.actors as usize {
        counts.push(factors[group[actor] as usize] * base[actor])?;
    }
    Ok(List::new(counts))
}
