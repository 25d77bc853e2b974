// Whether so many times the firings of a level are within the limits.
ghost use Rattle.std.specs.Prelude.{◌≡◌, ◌≤◌, ◌*◌, IsTrue, ◌↔◌, length, IfOk};
ghost use Rattle.sdf_level.specs.Limits.{IsWithinLimits, firing_count, firings_limit};
ghost use Rattle.level_laws.specs.Unfolded.{multiplied as times_each};

use level_schedule::are_within_limits;
use sdf_level::Level;
use std::alloc::{AllocError, Global};

/// So many times a count.
fn product(times: u32, count: u32) -> u32
    requires few { times ≤ 64 }
    requires within { count ≤ firings_limit }
    ensures { result ≡ times * count }
{
    times * count
}

/// So many times each count.
fn multiplied(alloc: Global, counts: &[u32], times: u32) -> Result<Vec<u32>, AllocError>
    requires few { times ≤ 64 }
    requires within { firing_count counts.now ≤ firings_limit }
    ensures { IfOk result (λ v. v.items ≡ times_each times counts.now) }
{
    let mut products = Vec::with_capacity(alloc, counts.len())?;
    for actor in 0..counts.len() {
        products.push(product(times, counts[actor]))?;
    }
    Ok(products)
}

/// Whether so many times these counts of firings are within the limits of firings, links and tokens.
pub(crate) fn is_within_limits(
    alloc: Global,
    level: &Level,
    counts: &[u32],
    times: u32,
) -> Result<bool, AllocError>
    requires few { times ≤ 64 }
    requires one_each { length counts.now ≡ level.now.actors }
    requires within { firing_count counts.now ≤ firings_limit }
    ensures { IfOk result (λ within. IsTrue within ↔ IsWithinLimits level.now (times_each times counts.now)) }
{
    let counts = multiplied(alloc, counts, times)?;
    Ok(are_within_limits(level, &counts))
}
