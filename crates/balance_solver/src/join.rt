// Groups of actors that links join, and for each group the least vector that solves its links.
ghost use Rattle.std.specs.Prelude.{ℕ, ◌≡◌, ◌≢◌, ◌<◌, ◌≤◌, ◌^◌, length, slice_index, IfOk};
ghost use Rattle.std.specs.Bool.{OnTrue, OnFalse};
ghost use Rattle.std.specs.List.{All};
ghost use Rattle.sdf_level.specs.Groups.{IsGrouping};
ghost use Rattle.sdf_level.specs.Lists.{occurrences};
ghost use Rattle.sdf_level.specs.Numbered.{IsBetween, as_link};
ghost use Rattle.balance_solver.specs.Scaled.{AreScaled, HasTooLarge, IsScaled, IsTooLarge};
ghost use Rattle.balance_solver.specs.Joined.{Adds, Refutes};

use crate::pair::least_pair;
use sdf_level::{BASE_ENTRY_LIMIT, Groups, InnerLink};
use std::alloc::{AllocError, Global};

/// Multiplies the entries of these actors. False where an entry would pass the limit.
fn scale(q: &mut [u32], actors: &[u32], times: u64) -> bool
    requires there { All (λ a. a < length q.old) actors.now }
    requires once { (a : ℕ) → a < length q.old → occurrences a actors.now ≤ 1 }
    requires times { times < 2 ^ 32 }
    ensures done { OnTrue result (AreScaled q.old q.new actors.now times) }
    ensures large { OnFalse result (HasTooLarge q.old actors.now times) }
{
    if times == 1 {
        return true;
    }
    for actor in actors {
        let scaled = q[*actor as usize] as u64 * times;
        if scaled > BASE_ENTRY_LIMIT as u64 {
            return false;
        }
        q[*actor as usize] = scaled as u32;
    }
    true
}

/// Multiplies the entries of the one group by `x` and those of the other by `y`, and makes the two one. False where an
/// entry would pass the limit. As entries are at most `BASE_ENTRY_LIMIT`, each is multiplied by more than 1 at most ten
/// times.
fn unite(
    alloc: Global,
    groups: &mut Groups,
    q: &mut [u32],
    into: u32,
    from: u32,
    x: u64,
    y: u64,
) -> Result<bool, AllocError>
    requires grouped { IsGrouping (length q.old) groups.old }
    requires into { into < length q.old }
    requires from { from < length q.old }
    requires apart { into ≢ from }
    requires x { x < 2 ^ 32 }
    requires y { y < 2 ^ 32 }
    ensures done { IfOk result (λ b. OnTrue b (IsScaled groups.old.number.items q.old groups.new.number.items q.new into from x y)) }
    ensures grouped { IfOk result (λ b. OnTrue b (IsGrouping (length q.old) groups.new)) }
    ensures large { IfOk result (λ b. OnFalse b (IsTooLarge groups.old.number.items q.old into from x y)) }
{
    if !scale(q, &groups.actors[into as usize], x) {
        return Ok(false);
    }
    if !scale(q, &groups.actors[from as usize], y) {
        return Ok(false);
    }
    groups.unite(alloc, into, from)?;
    Ok(true)
}

/// Adds a link. False where no vector solves it with the links before.
pub(crate) fn join(
    alloc: Global,
    link: &InnerLink,
    groups: &mut Groups,
    q: &mut [u32],
) -> Result<bool, AllocError>
    requires link { IsBetween (length q.old) link.now }
    requires grouped { IsGrouping (length q.old) groups.old }
    requires some { (a : ℕ) → a < length q.old → 1 ≤ slice_index q.old a }
    requires within { (a : ℕ) → a < length q.old → slice_index q.old a ≤ BASE_ENTRY_LIMIT }
    ensures joined { IfOk result (λ b. OnTrue b (Adds (length q.old) (as_link link.now) groups.old.number.items q.old groups.new.number.items q.new)) }
    ensures grouped { IfOk result (λ b. OnTrue b (IsGrouping (length q.old) groups.new)) }
    ensures refused { IfOk result (λ b. OnFalse b (Refutes (length q.old) (as_link link.now) groups.old.number.items q.old)) }
{
    let put = link.produced;
    let taken = link.consumed;
    if put == 0 || taken == 0 {
        return Ok(put == taken);
    }
    let all_put = q[link.tail as usize] as u64 * put as u64;
    let all_taken = q[link.head as usize] as u64 * taken as u64;
    let into = groups.number[link.tail as usize];
    let from = groups.number[link.head as usize];
    if into == from {
        return Ok(all_put == all_taken);
    }
    let (x, y) = least_pair(all_put, all_taken);
    unite(alloc, groups, q, into, from, x, y)
}
