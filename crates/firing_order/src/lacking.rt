// How many links into each actor lack tokens, and which actor is the next to fire.
ghost use Rattle.std.specs.Prelude.{ℕ, ◌≡◌, ◌≤◌, ◌<◌, ◌+◌, ◌^◌, length, set, slice_index, IfSome, IfNone};
ghost use Rattle.std.specs.List.{All};
ghost use Rattle.sdf_level.specs.Numbered.{IsBetween};
ghost use Rattle.firing_order.specs.Lacking.{IsFree, is_lacking, lacking_into};

use sdf_level::{InnerLink, Level};

/// Whether the link lacks the tokens for one more firing of its head.
fn lacks_tokens(link: &InnerLink, fired: &[u32]) -> bool
    requires { IsBetween (length fired.now) link.now }
    ensures { result ≡ is_lacking fired.now link.now }
{
    let put = link.produced as u64 * fired[link.tail as usize] as u64;
    let needed = link.consumed as u64 * (fired[link.head as usize] as u64 + 1);
    link.delay as u64 + put < needed
}

/// Counts these links, where they lack tokens, at the actors to which they lead.
pub(crate) fn count(links: &[InnerLink], fired: &[u32], lacking: &mut [usize])
    requires links { All (IsBetween (length fired.now)) links.now }
    requires one_each { length lacking.old ≡ length fired.now }
    requires few { (b : ℕ) → slice_index lacking.old b + length links.now < 2 ^ 64 }
    ensures { (b : ℕ) → slice_index lacking.new b ≡ slice_index lacking.old b + lacking_into fired.now b links.now }
{
    for link in links {
        if lacks_tokens(link, fired) {
            lacking[link.head as usize] += 1;
        }
    }
}

/// Counts these links no more.
fn uncount(links: &[InnerLink], fired: &[u32], lacking: &mut [usize])
    requires links { All (IsBetween (length fired.now)) links.now }
    requires one_each { length lacking.old ≡ length fired.now }
    requires counted { (b : ℕ) → lacking_into fired.now b links.now ≤ slice_index lacking.old b }
    ensures { (b : ℕ) → slice_index lacking.new b + lacking_into fired.now b links.now ≡ slice_index lacking.old b }
{
    for link in links {
        if lacks_tokens(link, fired) {
            lacking[link.head as usize] -= 1;
        }
    }
}

/// Fires the actor once more. `links` are those from it and into it: no others are counted anew.
pub(crate) fn fire(actor: u32, links: &[InnerLink], fired: &mut [u32], lacking: &mut [usize])
    requires actor { actor < length fired.old }
    requires room { slice_index fired.old actor + 1 < 2 ^ 32 }
    requires links { All (IsBetween (length fired.old)) links.now }
    requires one_each { length lacking.old ≡ length fired.old }
    requires counted { (b : ℕ) → lacking_into fired.old b links.now ≤ slice_index lacking.old b }
    requires few { (b : ℕ) → slice_index lacking.old b + length links.now < 2 ^ 64 }
    ensures fired { fired.new ≡ set fired.old actor (slice_index fired.old actor + 1) }
    ensures lacking { (b : ℕ) → slice_index lacking.new b + lacking_into fired.old b links.now ≡ slice_index lacking.old b + lacking_into fired.new b links.now }
{
    uncount(links, fired, lacking);
    fired[actor as usize] += 1;
    count(links, fired, lacking);
}

/// The least actor with count left into which no link lacks tokens.
pub(crate) fn next(level: &Level, counts: &[u32], fired: &[u32], lacking: &[usize]) -> Option<u32>
    requires counts { length counts.now ≡ level.now.actors }
    requires fired { length fired.now ≡ level.now.actors }
    requires lacking { length lacking.now ≡ level.now.actors }
    ensures there { IfSome result (λ a. a < level.now.actors) }
    ensures free { IfSome result (IsFree counts.now fired.now lacking.now) }
    ensures least { IfSome result (λ a. (c : ℕ) → c < a → IsFree counts.now fired.now lacking.now c → ⊥) }
    ensures none { IfNone result ((c : ℕ) → IsFree counts.now fired.now lacking.now c → ⊥) }
{
    for actor in 0..level.actors {
        let a = actor as usize;
        if fired[a] < counts[a] && lacking[a] == 0 {
            return Some(actor);
        }
    }
    None
}
