// What the firings of a level come to: how many there are, and their links and tokens.
ghost use Rattle.std.specs.Prelude.{ℕ, ◌≡◌, ◌≤◌, ◌<◌, ◌+◌, ◌*◌, ◌^◌, ◌↔◌, IsTrue, length};
ghost use Rattle.sdf_level.specs.Invariants.{rate_limit};
ghost use Rattle.sdf_level.specs.Limits.{IsWithinLimits, tail_count, head_count, moved, firing_count, link_count, token_count, firings_limit, links_limit};
ghost use Rattle.level_schedule.specs.Ends.{TailHasCount, HeadHasCount, HasEnds};

use sdf_level::{FIRINGS_LIMIT, Head, LINKS_LIMIT, Level, Link, TOKENS_LIMIT, Tail};

/// The sum of the counts.
pub(crate) fn count_firings(level: &Level, counts: &[u32]) -> u64
    requires { length counts.now ≡ level.now.actors }
    ensures { result ≡ firing_count counts.now }
{
    let mut total = 0u64;
    for actor in 0..level.actors {
        total += counts[actor as usize] as u64;
    }
    total
}

/// How often the tail writes: an actor in each firing, a source once.
fn count_tail(tail: Tail, counts: &[u32]) -> u64
    requires within { firing_count counts.now ≤ firings_limit }
    requires there { TailHasCount counts.now tail }
    ensures count { result ≡ tail_count counts.now tail }
    ensures within { result ≤ firings_limit }
{
    match tail {
        Tail::Source(_) => 1,
        Tail::Port { actor, .. } => counts[actor as usize] as u64,
    }
}

/// How often the head reads: an actor in each firing, a sink once.
fn count_head(head: Head, counts: &[u32]) -> u64
    requires within { firing_count counts.now ≤ firings_limit }
    requires there { HeadHasCount counts.now head }
    ensures count { result ≡ head_count counts.now head }
    ensures within { result ≤ firings_limit }
{
    match head {
        Head::Sink(_) => 1,
        Head::Port { actor, .. } => counts[actor as usize] as u64,
    }
}

/// What the actor at the link puts on it or takes from it in all its firings.
fn count_moved(link: &Link, counts: &[u32]) -> u64
    requires within { firing_count counts.now ≤ firings_limit }
    requires link { HasEnds counts.now link.now }
    ensures moved { result ≡ moved counts.now link.now.tail link.now.head }
    ensures within { result ≤ firings_limit * rate_limit }
{
    match (link.tail, link.head) {
        (Tail::Port { actor, rate, .. }, _) => counts[actor as usize] as u64 * rate as u64,
        (Tail::Source(_), Head::Port { actor, rate, .. }) => {
            counts[actor as usize] as u64 * rate as u64
        }
        (Tail::Source(_), Head::Sink(_)) => 0,
    }
}

/// Over the links, the firings of the tail and of the head, and 2.
pub(crate) fn count_links(level: &Level, counts: &[u32]) -> u64
    requires one_each { length counts.now ≡ level.now.actors }
    requires firings { firing_count counts.now ≤ firings_limit }
    ensures { result ≡ link_count level.now counts.now }
{
    let mut total = 0u64;
    for link in level.links.items() {
        total += count_tail(link.tail, counts) + count_head(link.head, counts) + 2;
    }
    total
}

/// Over the links, the tokens that the firings put or take, and the delay.
pub(crate) fn count_tokens(level: &Level, counts: &[u32]) -> u64
    requires one_each { length counts.now ≡ level.now.actors }
    requires firings { firing_count counts.now ≤ firings_limit }
    requires links { link_count level.now counts.now ≤ links_limit }
    ensures { result ≡ token_count level.now counts.now }
{
    let mut total = 0u64;
    for link in level.links.items() {
        total += count_moved(link, counts) + link.delay as u64;
    }
    total
}

/// Whether so many firings of each actor are within the limits of firings, links and tokens.
pub fn are_within_limits(level: &Level, counts: &[u32]) -> bool
    requires { length counts.now ≡ level.now.actors }
    ensures { IsTrue result ↔ IsWithinLimits level.now counts.now }
{
    if count_firings(level, counts) > FIRINGS_LIMIT {
        return false;
    }
    if count_links(level, counts) > LINKS_LIMIT {
        return false;
    }
    count_tokens(level, counts) <= TOKENS_LIMIT
}
