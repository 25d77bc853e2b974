// Whether each component of a level has a source or sink of positive rate, and whether the firings of its actors move just the
// tokens of these.
ghost use Rattle.std.specs.Prelude.{ℕ, ◌≡◌, ◌<◌, ◌*◌, ◌↔◌, length, IsTrue, IfOk};
ghost use Rattle.interface_rules.specs.Connections.{AreGrouped};
ghost use Rattle.interface_rules.specs.Served.{IsSound};
ghost use Rattle.sdf_level.specs.Links.{EachOuter, OfOuter};
ghost use Rattle.level_laws.specs.Unfolded.{IsMetExactly, IsOuterWith, IsServed, SomeOuter};
ghost use Rattle.unfold_rates.specs.Components.{IsOfComponent};

use interface_rules::components;
use sdf_level::{Head, Level, Link, Tail};
use std::alloc::{AllocError, Global};

/// Whether so many firings at a rate, if that is positive, move as many tokens as this.
fn moves_all(count: u32, rate: u32, outside: u32) -> bool
    ensures { IsTrue result ↔ (0 < rate → count * rate ≡ outside) }
{
    if rate == 0 {
        return true;
    }
    count as u64 * rate as u64 == outside as u64
}

/// Whether the firings of the actor at a source or sink move as many tokens as the rate of that, if they move any; true of a
/// link between two actors.
fn is_met(level: &Level, link: &Link, counts: &[u32]) -> bool
    requires link { IsSound level.now link.now }
    requires one_each { length counts.now ≡ level.now.actors }
    ensures { IsTrue result ↔ OfOuter (IsMetExactly counts.now) level.now link.now.tail link.now.head }
{
    match (link.tail, link.head) {
        (Tail::Source(source), Head::Port { actor, rate, .. }) => {
            let outside = level.sources.items()[source as usize];
            moves_all(counts[actor as usize], rate, outside)
        }
        (Tail::Port { actor, rate, .. }, Head::Sink(sink)) => {
            let outside = level.sinks.items()[sink as usize];
            moves_all(counts[actor as usize], rate, outside)
        }
        (Tail::Source(_), Head::Sink(_)) => true,
        (Tail::Port { .. }, Head::Port { .. }) => true,
    }
}

/// Whether this is so of every source and sink.
pub(crate) fn are_met(level: &Level, counts: &[u32]) -> bool
    requires { length counts.now ≡ level.now.actors }
    ensures { IsTrue result ↔ EachOuter (IsMetExactly counts.now) level.now level.now.links }
{
    for link in level.links.items() {
        if !is_met(level, link, counts) {
            return false;
        }
    }
    true
}

/// Whether a rate is positive, at an actor whose component has this number.
fn is_of_component(component: u32, number: u32, rate: u32) -> bool
    ensures { IsTrue result ↔ ((0 < rate) × (component ≡ number)) }
{
    if rate == 0 {
        return false;
    }
    component == number
}

/// Whether the link has a source or sink, and a positive rate at an actor of the component with this number.
fn serves(level: &Level, link: &Link, component: &[u32], number: u32) -> bool
    requires link { IsSound level.now link.now }
    requires one_each { length component.now ≡ level.now.actors }
    ensures { IsTrue result ↔ IsOuterWith (IsOfComponent component.now number) level.now link.now.tail link.now.head }
{
    match (link.tail, link.head) {
        (Tail::Source(_), Head::Port { actor, rate, .. }) => {
            is_of_component(component[actor as usize], number, rate)
        }
        (Tail::Port { actor, rate, .. }, Head::Sink(_)) => {
            is_of_component(component[actor as usize], number, rate)
        }
        (Tail::Source(_), Head::Sink(_)) => false,
        (Tail::Port { .. }, Head::Port { .. }) => false,
    }
}

/// Whether some link is such a one.
fn is_served(level: &Level, component: &[u32], number: u32) -> bool
    requires { length component.now ≡ level.now.actors }
    ensures { IsTrue result ↔ SomeOuter (IsOfComponent component.now number) level.now level.now.links }
{
    for link in level.links.items() {
        if serves(level, link, component, number) {
            return true;
        }
    }
    false
}

/// Whether the component of each actor has a source or sink of positive rate, where these are the numbers of the components.
fn each_is_served(level: &Level, component: &[u32]) -> bool
    requires { AreGrouped level.now.actors level.now.links component.now }
    ensures { IsTrue result ↔ ((a : ℕ) → a < level.now.actors → IsServed level.now a) }
{
    for actor in 0..level.actors as usize {
        if !is_served(level, component, component[actor]) {
            return false;
        }
    }
    true
}

/// Whether the component of each actor has a source or sink of positive rate.
pub(crate) fn are_served(alloc: Global, level: &Level) -> Result<bool, AllocError>
    ensures { IfOk result (λ served. IsTrue served ↔ ((a : ℕ) → a < level.now.actors → IsServed level.now a)) }
{
    let component = components(alloc, level)?;
    Ok(each_is_served(level, &component))
}
