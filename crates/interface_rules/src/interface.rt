// The least factor of each component with which its actors serve the sources and sinks.
ghost use Rattle.std.specs.Prelude.{ℕ, ◌≡◌, ◌<◌, ◌≤◌, length, slice_index, IfOk, IsErrOf};
ghost use Rattle.std.specs.Bool.{OnTrue, OnFalse};
ghost use Rattle.sdf_level.specs.Balance.{IsBase};
ghost use Rattle.sdf_level.specs.Repetition.{AgreesOnZero, IsFirstMismatch};
ghost use Rattle.interface_rules.specs.Connections.{AreGrouped};
ghost use Rattle.interface_rules.specs.Served.{IsSound, HasBase, HasGroups, IsServedOnce, Serves, Disagrees, AreServed};

use crate::fault::InterfaceFault;
use crate::need::least_need;
use sdf_level::{Head, Level, Link, RATE_LIMIT, Tail};
use std::alloc::Global;

/// Raises the factor of an actor's group to what a source or sink of rate `outside` needs, which an actor's port of rate
/// `rate` serves. False where exactly one of the rates is 0.
fn serve_port(
    outside: u32,
    actor: u32,
    rate: u32,
    base: &[u32],
    group: &[u32],
    factors: &mut [u32],
) -> bool
    requires outside { outside ≤ RATE_LIMIT }
    requires rate { rate ≤ RATE_LIMIT }
    requires actor { actor < length factors.old }
    requires base { HasBase (length factors.old) base.now }
    requires group { HasGroups (length factors.old) group.now }
    ensures served { OnTrue result (IsServedOnce base.now group.now factors.old factors.new record { outside = outside; actor = actor; rate = rate }) }
    ensures refused { OnFalse result (AgreesOnZero record { outside = outside; actor = actor; rate = rate } → ⊥) }
{
    if (outside == 0) != (rate == 0) {
        return false;
    }
    let need = least_need(outside, base[actor as usize], rate);
    let number = group[actor as usize] as usize;
    if factors[number] < need {
        factors[number] = need;
    }
    true
}

/// Raises the factor that a link asks for; one between two actors asks for none. False where the link has a source or
/// sink and exactly one rate 0.
fn serve(level: &Level, link: &Link, base: &[u32], group: &[u32], factors: &mut [u32]) -> bool
    requires link { IsSound level.now link.now }
    requires actors { length factors.old ≡ level.now.actors }
    requires base { HasBase (length factors.old) base.now }
    requires group { HasGroups (length factors.old) group.now }
    ensures served { OnTrue result (Serves level.now link.now base.now group.now factors.old factors.new) }
    ensures refused { OnFalse result (Disagrees level.now link.now) }
{
    match (link.tail, link.head) {
        (Tail::Source(source), Head::Port { actor, rate, .. }) => {
            let outside = level.sources.items()[source as usize];
            serve_port(outside, actor, rate, base, group, factors)
        }
        (Tail::Port { actor, rate, .. }, Head::Sink(sink)) => {
            let outside = level.sinks.items()[sink as usize];
            serve_port(outside, actor, rate, base, group, factors)
        }
        _ => true,
    }
}

/// The least factor of each group of actors, by the group's number; 1 for a number that no group has.
pub(crate) fn factors(
    alloc: Global,
    level: &Level,
    base: &[u32],
    group: &[u32],
) -> Result<Vec<u32>, InterfaceFault>
    requires base { IsBase level.now base.now }
    requires group { AreGrouped level.now.actors level.now.links group.now }
    ensures served { IfOk result (λ f. AreServed level.now level.now.links base.now group.now f.items) }
    ensures mismatch { (link : ℕ) → IsErrOf result (InterfaceFault.Mismatch link) → IsFirstMismatch level.now link }
{
    let mut factors = vec![in alloc; 1u32; base.len()]?;
    for (i, link) in level.links.items().iter().enumerate() {
        if !serve(level, link, base, group, &mut factors) {
            return Err(InterfaceFault::Mismatch { link: i as u32 });
        }
    }
    Ok(factors)
}
