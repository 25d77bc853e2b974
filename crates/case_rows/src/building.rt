// Levels, each of whose ports is the next of its actor, in the order of the lines.
ghost use Rattle.std.specs.Prelude.{◌≡◌, ◌≤◌, ◌<◌, ◌^◌, IsTrue, IfOk, All, length};
ghost use Rattle.std.specs.Bool.{OnTrue};
ghost use Rattle.case_rows.specs.Numbering.{IsSoundIn, NextHead, NextTail};

use crate::lines::{End, Line};
use crate::trouble::Trouble;
use sdf_level::{Head, Level, Link, List, RATE_LIMIT, Tail};
use std::alloc::Global;

/// The tail at the next source or the next output of an actor, which is then counted.
fn next_tail(end: End, sources: &mut Vec<u32>, outputs: &mut Vec<u32>) -> Result<Tail, Trouble>
    ensures { IfOk result (λ t. NextTail sources.old.items outputs.old.items sources.new.items outputs.new.items t) }
{
    match end {
        End::Interface(rate) => {
            let source = sources.len();
            if source > 1_000_000 {
                return Err(Trouble::Member("links"));
            }
            sources.push(rate)?;
            Ok(Tail::Source(source as u32))
        }
        End::Actor(actor, rate) => {
            if actor as usize >= outputs.len() || outputs[actor as usize] > 1_000_000 {
                return Err(Trouble::Member("links"));
            }
            let port = outputs[actor as usize];
            outputs[actor as usize] = port + 1;
            Ok(Tail::Port { actor, port, rate })
        }
    }
}

/// The head at the next sink or the next input of an actor, which is then counted.
fn next_head(end: End, sinks: &mut Vec<u32>, inputs: &mut Vec<u32>) -> Result<Head, Trouble>
    ensures { IfOk result (λ h. NextHead sinks.old.items inputs.old.items sinks.new.items inputs.new.items h) }
{
    match end {
        End::Interface(rate) => {
            let sink = sinks.len();
            if sink > 1_000_000 {
                return Err(Trouble::Member("links"));
            }
            sinks.push(rate)?;
            Ok(Head::Sink(sink as u32))
        }
        End::Actor(actor, rate) => {
            if actor as usize >= inputs.len() || inputs[actor as usize] > 1_000_000 {
                return Err(Trouble::Member("links"));
            }
            let port = inputs[actor as usize];
            inputs[actor as usize] = port + 1;
            Ok(Head::Port { actor, port, rate })
        }
    }
}

/// Whether each number of a link names a part of a level with so many actors, sources and sinks, it touches an actor,
/// has no delay at a source or sink, and its rates lie within the limit.
fn is_sound(actors: u32, sources: u32, sinks: u32, link: &Link) -> bool
    ensures { IsTrue result → IsSoundIn actors sources sinks link.now }
{
    match (link.tail, link.head) {
        (Tail::Source(_), Head::Sink(_)) => false,
        (Tail::Source(source), Head::Port { actor, rate, .. }) => {
            source < sources && actor < actors && rate <= RATE_LIMIT && link.delay == 0
        }
        (Tail::Port { actor, rate, .. }, Head::Sink(sink)) => {
            sink < sinks && actor < actors && rate <= RATE_LIMIT && link.delay == 0
        }
        (
            Tail::Port {
                actor: tail,
                rate: put,
                ..
            },
            Head::Port {
                actor: head,
                rate: taken,
                ..
            },
        ) => tail < actors && head < actors && put <= RATE_LIMIT && taken <= RATE_LIMIT,
    }
}

/// Whether each of these links is sound.
fn are_sound(actors: u32, sources: u32, sinks: u32, links: &[Link]) -> bool
    ensures { IsTrue result → All (IsSoundIn actors sources sinks) links.now }
{
    links
        .iter()
        .all(|link| is_sound(actors, sources, sinks, link))
}

/// Whether these rates lie within the limit.
fn are_rates(rates: &[u32]) -> bool
    ensures { IsTrue result → All (λ rate. rate ≤ RATE_LIMIT) rates.now }
{
    rates.iter().all(|rate| *rate <= RATE_LIMIT)
}

/// Whether these are sources, sinks and links of a level with so many actors, but for the numbers of its ports.
fn are_parts(actors: u32, sources: &Vec<u32>, sinks: &Vec<u32>, links: &Vec<Link>) -> bool
    ensures sound { OnTrue result (All (IsSoundIn actors (length sources.now.items) (length sinks.now.items)) links.now.items) }
    ensures sources { OnTrue result (All (λ rate. rate ≤ RATE_LIMIT) sources.now.items) }
    ensures sinks { OnTrue result (All (λ rate. rate ≤ RATE_LIMIT) sinks.now.items) }
    ensures few_links { OnTrue result (length links.now.items < 2 ^ 32) }
    ensures few_sources { OnTrue result (length sources.now.items < 2 ^ 32) }
    ensures few_sinks { OnTrue result (length sinks.now.items < 2 ^ 32) }
{
    let (sources, sinks, links) = (sources.as_slice(), sinks.as_slice(), links.as_slice());
    if links.len() > 1_000_000 || sources.len() > 1_000_000 || sinks.len() > 1_000_000 {
        return false;
    }
    if !are_rates(sources) || !are_rates(sinks) {
        return false;
    }
    if !are_sound(actors, sources.len() as u32, sinks.len() as u32, links) {
        return false;
    }
    true
}

/// The level of so many actors with these links, in this order.
///
/// # Errors
///
/// [`Trouble::Member`] where the lines are those of none: an end names no actor, a link has no actor or a delay at a source or sink, a
/// rate is over its limit, or there are more than a million of them. [`Trouble::Memory`].
pub fn level_with(alloc: Global, actors: u32, lines: &[Line]) -> Result<Level, Trouble>
    ensures actors { IfOk result (λ level. level.actors ≡ actors) }
{
    let mut outputs = vec![in alloc; 0u32; actors as usize]?;
    let mut inputs = vec![in alloc; 0u32; actors as usize]?;
    let mut sources = Vec::new(alloc);
    let mut sinks = Vec::new(alloc);
    let mut links = Vec::new(alloc);
    for line in lines {
        let tail = next_tail(line.tail, &mut sources, &mut outputs)?;
        let head = next_head(line.head, &mut sinks, &mut inputs)?;
        links.push(Link {
            tail,
            head,
            delay: line.delay,
        })?;
    }
    if !are_parts(actors, &sources, &sinks, &links) {
        return Err(Trouble::Member("links"));
    }
    Ok(Level {
        actors,
        sources: List::new(sources),
        sinks: List::new(sinks),
        links: List::new(links),
    })
}
