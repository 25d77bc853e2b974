// The edges of all links.
ghost use Rattle.std.specs.Prelude.{ℕ, ◌≡◌, ◌+◌, ◌*◌, ◌<◌, ◌≤◌, ◌^◌, ◌++◌, length, slice_index, OnOk, IfOk};
ghost use Rattle.std.specs.List.{AllByRecursion};
ghost use Rattle.single_rate.specs.Wires.{firing_parts, delay_part, broadcast_to, rounded_from, from_source, into_sink, cut_and_joined, wires_at, wires_from, wires};
ghost use Rattle.single_rate.specs.Short.{IsShort};

use crate::cutting::cut_and_join;
use crate::part::{Part, Port};
use crate::wire::Wire;
use sdf_level::{Head, Level, Link, Node, Tail};
use std::alloc::{AllocError, Global};

/// An actor's port at a link, and how often the actor fires.
#[derive(Debug, Clone, Copy, Drop)]
struct Firings {
    actor: u32,
    port: u32,
    rate: u32,
    count: u32,
}

/// Adds what the firings of an actor write or read at one port.
fn add_firings(firings: Firings, parts: &mut Vec<Part>) -> Result<(), AllocError>
    ensures { OnOk result (parts.new.items ≡ parts.old.items ++ firing_parts firings.actor firings.port firings.rate 0 firings.count) }
{
    for turn in 0..firings.count {
        parts.push(Part {
            at: Port {
                node: Node::Firing {
                    actor: firings.actor,
                    turn,
                },
                port: firings.port,
            },
            size: firings.rate,
        })?;
    }
    Ok(())
}

/// Adds what a delay writes at the start or reads at the end, if it has any places.
fn add_delay(node: Node, delay: u32, parts: &mut Vec<Part>) -> Result<(), AllocError>
    ensures { OnOk result (parts.new.items ≡ parts.old.items ++ delay_part node delay) }
{
    if delay == 0 {
        return Ok(());
    }
    parts.push(Part {
        at: Port { node, port: 0 },
        size: delay,
    })?;
    Ok(())
}

/// Adds the edges out of a Broadcast.
fn add_broadcast(link: u32, into: Firings, wires: &mut Vec<Wire>) -> Result<(), AllocError>
    requires { into.count * into.rate < 2 ^ 32 }
    ensures { OnOk result (wires.new.items ≡ wires.old.items ++ broadcast_to link into.actor into.port into.rate 0 0 into.count) }
{
    let mut place = 0u32;
    for turn in 0..into.count {
        wires.push(Wire {
            tail: Port {
                node: Node::Broadcast(link),
                port: turn,
            },
            head: Port {
                node: Node::Firing {
                    actor: into.actor,
                    turn,
                },
                port: into.port,
            },
            size: into.rate,
            place,
        })?;
        place += into.rate;
    }
    Ok(())
}

/// Adds the edges into a Round.
fn add_rounded(link: u32, from: Firings, wires: &mut Vec<Wire>) -> Result<(), AllocError>
    requires { from.count * from.rate < 2 ^ 32 }
    ensures { OnOk result (wires.new.items ≡ wires.old.items ++ rounded_from link from.actor from.port from.rate 0 0 from.count) }
{
    let mut place = 0u32;
    for turn in 0..from.count {
        wires.push(Wire {
            tail: Port {
                node: Node::Firing {
                    actor: from.actor,
                    turn,
                },
                port: from.port,
            },
            head: Port {
                node: Node::Round(link),
                port: turn,
            },
            size: from.rate,
            place,
        })?;
        place += from.rate;
    }
    Ok(())
}

/// Adds the edges of a link from a source of this rate to these firings.
fn add_source(
    alloc: Global,
    link: u32,
    source: u32,
    outside: u32,
    into: Firings,
    wires: &mut Vec<Wire>,
) -> Result<(), AllocError>
    requires { into.count * into.rate < 2 ^ 32 }
    ensures { OnOk result (wires.new.items ≡ wires.old.items ++ from_source link source outside into.actor into.port into.rate into.count) }
{
    let start = Port {
        node: Node::Source(source),
        port: 0,
    };
    if into.count * into.rate == outside {
        let mut readers = Vec::new(alloc);
        add_firings(into, &mut readers)?;
        let writers = [Part {
            at: start,
            size: outside,
        }];
        cut_and_join(alloc, link, &writers, &readers, wires)?;
        Ok(())
    } else {
        wires.push(Wire {
            tail: start,
            head: Port {
                node: Node::Broadcast(link),
                port: 0,
            },
            size: outside,
            place: 0,
        })?;
        add_broadcast(link, into, wires)?;
        Ok(())
    }
}

/// Adds the edges of a link from these firings into a sink of this rate.
fn add_sink(
    alloc: Global,
    link: u32,
    from: Firings,
    sink: u32,
    outside: u32,
    wires: &mut Vec<Wire>,
) -> Result<(), AllocError>
    requires short { from.count * from.rate < 2 ^ 32 }
    requires enough { outside ≤ from.count * from.rate }
    ensures { OnOk result (wires.new.items ≡ wires.old.items ++ into_sink link from.actor from.port from.rate from.count sink outside) }
{
    let end = Port {
        node: Node::Sink(sink),
        port: 0,
    };
    let written = from.count * from.rate;
    if written == outside {
        let mut writers = Vec::new(alloc);
        add_firings(from, &mut writers)?;
        let readers = [Part {
            at: end,
            size: outside,
        }];
        cut_and_join(alloc, link, &writers, &readers, wires)?;
        Ok(())
    } else {
        add_rounded(link, from, wires)?;
        wires.push(Wire {
            tail: Port {
                node: Node::Round(link),
                port: 0,
            },
            head: end,
            size: outside,
            place: written - outside,
        })?;
        Ok(())
    }
}

/// Adds the edges of a link between two actors.
fn add_inner(
    alloc: Global,
    link: u32,
    from: Firings,
    into: Firings,
    delay: u32,
    wires: &mut Vec<Wire>,
) -> Result<(), AllocError>
    requires short { delay + from.count * from.rate < 2 ^ 32 }
    requires readers_short { into.count * into.rate + delay < 2 ^ 32 }
    requires few { from.count + 1 < 2 ^ 32 }
    requires few_readers { into.count + 1 < 2 ^ 32 }
    ensures { OnOk result (wires.new.items ≡ wires.old.items ++ cut_and_joined link (delay_part (Node.Init link) delay ++ firing_parts from.actor from.port from.rate 0 from.count) (firing_parts into.actor into.port into.rate 0 into.count ++ delay_part (Node.End link) delay)) }
{
    let mut writers = Vec::new(alloc);
    add_delay(Node::Init(link), delay, &mut writers)?;
    add_firings(from, &mut writers)?;
    let mut readers = Vec::new(alloc);
    add_firings(into, &mut readers)?;
    add_delay(Node::End(link), delay, &mut readers)?;
    cut_and_join(alloc, link, &writers, &readers, wires)?;
    Ok(())
}

/// The firings of an actor at this port.
fn firings_at(counts: &[u32], actor: u32, port: u32, rate: u32) -> Firings
    requires { actor < length counts.now }
    ensures { result ≡ record { actor = actor; port = port; rate = rate; count = slice_index counts.now actor } }
{
    Firings {
        actor,
        port,
        rate,
        count: counts[actor as usize],
    }
}

/// Adds the edges of a link, whose number this is.
fn add_link(
    alloc: Global,
    level: &Level,
    counts: &[u32],
    number: u32,
    link: &Link,
    wires: &mut Vec<Wire>,
) -> Result<(), AllocError>
    requires { IsShort level.now counts.now link.now.tail link.now.head link.now.delay }
    ensures { OnOk result (wires.new.items ≡ wires.old.items ++ wires_at level.now counts.now number link.now.tail link.now.head link.now.delay) }
{
    match (link.tail, link.head) {
        (Tail::Source(_), Head::Sink(_)) => Ok(()),
        (Tail::Source(source), Head::Port { actor, port, rate }) => {
            let outside = level.sources.items()[source as usize];
            let into = firings_at(counts, actor, port, rate);
            add_source(alloc, number, source, outside, into, wires)?;
            Ok(())
        }
        (Tail::Port { actor, port, rate }, Head::Sink(sink)) => {
            let outside = level.sinks.items()[sink as usize];
            let from = firings_at(counts, actor, port, rate);
            add_sink(alloc, number, from, sink, outside, wires)?;
            Ok(())
        }
        (
            Tail::Port {
                actor: tail,
                port: output,
                rate: produced,
            },
            Head::Port {
                actor: head,
                port: input,
                rate: consumed,
            },
        ) => {
            let from = firings_at(counts, tail, output, produced);
            let into = firings_at(counts, head, input, consumed);
            add_inner(alloc, number, from, into, link.delay, wires)?;
            Ok(())
        }
    }
}

/// The edges of all links, by their nodes.
pub fn expand_links(alloc: Global, level: &Level, counts: &[u32]) -> Result<Vec<Wire>, AllocError>
    requires { AllByRecursion (λ link. IsShort level.now counts.now link.tail link.head link.delay) level.now.links }
    ensures { IfOk result (λ v. v.items ≡ wires level.now counts.now) }
{
    let mut wires = Vec::new(alloc);
    let links = level.links.items();
    for i in 0..links.len() {
        add_link(alloc, level, counts, i as u32, &links[i], &mut wires)?;
    }
    Ok(wires)
}
