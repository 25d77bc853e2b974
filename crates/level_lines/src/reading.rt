// What a firing reads.
ghost use Rattle.std.specs.Prelude.{ℕ, ℤ, ◌≡◌, ◌<◌, ◌≤◌, ◌+◌, ◌*◌, ◌^◌, Bool, true, false, List as Seq, [], drop, take, length, slice_index_or, IfOk, IfSome, IfNone};
ghost use Rattle.sdf_level.specs.Invariants.{is_into_port};
ghost use Rattle.sdf_level.specs.Interfaces.{repeated};
ghost use Rattle.sdf_level.specs.Lists.{lists_of};
ghost use Rattle.sdf_level.specs.Run.{head_rate, input, inputs, is_into_actor, read};
ghost use Rattle.level_lines.specs.AtActors.{ArePorts, no_link, places};
ghost use Rattle.level_lines.specs.Lines.{HasSource};

use crate::ports::Ports;
use sdf_level::{Head, Level, Link, List, Tail};
use std::alloc::{AllocError, Global};

/// `count` tokens of a line from a place on, as far as they are there.
fn window(alloc: Global, line: &[i64], start: u64, count: u32) -> Result<List<i64>, AllocError>
    ensures { IfOk result (λ tokens. tokens ≡ take count (drop start line.now)) }
{
    let start = start.min(line.len() as u64) as usize;
    let rest = &line[start..];
    let count = (count as usize).min(rest.len());
    let tokens = Vec::from_slice(alloc, &rest[..count])?;
    Ok(List::new(tokens))
}

/// `count` tokens of a source, which is repeated without end, from a place on; none where it has none.
fn repeated_window(
    alloc: Global,
    source: &[i64],
    start: u64,
    count: u32,
) -> Result<List<i64>, AllocError>
    requires { start + count < 2 ^ 64 }
    ensures { IfOk result (λ tokens. tokens ≡ repeated source.now start count) }
{
    if source.is_empty() {
        return Ok(List::new(Vec::new(alloc)));
    }
    let mut tokens = Vec::new(alloc);
    for i in 0..count {
        let place = (start + i as u64) % source.len() as u64;
        let rest = &source[place as usize..];
        tokens.extend_from_slice(&rest[..1])?;
    }
    Ok(List::new(tokens))
}

/// What firing `turn` of the head of a link reads there.
fn read_link(
    alloc: Global,
    link: &Link,
    sources: &[List<i64>],
    line: &[i64],
    turn: u32,
) -> Result<List<i64>, AllocError>
    requires { HasSource sources.now link.now.tail }
    ensures { IfOk result (λ tokens. tokens ≡ read sources.now turn (head_rate link.now.head) link.now.tail line.now) }
{
    let rate = match link.head {
        Head::Sink(_) => 0,
        Head::Port { rate, .. } => rate,
    };
    let start = turn as u64 * rate as u64;
    match link.tail {
        Tail::Source(source) => {
            repeated_window(alloc, sources[source as usize].items(), start, rate)
        }
        Tail::Port { .. } => window(alloc, line, start, rate),
    }
}

/// Whether the link leads to this input port of the actor.
fn leads_to(link: &Link, actor: u32, port: usize) -> bool
    ensures { result ≡ is_into_port actor port link.now }
{
    match link.head {
        Head::Sink(_) => false,
        Head::Port {
            actor: head,
            port: at,
            ..
        } => head == actor && at as usize == port,
    }
}

/// Which of the links into the actor leads to this input port.
fn link_into(links: &[Link], into: &[u32], actor: u32, port: usize) -> Option<u32>
    requires { into.now ≡ places (is_into_actor actor) 0 links.now }
    ensures there { IfSome result (λ l. l < length links.now) }
    ensures found { IfSome result (λ l. is_into_port actor port (slice_index_or links.now l no_link) ≡ true) }
    ensures none { IfNone result ((l : ℕ) → l < length links.now → is_into_port actor port (slice_index_or links.now l no_link) ≡ false) }
{
    for place in into {
        if leads_to(&links[*place as usize], actor, port) {
            return Some(*place);
        }
    }
    None
}

/// What firing `turn` of the actor reads at this input port.
fn read_port(
    alloc: Global,
    level: &Level,
    into: &[u32],
    sources: &[List<i64>],
    lines: &[Vec<i64>],
    actor: u32,
    turn: u32,
    port: usize,
) -> Result<List<i64>, AllocError>
    requires into { into.now ≡ places (is_into_actor actor) 0 level.now.links }
    requires sources { length sources.now ≡ length level.now.sources }
    requires lines { length lines.now ≡ length level.now.links }
    ensures { IfOk result (λ tokens. tokens ≡ input sources.now actor turn port level.now.links (lists_of lines.now)) }
{
    let links = level.links.items();
    match link_into(links, into, actor, port) {
        Some(place) => read_link(
            alloc,
            &links[place as usize],
            sources,
            lines[place as usize].as_slice(),
            turn,
        ),
        None => Ok(List::new(Vec::new(alloc))),
    }
}

/// What firing `turn` of an actor reads: a list for each input port. `sources` has the tokens of each source, and `lines`
/// the line of each link.
pub fn read(
    alloc: Global,
    level: &Level,
    ports: &Ports,
    sources: &[List<i64>],
    lines: &[Vec<i64>],
    actor: u32,
    turn: u32,
) -> Result<List<List<i64>>, AllocError>
    requires ports { ArePorts level.now ports.now }
    requires actor { actor < level.now.actors }
    requires sources { length sources.now ≡ length level.now.sources }
    requires lines { length lines.now ≡ length level.now.links }
    ensures { IfOk result (λ lists. lists ≡ inputs sources.now actor turn level.now.links (lists_of lines.now)) }
{
    let into = ports.links_into(actor);
    let mut lists = Vec::new(alloc);
    for port in 0..into.len() {
        lists.push(read_port(alloc, level, into, sources, lines, actor, turn, port)?)?;
    }
    Ok(List::new(lists))
}
