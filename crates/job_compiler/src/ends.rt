// The ends of edges, counted and entered in rows of ports.
ghost use Rattle.std.specs.Prelude.{◌≡◌, ◌+◌, ◌<◌, ◌^◌, ◌≤◌, slice_set, All, map, length, slice_index, IfOk};
ghost use Rattle.sdf_level.specs.Invariants.{how_many};
ghost use Rattle.sdf_level.specs.Run.{is_into_actor};
ghost use Rattle.single_rate.specs.Names.{is_from_actor};
ghost use Rattle.job_compiler.specs.Ends.{head_of, tail_of, AreEndCounts, in_count, out_count, HaveRows, AreRows, AreCounts, AreLinkCounts};

use crate::rows::Rows;
use sdf_level::{Edge, Head, Link, Node, Tail};
use std::alloc::{AllocError, Global};

/// How many links lead into an actor.
fn links_into(links: &[Link], actor: u32) -> usize
    ensures { result ≡ how_many (is_into_actor actor) links.now }
{
    let mut count = 0;
    for link in links {
        if let Head::Port {
            actor: other,
            port: _,
            rate: _,
        } = link.head
            && other == actor
        {
            count += 1;
        }
    }
    count
}

/// How many links lead out of an actor.
fn links_from(links: &[Link], actor: u32) -> usize
    ensures { result ≡ how_many (is_from_actor actor) links.now }
{
    let mut count = 0;
    for link in links {
        if let Tail::Port {
            actor: other,
            port: _,
            rate: _,
        } = link.tail
            && other == actor
        {
            count += 1;
        }
    }
    count
}

/// Counts one more link at an actor, if it is one of those that are counted.
fn count_at(counts: &mut [usize], actor: u32)
    requires { slice_index counts.old actor < 2 ^ 63 }
    ensures { counts.new ≡ slice_set counts.old actor (slice_index counts.old actor + 1) }
{
    if (actor as usize) < counts.len() {
        counts[actor as usize] += 1;
    }
}

/// For each of so many actors the number of links that lead into it.
fn links_by_head(alloc: Global, links: &[Link], actors: usize) -> Result<Vec<usize>, AllocError>
    requires { length links.now < 2 ^ 63 }
    ensures { IfOk result (λ v. AreLinkCounts is_into_actor links.now v.items) }
{
    let mut counts = vec![in alloc; 0usize; actors]?;
    for link in links {
        if let Head::Port {
            actor,
            port: _,
            rate: _,
        } = link.head
        {
            count_at(&mut counts, actor);
        }
    }
    Ok(counts)
}

/// For each of so many actors the number of links that lead out of it.
fn links_by_tail(alloc: Global, links: &[Link], actors: usize) -> Result<Vec<usize>, AllocError>
    requires { length links.now < 2 ^ 63 }
    ensures { IfOk result (λ v. AreLinkCounts is_from_actor links.now v.items) }
{
    let mut counts = vec![in alloc; 0usize; actors]?;
    for link in links {
        if let Tail::Port {
            actor,
            port: _,
            rate: _,
        } = link.tail
        {
            count_at(&mut counts, actor);
        }
    }
    Ok(counts)
}

/// The head of each edge: its node and port.
pub(crate) fn heads(alloc: Global, edges: &[Edge]) -> Result<Vec<(u32, u32)>, AllocError>
    ensures { IfOk result (λ v. v.items ≡ map head_of edges.now) }
{
    edges
        .iter()
        .map(|edge| (edge.head, edge.head_port))
        .collect(alloc)
}

/// The tail of each edge: its node and port.
pub(crate) fn tails(alloc: Global, edges: &[Edge]) -> Result<Vec<(u32, u32)>, AllocError>
    ensures { IfOk result (λ v. v.items ≡ map tail_of edges.now) }
{
    edges
        .iter()
        .map(|edge| (edge.tail, edge.tail_port))
        .collect(alloc)
}

/// For each node the number of ends there.
pub(crate) fn end_counts(
    alloc: Global,
    nodes: usize,
    ends: &[(u32, u32)],
) -> Result<Vec<usize>, AllocError>
    requires { All (λ end. end.0 < nodes) ends.now }
    ensures { IfOk result (λ v. AreEndCounts nodes ends.now v.items) }
{
    let mut counts = vec![in alloc; 0usize; nodes]?;
    for end in ends {
        counts[end.0 as usize] += 1;
    }
    Ok(counts)
}

/// How many ports of a node read from edges, so many of which enter it.
fn ports_in(node: Node, links: &[Link], by_head: &[usize], edges: usize) -> usize
    requires { AreLinkCounts is_into_actor links.now by_head.now }
    ensures { result ≡ in_count links.now node edges }
{
    match node {
        Node::Source(_) => 0,
        Node::Init(_) => 0,
        Node::Firing { actor, turn: _ } => match by_head.get(actor as usize) {
            Some(count) => *count,
            None => links_into(links, actor),
        },
        Node::End(_) => 1,
        Node::Sink(_) => 1,
        Node::Broadcast(_) => 1,
        Node::Fork { link: _, turn: _ } => 1,
        Node::Join { link: _, turn: _ } => edges,
        Node::Round(_) => edges,
    }
}

/// How many ports of a node write to edges, so many of which leave it.
fn ports_out(node: Node, links: &[Link], by_tail: &[usize], edges: usize) -> usize
    requires { AreLinkCounts is_from_actor links.now by_tail.now }
    ensures { result ≡ out_count links.now node edges }
{
    match node {
        Node::Source(_) => 1,
        Node::Init(_) => 1,
        Node::Firing { actor, turn: _ } => match by_tail.get(actor as usize) {
            Some(count) => *count,
            None => links_from(links, actor),
        },
        Node::End(_) => 0,
        Node::Sink(_) => 0,
        Node::Broadcast(_) => edges,
        Node::Fork { link: _, turn: _ } => edges,
        Node::Join { link: _, turn: _ } => edges,
        Node::Round(_) => edges,
    }
}

/// For each node the number of its ports that read from edges.
pub(crate) fn counts_in(
    alloc: Global,
    nodes: &[Node],
    links: &[Link],
    actors: usize,
    edges: &[usize],
) -> Result<Vec<usize>, AllocError>
    requires edges { length edges.now ≡ length nodes.now }
    requires few { length links.now < 2 ^ 63 }
    ensures { IfOk result (λ v. AreCounts (in_count links.now) nodes.now edges.now v.items) }
{
    let by_head = links_by_head(alloc, links, actors)?;
    let mut counts = Vec::with_capacity(alloc, nodes.len())?;
    for n in 0..nodes.len() {
        counts.push(ports_in(nodes[n], links, &by_head, edges[n]))?;
    }
    Ok(counts)
}

/// For each node the number of its ports that write to edges.
pub(crate) fn counts_out(
    alloc: Global,
    nodes: &[Node],
    links: &[Link],
    actors: usize,
    edges: &[usize],
) -> Result<Vec<usize>, AllocError>
    requires edges { length edges.now ≡ length nodes.now }
    requires few { length links.now < 2 ^ 63 }
    ensures { IfOk result (λ v. AreCounts (out_count links.now) nodes.now edges.now v.items) }
{
    let by_tail = links_by_tail(alloc, links, actors)?;
    let mut counts = Vec::with_capacity(alloc, nodes.len())?;
    for n in 0..nodes.len() {
        counts.push(ports_out(nodes[n], links, &by_tail, edges[n]))?;
    }
    Ok(counts)
}

/// For each node a row of ports, in which the ends are entered.
pub(crate) fn enter(
    alloc: Global,
    counts: &[usize],
    ends: &[(u32, u32)],
) -> Result<Rows, AllocError>
    requires rows { HaveRows counts.now ends.now }
    requires few { length ends.now < 2 ^ 32 }
    ensures { IfOk result (λ r. AreRows counts.now ends.now (length ends.now) r) }
{
    let mut rows = Rows::without_edges(alloc, counts, ends.len())?;
    for e in 0..ends.len() {
        let (node, port) = ends[e];
        rows.put(node as usize, port as usize, e as u32);
    }
    Ok(rows)
}
