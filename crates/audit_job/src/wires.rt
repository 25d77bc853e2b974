// What the edges and the links of a job say of its nodes.
ghost use Rattle.std.specs.Prelude.{◌≡◌, ◌<◌, ◌≤◌, ◌^◌, ◌+◌, ℕ, All, IfOk, length, slice_index, vec_capacity};
ghost use Rattle.job_flow.specs.Frames as flow;
ghost use Rattle.sdf_level.specs.Invariants.{how_many};
ghost use Rattle.sdf_level.specs.Run.{is_into_actor};
ghost use Rattle.sdf_level.specs.declared.single_rate.Edge.{Edge as EdgeView};
ghost use Rattle.audit_job.specs.Candidates.{Adds, IsReleased, waiting_in};
ghost use Rattle.audit_job.specs.Waiting.{between};
ghost use Rattle.audit_job.specs.Wires.{keeps_in};

use crate::candidates::release_one;
use sdf_level::{Edge, Head, Link, Node};
use std::alloc::{AllocError, Global};

/// Whether the state of the actor goes on whose firing a node is.
pub(crate) fn keeps_state(keeps: &[bool], node: Node) -> bool
    ensures { result ≡ keeps_in keeps.now node }
{
    match node {
        Node::Firing { actor, turn: _ } => match keeps.get(actor as usize) {
            Some(keeps) => *keeps,
            None => false,
        },
        Node::Source(_) => false,
        Node::Init(_) => false,
        Node::Broadcast(_) => false,
        Node::Fork { link: _, turn: _ } => false,
        Node::Join { link: _, turn: _ } => false,
        Node::Round(_) => false,
        Node::End(_) => false,
        Node::Sink(_) => false,
    }
}

/// How many links lead into an actor.
pub(crate) fn links_into(links: &[Link], actor: u32) -> usize
    ensures { result ≡ how_many (is_into_actor actor) links.now }
{
    let mut count = 0;
    for link in links {
        if let Head::Port {
            actor: other,
            port: _,
            rate: _,
        } = link.head
            && other == actor
        {
            count += 1;
        }
    }
    count
}

/// How many edges lead into a node.
pub(crate) fn edges_into(edges: &[Edge], node: u32) -> usize
    ensures { result ≡ flow.edges_into edges.now node }
{
    let mut count = 0;
    for edge in edges {
        if edge.head == node {
            count += 1;
        }
    }
    count
}

/// The sizes of the edges out of a node.
pub(crate) fn sizes_out(alloc: Global, edges: &[Edge], node: u32) -> Result<Vec<u32>, AllocError>
    ensures { IfOk result (λ sizes. sizes.items ≡ flow.sizes_out edges.now node) }
{
    let mut sizes = Vec::new(alloc);
    for edge in edges {
        if edge.tail == node {
            sizes.push(edge.size)?;
        }
    }
    Ok(sizes)
}

/// For each of so many nodes how many edges lead into it.
pub(crate) fn edge_counts(
    alloc: Global,
    nodes: usize,
    edges: &[Edge],
) -> Result<Vec<u32>, AllocError>
    requires there { All (λ (e : EdgeView). e.head < nodes) edges.now }
    requires few { length edges.now < 2 ^ 32 }
    ensures many { IfOk result (λ counts. length counts.items ≡ nodes) }
    ensures each { IfOk result (λ counts. (n : ℕ) → n < nodes → slice_index counts.items n ≡ flow.edges_into edges.now n) }
{
    let mut counts = vec![in alloc; 0u32; nodes]?;
    for edge in edges {
        counts[edge.head as usize] += 1;
    }
    Ok(counts)
}

/// The nodes to which edges lead from this one wait for these edges no more, and those that wait for none then are candidates.
/// Node 0 has the number `first` among the items.
pub(crate) fn release(
    edges: &[Edge],
    node: usize,
    waits: &mut [u32],
    candidates: &mut Vec<usize>,
    first: usize,
)
    requires there { All (λ (e : EdgeView). e.head < length waits.old) edges.now }
    requires enough { (n : ℕ) → n < length waits.old → between edges.now node n ≤ slice_index waits.old n }
    requires numbers { first + length waits.old < 2 ^ 64 }
    requires room { length candidates.old.items + waiting_in waits.old ≤ vec_capacity candidates.old }
    ensures fewer { (n : ℕ) → n < length waits.old → slice_index waits.new n + between edges.now node n ≡ slice_index waits.old n }
    ensures added { Adds first (length waits.old) (IsReleased waits.old waits.new) candidates.old candidates.new }
    ensures room { length candidates.new.items + waiting_in waits.new ≤ vec_capacity candidates.new }
{
    for edge in edges {
        if edge.tail as usize == node {
            release_one(waits, candidates, first, edge.head as usize);
        }
    }
}
