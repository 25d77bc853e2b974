// The edges of a graph in an order in which ranks can be found.
ghost use Rattle.std.specs.Prelude.{ℕ, ◌≡◌, ◌+◌, ◌<◌, ◌≤◌, length, OnOk, IfOk};
ghost use Rattle.std.specs.List.{All};
ghost use Rattle.single_rate.specs.Raising.{EndsBelow};
ghost use Rattle.single_rate.specs.Sequence.{AreLeaving, AreBelow};

use sdf_level::Edge;
use std::alloc::{AllocError, Global};

/// The edges by the nodes that they leave. Of an edge stands one more than its number, and 0 where there is none.
#[derive(Debug, Drop)]
pub struct Leaving {
    /// For each node an edge that leaves it.
    pub first: Vec<usize>,
    /// For each edge another one that leaves the same node, of a lesser number.
    pub next: Vec<usize>,
}

/// The edges by the nodes that they leave.
fn by_tail(alloc: Global, nodes: u32, edges: &[Edge]) -> Result<Leaving, AllocError>
    requires { EndsBelow nodes edges.now }
    ensures { IfOk result (λ v. AreLeaving nodes (length edges.now) v.first.items v.next.items) }
{
    let mut first = vec![in alloc; 0usize; nodes as usize]?;
    let mut next = Vec::new(alloc);
    for i in 0..edges.len() {
        let tail = edges[i].tail as usize;
        next.push(first[tail])?;
        first[tail] = i + 1;
    }
    Ok(Leaving { first, next })
}

/// How many edges enter each node.
fn entering(alloc: Global, nodes: u32, edges: &[Edge]) -> Result<Vec<usize>, AllocError>
    requires { EndsBelow nodes edges.now }
    ensures { IfOk result (λ v. length v.items ≡ nodes) }
{
    let mut counts = vec![in alloc; 0usize; nodes as usize]?;
    for edge in edges {
        let head = edge.head as usize;
        counts[head] = counts[head].saturating_add(1);
    }
    Ok(counts)
}

/// The nodes that no edge enters.
fn starts(alloc: Global, counts: &[usize]) -> Result<Vec<usize>, AllocError>
    ensures { IfOk result (λ v. All (AreBelow (length counts.now)) v.items) }
{
    let mut nodes = Vec::new(alloc);
    for node in 0..counts.len() {
        add_if_ready(counts, node, &mut nodes)?;
    }
    Ok(nodes)
}

/// Adds the node, if no edges are left that enter it.
fn add_if_ready(counts: &[usize], node: usize, ready: &mut Vec<usize>) -> Result<(), AllocError>
    requires node { node < length counts.now }
    requires ready { All (AreBelow (length counts.now)) ready.old.items }
    ensures { OnOk result (All (AreBelow (length counts.now)) ready.new.items) }
{
    if counts[node] == 0 {
        ready.push(node)?;
        Ok(())
    } else {
        Ok(())
    }
}

/// Adds the edges that leave a node, and the nodes that only edges which were added enter.
fn leave(
    edges: &[Edge],
    leaving: &Leaving,
    node: usize,
    counts: &mut [usize],
    ready: &mut Vec<usize>,
    order: &mut Vec<usize>,
) -> Result<(), AllocError>
    requires ends { EndsBelow (length counts.old) edges.now }
    requires leaving { AreLeaving (length counts.old) (length edges.now) leaving.now.first.items leaving.now.next.items }
    requires node { node < length counts.old }
    requires ready { All (AreBelow (length counts.old)) ready.old.items }
    requires order { All (AreBelow (length edges.now)) order.old.items }
    ensures ready { OnOk result (All (AreBelow (length counts.old)) ready.new.items) }
    ensures order { OnOk result (All (AreBelow (length edges.now)) order.new.items) }
{
    let mut left = leaving.first[node];
    while 0 < left {
        let number = left - 1;
        let head = edges[number].head as usize;
        order.push(number)?;
        counts[head] = counts[head].saturating_sub(1);
        add_if_ready(counts, head, ready)?;
        left = leaving.next[number];
    }
    Ok(())
}

/// The numbers of the edges, those that enter a node before those that leave it (Kahn 1962), where the graph has no cycle.
/// Only that they are numbers of edges is promised: the order says how often the edges have to be gone over, and not what
/// comes out.
pub fn in_order(alloc: Global, nodes: u32, edges: &[Edge]) -> Result<Vec<usize>, AllocError>
    requires { EndsBelow nodes edges.now }
    ensures { IfOk result (λ v. All (AreBelow (length edges.now)) v.items) }
{
    let leaving = by_tail(alloc, nodes, edges)?;
    let mut counts = entering(alloc, nodes, edges)?;
    let mut ready = starts(alloc, &counts)?;
    let mut order = Vec::new(alloc);
    for at in 0..nodes as usize {
        if at < ready.len() {
            let node = ready[at];
            leave(edges, &leaving, node, &mut counts, &mut ready, &mut order)?;
        }
    }
    Ok(order)
}
