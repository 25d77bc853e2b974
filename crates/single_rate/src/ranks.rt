// The ranks of nodes: the lengths of the longest paths.
ghost use Rattle.std.specs.Prelude.{ℕ, ◌≡◌, ◌+◌, ◌<◌, ◌≤◌, ◌^◌, length, set, slice_index, IfOk, IsTrue, IsFalse};
ghost use Rattle.std.specs.List.{All};
ghost use Rattle.single_rate.specs.Sequence.{AreBelow};
ghost use Rattle.single_rate.specs.Ranks.{AreRanks};
ghost use Rattle.single_rate.specs.Raising.{AreReached, AreSettled, EndsBelow, GoForward, slack};

use crate::sequence::in_order;
use sdf_level::Edge;
use std::alloc::{AllocError, Global};

/// Raises the rank of an edge's head above that of its tail, if it isn't, and says whether it did.
fn raise(edge: &Edge, ranks: &mut [u32]) -> bool
    requires tail { edge.now.tail < length ranks.old }
    requires head { edge.now.head < length ranks.old }
    requires fits { slice_index ranks.old edge.now.tail + 1 < 2 ^ 32 }
    ensures kept { IsFalse result → ranks.new ≡ ranks.old }
    ensures settled { IsFalse result → slice_index ranks.old edge.now.tail < slice_index ranks.old edge.now.head }
    ensures raised { IsTrue result → ranks.new ≡ set ranks.old edge.now.head (slice_index ranks.old edge.now.tail + 1) }
    ensures more { IsTrue result → slice_index ranks.old edge.now.head < slice_index ranks.old edge.now.tail + 1 }
{
    let least = ranks[edge.tail as usize] + 1;
    if ranks[edge.head as usize] < least {
        ranks[edge.head as usize] = least;
        true
    } else {
        false
    }
}

/// Raises the rank of each edge's head that isn't above its tail's, and says whether there was one.
fn raise_all(edges: &[Edge], ranks: &mut [u32]) -> bool
    ghost last: { ℕ }
    requires last { last + 1 < 2 ^ 32 }
    requires forward { GoForward edges.now last }
    requires ends { EndsBelow (length ranks.old) edges.now }
    requires reached { AreReached edges.now ranks.old }
    ensures reached { AreReached edges.now ranks.new }
    ensures settled { IsFalse result → AreSettled edges.now ranks.new }
    ensures less { IsTrue result → slack last ranks.new < slack last ranks.old }
{
    let mut raised = false;
    for edge in edges {
        raised |= raise(edge, ranks);
    }
    raised
}

/// Raises ranks along these edges, one after the other.
fn raise_in_order(edges: &[Edge], order: &[usize], ranks: &mut [u32])
    ghost last: { ℕ }
    requires last { last + 1 < 2 ^ 32 }
    requires forward { GoForward edges.now last }
    requires ends { EndsBelow (length ranks.old) edges.now }
    requires reached { AreReached edges.now ranks.old }
    requires order { All (AreBelow (length edges.now)) order.now }
    ensures reached { AreReached edges.now ranks.new }
{
    for number in order {
        let _raised = raise(&edges[*number], ranks);
    }
}

/// For each node the number of edges on the longest path that ends at it. In the order in which it first goes over the edges,
/// each rank is settled before an edge leaves its node, so that no rank is raised after that; it goes over them again until
/// that is seen.
pub fn longest(alloc: Global, nodes: u32, edges: &[Edge]) -> Result<Vec<u32>, AllocError>
    ghost last: { ℕ }
    requires last { last + 1 < 2 ^ 32 }
    requires forward { GoForward edges.now last }
    requires ends { EndsBelow nodes edges.now }
    ensures { IfOk result (λ v. AreRanks nodes edges.now v.items) }
{
    let order = in_order(alloc, nodes, edges)?;
    let mut ranks = vec![in alloc; 0u32; nodes as usize]?;
    raise_in_order(edges, &order, &mut ranks);
    loop {
        let raised = raise_all(edges, &mut ranks);
        if !raised {
            return Ok(ranks);
        }
    }
}
