// How many tokens stand in graphs at first that go on over their firings.
ghost use Rattle.std.specs.Prelude.{◌≡◌, ◌+◌, ◌==◌, ◌&&◌, nat_lt, length, map, sum_by, slice_index_or, IfOk};
ghost use Rattle.std.specs.List.{list_any, range_with_len};
ghost use Rattle.pisdf_model.specs.Arrows.{to_of};
ghost use Rattle.pisdf_model.specs.Hold.{capped_hold, hold, hold_limit, hold_over, is_held, is_large, kept_in, own_hold as own_hold_of};
ghost use Rattle.pisdf_model.specs.Nesting.{children, nesting_limit};

use crate::fifo::{Fifo, Life};
use crate::graph::Graph;
use crate::limits::{MAX_HOLD, MAX_NESTING};
use crate::nesting::child_lists;
use sdf_level::List;
use std::alloc::{AllocError, Global};

/// The sum of two numbers of tokens, counted to one more than `MAX_HOLD`.
pub fn capped_hold_sum(first: usize, second: usize) -> usize
    ensures { result ≡ capped_hold (first + second) }
{
    first.saturating_add(second).min(MAX_HOLD + 1)
}

/// How many tokens of a FIFO go on over the firings of its graph.
fn kept_count(fifo: &Fifo) -> usize
    ensures { result ≡ length (kept_in fifo.now) }
{
    match fifo.life {
        Life::Firing => 0,
        Life::Permanent => fifo.delay.items().len(),
    }
}

/// How many tokens of a graph's own delays go on, counted to one more than the limit.
fn own_hold(graph: &Graph) -> usize
    ensures { result ≡ capped_hold (own_hold_of graph.now) }
{
    let mut total = 0;
    for fifo in graph.fifos.items() {
        total = capped_hold_sum(total, kept_count(fifo));
    }
    total
}

/// The same of each graph.
pub(crate) fn own_holds(alloc: Global, graphs: &[Graph]) -> Result<Vec<usize>, AllocError>
    ensures { IfOk result (λ own. own.items ≡ map (λ g. capped_hold (own_hold_of g)) graphs.now) }
{
    let mut own = Vec::with_capacity(alloc, graphs.len())?;
    for graph in graphs {
        own.push(own_hold(graph))?;
    }
    Ok(own)
}

/// The number at a place, or 0 where there is none.
fn count_at(counts: &[usize], place: usize) -> usize
    ensures { result ≡ slice_index_or counts.now place 0 }
{
    counts.get(place).copied().unwrap_or(0)
}

/// A graph's own tokens and those of its children.
fn with_children(own: usize, children: &[u32], holds: &[usize]) -> usize
    ensures { result ≡ capped_hold (own + sum_by (λ k. slice_index_or holds.now k 0) children.now) }
{
    let mut of_children = 0;
    for child in children {
        of_children = capped_hold_sum(of_children, count_at(holds, *child as usize));
    }
    capped_hold_sum(own, of_children)
}

/// What goes on in each graph over one level more than in these.
fn over_one_level_more(
    alloc: Global,
    own: &[usize],
    children: &[List<u32>],
    holds: &[usize],
) -> Result<Vec<usize>, AllocError>
    ensures { IfOk result (λ v. v.items ≡ map (λ place. capped_hold (slice_index_or own.now place 0 + sum_by (λ k. slice_index_or holds.now k 0) (to_of children.now place))) (range_with_len 0 (length children.now))) }
{
    let mut more = Vec::with_capacity(alloc, children.len())?;
    for place in 0..children.len() {
        more.push(with_children(count_at(own, place), children[place].items(), holds))?;
    }
    Ok(more)
}

/// How many tokens go on in each graph, counted to one more than the limit.
fn hold_of_each(
    alloc: Global,
    own: &[usize],
    children: &[List<u32>],
) -> Result<Vec<usize>, AllocError>
    requires { length own.now ≡ length children.now }
    ensures { IfOk result (λ v. v.items ≡ map (λ place. capped_hold (hold_over own.now children.now nesting_limit place)) (range_with_len 0 (length children.now))) }
{
    let mut holds = vec![in alloc; 0; children.len()]?;
    for _level in 0..MAX_NESTING {
        holds = over_one_level_more(alloc, own, children, &holds)?;
    }
    Ok(holds)
}

/// How many tokens the state of each graph begins with, counted to one more than `MAX_HOLD`. The time taken goes with the
/// sizes of the graphs. The error is want of memory.
pub fn graph_holds(alloc: Global, graphs: &[Graph]) -> Result<Vec<usize>, AllocError>
    ensures { IfOk result (λ v. v.items ≡ map (λ place. capped_hold (hold graphs.now place)) (range_with_len 0 (length graphs.now))) }
{
    let own = own_holds(alloc, graphs)?;
    let children = child_lists(alloc, graphs)?;
    let holds = hold_of_each(alloc, &own, &children)?;
    Ok(holds)
}

/// Whether the graph at a place is one of these children.
fn has_child(children: &[u32], place: usize) -> bool
    ensures { result ≡ list_any (λ child. child == place) children.now }
{
    children.iter().any(|child| *child as usize == place)
}

/// Whether the graph at a place is among some graph's children.
fn is_held(children: &[List<u32>], place: usize) -> bool
    ensures { result ≡ is_held children.now place }
{
    children.iter().any(|to| has_child(to.items(), place))
}

/// Whether the graph at a place is among some graph's children, and more tokens go on there than may.
fn is_large(children: &[List<u32>], holds: &[usize], place: usize) -> bool
    ensures { result ≡ (is_held children.now place && nat_lt hold_limit (slice_index_or holds.now place 0)) }
{
    is_held(children, place) && count_at(holds, place) > MAX_HOLD
}

/// For each graph, whether an actor names it and its state begins with more than `MAX_HOLD` tokens, where so many tokens
/// of each graph's own delays go on. The time taken goes with the number of graphs times that of hierarchical actors.
/// The error is want of memory.
pub fn large_holds(alloc: Global, graphs: &[Graph], own: &[usize]) -> Result<Vec<bool>, AllocError>
    requires { length own.now ≡ length graphs.now }
    ensures { IfOk result (λ v. v.items ≡ map (is_large own.now (map children graphs.now)) (range_with_len 0 (length graphs.now))) }
{
    let children = child_lists(alloc, graphs)?;
    let holds = hold_of_each(alloc, own, &children)?;
    let mut large = Vec::with_capacity(alloc, children.len())?;
    for place in 0..children.len() {
        large.push(is_large(&children, &holds, place))?;
    }
    Ok(large)
}
