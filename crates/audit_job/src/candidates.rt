// Which items of a job may be offered.
ghost use Rattle.std.specs.Prelude.{◌≡◌, ◌<◌, ◌≤◌, ◌+◌, ◌-◌, ◌^◌, Contains, MatchOption, OnOk, length, slice_index, slice_set, vec_capacity};
ghost use Rattle.audit_job.specs.Candidates.{Adds, IsReleased, TakesOut, waiting_in, waits_in};

use crate::job::Nodes;
use std::alloc::AllocError;

/// Where an item stands in a list, if it does.
fn found_at(items: &[usize], item: usize) -> Option<usize>
    ensures { MatchOption result (¬ (Contains items.now item)) (λ k. (k < length items.now) × (slice_index items.now k ≡ item)) }
{
    for place in 0..items.len() {
        if items[place] == item {
            return Some(place);
        }
    }
    None
}

/// Takes an item out of the candidates, if it is one.
pub(crate) fn take_out(candidates: &mut Vec<usize>, item: usize)
    ensures { TakesOut item candidates.old candidates.new }
{
    if let Some(place) = found_at(candidates, item) {
        candidates.swap_remove(place);
    }
}

/// A node waits for an edge less, and is a candidate if it waits for none then. Node 0 has the number `first` among the items.
pub(crate) fn release_one(waits: &mut [u32], candidates: &mut Vec<usize>, first: usize, node: usize)
    requires there { node < length waits.old }
    requires waits { 0 < slice_index waits.old node }
    requires numbers { first + length waits.old < 2 ^ 64 }
    requires room { length candidates.old.items + waiting_in waits.old ≤ vec_capacity candidates.old }
    ensures waits { waits.new ≡ slice_set waits.old node (slice_index waits.old node - 1) }
    ensures added { Adds first (length waits.old) (IsReleased waits.old waits.new) candidates.old candidates.new }
    ensures room { length candidates.new.items + waiting_in waits.new ≤ vec_capacity candidates.new }
{
    let left = waits[node] - 1;
    waits[node] = left;
    if left == 0 {
        candidates.push_reserved(first + node);
    }
}

/// Adds those of these nodes that wait for nothing.
fn add_free(candidates: &mut Vec<usize>, waits: &[u32], first: usize) -> Result<(), AllocError>
    requires numbers { first + length waits.now < 2 ^ 64 }
    ensures added { OnOk result (Adds first (length waits.now) (λ n. slice_index waits.now n ≡ 0) candidates.old candidates.new) }
    ensures room { OnOk result (length candidates.new.items + waiting_in waits.now ≤ vec_capacity candidates.new) }
{
    candidates.reserve(waits.len())?;
    for node in 0..waits.len() {
        if waits[node] == 0 {
            candidates.push_reserved(first + node);
        }
    }
    Ok(())
}

/// Adds those of the nodes that wait for nothing, which came with a compilation.
pub(crate) fn add_nodes(
    candidates: &mut Vec<usize>,
    nodes: &Option<Nodes>,
    first: usize,
) -> Result<(), AllocError>
    requires numbers { first + length (waits_in nodes.now) < 2 ^ 64 }
    ensures added { OnOk result (Adds first (length (waits_in nodes.now)) (λ n. slice_index (waits_in nodes.now) n ≡ 0) candidates.old candidates.new) }
    ensures room { OnOk result (length candidates.new.items + waiting_in (waits_in nodes.now) ≤ vec_capacity candidates.new) }
{
    match nodes {
        Some(nodes) => add_free(candidates, &nodes.waits, first),
        None => Ok(()),
    }
}

/// Adds the numbers of the first so many items.
pub(crate) fn add_first(candidates: &mut Vec<usize>, count: usize) -> Result<(), AllocError>
    ensures { OnOk result (Adds 0 count (λ n. Unit {0}) candidates.old candidates.new) }
{
    for item in 0..count {
        candidates.push(item)?;
    }
    Ok(())
}
