// The order of each worker, and the edges with the neighbours in all orders.
ghost use Rattle.std.specs.Prelude.{◌≡◌, ℕ, ◌<◌, ◌++◌, length, map, slice_index, All, IfOk, OnOk};
ghost use Rattle.std.specs.List.{sum_by};
ghost use Rattle.sdf_level.specs.Lists.{lists_of};
ghost use Rattle.order_memory.specs.Orders.{AreOrdersOf, neighbours, after_of};

use crate::grouping::grouped;
use sdf_level::List;
use std::alloc::{AllocError, Global};

/// Each node behind its home.
fn homed(alloc: Global, home: &[u32], line: &[u32]) -> Result<Vec<(u32, u32)>, AllocError>
    requires { All (λ n. n < length home.now) line.now }
    ensures { IfOk result (λ pairs. pairs.items ≡ map (λ n. (slice_index home.now n, n)) line.now) }
{
    line.iter()
        .map(|node| (home[*node as usize], *node))
        .collect(alloc)
}

/// The same lists.
fn as_lists(alloc: Global, vectors: Vec<Vec<u32>>) -> Result<Vec<List<u32>>, AllocError>
    ensures { IfOk result (λ lists. lists.items ≡ lists_of vectors.items) }
{
    let mut lists = Vec::with_capacity(alloc, vectors.len())?;
    for vector in vectors {
        lists.push(List::new(vector))?;
    }
    Ok(lists)
}

/// For each worker the nodes at home there, in the order of the line.
pub(crate) fn orders_of(
    alloc: Global,
    home: &[u32],
    workers: u32,
    line: &[u32],
) -> Result<Vec<List<u32>>, AllocError>
    requires homes { All (λ n. n < length home.now) line.now }
    requires workers { All (λ n. slice_index home.now n < workers) line.now }
    ensures orders { IfOk result (λ orders. AreOrdersOf home.now workers line.now orders.items) }
    ensures whole { IfOk result (λ orders. sum_by length orders.items ≡ length line.now) }
{
    let pairs = homed(alloc, home, line)?;
    let vectors = grouped(alloc, workers, &pairs)?;
    as_lists(alloc, vectors)
}

/// Adds the neighbours in an order.
fn add_neighbours(after: &mut Vec<(u32, u32)>, order: &[u32]) -> Result<(), AllocError>
    ensures { OnOk result (after.new.items ≡ after.old.items ++ neighbours order.now) }
{
    for place in 1..order.len() {
        after.push((order[place - 1], order[place]))?;
    }
    Ok(())
}

/// The edges, and the neighbours in each order.
pub(crate) fn after_pairs(
    alloc: Global,
    edges: &[(u32, u32)],
    orders: &[List<u32>],
) -> Result<Vec<(u32, u32)>, AllocError>
    ensures { IfOk result (λ after. after.items ≡ after_of edges.now orders.now) }
{
    let mut after = edges.to_vec(alloc)?;
    for order in orders {
        add_neighbours(&mut after, order.items())?;
    }
    Ok(after)
}
