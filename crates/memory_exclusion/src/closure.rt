ghost use Rattle.std.specs.Prelude.{ℕ, ◌≡◌, ◌+◌, ◌-◌, ◌*◌, ◌^◌, ◌<◌, ◌≤◌, List, length, map, replicate, slice_index, All, IfOk};
ghost use Rattle.memory_exclusion.specs.Closure.{turned, IsInOrder, HasRows, IsOwnClosure, IsClosure, IsReach};

use crate::bits::{add_bit, add_row, drop_bit};
use crate::relation::Reach;
use std::alloc::{AllocError, Global};

/// The exclusions among the edges of a graph of `nodes` nodes. An edge is a pair of its tail and
/// its head; `ranks` has a number for each node, and these rise along each edge. It takes two rows of
/// bits for each node, a bit for each edge.
///
/// # Errors
///
/// Want of memory.
pub fn reach(
    alloc: Global,
    nodes: u32,
    edges: &[(u32, u32)],
    ranks: &[u32],
) -> Result<Reach, AllocError>
    requires few { length edges.now < 2 ^ 32 }
    requires ends { All (λ edge. (edge.0 < nodes) × (edge.1 < nodes)) edges.now }
    requires ranks { length ranks.now ≡ nodes }
    requires rising { All (λ edge. slice_index ranks.now edge.0 < slice_index ranks.now edge.1) edges.now }
    ensures { IfOk result (λ reach. reach ≡ edges.now) }
{
    let width = edges.len().div_ceil(64);
    let before = closed_rows(alloc, nodes, width, edges, ranks)?;
    let turned = turn_round(alloc, edges)?;
    let falling = fall(alloc, ranks)?;
    let behind = closed_rows(alloc, nodes, width, &turned, &falling)?;
    Ok(Reach {
        edges: edges.to_vec(alloc)?,
        width,
        before,
        behind,
    })
}

/// Each edge from its head to its tail.
fn turn_round(alloc: Global, edges: &[(u32, u32)]) -> Result<Vec<(u32, u32)>, AllocError>
    ensures { IfOk result (λ v. v.items ≡ turned edges.now) }
{
    edges.iter().map(|edge| (edge.1, edge.0)).collect(alloc)
}

/// Ranks that fall where these rise.
fn fall(alloc: Global, ranks: &[u32]) -> Result<Vec<u32>, AllocError>
    ensures { IfOk result (λ v. v.items ≡ map (λ rank. 4294967295 - rank) ranks.now) }
{
    ranks.iter().map(|rank| u32::MAX - *rank).collect(alloc)
}

/// A row for each node, `width` words each, with the edges from whose heads a path of at least one edge leads to it.
fn closed_rows(
    alloc: Global,
    nodes: u32,
    width: usize,
    edges: &[(u32, u32)],
    ranks: &[u32],
) -> Result<Vec<u64>, AllocError>
    requires wide { length edges.now ≤ 64 * width }
    requires narrow { 64 * width < length edges.now + 64 }
    requires few { length edges.now < 2 ^ 32 }
    requires ends { All (λ edge. (edge.0 < nodes) × (edge.1 < nodes)) edges.now }
    requires ranks { length ranks.now ≡ nodes }
    requires rising { All (λ edge. slice_index ranks.now edge.0 < slice_index ranks.now edge.1) edges.now }
    ensures { IfOk result (λ rows. IsReach edges.now width rows.items) }
{
    let order = by_rank(alloc, edges, ranks)?;
    let mut rows = vec![in alloc; 0u64; nodes as usize * width]?;
    close(edges, &order, width, &mut rows);
    drop_own(edges, width, &mut rows);
    Ok(rows)
}

/// The edges' numbers with the ranks of their tails, by these ranks upwards, so that each stands behind those that lead
/// to its tail.
fn by_rank(
    alloc: Global,
    edges: &[(u32, u32)],
    ranks: &[u32],
) -> Result<Vec<(u32, u32)>, AllocError>
    requires few { length edges.now < 2 ^ 32 }
    requires ends { All (λ edge. edge.0 < length ranks.now) edges.now }
    requires rising { All (λ edge. slice_index ranks.now edge.0 < slice_index ranks.now edge.1) edges.now }
    ensures { IfOk result (λ order. IsInOrder edges.now order.items) }
{
    let mut order = Vec::with_capacity(alloc, edges.len())?;
    for (e, edge) in edges.iter().enumerate() {
        order.push((ranks[edge.0 as usize], e as u32))?;
    }
    order.sort_unstable_by_key(|ranked| ranked.0);
    Ok(order)
}

/// Enters into the row of each node the edges from whose heads a path leads to it, those that lead to it at once among
/// them. The row of an edge's tail is complete when the edge comes.
fn close(edges: &[(u32, u32)], order: &[(u32, u32)], width: usize, rows: &mut [u64])
    requires in_order { IsInOrder edges.now order.now }
    requires wide { length edges.now ≤ 64 * width }
    requires fits { All (HasRows width (length rows.old)) edges.now }
    requires clear { rows.old ≡ replicate (length rows.old) 0 }
    ensures { IsOwnClosure edges.now width rows.new }
{
    for ranked in order {
        let e = ranked.1 as usize;
        let (tail, head) = edges[e];
        add_row(rows, width, head as usize, tail as usize);
        add_bit(rows, width, head as usize, e);
    }
}

/// Takes out of the row of each node the edges that lead to it at once. No path leads from them to it: ranks rise.
fn drop_own(edges: &[(u32, u32)], width: usize, rows: &mut [u64])
    requires rising { (ranks : List ℕ) × All (λ edge. slice_index ranks edge.0 < slice_index ranks edge.1) edges.now }
    requires wide { length edges.now ≤ 64 * width }
    requires fits { All (HasRows width (length rows.old)) edges.now }
    requires closed { IsOwnClosure edges.now width rows.old }
    ensures { IsClosure edges.now width rows.new }
{
    for (e, edge) in edges.iter().enumerate() {
        drop_bit(rows, width, edge.1 as usize, e);
    }
}
