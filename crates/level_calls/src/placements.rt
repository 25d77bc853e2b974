// Exclusions of buffers, placements and mappings.
ghost use Rattle.std.specs.Prelude.{◌≡◌, ◌<◌, ◌≤◌, ◌^◌, All, IsTrue, length, sum};

use crate::edges::{are_there, costed_of, edges_of, pairs, rise};
use case_rows::{Trouble, answer_in, answer_of_text, small, smalls, total};
use memory_exclusion::{Reach, reach};
use placement::place;
use placement_checker::{Exclusion, check};
use serde_json::Value;
use std::alloc::Global;
use worker_mapping::map;

/// Any relation among eight buffers: bit `8 * e + f` says that `e` and `f` exclude each other.
#[derive(Drop)]
struct EightBuffers {
    bits: u64,
}

impl Exclusion for EightBuffers {
    ghost use Rattle.std.specs.Prelude.{◌≡◌, ◌+◌, ◌*◌};
    ghost use Rattle.std.specs.Int.{bit_at};

    ghost range = { λ _. 8 };

    ghost excludes = { λ relation e f. bit_at relation.bits (8 * e + f) ≡ 1 };

    fn range(&self) -> u32 {
        8
    }

    fn excludes(&self, e: u32, f: u32) -> bool {
        self.bits >> (8 * e + f) & 1 == 1
    }
}

/// The bit of a pair of buffers.
fn bit_of(pair: (u32, u32)) -> Result<u64, Trouble> {
    let (e, f) = pair;
    if e >= 8 || f >= 8 {
        return Err(Trouble::Member("apart"));
    }
    Ok(1u64 << (8 * e + f))
}

/// The relation of the row's pairs of buffers that exclude each other, the lesser number first.
fn relation_of(alloc: Global, row: &Value) -> Result<EightBuffers, Trouble> {
    let mut bits = 0u64;
    for pair in pairs(alloc, row, "apart")? {
        bits |= bit_of(pair)?;
    }
    Ok(EightBuffers { bits })
}

/// The row's exclusions by its edges.
fn reach_of(alloc: Global, row: &Value) -> Result<Reach, Trouble> {
    let graph = edges_of(alloc, row)?;
    let edges = graph.edges.as_slice();
    let ranks = graph.ranks.as_slice();
    if edges.len() > 1_000_000 || ranks.len() != graph.nodes as usize {
        return Err(Trouble::Member("ranks"));
    }
    if !are_there(graph.nodes, edges) || !rise(ranks, edges) {
        return Err(Trouble::Member("edges"));
    }
    Ok(reach(alloc, graph.nodes, edges, ranks)?)
}

/// The pairs of a buffer and a later one that may share cells, behind those that are there.
fn push_sharing(pairs: &mut Vec<[u32; 2]>, reach: &Reach, e: u32) -> Result<(), Trouble> {
    for f in 0..reach.range() {
        if e < f && !reach.excludes(e, f) {
            pairs.push([e, f])?;
        }
    }
    Ok(())
}

/// The pairs of buffers that may share cells, as the row's edges have them.
pub fn shared(alloc: Global, row: &Value) -> Result<Value, Trouble> {
    let reach = reach_of(alloc, row)?;
    let mut pairs = Vec::new(alloc);
    for e in 0..reach.range() {
        push_sharing(&mut pairs, &reach, e)?;
    }
    answer_in(alloc, format!(in alloc; "{pairs:?}"))
}

/// Whether a placement is valid, or the pair that clashes.
fn checked<X: Exclusion>(
    alloc: Global,
    row: &Value,
    sizes: &[u32],
    exclusion: &X,
) -> Result<Value, Trouble> {
    let height = small(row, "height")?;
    let offsets = smalls(alloc, row, "offsets")?;
    if offsets.len() != sizes.len() || sizes.len() > exclusion.range() as usize {
        return Err(Trouble::Member("offsets"));
    }
    match check(sizes, exclusion, offsets.as_slice(), height) {
        Ok(()) => answer_of_text(alloc, "valid"),
        Err(clash) => {
            let (e, f) = (clash.e, clash.f);
            answer_in(alloc, format!(in alloc; "[{e}, {f}]"))
        }
    }
}

/// Whether each size is at least 1 and their sum is below 2^32.
fn are_sizes(sizes: &[u32]) -> bool
    ensures filled { IsTrue result → All (λ size. 1 ≤ size) sizes.now }
    ensures sum { IsTrue result → sum sizes.now < 2 ^ 32 }
{
    total(sizes).is_some() && sizes.iter().all(|size| 1 <= *size)
}

/// The offsets and the height of the placement of the buffers.
fn placed<X: Exclusion>(alloc: Global, sizes: &[u32], exclusion: &X) -> Result<Value, Trouble> {
    if sizes.len() > exclusion.range() as usize || !are_sizes(sizes) {
        return Err(Trouble::Member("sizes"));
    }
    let placement = place(alloc, sizes, exclusion)?;
    let offsets = placement.offsets.items();
    let height = placement.height;
    answer_in(alloc, format!(in alloc; "[{offsets:?}, {height}]"))
}

/// The answer of `check` on the row's offsets and height where it has them, else that of `place`. The exclusions are
/// those of the row's edges, or its pairs of buffers that exclude each other.
pub fn placement(alloc: Global, row: &Value) -> Result<Value, Trouble> {
    let sizes = smalls(alloc, row, "sizes")?;
    let sizes = sizes.as_slice();
    let is_check = row.get("offsets").is_some();
    if row.get("nodes").is_some() {
        let reach = reach_of(alloc, row)?;
        return if is_check {
            checked(alloc, row, sizes, &reach)
        } else {
            placed(alloc, sizes, &reach)
        };
    }
    let exclusion = relation_of(alloc, row)?;
    if is_check {
        checked(alloc, row, sizes, &exclusion)
    } else {
        placed(alloc, sizes, &exclusion)
    }
}

/// The homes and the priorities of the row's nodes, which have these costs, on so many workers.
pub fn mapped(alloc: Global, row: &Value) -> Result<Value, Trouble> {
    let costed = costed_of(alloc, row)?;
    let mapping = map(
        alloc,
        costed.graph.nodes,
        costed.graph.edges.as_slice(),
        costed.graph.ranks.as_slice(),
        costed.costs.as_slice(),
        costed.workers,
    )?;
    let homes = mapping.home.items();
    let priorities = mapping.priority.items();
    answer_in(alloc, format!(in alloc; "[{homes:?}, {priorities:?}]"))
}
