// The order in which the nodes of each home go, and that in which all nodes go.
ghost use Rattle.std.specs.Prelude.{◌≡◌, ℕ, ◌<◌, ◌≤◌, ◌^◌, EachIndex, length, slice_index, IfOk};
ghost use Rattle.std.specs.Arc.{arc_value};
ghost use Rattle.job_compiler.specs.Ranked.{AreKeys, IsRankingOf, IsRankingOfAll};

use ready_heap::Ranking;
use std::alloc::{AllocError, Global};
use std::sync::Arc;
use worker_mapping::Mapping;

/// One more than the greatest home, 0 where there is none.
fn count_of(homes: &[u32]) -> usize
    ensures below { EachIndex homes.now (λ n. slice_index homes.now n < result) }
    ensures least { (home : ℕ) → home < result → (n : ℕ) × (n < length homes.now) × (home ≤ slice_index homes.now n) }
{
    let mut count = 0;
    for home in homes {
        let home = *home as usize;
        if home >= count {
            count = home + 1;
        }
    }
    count
}

/// For each node the key by which greater priority goes first, then lesser number.
fn keys_of(alloc: Global, priorities: &[u64]) -> Result<Vec<u128>, AllocError>
    requires { length priorities.now < 2 ^ 32 }
    ensures { IfOk result (λ v. AreKeys priorities.now v.items) }
{
    let mut keys = Vec::with_capacity(alloc, priorities.len())?;
    for n in 0..priorities.len() {
        let urgency = u64::MAX - priorities[n];
        keys.push(urgency as u128 * 4294967296 + n as u128)?;
    }
    Ok(keys)
}

/// The ranking of the nodes: each home is a group, in which the nodes of greater priority go first, then those of lesser
/// number.
fn rank_nodes(alloc: Global, mapping: &Mapping, keys: &[u128]) -> Result<Arc<Ranking>, AllocError>
    requires few { length mapping.now.home < 2 ^ 32 }
    requires priorities { length mapping.now.priority ≡ length mapping.now.home }
    requires keys { AreKeys mapping.now.priority keys.now }
    ensures { IfOk result (λ r. IsRankingOf mapping.now (arc_value r)) }
{
    let homes = mapping.home.items();
    let ranking = Ranking::new(alloc, homes, keys, count_of(homes))?;
    Ok(Arc::new(alloc, ranking)?)
}

/// The ranking of the nodes as one group, in which they go in the same order.
fn rank_all(alloc: Global, mapping: &Mapping, keys: &[u128]) -> Result<Arc<Ranking>, AllocError>
    requires few { length mapping.now.home < 2 ^ 32 }
    requires priorities { length mapping.now.priority ≡ length mapping.now.home }
    requires keys { AreKeys mapping.now.priority keys.now }
    ensures { IfOk result (λ r. IsRankingOfAll mapping.now (arc_value r)) }
{
    let group = vec![in alloc; 0u32; mapping.home.items().len()]?;
    let ranking = Ranking::new(alloc, &group, keys, 1)?;
    Ok(Arc::new(alloc, ranking)?)
}

/// The rankings of the nodes: with each home as a group, and with all nodes as one.
#[derive(Drop)]
pub(crate) struct Rankings {
    pub(crate) by_home: Arc<Ranking>,
    pub(crate) of_all: Arc<Ranking>,
}

/// Both rankings of the nodes.
pub(crate) fn rank(alloc: Global, mapping: &Mapping) -> Result<Rankings, AllocError>
    requires few { length mapping.now.home < 2 ^ 32 }
    requires priorities { length mapping.now.priority ≡ length mapping.now.home }
    ensures by_home { IfOk result (λ ranks. IsRankingOf mapping.now (arc_value ranks.by_home)) }
    ensures of_all { IfOk result (λ ranks. IsRankingOfAll mapping.now (arc_value ranks.of_all)) }
{
    let keys = keys_of(alloc, mapping.priority.items())?;
    let by_home = rank_nodes(alloc, mapping, &keys)?;
    let of_all = rank_all(alloc, mapping, &keys)?;
    Ok(Rankings { by_home, of_all })
}
