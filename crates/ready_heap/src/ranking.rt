// The order of numbers by their groups and keys.
ghost use Rattle.std.specs.Prelude.{◌≡◌, ℕ, ◌<◌, ◌≤◌, ◌^◌, ◌+◌, length, slice_index, slice_index_or, All, EachIndex, OnOk, IfOk};
ghost use Rattle.std.specs.List.Sorted.{IsNonDecreasingBy, IsPermutation};
ghost use Rattle.ready_heap.specs.Ranks.{AreKeyed, NeighboursRise, AreStartsIn, IsStartIn, IsListing, AreRanks, numbers_in};
ghost use Rattle.ready_heap.specs.declared.ranking.Row.{Row};

use std::alloc::{AllocError, Global};
use std::marker::Model;
use std::snapshot::Snapshot;

/// A number with its group and its key.
#[derive(Clone, Copy)]
pub(crate) struct Row {
    pub(crate) key: u128,
    pub(crate) group: u32,
    pub(crate) number: u32,
}

/// Each number with its group and its key.
pub(crate) fn keyed(alloc: Global, groups: &[u32], keys: &[u128]) -> Result<Vec<Row>, AllocError>
    requires few { length groups.now < 2 ^ 32 }
    requires keys { length keys.now ≡ length groups.now }
    ensures { IfOk result (λ v. AreKeyed groups.now keys.now (length groups.now) v.items) }
{
    let mut rows = Vec::with_capacity(alloc, groups.len())?;
    for n in 0..groups.len() {
        rows.push(Row {
            key: keys[n],
            group: groups[n],
            number: n as u32,
        })?;
    }
    Ok(rows)
}

/// Orders rows by their groups, and in a group by their keys. The second sort keeps the order of the first one in each group;
/// both are fast on rows of few runs, as those of a graph are whose actors fire in turn.
pub(crate) fn order(rows: &mut Vec<Row>) -> Result<(), AllocError>
    ensures same { IsPermutation rows.old.items rows.new.items }
    ensures groups { OnOk result (IsNonDecreasingBy (λ row. row.group) rows.new.items) }
    ensures keys { OnOk result (NeighboursRise rows.new.items) }
{
    rows.sort_by_key(|row| row.key)?;
    rows.sort_by_key(|row| row.group)?;
    Ok(())
}

/// The number of each row.
pub(crate) fn numbers_of(alloc: Global, rows: &[Row]) -> Result<Vec<u32>, AllocError>
    ensures { IfOk result (λ v. v.items ≡ numbers_in rows.now) }
{
    rows.iter().map(|row| row.number).collect(alloc)
}

/// For each number its place in a list of all.
pub(crate) fn ranks_of(alloc: Global, numbers: &[u32]) -> Result<Vec<u32>, AllocError>
    requires few { length numbers.now < 2 ^ 32 }
    requires listing { IsListing (length numbers.now) numbers.now }
    ensures { IfOk result (λ v. AreRanks numbers.now v.items) }
{
    let mut ranks = vec![in alloc; 0u32; numbers.len()]?;
    for rank in 0..numbers.len() {
        ranks[numbers[rank] as usize] = rank as u32;
    }
    Ok(ranks)
}

/// Where a group starts in rows in the order of groups, which is not before the place given.
fn start_from(rows: &[Row], group: usize, from: usize) -> usize
    requires rise { IsNonDecreasingBy (λ row. row.group) rows.now }
    requires within { from ≤ length rows.now }
    requires before { (r : ℕ) (d : Row) → r < from → (slice_index_or rows.now r d).group < group }
    ensures { IsStartIn rows.now group result }
{
    for rank in from..rows.len() {
        if rows[rank].group as usize >= group {
            return rank;
        }
    }
    rows.len()
}

/// Where each group starts in rows in the order of groups, and at the end how many rows there are.
pub(crate) fn starts_of(alloc: Global, rows: &[Row], count: usize) -> Result<Vec<u32>, AllocError>
    requires few { length rows.now < 2 ^ 32 }
    requires rise { IsNonDecreasingBy (λ row. row.group) rows.now }
    requires count { All (λ row. row.group < count) rows.now }
    ensures long { IfOk result (λ v. length v.items ≡ count + 1) }
    ensures starts { IfOk result (λ v. AreStartsIn rows.now v.items) }
{
    let mut starts = Vec::with_capacity(alloc, count.saturating_add(1))?;
    let mut start = 0;
    for group in 0..count {
        start = start_from(rows, group, start);
        starts.push(start as u32)?;
    }
    starts.push(rows.len() as u32)?;
    Ok(starts)
}

/// Numbers in the order of their groups, and in each group of their keys. Each number has a rank, which is its place in that
/// order. The ranks of a group follow each other.
#[derive(Drop)]
pub struct Ranking {
    /// The group and the key of each number, for clauses alone.
    given: Snapshot<Vec<Row>>,
    /// Where the ranks of each group start, and at the end how many numbers there are.
    starts: Vec<u32>,
    /// The number of each rank.
    numbers: Vec<u32>,
    /// The rank of each number.
    ranks: Vec<u32>,
}

impl Model for Ranking {
    ghost use Rattle.ready_heap.specs.Groups.{RankingView, KeepsRanks};
    ghost use Rattle.ready_heap.specs.Ranks.{groups_in, keys_in};

    ghost Value = { RankingView };

    ghost view = { λ r. record {
      groups = groups_in r.given.value.items;
      keys = keys_in r.given.value.items;
      starts = r.starts.items;
      numbers = r.numbers.items;
      ranks = r.ranks.items;
    } };

    ghost invariant = { λ r. KeepsRanks (groups_in r.given.value.items) (keys_in r.given.value.items) r.starts.items r.numbers.items r.ranks.items };
}

impl Ranking {
    ghost use Rattle.ready_heap.specs.Groups.{RankingView, IsRanked, group_count};

    /// The ranking of the numbers that have these groups and keys. Groups are below `count`.
    ///
    /// # Errors
    ///
    /// Want of memory.
    pub fn new(
        alloc: Global,
        groups: &[u32],
        keys: &[u128],
        count: usize,
    ) -> Result<Ranking, AllocError>
        requires few { length groups.now < 2 ^ 32 }
        requires keys { length keys.now ≡ length groups.now }
        requires count { EachIndex groups.now (λ n. slice_index groups.now n < count) }
        ensures groups { IfOk result (λ r. r.groups ≡ groups.now) }
        ensures keys { IfOk result (λ r. r.keys ≡ keys.now) }
        ensures count { IfOk result (λ r. group_count r ≡ count) }
    {
        let mut rows = keyed(alloc, groups, keys)?;
        let given = Snapshot::of(&rows);
        order(&mut rows)?;
        let numbers = numbers_of(alloc, &rows)?;
        let ranks = ranks_of(alloc, &numbers)?;
        let starts = starts_of(alloc, &rows, count)?;
        Ok(Ranking {
            given,
            starts,
            numbers,
            ranks,
        })
    }

    /// How many numbers there are.
    pub(crate) fn count(&self) -> usize
        ensures count { result ≡ length self.now.numbers }
        ensures kept { IsRanked self.now }
    {
        self.numbers.len()
    }

    /// How many groups there are.
    pub(crate) fn groups(&self) -> usize
        ensures { result ≡ group_count self.now }
    {
        self.starts.len() - 1
    }

    /// The first rank of a group, and the first beyond it.
    pub(crate) fn range(&self, group: usize) -> (usize, usize)
        requires { group < group_count self.now }
        ensures start { result.0 ≡ slice_index self.now.starts group }
        ensures end { result.1 ≡ slice_index self.now.starts (group + 1) }
    {
        (self.starts[group] as usize, self.starts[group + 1] as usize)
    }

    /// The number of a rank.
    pub(crate) fn number(&self, rank: usize) -> u32
        requires { rank < length self.now.numbers }
        ensures { result ≡ slice_index self.now.numbers rank }
    {
        self.numbers[rank]
    }

    /// The rank of a number.
    pub(crate) fn rank(&self, n: u32) -> usize
        requires { n < length self.now.ranks }
        ensures { result ≡ slice_index self.now.ranks n }
    {
        self.ranks[n as usize] as usize
    }
}
