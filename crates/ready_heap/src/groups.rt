// Numbers in groups, each group in the order of its keys.
ghost use Rattle.std.specs.Prelude.{◌≡◌, ◌<◌, ◌≤◌, ◌↔◌, ℕ, IsOk, IsTrue, true, false, length, replicate, slice_index_or, slice_set, vec_capacity, IfOk};
ghost use Rattle.std.specs.Arc.{arc_value};
ghost use Rattle.ready_heap.specs.Heaps.{Holds};
ghost use Rattle.ready_heap.specs.Groups.{IsLeastOf};

use crate::bits::{BITS, first_from, next_bit, put_in, take_out};
use crate::ranking::Ranking;
use std::alloc::{AllocError, Global};
use std::marker::Model;
use std::sync::Arc;

/// The memory of rows of bits. What it holds says nothing.
#[derive(Drop)]
pub struct BitRows {
    words: Vec<u64>,
    summary: Vec<u64>,
}

impl BitRows {
    /// No memory yet.
    pub fn none(alloc: Global) -> BitRows {
        BitRows {
            words: Vec::new(alloc),
            summary: Vec::new(alloc),
        }
    }

    /// Memory for a set of so many numbers.
    ///
    /// # Errors
    ///
    /// Want of memory.
    pub fn with_room(alloc: Global, numbers: usize) -> Result<BitRows, AllocError> {
        let words = numbers.div_ceil(BITS);
        Ok(BitRows {
            words: Vec::with_capacity(alloc, words)?,
            summary: Vec::with_capacity(alloc, words.div_ceil(BITS))?,
        })
    }
}

/// So many words, each 0, in this memory.
///
/// # Errors
///
/// Want of memory, only where that is too little.
fn zeros(mut words: Vec<u64>, count: usize) -> Result<Vec<u64>, AllocError>
    ensures zeros { IfOk result (λ v. v.items ≡ replicate count 0) }
    ensures enough { count ≤ vec_capacity words → IsOk result }
{
    words.clear();
    words.resize(count, 0)?;
    Ok(words)
}

/// Numbers of which each has a group and a key, which never change, and for each group those of its numbers that are in. A
/// number comes in and goes out without memory, by a write of two words. The order of the numbers may be that of many such
/// sets.
#[derive(Drop)]
pub struct GroupedHeaps {
    ranking: Arc<Ranking>,
    /// A bit for each rank: whether its number is in.
    words: Vec<u64>,
    /// A bit for each word: whether one of its bits is set.
    summary: Vec<u64>,
}

impl Model for GroupedHeaps {
    ghost use Rattle.std.specs.Arc.{arc_value};
    ghost use Rattle.ready_heap.specs.Groups.{HeapsView, IsRanked, KeepsBits, held_by};

    ghost Value = { HeapsView };

    ghost view = { λ h. record {
      groups = (arc_value h.ranking).groups;
      keys = (arc_value h.ranking).keys;
      held = held_by h.words.items (arc_value h.ranking).ranks;
    } };

    ghost invariant = { λ h. IsRanked (arc_value h.ranking) × KeepsBits (arc_value h.ranking).numbers h.words.items h.summary.items };
}

impl GroupedHeaps {
    /// None of the numbers that are ranked is in.
    ///
    /// # Errors
    ///
    /// Want of memory.
    pub fn new(alloc: Global, ranking: Arc<Ranking>) -> Result<GroupedHeaps, AllocError>
        ensures { IfOk result (λ h. h ≡ record { groups = (arc_value ranking).groups; keys = (arc_value ranking).keys; held = replicate (length (arc_value ranking).groups) false }) }
    {
        GroupedHeaps::over(BitRows::none(alloc), ranking)
    }

    /// As `new`, in memory that is there. More is taken only where that is too little.
    ///
    /// # Errors
    ///
    /// Want of memory, only where that is too little.
    pub fn over(rows: BitRows, ranking: Arc<Ranking>) -> Result<GroupedHeaps, AllocError>
        ensures { IfOk result (λ h. h ≡ record { groups = (arc_value ranking).groups; keys = (arc_value ranking).keys; held = replicate (length (arc_value ranking).groups) false }) }
    {
        let count = ranking.count().div_ceil(BITS);
        let words = zeros(rows.words, count)?;
        let summary = zeros(rows.summary, count.div_ceil(BITS))?;
        Ok(GroupedHeaps {
            ranking,
            words,
            summary,
        })
    }

    /// Its memory.
    pub fn into_rows(self) -> BitRows {
        let GroupedHeaps {
            ranking: _,
            words,
            summary,
        } = self;
        BitRows { words, summary }
    }

    /// The number of least key in a group that is in.
    pub fn least(&self, group: usize) -> Option<u32>
        ensures { IsLeastOf self.now group result }
    {
        if group >= self.ranking.groups() {
            return None;
        }
        let (start, end) = self.ranking.range(group);
        match first_from(&self.words, &self.summary, start) {
            Some(rank) if rank < end => Some(self.ranking.number(rank)),
            _ => None,
        }
    }

    /// Whether no number is in.
    pub fn is_empty(&self) -> bool
        ensures { IsTrue result ↔ ((n : ℕ) → Holds self.now.held n → ⊥) }
    {
        next_bit(&self.summary, 0).is_none()
    }

    /// Puts a number in.
    pub fn insert(&mut self, n: u32)
        requires below { n < length self.old.held }
        requires new { slice_index_or self.old.held n false ≡ false }
        ensures { self.new ≡ record self.old { held = slice_set self.old.held n true } }
    {
        let rank = self.ranking.rank(n);
        put_in(&mut self.words, &mut self.summary, rank);
    }

    /// Takes a number out.
    pub fn remove(&mut self, n: u32)
        requires { Holds self.old.held n }
        ensures { self.new ≡ record self.old { held = slice_set self.old.held n false } }
    {
        let rank = self.ranking.rank(n);
        take_out(&mut self.words, &mut self.summary, rank);
    }
}
