// Placed buffers by their offsets.
ghost use Rattle.std.specs.Prelude.{ℕ, ◌≡◌, ◌-◌, ◌<◌, ◌≤◌, ◌∷◌, ◌++◌, [], length, slice_index_or, reverse, take, All, IfOk, OnOk, IsPermutation};
ghost use Rattle.placement.specs.Placing.{in_order, HasReach, IsInOrder};
ghost use Rattle.placement.specs.declared.gap.Placed.{Placed};

use crate::gap::Placed;
use std::alloc::{AllocError, Global};

/// Placed buffers in the order of their offsets, in two parts. The cut between them lies where the last one joined. Buffers
/// of one size join at rising offsets, but for a few, so the cut moves little.
#[derive(Drop)]
pub(crate) struct ByOffset {
    /// Those before the cut.
    pub(crate) low: Vec<Placed>,
    /// For each of those before the cut the greatest end up to it.
    pub(crate) reach: Vec<u32>,
    /// Those behind the cut, the nearest last.
    pub(crate) high: Vec<Placed>,
}

impl ByOffset {
    /// No buffer, and room for so many.
    pub(crate) fn with_capacity(alloc: Global, count: usize) -> Result<ByOffset, AllocError>
        ensures none { IfOk result (λ buffers. in_order buffers ≡ []) }
        ensures order { IfOk result IsInOrder }
    {
        Ok(ByOffset {
            low: Vec::with_capacity(alloc, count)?,
            reach: Vec::with_capacity(alloc, count)?,
            high: Vec::with_capacity(alloc, count)?,
        })
    }

    pub(crate) fn len(&self) -> usize
        ensures { result ≡ length (in_order self.now) }
    {
        self.low.len() + self.high.len()
    }

    /// The buffer at a place of the order.
    pub(crate) fn at(&self, place: usize) -> &Placed
        requires { place < length (in_order self.now) }
        ensures { result.now ≡ slice_index_or (in_order self.now) place result.now }
    {
        let cut = self.low.len();
        if place < cut {
            return &self.low[place];
        }
        &self.high[self.high.len() - 1 - (place - cut)]
    }

    /// A place before which all buffers end at or before the cell.
    pub(crate) fn first_behind(&self, cell: u32) -> usize
        requires { HasReach self.now }
        ensures { (k : ℕ) (d : Placed) → k < result → (slice_index_or (in_order self.now) k d).end ≤ cell }
    {
        self.reach.partition_point(|reach: &u32| *reach <= cell)
    }

    /// A buffer joins before the cut, behind all others there.
    fn push_low(&mut self, next: Placed) -> Result<(), AllocError>
        requires { HasReach self.old }
        ensures low { OnOk result (self.new.low.items ≡ self.old.low.items ++ next ∷ []) }
        ensures high { self.new.high ≡ self.old.high }
        ensures reach { OnOk result (HasReach self.new) }
    {
        let mut reach = next.end;
        if let Some(before) = self.reach.last() {
            reach = reach.max(*before);
        }
        self.reach.push(reach)?;
        self.low.push(next)?;
        Ok(())
    }

    /// The last one before the cut leaves.
    fn pop_low(&mut self)
        requires { HasReach self.old }
        ensures low { self.new.low.items ≡ take (length self.old.low.items - 1) self.old.low.items }
        ensures high { self.new.high ≡ self.old.high }
        ensures reach { HasReach self.new }
    {
        let _reach = self.reach.pop();
        let _last = self.low.pop();
    }

    /// Moves the cut before those that begin at the offset or behind it.
    fn lower(&mut self, offset: u32) -> Result<(), AllocError>
        requires { IsInOrder self.old }
        ensures same { OnOk result (in_order self.new ≡ in_order self.old) }
        ensures reach { OnOk result (HasReach self.new) }
        ensures low { OnOk result (All (λ p. p.offset < offset) self.new.low.items) }
    {
        while 0 < self.low.len() {
            let last = self.low[self.low.len() - 1];
            if last.offset < offset {
                return Ok(());
            }
            self.high.push(last)?;
            self.pop_low();
        }
        Ok(())
    }

    /// Moves the cut behind those that begin before the offset.
    fn raise(&mut self, offset: u32) -> Result<(), AllocError>
        requires order { IsInOrder self.old }
        requires low { All (λ p. p.offset < offset) self.old.low.items }
        ensures same { OnOk result (in_order self.new ≡ in_order self.old) }
        ensures reach { OnOk result (HasReach self.new) }
        ensures low { OnOk result (All (λ p. p.offset < offset) self.new.low.items) }
        ensures high { OnOk result (All (λ p. offset ≤ p.offset) (reverse self.new.high.items)) }
    {
        while 0 < self.high.len() {
            let next = self.high[self.high.len() - 1];
            if offset <= next.offset {
                return Ok(());
            }
            self.push_low(next)?;
            let _moved = self.high.pop();
        }
        Ok(())
    }

    /// A buffer joins.
    pub(crate) fn insert(&mut self, next: Placed) -> Result<(), AllocError>
        requires { IsInOrder self.old }
        ensures same { OnOk result (IsPermutation (next ∷ in_order self.old) (in_order self.new)) }
        ensures order { OnOk result (IsInOrder self.new) }
    {
        self.lower(next.offset)?;
        self.raise(next.offset)?;
        self.push_low(next)?;
        Ok(())
    }
}
