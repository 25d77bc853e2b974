// Nodes that may be claimed, of one sort, and the first of them for a worker.
ghost use Rattle.std.specs.Prelude.{◌≡◌, ◌<◌, ◌↔◌, ℕ, IsTrue, None, Some, false, true, length, slice_index_or, slice_set, IfOk, if◌then◌else◌};
ghost use Rattle.std.specs.Arc.{arc_value};
ghost use Rattle.ready_heap.specs.Heaps.{Holds};
ghost use Rattle.ready_heap.specs.Groups.{IsLeastOf};
ghost use Rattle.worker_mapping.specs.declared.mapping.Mapping.{Mapping};
ghost use Rattle.one_job.specs.Pick.{IsFirst};
ghost use Rattle.one_job.specs.Ready.{AreRanked, none_in};
ghost use Rattle.one_job.specs.Alike.{AreOneGroup, CanPut, CanTake, IsLeast, IsOfAll, put_in};

use job_compiler::SideMemory;
use ready_heap::{BitRows, GroupedHeaps, Ranking};
use std::alloc::{AllocError, Global};
use std::marker::Model;
use std::sync::Arc;

/// Nodes of which some are in, each in the group of its home. Where there is more than one home the same nodes are also kept as
/// one group, so that the first of all is found without a look at each home.
#[derive(Drop)]
pub(crate) struct ReadySide {
    by_home: GroupedHeaps,
    of_all: Option<GroupedHeaps>,
}

impl Model for ReadySide {
    ghost use Rattle.ready_heap.specs.Groups.{HeapsView};
    ghost use Rattle.one_job.specs.Alike.{AreKeptAlike};

    ghost Value = { HeapsView };

    ghost view = { λ s. s.by_home };

    ghost invariant = { λ s. AreKeptAlike s.by_home s.of_all };
}

/// None of the nodes that are ranked is in, as one group, in this memory; nothing where they have one home.
///
/// # Errors
///
/// Want of memory.
fn heaps_of_all(
    rows: BitRows,
    of_all: &Arc<Ranking>,
    one_home: bool,
) -> Result<Option<GroupedHeaps>, AllocError>
    ensures { IfOk result (λ heaps. heaps ≡ (if one_home then None else Some (none_in (arc_value of_all.now)))) }
{
    if one_home {
        return Ok(None);
    }
    let heaps = GroupedHeaps::over(rows, Arc::try_clone(of_all)?)?;
    Ok(Some(heaps))
}

/// Puts a node into heaps that may be there.
fn insert_in(heaps: &mut Option<GroupedHeaps>, node: u32)
    requires { CanPut heaps.old node }
    ensures { heaps.new ≡ put_in heaps.old node true }
{
    match heaps {
        Some(heaps) => heaps.insert(node),
        None => {}
    }
}

/// Takes a node out of heaps that may be there.
fn remove_from(heaps: &mut Option<GroupedHeaps>, node: u32)
    requires { CanTake heaps.old node }
    ensures { heaps.new ≡ put_in heaps.old node false }
{
    match heaps {
        Some(heaps) => heaps.remove(node),
        None => {}
    }
}

impl ReadySide {
    /// None of the nodes that are ranked is in. `of_all` ranks them as one group. `one_home` says that all have home 0. More memory
    /// is taken only where what is there is too little.
    ///
    /// # Errors
    ///
    /// Want of memory.
    pub(crate) fn over(
        rows: SideMemory,
        ranking: &Arc<Ranking>,
        of_all: &Arc<Ranking>,
        one_home: bool,
    ) -> Result<ReadySide, AllocError>
        requires of_all { IsOfAll (arc_value ranking.now) (arc_value of_all.now) }
        requires one_home { IsTrue one_home → AreOneGroup (arc_value ranking.now).groups }
        ensures { IfOk result (λ s. s ≡ none_in (arc_value ranking.now)) }
    {
        let by_home = GroupedHeaps::over(rows.by_home, Arc::try_clone(ranking)?)?;
        let of_all = heaps_of_all(rows.of_all, of_all, one_home)?;
        Ok(ReadySide { by_home, of_all })
    }

    /// Its memory.
    pub(crate) fn into_rows(self, alloc: Global) -> SideMemory {
        let ReadySide { by_home, of_all } = self;
        let of_all = match of_all {
            Some(heaps) => heaps.into_rows(),
            None => BitRows::none(alloc),
        };
        SideMemory {
            by_home: by_home.into_rows(),
            of_all,
        }
    }

    /// Puts a node in.
    pub(crate) fn insert(&mut self, node: u32)
        requires below { node < length self.old.held }
        requires new { slice_index_or self.old.held node false ≡ false }
        ensures { self.new ≡ record self.old { held = slice_set self.old.held node true } }
    {
        self.by_home.insert(node);
        insert_in(&mut self.of_all, node);
    }

    /// Takes a node out.
    pub(crate) fn remove(&mut self, node: u32)
        requires { Holds self.old.held node }
        ensures { self.new ≡ record self.old { held = slice_set self.old.held node false } }
    {
        self.by_home.remove(node);
        remove_from(&mut self.of_all, node);
    }

    /// Whether no node is in.
    pub(crate) fn is_empty(&self) -> bool
        ensures { IsTrue result ↔ ((n : ℕ) → Holds self.now.held n → ⊥) }
    {
        self.by_home.is_empty()
    }

    /// The first of the nodes that are in and whose home is the worker.
    fn first_at_home(&self, worker: u32) -> Option<u32>
        ensures { IsLeastOf self.now worker result }
    {
        self.by_home.least(worker as usize)
    }

    /// The first of all nodes that are in.
    fn first_of_all(&self) -> Option<u32>
        ensures { IsLeast self.now result }
    {
        match &self.of_all {
            Some(heaps) => heaps.least(0),
            None => self.by_home.least(0),
        }
    }

    /// The node that is in and goes before all others that are: one whose home is the worker, where there is one, then that of
    /// greatest priority, then that of least number.
    pub(crate) fn first(&self, worker: u32) -> Option<u32>
        ensures { (mapping : Mapping) → AreRanked mapping self.now → IsFirst mapping worker (Holds self.now.held) result }
    {
        match self.first_at_home(worker) {
            Some(node) => Some(node),
            None => self.first_of_all(),
        }
    }
}
