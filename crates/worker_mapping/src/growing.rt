// A list schedule while it grows.
ghost use Rattle.std.specs.Prelude.{◌≡◌, ◌+◌, [], ◌∷◌, ◌++◌, IfOk, OnOk, MatchOption};
ghost use Rattle.worker_mapping.specs.Growing.{IsWork, Begins, Grows, HasTaken, unplaced_below};

use crate::choice::{Queue, next_entry};
use crate::entry::Entry;
use crate::neighbours::edges_before;
use crate::release::{places_of_zero, queue, release};
use std::alloc::{AllocError, Global};

/// What a list schedule is made from: the nodes and edges of a graph, for each node its cost, its priority and the nodes
/// at its outgoing edges, and the number of workers.
#[derive(Clone, Copy)]
pub(crate) struct Work<'a> {
    pub(crate) nodes: u32,
    pub(crate) edges: &'a [(u32, u32)],
    pub(crate) costs: &'a [u32],
    pub(crate) workers: u32,
    pub(crate) priority: &'a [u64],
    pub(crate) after: &'a [Vec<u32>],
}

/// The entries so far, and what is kept of them.
#[derive(Drop)]
pub(crate) struct Growing {
    /// in the order in which they are placed
    pub(crate) entries: Vec<Entry>,
    /// for each node how many edges lead to it from nodes that aren't placed
    pub(crate) waiting: Vec<usize>,
    /// the nodes that aren't placed and wait for none, and aren't queued yet
    pub(crate) candidates: Vec<u32>,
    /// for each node the greatest end of the placed nodes before it
    pub(crate) ready: Vec<u64>,
    /// for each worker the greatest end of its entries
    pub(crate) free: Vec<u64>,
    /// the candidates that were ready at the last start
    pub(crate) due: Queue,
    /// the other candidates
    pub(crate) later: Queue,
    /// the start of the last entry
    pub(crate) now: u64,
}

impl Growing {
    /// No entry yet, and no candidate is queued.
    fn begin(alloc: Global, work: &Work<'_>) -> Result<Growing, AllocError>
        requires { IsWork work.now }
        ensures { IfOk result (Begins work.now) }
    {
        let waiting = edges_before(alloc, work.nodes, work.edges)?;
        Ok(Growing {
            entries: Vec::with_capacity(alloc, work.nodes as usize)?,
            candidates: places_of_zero(alloc, &waiting)?,
            ready: vec![in alloc; 0u64; work.nodes as usize]?,
            free: vec![in alloc; 0u64; work.workers as usize]?,
            due: Queue::new(alloc),
            later: Queue::new(alloc),
            now: 0,
            waiting,
        })
    }

    /// No entry yet.
    pub(crate) fn new(alloc: Global, work: &Work<'_>) -> Result<Growing, AllocError>
        requires { IsWork work.now }
        ensures { IfOk result (Grows work.now) }
    {
        let mut growing = Growing::begin(alloc, work)?;
        queue(&mut growing.candidates, &growing.ready, &mut growing.later)?;
        Ok(growing)
    }

    /// Takes the entry that follows out of the queues, if there is a candidate.
    pub(crate) fn take(&mut self, work: &Work<'_>) -> Result<Option<Entry>, AllocError>
        requires work { IsWork work.now }
        requires grows { Grows work.now self.old }
        ensures kept { self.new.entries.items ≡ self.old.entries.items }
        ensures taken { IfOk result (λ found. MatchOption found ((self.old.due.keys ≡ []) × (self.old.later.keys ≡ [])) (λ entry. HasTaken work.now entry self.new)) }
    {
        next_entry(
            work.costs,
            work.priority,
            &self.free,
            &mut self.now,
            &mut self.due,
            &mut self.later,
        )
    }

    /// Enters the entry that was taken, and queues the nodes that waited for its node alone.
    pub(crate) fn enter(&mut self, work: &Work<'_>, entry: Entry) -> Result<(), AllocError>
        requires work { IsWork work.now }
        requires taken { HasTaken work.now entry self.old }
        ensures grows { OnOk result (Grows work.now self.new) }
        ensures fewer { OnOk result (unplaced_below self.new.entries.items work.now.nodes + 1 ≡ unplaced_below self.old.entries.items work.now.nodes) }
    {
        self.entries.push(entry)?;
        self.free[entry.worker as usize] = entry.end;
        release(
            &work.after[entry.node as usize],
            entry.end,
            &mut self.waiting,
            &mut self.ready,
            &mut self.candidates,
        )?;
        queue(&mut self.candidates, &self.ready, &mut self.later)?;
        Ok(())
    }

    /// The entries, in the order in which they are placed.
    pub(crate) fn end(self) -> Vec<Entry>
        ensures { result.items ≡ self.entries.items }
    {
        self.entries
    }
}
