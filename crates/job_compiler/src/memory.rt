// Memory for one job, which lies with its compilation: a job that has ended left it, or it was taken for the next one.

use ready_heap::BitRows;
use sdf_level::List;
use std::alloc::{AllocError, Global};
use std::mem;
use std::sync::Mutex;

/// The most cells of a job that are kept with its compilation: 2 MiB.
const MAX_KEPT_CELLS: usize = 262_144;

/// Memory for the bits of a set of nodes that may be claimed: by their homes, and as one group.
#[derive(Drop)]
pub struct SideMemory {
    pub by_home: BitRows,
    pub of_all: BitRows,
}

impl SideMemory {
    /// No memory yet.
    fn none(alloc: Global) -> SideMemory {
        SideMemory {
            by_home: BitRows::none(alloc),
            of_all: BitRows::none(alloc),
        }
    }

    /// Memory for so many nodes, whose homes are so many workers.
    ///
    /// # Errors
    ///
    /// Want of memory.
    fn with_room(alloc: Global, nodes: usize, workers: u32) -> Result<SideMemory, AllocError> {
        let by_home = BitRows::with_room(alloc, nodes)?;
        let of_all = if workers > 1 {
            BitRows::with_room(alloc, nodes)?
        } else {
            BitRows::none(alloc)
        };
        Ok(SideMemory { by_home, of_all })
    }
}

/// Memory for one job. What it holds says nothing.
#[derive(Drop)]
pub struct JobMemory {
    /// The cells of buffers.
    pub cells: Vec<i64>,
    /// A count for each node.
    pub counts: Vec<usize>,
    /// A list of tokens for each node.
    pub stock: Vec<List<i64>>,
    /// Bits of the nodes that are jobs of their own.
    pub children: SideMemory,
    /// Bits of the other nodes.
    pub others: SideMemory,
}

impl JobMemory {
    /// No memory yet.
    fn none(alloc: Global) -> JobMemory {
        JobMemory {
            cells: Vec::new(alloc),
            counts: Vec::new(alloc),
            stock: Vec::new(alloc),
            children: SideMemory::none(alloc),
            others: SideMemory::none(alloc),
        }
    }

    /// Memory for a job with so many cells and nodes, whose homes are so many workers.
    ///
    /// # Errors
    ///
    /// Want of memory.
    fn with_room(
        alloc: Global,
        cells: usize,
        nodes: usize,
        workers: u32,
    ) -> Result<JobMemory, AllocError> {
        Ok(JobMemory {
            cells: vec![in alloc; 0i64; cells]?,
            counts: Vec::with_capacity(alloc, nodes)?,
            stock: Vec::with_capacity(alloc, nodes)?,
            children: SideMemory::with_room(alloc, nodes, workers)?,
            others: SideMemory::with_room(alloc, nodes, workers)?,
        })
    }
}

/// A place for the memory of one job. No call waits for it: where another thread is at it, `take` finds nothing, and `leave` and
/// `prepare` put nothing into it.
#[derive(Drop)]
pub(crate) struct MemorySlot {
    memory: Mutex<Option<JobMemory>>,
}

impl MemorySlot {
    /// Nothing lies there.
    pub(crate) fn new() -> MemorySlot {
        MemorySlot {
            memory: Mutex::new(None),
        }
    }

    /// What lies there, which is taken away; else no memory.
    pub(crate) fn take(&self, alloc: Global) -> JobMemory {
        let found = match self.memory.try_lock() {
            Some(mut guard) => mem::replace(&mut *guard, None),
            None => None,
        };
        match found {
            Some(memory) => memory,
            None => JobMemory::none(alloc),
        }
    }

    /// Leaves memory there, without its tokens, in place of what lies there. Where it has many cells, it is given up.
    pub(crate) fn leave(&self, mut memory: JobMemory) {
        if memory.cells.capacity() > MAX_KEPT_CELLS {
            return;
        }
        memory.stock.clear();
        // What lay there is freed once the slot is free again.
        let old = match self.memory.try_lock() {
            Some(mut guard) => mem::replace(&mut *guard, Some(memory)),
            None => None,
        };
        drop(old);
    }

    /// Whether nothing lies there.
    fn is_empty(&self) -> bool {
        match self.memory.try_lock() {
            Some(guard) => guard.is_none(),
            None => false,
        }
    }

    /// Puts memory there, unless some lies there.
    fn put(&self, memory: JobMemory) {
        if let Some(mut guard) = self.memory.try_lock() {
            if guard.is_none() {
                *guard = Some(memory);
            }
        }
    }

    /// Takes memory for a job with so many cells and nodes, whose homes are so many workers, where none lies there and so many cells
    /// are kept.
    ///
    /// # Errors
    ///
    /// Want of memory. Nothing is put there.
    pub(crate) fn prepare(
        &self,
        alloc: Global,
        cells: usize,
        nodes: usize,
        workers: u32,
    ) -> Result<(), AllocError> {
        if cells <= MAX_KEPT_CELLS && self.is_empty() {
            self.put(JobMemory::with_room(alloc, cells, nodes, workers)?);
        }
        Ok(())
    }
}
