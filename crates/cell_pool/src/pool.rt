// A pool of cells.
ghost use Rattle.std.specs.Prelude.{◌≡◌, ◌+◌, ◌-◌, ◌<◌, ◌≤◌, [], ◌∷◌, ◌++◌, length, replicate, take, vec_capacity, IfOk, IsOk, IsTrue, pos, true};
ghost use Rattle.split_block.specs.Places.{AllApart, Clear, has, without, window, write};
ghost use Rattle.cell_pool.specs.View.{place_of};

use split_block::{Free, Lease, VecWithoutCells, attach, detach, nothing, part, put, spread};
use std::alloc::{AllocError, Global};
use std::marker::Model;
use std::mem;

/// The cells of a block, some of which are leased out. What is free is known to the proof alone.
pub struct Pool {
    free: Free,
    // What makes the block a `Vec` again, where it has a cell.
    home: Option<VecWithoutCells<Global>>,
    base: *mut i64,
    size: usize,
    most: u32,
    alloc: Global,
}

impl Model for Pool {
    ghost use Rattle.cell_pool.specs.View.{PoolView, pool_code};

    ghost Value = { PoolView };

    ghost coded = { pool_code };

    ghost use Rattle.cell_pool.specs.Pooled.{view_of, IsPooled};

    ghost view = { view_of };

    ghost invariant = { IsPooled };
}

// Nothing else reaches the cells.
unsafe impl Send for Pool {}

impl Pool {
    /// So many cells, all 0 and free.
    pub fn start(alloc: Global, height: u32, most: u32) -> Result<Pool, AllocError>
        ensures cells { IfOk result (λ p. p.cells ≡ replicate height (pos 0)) }
        ensures block { IfOk result (λ p. (p.block.len ≡ height) × (p.block.pooled ≡ true)) }
        ensures out { IfOk result (λ p. (p.out ≡ []) × (p.most ≡ most)) }
    {
        let cells = vec![in alloc; 0i64; height as usize]?;
        Ok(Pool::of(alloc, cells, most))
    }

    /// So many cells, all free, in memory that is there, whose cells hold what they held. More is taken only where that is too
    /// little.
    ///
    /// # Errors
    ///
    /// Want of memory, only where that is too little.
    pub fn over(
        alloc: Global,
        mut cells: Vec<i64>,
        height: u32,
        most: u32,
    ) -> Result<Pool, AllocError>
        ensures cells { IfOk result (λ p. p.cells ≡ take height cells.items ++ replicate (height - length cells.items) (pos 0)) }
        ensures long { IfOk result (λ p. length p.cells ≡ height) }
        ensures enough { height ≤ vec_capacity cells → IsOk result }
        ensures block { IfOk result (λ p. (p.block.len ≡ height) × (p.block.pooled ≡ true)) }
        ensures out { IfOk result (λ p. (p.out ≡ []) × (p.most ≡ most)) }
    {
        cells.resize(height as usize, 0)?;
        Ok(Pool::of(alloc, cells, most))
    }

    /// These cells, all free.
    fn of(alloc: Global, mut cells: Vec<i64>, most: u32) -> Pool
        ensures cells { result.cells ≡ cells.items }
        ensures block { (result.block.len ≡ length cells.items) × (result.block.pooled ≡ true) }
        ensures out { (result.out ≡ []) × (result.most ≡ most) }
    {
        let base = cells.as_mut_ptr();
        let size = cells.len();
        if size == 0 {
            drop(cells);
            return Pool {
                free: nothing(),
                home: None,
                base,
                size,
                most,
                alloc,
            };
        }
        let (run, emptied) = detach(cells);
        Pool {
            free: spread(run),
            home: Some(emptied),
            base,
            size,
            most,
            alloc,
        }
    }

    /// No cell lies in two of its leases that are out, whatever was taken and given.
    pub fn apart(&self)
        ensures { AllApart self.now.out }
    {
        let _ = &self.free;
    }

    /// Leases out the cells of a place. It takes the same time whatever is out.
    pub fn take(&mut self, offset: u32, len: u32) -> Lease
        requires some { 1 ≤ len }
        requires within { offset + len ≤ self.old.block.len }
        requires clear { Clear (record { start = offset; len = len }) self.old.out }
        requires few { length self.old.out < self.old.most }
        ensures lease { result ≡ record { block = self.old.block; start = offset; cells = window offset len self.old.cells } }
        ensures pool { self.new ≡ record self.old { out = record { start = offset; len = len } ∷ self.old.out } }
        ensures len { length result.cells ≡ len }
        ensures apart { AllApart self.new.out }
    {
        let start = offset as usize;
        let n = len as usize;
        let free = mem::replace(&mut self.free, nothing());
        let (run, left) = part(free, start, n);
        self.free = left;
        Lease::of_pool(run, n, self.base, start, self.size, self.alloc)
    }

    /// Takes the cells of a lease back, with what they hold.
    pub fn give(&mut self, lease: Lease)
        requires block { lease.block ≡ self.old.block }
        requires out { IsTrue (has (place_of lease) self.old.out) }
        ensures { self.new ≡ record self.old {
          cells = write lease.start lease.cells self.old.cells;
          out = without (place_of lease) self.old.out;
        } }
    {
        let free = mem::replace(&mut self.free, nothing());
        let (run, origin) = lease.into_pool();
        self.free = put(free, origin, run);
    }

    /// The cells as a list.
    pub fn close(self) -> Vec<i64>
        requires { self.out ≡ [] }
        ensures { result.items ≡ self.cells }
    {
        let Pool {
            free,
            home,
            base: _,
            size,
            most: _,
            alloc,
        } = self;
        match home {
            Some(emptied) => {
                let (run, _) = part(free, 0, size);
                attach(run, emptied)
            }
            None => {
                drop(free);
                Vec::new(alloc)
            }
        }
    }
}
