// A lease of cells of a block.
ghost use Rattle.std.specs.Prelude.{◌≡◌, ◌≤◌, ◌<◌, ◌+◌, ◌*◌, ◌^◌, ◌++◌, true, length, take, drop};
ghost use Rattle.std.specs.Borrow.{sem};
ghost use denote.RawPtr.{◌+ₚ◌};
ghost use Rattle.split_block.specs.View.{IsWhole, Follows};

use crate::block::{Cells, VecWithoutCells, attach, cut, detach, glue, take_cells, vec_over};
use crate::origin::{Origin, fork, locate};
use std::alloc::Global;
use std::marker::Model;
use std_alloc::vec::Lodged;

/// Cells of a block, which nothing else can reach. It must be spent: it is neither `Drop` nor `Clone`.
pub struct Lease {
    buf: Vec<i64, Lodged>,
    // What makes the block a `Vec` again, where that isn't a pool's: the lease that starts at 0 and has a cell has it.
    home: Option<VecWithoutCells<Global>>,
    origin: Origin,
    alloc: Global,
}

impl Model for Lease {
    ghost use Rattle.split_block.specs.View.{LeaseView, lease_code};

    ghost Value = { LeaseView };

    ghost coded = { lease_code };

    ghost use Rattle.split_block.specs.Leased.{view_of, IsLeased};

    ghost view = { view_of };

    ghost invariant = { IsLeased };
}

impl Lease {
    ghost use Rattle.split_block.specs.Lending.{LendsCells};

    /// All the cells of a list, which are a block from here on.
    pub fn from_vec(mut cells: Vec<i64>) -> Lease
        ensures whole { IsWhole result }
        ensures cells { result.cells ≡ cells.items }
    {
        let alloc = *cells.allocator();
        let size = cells.len();
        if size == 0 {
            drop(cells);
            let mut buf = Vec::new(Lodged);
            let ptr = buf.as_mut_ptr();
            return Lease {
                buf,
                home: None,
                origin: locate(ptr, 0, false, 0),
                alloc,
            };
        }
        let ptr = cells.as_mut_ptr();
        let (run, emptied) = detach(cells);
        Lease {
            buf: vec_over(ptr, size, run),
            home: Some(emptied),
            origin: locate(ptr, size, false, 0),
            alloc,
        }
    }

    /// The first `at` cells, and the others.
    pub fn split(self, at: u32) -> (Lease, Lease)
        requires { at ≤ length self.cells }
        ensures left { result.0 ≡ record self { cells = take at self.cells } }
        ensures right { result.1 ≡ record self { start = self.start + at; cells = drop at self.cells } }
    {
        let Lease {
            mut buf,
            home,
            origin,
            alloc,
        } = self;
        let at = at as usize;
        let len = buf.len();
        let ptr = buf.as_mut_ptr();
        let (front, back) = cut(take_cells(buf), at);
        let (first, second) = if at == 0 { (None, home) } else { (home, None) };
        let (here, there) = fork(origin, at);
        let left = Lease {
            buf: vec_over(ptr, at, front),
            home: first,
            origin: here,
            alloc,
        };
        let middle = unsafe { ptr.byte_add(at * 8) };
        let right = Lease {
            buf: vec_over(middle, len - at, back),
            home: second,
            origin: there,
            alloc,
        };
        (left, right)
    }

    /// The cells of both.
    pub fn join(self, right: Lease) -> Lease
        requires { Follows self right }
        ensures { result ≡ record self { cells = self.cells ++ right.cells } }
    {
        let Lease {
            mut buf,
            home,
            origin,
            alloc,
        } = self;
        let Lease {
            buf: other,
            home: other_home,
            origin: _,
            alloc: _,
        } = right;
        let len = buf.len() + other.len();
        let ptr = buf.as_mut_ptr();
        let run = glue(take_cells(buf), take_cells(other));
        let home = match (home, other_home) {
            (Some(_), Some(_)) => unreachable!(),
            (Some(emptied), None) => Some(emptied),
            (None, other) => other,
        };
        Lease {
            buf: vec_over(ptr, len, run),
            home,
            origin,
            alloc,
        }
    }

    /// The block as a list again. A lease of a pool's block is given back to the pool instead.
    pub fn into_vec(self) -> Vec<i64>
        requires { IsWhole self }
        ensures { result.items ≡ self.cells }
    {
        let Lease {
            buf,
            home,
            origin: _,
            alloc,
        } = self;
        match home {
            Some(emptied) => attach(take_cells(buf), emptied),
            None => {
                drop(buf);
                Vec::new(alloc)
            }
        }
    }

    /// The cells.
    pub fn as_slice(&self) -> &[i64]
        ensures { result.now ≡ self.now.cells }
    {
        self.buf.as_slice()
    }

    /// The cells, to be written. Their number never changes.
    pub fn as_mut_slice(&mut self) -> &mut [i64]
        ensures* writes_back { sem 𝓛 (LendsCells self.entry result) }
        ensures value { result.now ≡ self.old.cells }
    {
        self.buf.as_mut_slice()
    }

    /// A lease of cells of a pool's block of `size` cells, from the cell `start` on.
    pub fn of_pool(
        run: Cells,
        len: usize,
        base: *mut i64,
        start: usize,
        size: usize,
        alloc: Global,
    ) -> Lease
        requires placed { (run.ptr ≡ base +ₚ (start * 8)) × (length run.items ≡ len) }
        requires within { (start + len ≤ size) × (size * 8 < 2 ^ 63) }
        ensures { result ≡ record { block = record { ptr = base; len = size; pooled = true }; start = start; cells = run.items } }
    {
        let ptr = unsafe { base.byte_add(start * 8) };
        Lease {
            buf: vec_over(ptr, len, run),
            home: None,
            origin: locate(base, size, true, start),
            alloc,
        }
    }

    /// The cells of a lease of a pool's block, and where they lie.
    pub fn into_pool(self) -> (Cells, Origin)
        requires pooled { self.block.pooled ≡ true }
        ensures run { (result.0.ptr ≡ self.block.ptr +ₚ (self.start * 8)) × (result.0.items ≡ self.cells) }
        ensures origin { (result.1.block ≡ self.block) × (result.1.start ≡ self.start) }
        ensures within { self.start + length self.cells ≤ self.block.len }
    {
        let Lease {
            buf,
            home,
            origin,
            alloc: _,
        } = self;
        match home {
            Some(_) => unreachable!(),
            None => {}
        }
        (take_cells(buf), origin)
    }
}
