// The cells of a block of which some places are out.
ghost use Rattle.std.specs.Prelude.{◌≡◌, ℕ, ℤ, ◌+◌, ◌*◌, ◌≤◌, List, [], ◌∷◌, length, IsTrue};
ghost use Rattle.std.specs.Coded.{coded_list};
ghost use denote.RawPtr.{Ptr, ◌+ₚ◌};
ghost use Rattle.split_block.specs.Places.{Place, place_code, IsPlaced, Clear, has, without, free_owns, window, write};

use crate::block::Cells;
use crate::origin::Origin;
use std::marker::Model;

/// The cells at `ptr` without those at the places `out`, which hold what they held when they went out. It has no bytes.
#[derive(Drop)]
pub struct Free {
    ghost ptr: { Ptr },
    ghost cells: { List ℤ },
    ghost out: { List Place } by { coded_list place_code },
    ghost placed: { IsPlaced ptr },
}

impl Model for Free {
    ghost also_owns = { λ f. free_owns f.ptr f.cells f.out };
}

/// No cells.
pub fn nothing() -> Free
    ensures { (result.cells ≡ []) × (result.out ≡ []) }
{
    Free {}
}

/// All the cells of a run, none of which is out.
pub fn spread(run: Cells) -> Free
    ensures { (result.ptr ≡ run.ptr) × (result.cells ≡ run.items) × (result.out ≡ []) }
{
    let Cells {} = run;
    Free {}
}

/// Takes the cells of a place out.
pub fn part(free: Free, start: usize, len: usize) -> (Cells, Free)
    requires { (start + len ≤ length free.cells) × Clear (record { start = start; len = len }) free.out }
    ensures { (result.0.ptr ≡ free.ptr +ₚ (start * 8)) × (result.0.items ≡ window start len free.cells)
        × (result.1.ptr ≡ free.ptr) × (result.1.cells ≡ free.cells) × (result.1.out ≡ record { start = start; len = len } ∷ free.out) }
{
    let Free {} = free;
    (Cells {}, Free {})
}

/// Puts the cells of a place back, which starts where `origin` says.
pub fn put(free: Free, origin: Origin, run: Cells) -> Free
    requires { (run.ptr ≡ free.ptr +ₚ (origin.start * 8)) × (origin.start + length run.items ≤ length free.cells)
        × IsTrue (has (record { start = origin.start; len = length run.items }) free.out)
        × Clear (record { start = origin.start; len = length run.items }) (without (record { start = origin.start; len = length run.items }) free.out) }
    ensures { (result.ptr ≡ free.ptr) × (result.cells ≡ write origin.start run.items free.cells)
        × (result.out ≡ without (record { start = origin.start; len = length run.items }) free.out) }
{
    let Free {} = free;
    let Origin {} = origin;
    let Cells {} = run;
    Free {}
}
