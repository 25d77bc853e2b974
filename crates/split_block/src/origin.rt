// Where the cells of a lease lie.
ghost use Rattle.std.specs.Prelude.{◌≡◌, ℕ, ◌+◌};
ghost use base.Fml.{ftrue};
ghost use Rattle.split_block.specs.View.{Block, block_code};

use std::marker::Model;

/// The block of a lease, and the cell of it that the lease starts at. It has no bytes.
#[derive(Drop)]
pub struct Origin {
    ghost block: { Block } by { block_code },
    ghost start: { ℕ },
}

impl Model for Origin {
    ghost also_owns = { λ _. ftrue };
}

/// The cell `start` of the block of `size` cells at `ptr`.
pub(crate) fn locate(ptr: *mut i64, size: usize, pooled: bool, start: usize) -> Origin
    ensures { result ≡ record { block = record { ptr = ptr; len = size; pooled = pooled }; start = start } }
{
    Origin {}
}

/// The same origin, and the one `at` cells behind it.
pub(crate) fn fork(origin: Origin, at: usize) -> (Origin, Origin)
    ensures { (result.0 ≡ origin) × (result.1 ≡ record origin { start = origin.start + at }) }
{
    let Origin {} = origin;
    (Origin {}, Origin {})
}
