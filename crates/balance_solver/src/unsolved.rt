use std::alloc::{AllocError, AllocFailed};
use thiserror::Error;

/// Why a level has no base vector.
#[derive(Clone, Copy, Debug, Error, PartialEq, Eq)]
pub enum Unsolved {
    /// No vector with entries from 1 to `BASE_ENTRY_LIMIT` solves the balance equations.
    #[error("no vector within the limit solves the balance equations")]
    NoVector,
    /// There was no memory.
    #[error("out of memory")]
    Memory,
}

impl From<AllocError> for Unsolved {
    ghost use Rattle.std.specs.Prelude.{◌≡◌};
    ghost use Rattle.balance_solver.specs.declared.unsolved.Unsolved.TheVariants.{Memory};

    ghost from_gives = { λ _ e. e ≡ Memory };

    fn from(_error: AllocError) -> Unsolved {
        Unsolved::Memory
    }
}

impl<T: Drop> From<AllocFailed<T>> for Unsolved {
    ghost use Rattle.std.specs.Prelude.{◌≡◌};
    ghost use Rattle.balance_solver.specs.declared.unsolved.Unsolved.TheVariants.{Memory};

    ghost from_gives = { λ _ e. e ≡ Memory };

    fn from(_error: AllocFailed<T>) -> Unsolved {
        Unsolved::Memory
    }
}
