use sdf_level::List;
use std::alloc::{AllocError, AllocFailed};
use thiserror::Error;

/// Why there is no order.
#[derive(Debug, Drop, Error)]
pub enum Stuck {
    /// Deadlock: no list of firings in which each finds its tokens fires every actor its count. For each actor, how many
    /// of its firings are left when no actor can fire any more.
    #[error("no order fires every actor its count")]
    Left(List<u32>),
    /// There was no memory.
    #[error("out of memory")]
    Memory,
}

impl From<AllocError> for Stuck {
    ghost use Rattle.std.specs.Prelude.{◌≡◌};
    ghost use Rattle.firing_order.specs.declared.stuck.Stuck.TheVariants.{Memory};

    ghost from_gives = { λ _ e. e ≡ Memory };

    fn from(_error: AllocError) -> Stuck {
        Stuck::Memory
    }
}

impl<T: Drop> From<AllocFailed<T>> for Stuck {
    ghost use Rattle.std.specs.Prelude.{◌≡◌};
    ghost use Rattle.firing_order.specs.declared.stuck.Stuck.TheVariants.{Memory};

    ghost from_gives = { λ _ e. e ≡ Memory };

    fn from(_error: AllocFailed<T>) -> Stuck {
        Stuck::Memory
    }
}
