use std::alloc::{AllocError, AllocFailed};
use thiserror::Error;

/// Why iterations aren't fired as one.
#[derive(Clone, Copy, Debug, Error, PartialEq, Eq)]
pub enum UnfoldFault {
    /// So many iterations of the graphs can't be fired as one.
    #[error("the iterations can't be fired as one")]
    NotExact,
    /// There was no memory.
    #[error("out of memory")]
    Memory,
}

impl From<AllocError> for UnfoldFault {
    ghost use Rattle.std.specs.Prelude.{◌≡◌};
    ghost use Rattle.unfold_rates.specs.declared.fault.UnfoldFault.TheVariants.{Memory};

    ghost from_gives = { λ _ e. e ≡ Memory };

    fn from(_error: AllocError) -> UnfoldFault {
        UnfoldFault::Memory
    }
}

impl<T: Drop> From<AllocFailed<T>> for UnfoldFault {
    ghost use Rattle.std.specs.Prelude.{◌≡◌};
    ghost use Rattle.unfold_rates.specs.declared.fault.UnfoldFault.TheVariants.{Memory};

    ghost from_gives = { λ _ e. e ≡ Memory };

    fn from(_error: AllocFailed<T>) -> UnfoldFault {
        UnfoldFault::Memory
    }
}
