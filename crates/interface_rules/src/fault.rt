use std::alloc::{AllocError, AllocFailed};
use thiserror::Error;

/// Why a level with a base vector has no repetition vector.
#[derive(Clone, Copy, Debug, Error, PartialEq, Eq)]
pub enum InterfaceFault {
    /// The link with this number, counted from 0, is the first with a source or sink that has exactly one rate 0.
    #[error("exactly one rate of link {link} is 0")]
    Mismatch { link: u32 },
    /// There was no memory.
    #[error("out of memory")]
    Memory,
}

impl From<AllocError> for InterfaceFault {
    ghost use Rattle.std.specs.Prelude.{◌≡◌};
    ghost use Rattle.interface_rules.specs.declared.fault.InterfaceFault.TheVariants.{Memory};

    ghost from_gives = { λ _ e. e ≡ Memory };

    fn from(_error: AllocError) -> InterfaceFault {
        InterfaceFault::Memory
    }
}

impl<T: Drop> From<AllocFailed<T>> for InterfaceFault {
    ghost use Rattle.std.specs.Prelude.{◌≡◌};
    ghost use Rattle.interface_rules.specs.declared.fault.InterfaceFault.TheVariants.{Memory};

    ghost from_gives = { λ _ e. e ≡ Memory };

    fn from(_error: AllocFailed<T>) -> InterfaceFault {
        InterfaceFault::Memory
    }
}
