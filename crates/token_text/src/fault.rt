use std::alloc::{AllocError, AllocFailed};
use thiserror::Error;

/// The first thing that is wrong with a token file. Rows are its records, and rows and fields are counted from 1: a
/// record's name is field 1.
#[derive(Clone, Copy, Debug, Error, PartialEq, Eq)]
pub enum TokenFault {
    /// An earlier record has the name.
    #[error("the name of row {row} was given before")]
    Repeated { row: u64 },
    /// The name is none of those that were asked for.
    #[error("the name of row {row} is unknown")]
    Name { row: u64 },
    /// A field is no token.
    #[error("field {field} of row {row} is no token")]
    Number { row: u64, field: u64 },
    /// There was no memory.
    #[error("out of memory")]
    Memory,
}

impl From<AllocError> for TokenFault {
    ghost use Rattle.std.specs.Prelude.{◌≡◌};
    ghost use Rattle.token_text.specs.declared.fault.TokenFault.TheVariants.{Memory};

    ghost from_gives = { λ _ e. e ≡ Memory };

    fn from(_error: AllocError) -> TokenFault {
        TokenFault::Memory
    }
}

impl<T: Drop> From<AllocFailed<T>> for TokenFault {
    ghost use Rattle.std.specs.Prelude.{◌≡◌};
    ghost use Rattle.token_text.specs.declared.fault.TokenFault.TheVariants.{Memory};

    ghost from_gives = { λ _ e. e ≡ Memory };

    fn from(_error: AllocFailed<T>) -> TokenFault {
        TokenFault::Memory
    }
}
