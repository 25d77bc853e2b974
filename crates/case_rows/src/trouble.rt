use std::alloc::{AllocError, AllocFailed};

/// Why a case gives no answer.
#[derive(Drop)]
pub enum Trouble {
    /// A member of the row isn't there, or hasn't the form or the range that is asked for.
    Member(&'static str),
    /// Want of memory in this program.
    Memory,
}

impl From<AllocError> for Trouble {
    fn from(_refused: AllocError) -> Trouble {
        Trouble::Memory
    }
}

impl<T: Drop> From<AllocFailed<T>> for Trouble {
    fn from(_refused: AllocFailed<T>) -> Trouble {
        Trouble::Memory
    }
}
