use std::alloc::{AllocError, AllocFailed};

/// Why graphs are refused.
#[derive(Debug, Drop)]
pub enum DetailFault<D> {
    /// A fault stands, first at the part that this detail tells.
    Fault(D),
    /// Want of memory.
    Memory,
}

impl<D: Drop> From<AllocError> for DetailFault<D> {
    ghost use Rattle.pisdf_model.specs.declared.detail_fault.DetailFault.TheVariants.{Memory};
    ghost use Rattle.std.specs.Prelude.{◌≡◌};

    ghost from_gives = { λ _ e. e ≡ Memory };

    fn from(_refused: AllocError) -> DetailFault<D> {
        DetailFault::Memory
    }
}

impl<D: Drop, T: Drop> From<AllocFailed<T>> for DetailFault<D> {
    ghost use Rattle.pisdf_model.specs.declared.detail_fault.DetailFault.TheVariants.{Memory};
    ghost use Rattle.std.specs.Prelude.{◌≡◌};

    ghost from_gives = { λ _ e. e ≡ Memory };

    fn from(_refused: AllocFailed<T>) -> DetailFault<D> {
        DetailFault::Memory
    }
}
