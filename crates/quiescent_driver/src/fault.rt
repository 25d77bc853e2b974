use board_journal::Journal;
use pisdf_meaning::Refusal;
use std::alloc::AllocError;

/// Why an iteration gave nothing.
#[derive(Drop)]
pub enum IterationFault {
    /// One thread is refused here. The journal of the workers' steps has ended.
    Refused(Refusal, Journal),
    /// There was no memory.
    Memory,
}

impl From<AllocError> for IterationFault {
    ghost use Rattle.std.specs.Prelude.{◌≡◌};
    ghost use Rattle.quiescent_driver.specs.declared.fault.IterationFault.TheVariants.{Memory};

    ghost from_gives = { λ _ e. e ≡ Memory };

    fn from(_error: AllocError) -> IterationFault {
        IterationFault::Memory
    }
}
