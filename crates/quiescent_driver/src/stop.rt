use crate::fault::IterationFault;
use crate::streams::Lack;
use pisdf_meaning::{PlainFault, Refusal};

/// Why an iteration isn't done.
#[derive(Drop)]
pub enum Stop {
    /// It begins with fewer tokens left in a stream than it needs.
    Short { stream: usize, has: u64, needs: u32 },
    /// One thread is refused here.
    Refused(Refusal),
    /// There was no memory.
    Memory,
}

impl From<Lack> for Stop {
    ghost use Rattle.std.specs.Prelude.{◌≡◌};
    ghost use Rattle.quiescent_driver.specs.Stops.{short_stop};

    ghost from_gives = { λ lack stop. stop ≡ short_stop lack };

    fn from(lack: Lack) -> Stop {
        Stop::Short {
            stream: lack.stream,
            has: lack.has,
            needs: lack.needs,
        }
    }
}

impl From<PlainFault> for Stop {
    ghost use Rattle.std.specs.Prelude.{◌≡◌};
    ghost use Rattle.quiescent_driver.specs.Stops.{refused_stop};

    ghost from_gives = { λ fault stop. stop ≡ refused_stop fault };

    fn from(fault: PlainFault) -> Stop {
        match fault {
            PlainFault::Refused(refusal) => Stop::Refused(refusal),
            PlainFault::Memory => Stop::Memory,
        }
    }
}

impl From<IterationFault> for Stop {
    ghost use Rattle.std.specs.Prelude.{◌≡◌};
    ghost use Rattle.quiescent_driver.specs.Stops.{workers_stop};

    ghost from_gives = { λ fault stop. stop ≡ workers_stop fault };

    fn from(fault: IterationFault) -> Stop {
        match fault {
            IterationFault::Refused(refusal, _journal) => Stop::Refused(refusal),
            IterationFault::Memory => Stop::Memory,
        }
    }
}
