use crate::stop::Stop;
use pisdf_meaning::Refusal;
use sdf_level::List;

/// How a run ended.
#[derive(Drop)]
pub enum RunEnd {
    /// All iterations were put, and so many tokens are left in each stream.
    Done { left: List<u64> },
    /// An iteration began with fewer tokens left in a stream, told by its place, than it needs. Those before it were put.
    Short { stream: usize, has: u64, needs: u32 },
    /// One thread is refused in an iteration, or in the early check. Those before it were put.
    Refused(Refusal),
    /// The text of an iteration couldn't be put: of it a beginning was, and nothing after it. Those before it were put. The
    /// sink's count of faults rose.
    WriteFault,
    /// There was no memory. The texts of the first iterations were put, each whole.
    Memory,
}

impl From<Stop> for RunEnd {
    ghost use Rattle.std.specs.Prelude.{◌≡◌};
    ghost use Rattle.quiescent_driver.specs.Stops.{run_end};

    ghost from_gives = { λ stop end. end ≡ run_end stop };

    fn from(stop: Stop) -> RunEnd {
        match stop {
            Stop::Short { stream, has, needs } => RunEnd::Short { stream, has, needs },
            Stop::Refused(refusal) => RunEnd::Refused(refusal),
            Stop::Memory => RunEnd::Memory,
        }
    }
}
