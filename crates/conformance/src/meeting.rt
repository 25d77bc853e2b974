// Kernels that meet.
use kernel_gate::{Frame, Gate, KernelFault, Signature};
use kernel_library::Library;
use std::sync::atomic::{AtomicBool, AtomicU32, Ordering};
use std::{hint, thread};

/// How many turns a firing waits at most, where a row doesn't say.
pub(crate) const TURNS: u32 = 100_000_000;

/// After so many turns another thread may run.
const YIELDS: u32 = 16;

/// The library of kernels, of which the first firings, one for each worker, wait until all of them have begun, or until one of
/// them has waited so many turns.
#[derive(Drop)]
pub(crate) struct Meeting {
    workers: u32,
    turns: u32,
    begun: AtomicU32,
    missed: AtomicBool,
}

impl Meeting {
    /// A meeting of so many workers, of whom each waits so many turns at most.
    pub(crate) fn new(workers: u32, turns: u32) -> Meeting {
        Meeting {
            workers,
            turns,
            begun: AtomicU32::new(0),
            missed: AtomicBool::new(false),
        }
    }

    /// Whether as many firings as there are workers have begun.
    fn is_full(&self) -> bool {
        self.begun.load(Ordering::SeqCst) >= self.workers
    }

    /// Whether the firings of all workers met, before the turns of one of them ran out.
    pub(crate) fn has_met(&self) -> bool {
        self.is_full() && !self.missed.load(Ordering::SeqCst)
    }

    /// Waits until the meeting is full or missed.
    fn meet(&self) {
        self.begun.fetch_add(1, Ordering::SeqCst);
        for turn in 0..self.turns {
            if self.is_full() || self.missed.load(Ordering::SeqCst) {
                return;
            }
            hint::spin_loop();
            if turn % YIELDS == 0 {
                thread::yield_now();
            }
        }
        self.missed.store(true, Ordering::SeqCst);
    }
}

impl Gate for Meeting {
    ghost use Rattle.kernel_gate.specs.Table.{the_signatures};

    ghost kernels = { λ _. the_signatures };

    fn signatures(&self) -> &[Signature] {
        Library.signatures()
    }

    fn fire(&self, frame: &mut Frame) -> Result<(), KernelFault> {
        self.meet();
        Library.fire(frame)
    }
}
