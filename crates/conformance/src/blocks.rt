// Kernels that are counted by blocks.
use kernel_gate::{Frame, Gate, KernelFault, Signature};
use kernel_library::Library;
use std::sync::atomic::{AtomicU32, Ordering};

/// No kernel of the table has this place.
const NONE: u32 = u32::MAX;

/// The library of kernels, which counts the blocks of firings: the most firings of one kernel that come one after another. It is
/// for one worker.
#[derive(Drop)]
pub(crate) struct Blocks {
    last: AtomicU32,
    count: AtomicU32,
}

impl Blocks {
    /// Of no firing so far.
    pub(crate) fn new() -> Blocks {
        Blocks {
            last: AtomicU32::new(NONE),
            count: AtomicU32::new(0),
        }
    }

    /// How many there were.
    pub(crate) fn count(&self) -> u32 {
        self.count.load(Ordering::SeqCst)
    }

    /// Counts a firing of this kernel.
    fn add(&self, kernel: u32) {
        if self.last.load(Ordering::SeqCst) != kernel {
            self.last.store(kernel, Ordering::SeqCst);
            self.count.fetch_add(1, Ordering::SeqCst);
        }
    }
}

impl Gate for Blocks {
    ghost use Rattle.kernel_gate.specs.Table.{the_signatures};

    ghost kernels = { λ _. the_signatures };

    fn signatures(&self) -> &[Signature] {
        Library.signatures()
    }

    fn fire(&self, frame: &mut Frame) -> Result<(), KernelFault> {
        self.add(frame.kind());
        Library.fire(frame)
    }
}
