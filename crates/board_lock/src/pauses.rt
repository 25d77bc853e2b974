// Pauses of a thread that waits for others.
use crossbeam_utils::Backoff;
use std::thread;

/// After so many spins a spin of `Backoff` gets no longer.
const GROWN: u32 = 6;

/// How often a pause gets twice as long after that.
const DOUBLED: u32 = 3;

/// The pauses of a thread that tries again and again: each is twice as long as the one before, from one `spin_loop` up to 512. Those
/// of 512 let other threads run too.
#[derive(Drop)]
pub struct Pauses {
    backoff: Backoff,
    count: u32,
}

impl Pauses {
    /// No pause so far.
    pub fn new() -> Pauses {
        Pauses {
            backoff: Backoff::new(),
            count: 0,
        }
    }

    /// Pauses, twice as long as the last time, where that isn't the longest pause.
    pub fn pause(&mut self) {
        for _ in 0..1u32 << self.count.saturating_sub(GROWN).min(DOUBLED) {
            self.backoff.spin();
        }
        if self.count < GROWN + DOUBLED {
            self.count += 1;
        } else {
            thread::yield_now();
        }
    }
}
