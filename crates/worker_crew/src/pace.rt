// Whether it pays that a worker takes part.
use std::{hint, thread};

/// A step on the board takes about as long as a kernel takes for so many tokens.
const TOKENS_A_STEP: u64 = 32;

/// Of the steps that others took while a worker ran an item and waited for the lock, so many are counted at most: many steps tell
/// of a long item rather than of a wait.
const MOST_STEPS: u64 = 8;

/// A worker rests once the steps that it waited for outweigh its tokens by so many tokens.
const LOSS: u64 = 512;

/// A copy that isn't made under the lock counts as so many tokens.
pub(crate) const LARGE_COPY: u64 = LOSS;

/// The spins of a rest are so many in a row, and then another thread may run.
const SPINS: u32 = 64;

/// A rest is one such row at first, and at most two to this power.
const LONGEST: u32 = 6;

/// What a worker gained and lost by taking part. No two workers take a step on the board at once, so where kernels are small a
/// worker more only waits: it rests then, without an item in its hands, each time longer.
#[derive(Drop)]
pub(crate) struct Pace {
    /// By how many tokens the steps of others outweigh its own work.
    lost: u64,
    /// How often it has rested, as far as that makes a rest longer.
    rests: u32,
}

impl Pace {
    /// Nothing gained and nothing lost.
    pub(crate) fn new() -> Pace {
        Pace { lost: 0, rests: 0 }
    }

    /// Counts an item with so many tokens, in whose time others took so many steps.
    pub(crate) fn count(&mut self, tokens: u64, steps: u64) {
        let waited = steps.min(MOST_STEPS) * TOKENS_A_STEP;
        self.lost = self.lost.saturating_add(waited).saturating_sub(tokens);
    }

    /// Whether the worker should rest.
    pub(crate) fn is_lost(&self) -> bool {
        self.lost >= LOSS
    }

    /// Rests, where the worker should.
    pub(crate) fn rest(&mut self) {
        if !self.is_lost() {
            return;
        }
        for _ in 0..1u32 << self.rests.min(LONGEST) {
            for _ in 0..SPINS {
                hint::spin_loop();
            }
            thread::yield_now();
        }
        self.rests = self.rests.saturating_add(1);
        self.lost = 0;
    }
}
