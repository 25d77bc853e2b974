// How many threads a crew has.
ghost use Rattle.std.specs.Prelude.{◌<◌, ◌≤◌};

use std::thread::{Threads, available_parallelism};

/// So many boards after one whose worker called for others are run by several threads from the start.
const BOARDS_WITH_OTHERS: u32 = 15;

/// A worker that is alone calls for others once its kernels have read and written so many tokens, which should take longer than
/// a thread takes to start,
const MANY_TOKENS: u64 = 4096;

/// and so many for each of its firings: a kernel should take longer than it takes to hand the board on to another worker.
const TOKENS_A_FIRING: u64 = 1024;

/// A compilation that isn't kept counts as a firing with so many tokens.
pub(crate) const COMPILATION: u64 = 1024;

/// What the boards of a run have shown so far of the work that workers can share. By it a crew decides how many threads the next
/// board has; what the workers do there is the same.
///
/// On the first board each worker has a thread, since nothing is known of its kernels. A later board is begun by one thread,
/// alone. Where its kernels have enough to do, it calls for others, and so many threads as there are processors run this board
/// on, and the boards after it for a while.
#[derive(Drop)]
pub struct Workload {
    /// Whether a board was begun.
    begun: bool,
    /// On how many boards more several threads start at once.
    with_others: u32,
    /// The processors, or 0 where nobody has counted them.
    processors: u32,
    /// How many tokens the kernels of the worker that is alone have read and written on this board.
    tokens: u64,
    /// How many firings these were.
    firings: u64,
}

impl Workload {
    /// Of no board so far.
    pub fn new() -> Workload {
        Workload {
            begun: false,
            with_others: 0,
            processors: 0,
            tokens: 0,
            firings: 0,
        }
    }

    /// How many threads a board begins with that has so many workers.
    pub(crate) fn begin(&mut self, workers: u32) -> u32
        ensures { result ≤ workers }
    {
        self.tokens = 0;
        self.firings = 0;
        if !self.begun {
            self.begun = true;
            return workers;
        }
        if self.with_others == 0 {
            return workers.min(1);
        }
        self.with_others -= 1;
        self.processors.min(workers)
    }

    /// Counts a firing of the worker that is alone, with the tokens of its kernel.
    pub(crate) fn add(&mut self, tokens: u64) {
        self.tokens = self.tokens.saturating_add(tokens);
        self.firings = self.firings.saturating_add(1);
    }

    /// Whether the worker that is alone should call for others.
    pub(crate) fn is_great(&self) -> bool {
        self.tokens >= MANY_TOKENS && self.tokens / TOKENS_A_FIRING >= self.firings
    }

    /// How many threads there are once a worker has called for others, of whom there are so many with it.
    pub(crate) fn call<R: Threads>(&mut self, rt: &R, workers: u32) -> u32
        ensures { result ≤ workers }
    {
        if self.processors == 0 {
            self.processors = processors_of(rt);
        }
        self.with_others = BOARDS_WITH_OTHERS;
        self.processors.min(workers)
    }
}

/// How many processors there are for the threads of this process; the most there can be, where that isn't known.
fn processors_of<R: Threads>(rt: &R) -> u32 {
    match available_parallelism(rt) {
        Ok(count) => u32::try_from(count.get()).unwrap_or(u32::MAX),
        Err(_) => u32::MAX,
    }
}
