ghost use Rattle.std.specs.Prelude.{◌≡◌, ◌↔◌, ◌++◌, [], Some, IsOk, IfOk, is_ok, if◌then◌else◌, take};
ghost use Rattle.outer_world.specs.MemorySink.{cut_of, kept_of, TakesWhole};
ghost use Rattle.outer_world.specs.Faults.{one_more};
ghost use Rattle.outer_world.specs.Sink.{Puts};

use crate::counts::next_count;
use crate::sink::{Sink, SinkFailed};
use std::alloc::{AllocError, Global};
use std::marker::Model;

/// A sink in memory. It tells what was written, and fails where it was told to.
#[derive(Debug, Drop)]
pub struct MemorySink {
    room: usize,
    failing: Vec<(u64, usize)>,
    next: u64,
    faults: u64,
    text: Vec<u8>,
}

impl Model for MemorySink {
    ghost use Rattle.std.specs.Prelude.{◌≤◌, length, vec_capacity};
    ghost use Rattle.outer_world.specs.MemorySink.{SinkInMemory};

    ghost Value = { SinkInMemory };

    ghost view = { λ s. record { room = s.room; failing = s.failing.items; next = s.next; faults = s.faults; written = s.text.items } };

    ghost invariant = { λ s. (length s.text.items ≤ s.room) × (s.room ≤ vec_capacity s.text) };
}

impl MemorySink {
    /// A sink with room for so many bytes. Put number `n`, from 0, that is listed as `(n, k)` keeps the
    /// first `k` of its bytes, or all where there are fewer, and fails. A put past the room keeps what
    /// fits, and fails.
    pub fn new(
        alloc: Global,
        room: usize,
        failing: Vec<(u64, usize)>,
    ) -> Result<MemorySink, AllocError>
        ensures { IfOk result (λ sink. sink ≡ record { room = room; failing = failing.items; next = 0; faults = 0; written = [] }) }
    {
        Ok(MemorySink {
            room,
            failing,
            next: 0,
            faults: 0,
            text: Vec::with_capacity(alloc, room)?,
        })
    }

    /// What was written.
    pub fn bytes(&self) -> &[u8]
        ensures { result.now ≡ self.now.written }
    {
        self.text.as_slice()
    }

    /// How many bytes the next put keeps, where it is listed.
    fn cut(&self) -> Option<usize>
        ensures { result ≡ cut_of self.now }
    {
        self.failing
            .iter()
            .find(|listed| listed.0 == self.next)
            .map(|listed| listed.1)
    }
}

impl Sink for MemorySink {
    ghost written = { λ s. Some s.written };

    ghost faults = { λ s. s.faults };

    fn put(&mut self, bytes: &[u8]) -> Result<(), SinkFailed>
        ensures puts { Puts (Some self.old.written) (Some self.new.written) self.old.faults self.new.faults bytes.now result }
        ensures ok { IsOk result ↔ TakesWhole self.old bytes.now }
        ensures kept { self.new.written ≡ self.old.written ++ take (kept_of self.old bytes.now) bytes.now }
        ensures counted { self.new.faults ≡ (if is_ok result then self.old.faults else one_more self.old.faults) }
        ensures next { self.new.next ≡ one_more self.old.next }
        ensures room { self.new.room ≡ self.old.room }
        ensures failing { self.new.failing ≡ self.old.failing }
    {
        let cut = self.cut();
        let free = self.room - self.text.len();
        let kept = cut.unwrap_or(bytes.len()).min(bytes.len()).min(free);
        self.next = next_count(self.next);
        // There is memory for the whole room since `new`.
        let appended = self.text.extend_from_slice(&bytes[..kept]);
        if appended.is_ok() && cut.is_none() && kept == bytes.len() {
            return Ok(());
        }
        self.faults = next_count(self.faults);
        Err(SinkFailed)
    }
}
