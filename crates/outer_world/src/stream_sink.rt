ghost use Rattle.std.specs.Prelude.{◌≡◌, ◌<◌, ◌≤◌, ℕ, [], length, take, is_ok, if◌then◌else◌, IfOk, OnOk, OnErr};
ghost use Rattle.outer_world.specs.Faults.{one_more};
ghost use Rattle.outer_world.specs.Sink.{Grows, Puts};

use crate::counts::next_count;
use crate::sink::{Sink, SinkFailed};
use std::io::Write;
use std::marker::Model;

/// A writer as a sink. It passes on what the writer tells of the bytes that it holds.
#[derive(Drop)]
pub struct StreamSink<W> {
    out: W,
    faults: u64,
}

impl<W> Model for StreamSink<W> {
    ghost use Rattle.outer_world.specs.StreamSink.{SinkOverStream};

    ghost Value = { SinkOverStream W };

    ghost view = { λ s. record { out = s.out; faults = s.faults } };
}

impl<W: Write> StreamSink<W> {
    /// A sink that writes to `out`, and hands on what was written at each put. Each Err of the writer,
    /// and each write that takes nothing of bytes that are there, is a fault, raises the count by one
    /// and ends the put.
    pub fn new(out: W) -> StreamSink<W>
        ensures out { result.out ≡ out }
        ensures faults { result.faults ≡ 0 }
    {
        StreamSink { out, faults: 0 }
    }
}

impl<W: Write> Sink for StreamSink<W> {
    ghost written = { λ s. W.contents s.out };

    ghost faults = { λ s. s.faults };

    fn put(&mut self, bytes: &[u8]) -> Result<(), SinkFailed>
        ensures puts { Puts (W.contents self.old.out) (W.contents self.new.out) self.old.faults self.new.faults bytes.now result }
        ensures counted { self.new.faults ≡ (if is_ok result then self.old.faults else one_more self.old.faults) }
    {
        let sent = send(&mut self.out, bytes);
        if sent.is_err() {
            self.faults = next_count(self.faults);
        }
        sent
    }
}

/// Writes all the bytes, and then has the writer hand them on.
fn send<W: Write>(out: &mut W, bytes: &[u8]) -> Result<(), SinkFailed>
    ensures all { OnOk result (Grows (W.contents out.old) (W.contents out.new) bytes.now) }
    ensures beginning { OnErr result ((kept : ℕ) × (kept ≤ length bytes.now) × Grows (W.contents out.old) (W.contents out.new) (take kept bytes.now)) }
{
    write_whole(out, bytes)?;
    out.flush().map_err(|_| SinkFailed)
}

/// Writes all the bytes. Each turn takes at least one byte, or is the last.
fn write_whole<W: Write>(out: &mut W, bytes: &[u8]) -> Result<(), SinkFailed>
    ensures all { OnOk result (Grows (W.contents out.old) (W.contents out.new) bytes.now) }
    ensures beginning { OnErr result ((kept : ℕ) × (kept ≤ length bytes.now) × Grows (W.contents out.old) (W.contents out.new) (take kept bytes.now)) }
{
    let mut rest = bytes;
    while !rest.is_empty() {
        match write_some(out, rest) {
            Ok(taken) => rest = rest.split_at(taken).1,
            Err(failed) => return Err(failed),
        }
    }
    Ok(())
}

/// One write, which takes at least one byte, or fails.
fn write_some<W: Write>(out: &mut W, bytes: &[u8]) -> Result<usize, SinkFailed>
    ensures some { IfOk result (λ taken. 0 < taken) }
    ensures within { IfOk result (λ taken. taken ≤ length bytes.now) }
    ensures grown { IfOk result (λ taken. Grows (W.contents out.old) (W.contents out.new) (take taken bytes.now)) }
    ensures same { OnErr result (Grows (W.contents out.old) (W.contents out.new) []) }
{
    match out.write(bytes) {
        Ok(0) | Err(_) => Err(SinkFailed),
        Ok(taken) => Ok(taken),
    }
}
