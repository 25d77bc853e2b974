ghost use Rattle.std.specs.Prelude.{◌≡◌, ℕ, List, [], IsOk, Option};
ghost use Rattle.outer_world.specs.Sink.{Puts};

use thiserror::Error;

/// A put failed: the sink took a beginning of the bytes, all of them or fewer, and its count of faults rose.
#[derive(Clone, Copy, Debug, PartialEq, Eq, Error)]
#[error("the bytes couldn't be written")]
pub struct SinkFailed;

/// What takes bytes.
pub trait Sink {
    /// All bytes that were written, where the sink tells them.
    ghost written: { Self → Option (List ℕ) };

    /// How often a put failed: a count that never falls.
    ghost faults: { Self → ℕ };

    /// Appends all the bytes, or a beginning of them where it fails.
    fn put(&mut self, bytes: &[u8]) -> Result<(), SinkFailed>
        ensures { Puts (written self.old) (written self.new) (faults self.old) (faults self.new) bytes.now result };
}

/// Puts a text, unless it is empty.
///
/// # Errors
///
/// The put failed, and the sink's count of faults rose.
pub fn put_text<W: Sink>(sink: &mut W, text: &[u8]) -> Result<(), SinkFailed>
    ensures puts { Puts (W.written sink.old) (W.written sink.new) (W.faults sink.old) (W.faults sink.new) text.now result }
    ensures nothing { text.now ≡ [] → IsOk result × (sink.new ≡ sink.old) }
{
    if text.is_empty() {
        return Ok(());
    }
    sink.put(text)
}
