// What a frame holds, as JSON texts.
ghost use Rattle.kernel_gate.specs.Leased.{AreWhole};

use kernel_gate::{Frame, Lent};
use split_block::Lease;
use std::alloc::{AllocError, Global};
use std::fmt::Write;

/// What of a frame is told.
#[derive(Clone, Copy)]
pub enum Content {
    /// Its arguments, the tokens of its input and of its output ports, and its sets, one after the other.
    Parts,
    /// The tokens of its output ports, and its sets.
    Results,
    /// The tokens of its output ports.
    Outputs,
}

/// The cells of each lease.
fn cells_text(alloc: Global, leases: &[Lease]) -> Result<String, AllocError> {
    let mut text = String::from_str(alloc, "[")?;
    let mut before = "";
    for lease in leases {
        let cells = lease.as_slice();
        write!(text, "{before}{cells:?}")?;
        before = ", ";
    }
    text.push(']')?;
    Ok(text)
}

/// What the parts of a frame hold.
pub fn parts_text(alloc: Global, lent: &Lent) -> Result<String, AllocError> {
    let inputs = cells_text(alloc, lent.inputs.as_slice())?;
    let outputs = cells_text(alloc, lent.outputs.as_slice())?;
    let args = lent.args.as_slice();
    let sets = lent.sets.as_slice();
    format!(in alloc; "{args:?}, {inputs}, {outputs}, {sets:?}")
}

/// What a frame holds once its kernel was fired.
fn results_text(alloc: Global, lent: &Lent) -> Result<String, AllocError> {
    let outputs = cells_text(alloc, lent.outputs.as_slice())?;
    let sets = lent.sets.as_slice();
    format!(in alloc; "[{outputs}, {sets:?}]")
}

/// What a frame holds, which is given up.
pub fn given_up(alloc: Global, frame: Frame, content: Content) -> Result<String, AllocError>
    requires { AreWhole frame.places }
{
    let lent = frame.take_back();
    let text = match content {
        Content::Parts => parts_text(alloc, &lent),
        Content::Results => results_text(alloc, &lent),
        Content::Outputs => cells_text(alloc, lent.outputs.as_slice()),
    };
    Frame::lend(lent).end();
    text
}
