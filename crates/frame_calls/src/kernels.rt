// Firings of the kernels, and the frames that they work on.
ghost use Rattle.std.specs.Prelude.{◌≡◌, ◌≤◌, length, IfOk};
ghost use Rattle.std.specs.Bool.{OnTrue};
ghost use Rattle.kernel_gate.specs.Signed.{IsFrameOf, unnamed};
ghost use Rattle.kernel_gate.specs.Table.{the_signatures};
ghost use Rattle.kernel_gate.specs.Leased.{AreWhole};
ghost use Rattle.frame_calls.specs.Signatures.{HasKernel};

use crate::frame_parts::{Content, given_up};
use case_rows::{Trouble, answer_in, lists, numbers, small_or, smalls, word};
use kernel_gate::{Frame, Gate, KernelFault, Signature};
use kernel_library::Library;
use sdf_level::List;
use serde_json::Value;
use std::alloc::{AllocError, Global};

/// Whether these counts fit a signature.
fn fits(s: &Signature, args: usize, ins: usize, outs: usize, sets: u32) -> bool
    ensures args { OnTrue result ((s.now.args_min ≤ args) × (args ≤ s.now.args_max)) }
    ensures ins { OnTrue result (ins ≡ s.now.ins) }
    ensures outs { OnTrue result (outs ≡ s.now.outs) }
    ensures sets { OnTrue result ((s.now.sets_min ≤ sets) × (sets ≤ s.now.sets_max)) }
{
    if args < (s.args_min as usize) || (s.args_max as usize) < args {
        return false;
    }
    if ins != s.ins as usize || outs != s.outs as usize {
        return false;
    }
    s.sets_min <= sets && sets <= s.sets_max
}

/// The place of a kernel's name in the table, or the number of kernels where none has it.
pub fn place_of(name: &str) -> u32 {
    let mut place = 0u32;
    for signature in Library.signatures() {
        if signature.name == name {
            return place;
        }
        place = place.saturating_add(1);
    }
    place
}

/// Whether there is a kernel at a place that takes and gives so many.
pub fn has_kernel(kind: u32, args: usize, ins: usize, outs: usize, sets: u32) -> bool
    ensures { OnTrue result (HasKernel kind args ins outs sets) }
{
    let signatures = Library.signatures();
    if signatures.len() <= (kind as usize) {
        return false;
    }
    if !fits(&signatures[kind as usize], args, ins, outs, sets) {
        return false;
    }
    true
}

/// A frame for a kernel that takes and gives so many.
fn frame_for(
    alloc: Global,
    kind: u32,
    args: Vec<i64>,
    inputs: List<List<i64>>,
    outs: &[u32],
    sets: u32,
) -> Result<Frame, AllocError>
    requires { HasKernel kind (length args.items) (length inputs) (length outs.now) sets }
    ensures fitting { IfOk result (λ f. IsFrameOf (unnamed the_signatures) f) }
    ensures whole { IfOk result (λ f. AreWhole f.places) }
{
    let frame = Frame::start(alloc, kind, List::new(args), inputs, outs, sets)?;
    Ok(frame)
}

/// The word for a kernel's fault.
pub fn word_of(fault: KernelFault) -> &'static str {
    match fault {
        KernelFault::OVERFLOW => "overflow",
        KernelFault::DIVISION => "division",
        KernelFault::SHAPE => "shape",
        KernelFault::VALUE => "value",
        _ => "another fault",
    }
}

/// The outputs and the sets of a frame once its kernel is fired, or the word for the fault. The frame is given up.
fn fire(alloc: Global, mut frame: Frame) -> Result<Value, Trouble>
    requires fitting { IsFrameOf (unnamed the_signatures) frame }
    requires whole { AreWhole frame.places }
{
    let fired = Library.fire(&mut frame);
    let results = given_up(alloc, frame, Content::Results);
    match fired {
        Ok(()) => answer_in(alloc, results),
        Err(fault) => Ok(Value::try_from_str(alloc, word_of(fault))?),
    }
}

/// What a firing of the row's kernel gives: the row has its arguments, its inputs, the lengths of its outputs and the
/// number of its sets.
pub fn fired(alloc: Global, row: &Value) -> Result<Value, Trouble> {
    let kind = place_of(word(row, "kernel")?);
    let sets = small_or(row, "sets", 0)?;
    let args = numbers(alloc, row, "args")?;
    let inputs = lists(alloc, row, "ins")?;
    let outs = smalls(alloc, row, "outs")?;
    if !has_kernel(kind, args.len(), inputs.items().len(), outs.len(), sets) {
        return Err(Trouble::Member("kernel"));
    }
    fire(
        alloc,
        frame_for(alloc, kind, args, inputs, outs.as_slice(), sets)?,
    )
}
