// What frames hold.
ghost use Rattle.std.specs.Prelude.{◌≡◌, ◌≤◌, length};

use case_rows::Trouble;
use kernel_gate::Frame;
use sdf_level::List;
use std::alloc::{AllocError, Global};
use std::fmt::Write;

/// A frame, and how many input and output ports it has.
pub(crate) struct Counted {
    pub frame: Frame,
    pub ins: usize,
    pub outs: usize,
}

/// A frame, with its ports counted.
pub(crate) fn count_ports(frame: Frame) -> Counted
    ensures frame { result.frame ≡ frame }
    ensures ins { result.ins ≡ length frame.inputs }
    ensures outs { result.outs ≡ length frame.outputs }
{
    let lent = frame.take_back();
    let ins = lent.inputs.len();
    let outs = lent.outputs.len();
    Counted {
        frame: Frame::lend(lent),
        ins,
        outs,
    }
}

/// The tokens of the first inputs, as JSON texts of lists.
fn inputs_text(alloc: Global, frame: &Frame, ins: u32) -> Result<String, AllocError>
    requires { ins ≤ length frame.now.inputs }
{
    let mut text = String::new(alloc);
    let mut before = "";
    for port in 0..ins {
        let tokens = frame.input(port);
        write!(text, "{before}{tokens:?}")?;
        before = ", ";
    }
    Ok(text)
}

/// The lengths of the first outputs.
fn lens_of(alloc: Global, frame: &Frame, outs: u32) -> Result<Vec<usize>, AllocError>
    requires { outs ≤ length frame.now.outputs }
{
    let mut lens = Vec::new(alloc);
    for port in 0..outs {
        lens.push(frame.output_len(port))?;
    }
    Ok(lens)
}

/// What a frame holds: its kind, its arguments, the tokens of its inputs, and the lengths of its outputs.
pub(crate) fn frame_text(alloc: Global, counted: &Counted) -> Result<String, Trouble>
    requires ins { counted.now.ins ≡ length counted.now.frame.inputs }
    requires outs { counted.now.outs ≡ length counted.now.frame.outputs }
{
    if counted.ins > 1_000_000 || counted.outs > 1_000_000 {
        return Err(Trouble::Member("claim"));
    }
    let frame = &counted.frame;
    let inputs = inputs_text(alloc, frame, counted.ins as u32)?;
    let lens = lens_of(alloc, frame, counted.outs as u32)?;
    let kind = frame.kind();
    let args = frame.args();
    Ok(format!(in alloc; "[{kind}, {args:?}, [{inputs}], {lens:?}]")?)
}

/// The tokens of all inputs, one after the other.
fn tokens_of(alloc: Global, frame: &Frame, ins: u32) -> Result<Vec<i64>, Trouble>
    requires { ins ≤ length frame.now.inputs }
{
    let mut tokens = Vec::new(alloc);
    for port in 0..ins {
        tokens.extend_from_slice(frame.input(port))?;
    }
    Ok(tokens)
}

/// Fills cells with tokens from a place on, over and over, and gives the place after them.
fn fill(cells: &mut [i64], tokens: &[i64], place: usize) -> usize {
    let mut at = place;
    for k in 0..cells.len() {
        if at >= tokens.len() {
            at = 0;
        }
        if at < tokens.len() {
            cells[k] = tokens[at];
            at += 1;
        }
    }
    at
}

/// Writes the tokens of the inputs to the outputs, in order, over and over: what each node does that fires no kernel, but a
/// Round.
pub(crate) fn copy_through(
    alloc: Global,
    frame: &mut Frame,
    ins: usize,
    outs: usize,
) -> Result<(), Trouble>
    requires ins { ins ≡ length frame.old.inputs }
    requires outs { outs ≡ length frame.old.outputs }
    ensures { frame.new.places ≡ frame.old.places }
{
    if ins > 1_000_000 || outs > 1_000_000 {
        return Err(Trouble::Member("run"));
    }
    let tokens = tokens_of(alloc, frame, ins as u32)?;
    let mut at = 0;
    for port in 0..outs as u32 {
        at = fill(frame.output(port), &tokens, at);
    }
    Ok(())
}

/// Writes as many of the tokens as there are cells.
fn put(cells: &mut [i64], tokens: &[i64]) {
    for k in 0..cells.len() {
        if k < tokens.len() {
            cells[k] = tokens[k];
        }
    }
}

/// Writes lists of tokens to the outputs.
pub(crate) fn write(frame: &mut Frame, outs: usize, lists: &[List<i64>])
    requires { outs ≡ length frame.old.outputs }
    ensures { frame.new.places ≡ frame.old.places }
{
    if outs > 1_000_000 {
        return;
    }
    for port in 0..outs as u32 {
        if (port as usize) < lists.len() {
            put(frame.output(port), lists[port as usize].items());
        }
    }
}
