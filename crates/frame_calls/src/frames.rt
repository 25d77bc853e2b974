// Frames at their start, and those of the nodes that fire no kernel.
ghost use Rattle.std.specs.Prelude.{◌≡◌, ◌<◌, ◌^◌, IfOk, length};
ghost use Rattle.std.specs.Bool.{OnTrue};
ghost use Rattle.kernel_gate.specs.Leased.{AreWhole};
ghost use Rattle.kernel_gate.specs.Value.{lengths};
ghost use Rattle.special_actors.specs.Fitting.{HasLengths, IsFrameOf};

use crate::frame_parts::{Content, given_up};
use case_rows::{Trouble, answer_in, lists, numbers, small, small_or, smalls, total, word};
use kernel_gate::Frame;
use sdf_level::{List, Node};
use serde_json::Value;
use special_actors::run_special;
use std::alloc::Global;

/// What a frame holds at its start: its kind, its arguments, its inputs, its outputs and its sets.
pub fn started(alloc: Global, row: &Value) -> Result<Value, Trouble> {
    let kind = small(row, "kind")?;
    let sets = small_or(row, "sets", 0)?;
    let args = List::new(numbers(alloc, row, "args")?);
    let inputs = lists(alloc, row, "ins")?;
    let outs = smalls(alloc, row, "outs")?;
    let frame = Frame::start(alloc, kind, args, inputs, outs.as_slice(), sets)?;
    let kind = frame.kind();
    let parts = given_up(alloc, frame, Content::Parts)?;
    answer_in(alloc, format!(in alloc; "[[{kind}], {parts}]"))
}

/// The row's node: the word for what it is, its number, and the turn of a Fork or a Join.
fn node_of(row: &Value) -> Result<Node, Trouble> {
    let number = small_or(row, "number", 0)?;
    let turn = small_or(row, "turn", 0)?;
    match word(row, "node")? {
        "source" => Ok(Node::Source(number)),
        "init" => Ok(Node::Init(number)),
        "broadcast" => Ok(Node::Broadcast(number)),
        "fork" => Ok(Node::Fork { link: number, turn }),
        "join" => Ok(Node::Join { link: number, turn }),
        "round" => Ok(Node::Round(number)),
        "end" => Ok(Node::End(number)),
        "sink" => Ok(Node::Sink(number)),
        _ => Err(Trouble::Member("node")),
    }
}

/// The lengths of lists of tokens.
fn lens_of(alloc: Global, lists: &List<List<i64>>) -> Result<Vec<u32>, Trouble>
    ensures { IfOk result (λ v. v.items ≡ lengths lists.now) }
{
    let mut lens = Vec::new(alloc);
    let all = lists.items();
    for list in all {
        match u32::try_from(list.items().len()) {
            Ok(len) => lens.push(len)?,
            Err(_) => return Err(Trouble::Member("ins")),
        }
    }
    Ok(lens)
}

/// Whether a node that fires no kernel has inputs and outputs of these lengths.
fn has_lengths(node: &Node, ins: &[u32], outs: &[u32]) -> bool
    ensures fitting { OnTrue result (HasLengths node.now ins.now outs.now) }
    ensures few { OnTrue result ((length ins.now < 2 ^ 32) × (length outs.now < 2 ^ 32)) }
{
    if ins.len() > 1_000_000 || outs.len() > 1_000_000 {
        return false;
    }
    let (Some(taken), Some(given)) = (total(ins), total(outs)) else {
        return false;
    };
    match node {
        Node::Source(_) | Node::Init(_) | Node::End(_) | Node::Sink(_) => {
            ins.len() == 1 && outs == ins
        }
        Node::Firing { actor: _, turn: _ } => false,
        Node::Broadcast(_) => ins.len() == 1 && 0 < taken,
        Node::Fork { link: _, turn: _ } => ins.len() == 1 && given == taken,
        Node::Join { link: _, turn: _ } => outs.len() == 1 && given == taken,
        Node::Round(_) => outs.len() == 1 && given <= taken,
    }
}

/// A frame of a node that fires no kernel, where it has inputs and outputs of these lengths.
fn frame_of(
    alloc: Global,
    node: &Node,
    inputs: List<List<i64>>,
    outs: &[u32],
) -> Result<Frame, Trouble>
    ensures fitting { IfOk result (λ f. IsFrameOf node.now f) }
    ensures whole { IfOk result (λ f. AreWhole f.places) }
{
    let ins = lens_of(alloc, &inputs)?;
    if !has_lengths(node, ins.as_slice(), outs) {
        return Err(Trouble::Member("outs"));
    }
    let args = List::new(Vec::new(alloc));
    let frame = Frame::start(alloc, 0, args, inputs, outs, 0)?;
    Ok(frame)
}

/// The outputs of the row's node, which fires no kernel: the row has its inputs and the lengths of its outputs.
pub fn copied(alloc: Global, row: &Value) -> Result<Value, Trouble> {
    let node = node_of(row)?;
    let inputs = lists(alloc, row, "ins")?;
    let outs = smalls(alloc, row, "outs")?;
    let mut frame = frame_of(alloc, &node, inputs, outs.as_slice())?;
    run_special(&node, &mut frame);
    answer_in(alloc, given_up(alloc, frame, Content::Outputs))
}
