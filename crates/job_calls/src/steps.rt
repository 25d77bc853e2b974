// The steps of a case, one after the other, each with one answer:
//
// - `{"pick": w}` and `{"pick_child": w}`: the node that the worker is handed, -1 where there is none;
// - `{"is_child": n}` and `{"quiet": 1}`: 1 where it is so, else 0; `{"home": n}` and `{"priority": n}` of a node;
// - `{"claim": n}`: what the frame holds: its kind, its arguments, its inputs, and the lengths of its outputs. The node is
//   the one that its home is handed at the time, or that its home is handed as a job of its own where there is no other;
// - `{"finish": n, "outs": [list, ..]}` with these tokens written to the outputs, and `{"finish": n, "fault": code}`: 0;
// - `{"run": w}`: the worker claims and finishes all nodes that it is handed, each of which copies its inputs to its outputs:
//   how many they were.
ghost use Rattle.std.specs.Prelude.{◌≡◌, ◌⊎◌, ◌<◌, length, IfOk, IfSome, IsOk};
ghost use Rattle.std.specs.Bool.{OnTrue};
ghost use Rattle.kernel_gate.specs.Rooms.{Suffices};
ghost use Rattle.one_job.specs.View.{IsEnabled, IsFiring};
ghost use Rattle.job_calls.specs.Held.{Holds, KeepsHeld};

use crate::frames::{Counted, copy_through, count_ports, frame_text, write};
use crate::places::{is_held, put_frame, take_frame};
use case_rows::{Trouble, lists, small};
use kernel_gate::{Frame, KernelFault, Room};
use one_job::Job;
use sdf_level::Node;
use serde_json::Value;
use std::alloc::{AllocError, Global};
use std::fmt::Write;

/// The node that the member of this name is.
fn node_of(job: &Job, step: &Value, name: &'static str) -> Result<u32, Trouble>
    ensures there { IfOk result (λ n. n < length job.now.compilation.graph.nodes) }
    ensures marked { IfOk result (λ n. n < length job.now.marks) }
{
    let node = small(step, name)?;
    if node as usize >= job.compiled().graph().nodes.items().len() {
        return Err(Trouble::Member(name));
    }
    Ok(node)
}

/// The number of a node, -1 where there is none.
fn number_of(node: Option<u32>) -> i64 {
    match node {
        Some(node) => i64::from(node),
        None => -1,
    }
}

/// What a step asks of a node, if it asks anything.
fn asked_of_node(job: &Job, step: &Value) -> Result<Option<u64>, Trouble> {
    if step.get("is_child").is_some() {
        let node = node_of(job, step, "is_child")?;
        return Ok(Some(u64::from(job.is_child(node))));
    }
    if step.get("home").is_some() {
        let node = node_of(job, step, "home")?;
        return Ok(Some(u64::from(job.home(node))));
    }
    if step.get("priority").is_some() {
        let node = node_of(job, step, "priority")?;
        return Ok(Some(job.priority(node)));
    }
    Ok(None)
}

/// What a step asks of a job, if it asks anything.
fn asked(job: &Job, step: &Value) -> Result<Option<i64>, Trouble> {
    if step.get("pick").is_some() {
        return Ok(Some(number_of(job.pick(small(step, "pick")?))));
    }
    if step.get("pick_child").is_some() {
        return Ok(Some(number_of(job.pick_child(small(step, "pick_child")?))));
    }
    if step.get("quiet").is_some() {
        return Ok(Some(i64::from(job.quiet())));
    }
    Ok(None)
}

/// The node that a worker is handed, or else a job of its own.
fn handed(job: &Job, worker: u32) -> Option<u32>
    ensures { IfSome result (IsEnabled job.now) }
{
    match job.pick(worker) {
        Some(node) => Some(node),
        None => job.pick_child(worker),
    }
}

/// Whether a node may be claimed: it is the one that the worker is handed who is its home.
fn is_handed(job: &Job, node: u32) -> bool
    requires { node < length job.now.compilation.graph.nodes }
    ensures { OnTrue result (IsEnabled job.now node) }
{
    match handed(job, job.home(node)) {
        Some(first) if first == node => true,
        _ => false,
    }
}

/// Memory for the frame of any node of a job.
fn room_for(alloc: Global, job: &Job) -> Result<Room, AllocError>
    ensures { IfOk result (λ room. Suffices job.now.room room) }
{
    Room::start(alloc, job.room_size())
}

/// Claims a node, and tells what its frame holds.
fn claim(
    alloc: Global,
    job: &mut Job,
    frames: &mut [Option<Frame>],
    step: &Value,
) -> Result<String, Trouble>
    requires { Holds job.old frames.old }
    ensures { Holds job.new frames.new }
{
    let node = node_of(job, step, "claim")?;
    if !is_handed(job, node) {
        return Err(Trouble::Member("claim"));
    }
    let room = room_for(alloc, job)?;
    let counted = count_ports(job.claim(node, room));
    let text = frame_text(alloc, &counted);
    let Counted {
        frame,
        ins: _,
        outs: _,
    } = counted;
    put_frame(frames, node as usize, frame);
    text
}

/// The code of the step's fault, if it has one.
fn code_of(step: &Value) -> Result<Option<u8>, Trouble> {
    if step.get("fault").is_none() {
        return Ok(None);
    }
    match u8::try_from(small(step, "fault")?) {
        Ok(code) => Ok(Some(code)),
        Err(_) => Err(Trouble::Member("fault")),
    }
}

/// What the firing of a node answers: a fault only where it is a firing.
fn answer_with(node: Node, code: Option<u8>) -> Result<(), KernelFault>
    ensures { IsFiring node ⊎ IsOk result }
{
    match (node, code) {
        (Node::Firing { actor: _, turn: _ }, Some(code)) => Err(KernelFault { code }),
        _ => Ok(()),
    }
}

/// Finishes a claimed node, with the tokens that the step gives it or with a fault.
fn finish(
    alloc: Global,
    job: &mut Job,
    frames: &mut [Option<Frame>],
    step: &Value,
) -> Result<(), Trouble>
    requires { Holds job.old frames.old }
    ensures { Holds job.new frames.new }
{
    let node = node_of(job, step, "finish")?;
    let outs = lists(alloc, step, "outs")?;
    let code = code_of(step)?;
    if !is_held(frames, node as usize) {
        return Err(Trouble::Member("finish"));
    }
    let Counted {
        mut frame,
        ins: _,
        outs: count,
    } = count_ports(take_frame(frames, node as usize));
    write(&mut frame, count, outs.items());
    let answer = answer_with(job.node(node), code);
    job.finish(node, frame, answer).end();
    Ok(())
}

/// Claims a node, which copies its inputs to its outputs, and finishes it. Its frame is made in the room.
fn pass(alloc: Global, job: &mut Job, node: u32, room: Room) -> Result<(), Trouble>
    requires enabled { IsEnabled job.old node }
    requires marked { node < length job.old.marks }
    requires room { Suffices job.old.room room }
    ensures { KeepsHeld job.old job.new }
{
    let Counted {
        mut frame,
        ins,
        outs,
    } = count_ports(job.claim(node, room));
    let copied = copy_through(alloc, &mut frame, ins, outs);
    job.finish(node, frame, Ok(())).end();
    copied
}

/// The node that a worker is handed next.
fn next(job: &Job, worker: u32) -> Option<u32>
    ensures enabled { IfSome result (IsEnabled job.now) }
    ensures marked { IfSome result (λ n. n < length job.now.marks) }
{
    match job.pick(worker) {
        Some(node) if (node as usize) < job.compiled().graph().nodes.items().len() => Some(node),
        _ => None,
    }
}

/// Has a worker pass all nodes that it is handed, until there is none; how many they were.
fn pass_all(alloc: Global, job: &mut Job, worker: u32) -> Result<u32, Trouble>
    ensures { KeepsHeld job.old job.new }
{
    for count in 0..1_000_000u32 {
        let Some(node) = next(job, worker) else {
            return Ok(count);
        };
        let room = room_for(alloc, job)?;
        pass(alloc, job, node, room)?;
    }
    Ok(1_000_000)
}

/// The answer of one step, as a JSON text.
fn step_once(
    alloc: Global,
    job: &mut Job,
    frames: &mut [Option<Frame>],
    step: &Value,
) -> Result<String, Trouble>
    requires { Holds job.old frames.old }
    ensures { Holds job.new frames.new }
{
    if let Some(answer) = asked(job, step)? {
        return Ok(format!(in alloc; "{answer}")?);
    }
    if let Some(answer) = asked_of_node(job, step)? {
        return Ok(format!(in alloc; "{answer}")?);
    }
    if step.get("claim").is_some() {
        return claim(alloc, job, frames, step);
    }
    if step.get("finish").is_some() {
        finish(alloc, job, frames, step)?;
        return Ok(String::from_str(alloc, "0")?);
    }
    let count = pass_all(alloc, job, small(step, "run")?)?;
    Ok(format!(in alloc; "{count}")?)
}

/// The answers of steps, each with a comma after it.
pub(crate) fn step_all(
    alloc: Global,
    job: &mut Job,
    frames: &mut [Option<Frame>],
    steps: &[Value],
) -> Result<String, Trouble>
    requires { Holds job.old frames.old }
    ensures { Holds job.new frames.new }
{
    let mut answers = String::new(alloc);
    for step in steps {
        let answer = step_once(alloc, job, frames, step)?;
        write!(answers, "{answer}, ")?;
    }
    Ok(answers)
}
