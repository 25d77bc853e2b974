// What is held for nodes that fire graphs: frames that wait for the end of a call, and refusals.
ghost use Rattle.std.specs.Prelude.{◌≡◌, ◌≢◌, ◌<◌, ◌^◌, ℕ, length, slice_set, replicate, vec_len, vec_capacity, ◌≤◌, [], None};
ghost use Rattle.kernel_gate.specs.Value.{FrameView};
ghost use Rattle.one_job.specs.Marks.{IsClaimed, phase};
ghost use Rattle.graph_firing.specs.Nodes.Parts.{HoldClaimed, NoneWaits, frame_in, held_at, refusal_in};

use kernel_gate::Frame;
use one_job::Job;
use pisdf_meaning::Refusal;
use std::mem;

/// What is held for a node that fires a graph.
pub(crate) enum Held {
    Nothing,
    /// Its frame, which waits for the end of the call.
    Waits(Frame),
    /// The refusal of what it called.
    Refuses(Refusal),
}

/// Holds the frame of a node for which nothing is held.
pub(crate) fn put_frame(all: &mut [Held], node: usize, frame: Frame)
    requires inside { node < length all.old }
    requires nothing { held_at all.old node ≡ Held.Nothing }
    ensures { all.new ≡ slice_set all.old node (Held.Waits frame) }
{
    match mem::replace(&mut all[node], Held::Waits(frame)) {
        Held::Nothing => {}
        Held::Waits(_frame) => unreachable!(),
        Held::Refuses(_refusal) => unreachable!(),
    }
}

/// Takes the frame that waits for the end of a node's call, and holds this for the node.
pub(crate) fn take_frame(all: &mut [Held], node: usize, held: Held) -> Frame
    requires inside { node < length all.old }
    requires waits { (frame : FrameView) × (held_at all.old node ≡ Held.Waits frame) }
    ensures frame { held_at all.old node ≡ Held.Waits result }
    ensures rest { all.new ≡ slice_set all.old node held }
{
    match mem::replace(&mut all[node], held) {
        Held::Waits(frame) => frame,
        Held::Nothing => unreachable!(),
        Held::Refuses(_refusal) => unreachable!(),
    }
}

/// Nothing for so many nodes, for which there is room.
pub(crate) fn nothing_held(mut all: Vec<Held>, count: usize) -> Vec<Held>
    requires empty { all.items ≡ [] }
    requires none { vec_len all ≡ 0 }
    requires room { count ≤ vec_capacity all }
    ensures { result.items ≡ replicate count Held.Nothing }
{
    for _n in 0..count {
        all.push_reserved(Held::Nothing);
    }
    all
}

/// The frame that waits, if what is held is one.
fn waiting_frame(held: Held) -> Option<Frame>
    ensures { result ≡ frame_in held }
{
    match held {
        Held::Waits(frame) => Some(frame),
        Held::Nothing => None,
        Held::Refuses(_refusal) => None,
    }
}

/// The refusal, if what is held is one. It is no frame.
fn told_refusal(held: Held) -> Option<Refusal>
    requires { frame_in held ≡ None }
    ensures { result ≡ refusal_in held }
{
    match held {
        Held::Refuses(refusal) => Some(refusal),
        Held::Nothing => None,
        Held::Waits(_frame) => unreachable!(),
    }
}

/// Gives up what is held, where no frame waits.
pub(crate) fn spend_held(mut all: Vec<Held>)
    requires { NoneWaits all.items }
{
    while let Some(held) = all.pop() {
        told_refusal(held);
    }
    all.destroy_empty();
}

/// The refusal that is held for a node, if one is, where no frame waits.
pub(crate) fn take_refusal(mut all: Vec<Held>, node: usize) -> Option<Refusal>
    requires { NoneWaits all.items }
    ensures { result ≡ refusal_in (held_at all.items node) }
{
    let refusal = if node < all.len() {
        told_refusal(mem::replace(&mut all[node], Held::Nothing))
    } else {
        None
    };
    spend_held(all);
    refusal
}

/// Finishes the nodes whose frames wait, so that none of the job's nodes is claimed.
pub(crate) fn end_frames(mut job: Job, mut all: Vec<Held>) -> Job
    requires waiting { HoldClaimed job.marks all.items }
    requires few { length all.items < 2 ^ 32 }
    ensures { (n : ℕ) → phase result.marks n ≢ IsClaimed }
{
    while let Some(held) = all.pop() {
        match waiting_frame(held) {
            Some(frame) => {
                let node = all.len() as u32;
                job.finish(node, frame, Ok(())).end();
            }
            None => {}
        }
    }
    all.destroy_empty();
    job
}
