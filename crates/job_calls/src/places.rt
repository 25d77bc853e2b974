// Frames of claimed nodes, each at the place of its node.
ghost use Rattle.std.specs.Prelude.{◌≡◌, ◌≢◌, ◌<◌, ◌^◌, ◌≤◌, ℕ, IsTrue, Some, None, length, slice_set, replicate, vec_len, vec_capacity, []};
ghost use Rattle.kernel_gate.specs.Value.{FrameView};
ghost use Rattle.one_job.specs.Marks.{IsClaimed, phase};
ghost use Rattle.job_calls.specs.Held.{HoldClaimed, IsHeld, frame_at};

use kernel_gate::Frame;
use one_job::Job;
use std::mem;

/// Whether the frame of a node waits.
pub(crate) fn is_held(frames: &[Option<Frame>], node: usize) -> bool
    ensures { IsTrue result → IsHeld frames.now node }
{
    if node >= frames.len() {
        return false;
    }
    match &frames[node] {
        Some(_) => true,
        None => false,
    }
}

/// Keeps a frame at the place of a node, where none waits.
pub(crate) fn put_frame(frames: &mut [Option<Frame>], node: usize, frame: Frame)
    requires inside { node < length frames.old }
    requires none { frame_at frames.old node ≡ None }
    ensures { frames.new ≡ slice_set frames.old node (Some frame) }
{
    match mem::replace(&mut frames[node], Some(frame)) {
        None => {}
        Some(_) => unreachable!(),
    }
}

/// Takes the frame that waits at the place of a node.
pub(crate) fn take_frame(frames: &mut [Option<Frame>], node: usize) -> Frame
    requires { IsHeld frames.old node }
    ensures frame { frame_at frames.old node ≡ Some result }
    ensures rest { frames.new ≡ slice_set frames.old node None }
{
    match mem::replace(&mut frames[node], None) {
        Some(frame) => frame,
        None => unreachable!(),
    }
}

/// Adds places for so many frames, for which there is room.
pub(crate) fn no_frames(mut frames: Vec<Option<Frame>>, count: usize) -> Vec<Option<Frame>>
    requires empty { frames.items ≡ [] }
    requires none { vec_len frames ≡ 0 }
    requires room { count ≤ vec_capacity frames }
    ensures { result.items ≡ replicate count None }
{
    for _n in 0..count {
        frames.push_reserved(None);
    }
    frames
}

/// Finishes the nodes whose frames wait, so that none of the job's nodes is claimed.
pub(crate) fn end_frames(mut job: Job, mut frames: Vec<Option<Frame>>) -> Job
    requires waiting { HoldClaimed job.marks frames.items }
    requires few { length frames.items < 2 ^ 32 }
    ensures { (n : ℕ) → phase result.marks n ≢ IsClaimed }
{
    while let Some(place) = frames.pop() {
        match place {
            Some(frame) => {
                let node = frames.len() as u32;
                job.finish(node, frame, Ok(())).end();
            }
            None => {}
        }
    }
    frames.destroy_empty();
    job
}
