// How far nodes are.
ghost use Rattle.graph_firing.specs.Nodes.Stages.{IsEnded, IsWaiting};

use job_preparing::JobGiven;
use kernel_gate::{Frame, KernelFault, Told, told_of};
use pisdf_meaning::{Firing, Refusal};
use std::alloc::AllocError;
use std::snapshot::Snapshot;

/// How far a node is.
#[derive(Drop)]
pub(crate) enum Stage {
    Free,
    /// Its frame is out.
    Busy(Told),
    /// It was to call a graph, for which there was no memory. Its frame waits.
    Lost(Told),
    /// It has called a graph, and its frame waits.
    Open(Snapshot<Firing>, Told),
    /// Its frame came back with what it gave.
    Fired(Told),
    /// Its kernel refused with this code.
    Failed(u8),
    /// What it called gave this.
    Gave(Snapshot<JobGiven>),
    /// What it called was refused, and the refusal is held for it.
    Refused(Snapshot<Refusal>),
}

/// How far a node is whose frame came back so.
pub(crate) fn ended(frame: &Frame, answer: &Result<(), KernelFault>) -> Stage
    ensures { IsEnded frame.now answer.now result }
{
    match answer {
        Ok(()) => Stage::Fired(told_of(frame)),
        Err(fault) => Stage::Failed(fault.code),
    }
}

/// How far a node is that has called this with its frame, or for whose call there was no memory.
pub(crate) fn waiting(called: &Result<Firing, AllocError>, frame: &Frame) -> Stage
    ensures { IsWaiting called.now frame.now result }
{
    match called {
        Ok(firing) => Stage::Open(Snapshot::of(firing), told_of(frame)),
        Err(_) => Stage::Lost(told_of(frame)),
    }
}
