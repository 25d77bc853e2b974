// The nodes of a job, by the stage that has them.
ghost use Rattle.std.specs.Prelude.{◌≡◌, ◌<◌, length, IsOk};
ghost use Rattle.graph_firing.specs.Calls.{frame_of};
ghost use Rattle.graph_firing.specs.Nodes.Calls.{frame_of as node_frame};
ghost use Rattle.graph_firing.specs.Nodes.View.{nodes_of};
ghost use Rattle.graph_firing.specs.Stages.{CallsNode, ClaimsNode, FinishesCall, FinishesNode, HasNodes, HoldsFrames, IsNode, IsNodeStep, KnowsCalled, MayAnswer, MayCall, MayClaim, MayFinish, NodesGoOn, handed_as};

use crate::handed::Handed;
use crate::nodes::Running;
use crate::stage::Stage;
use job_preparing::{JobGiven, KnownEarly};
use kernel_gate::{Frame, KernelFault, Room};
use pisdf_meaning::{Firing, Refusal};
use std::alloc::{AllocError, Global};

/// A node's number as the nodes have it.
fn number_of(running: &Running, node: usize) -> u32
    requires { node < length (nodes_of running.now) }
    ensures { result ≡ node }
{
    let count = running.count() as usize;
    prove!(node < count);
    node as u32
}

/// What is handed out with a node.
fn handed_node(handed: crate::nodes::Handed) -> Handed
    ensures same { result ≡ handed_as handed }
    ensures frame { frame_of result ≡ node_frame handed }
{
    match handed {
        crate::nodes::Handed::Fire(frame) => Handed::Fire(frame),
        crate::nodes::Handed::Copy(node, frame) => Handed::Copy(node, frame),
    }
}

/// The actor and the firing that a node is.
pub(crate) fn node_step(stage: &Stage, node: usize) -> (u32, u32)
    requires { HasNodes (IsNode node) stage.now }
    ensures { HasNodes (IsNodeStep node result) stage.now }
{
    let running = stage.nodes();
    running.step(number_of(running, node))
}

/// The number of a node that may be claimed.
pub(crate) fn node_number(stage: &Stage, node: usize) -> u32
    requires { HasNodes (MayClaim node) stage.now }
    ensures { result ≡ node }
{
    number_of(stage.nodes(), node)
}

/// Claims a node, whose frame is made in the room.
pub(crate) fn claim_node(stage: &mut Stage, node: usize, room: Room) -> Handed
    requires may { HasNodes (MayClaim node) stage.old }
    requires room { HasNodes (HoldsFrames room) stage.old }
    ensures claimed { NodesGoOn (ClaimsNode node result) stage.old stage.new }
    ensures room { (frame_of result).places.room ≡ room }
{
    let running = stage.nodes_mut();
    let n = number_of(running, node);
    handed_node(running.claim(n, room))
}

/// What is known of the graph that a node asks to fire, if it is.
pub(crate) fn known_node(stage: &Stage, node: usize) -> Option<KnownEarly>
    requires { HasNodes (MayCall node) stage.now }
    ensures { HasNodes (KnowsCalled node result) stage.now }
{
    let running = stage.nodes();
    running.known(number_of(running, node))
}

/// Opens a node that fires a graph.
pub(crate) fn call_node(stage: &mut Stage, alloc: Global, node: usize) -> Result<Firing, AllocError>
    requires { HasNodes (MayCall node) stage.old }
    ensures { NodesGoOn (CallsNode node result) stage.old stage.new }
{
    let running = stage.nodes_mut();
    let n = number_of(running, node);
    running.call(alloc, n)
}

/// Finishes a node whose frame is out, and gives back the room that the frame was made in.
pub(crate) fn finish_node(
    stage: &mut Stage,
    node: usize,
    frame: Frame,
    answer: Result<(), KernelFault>,
) -> Room
    requires { HasNodes (MayFinish node frame (IsOk answer)) stage.old }
    ensures finished { NodesGoOn (FinishesNode node frame answer) stage.old stage.new }
    ensures room { result ≡ frame.places.room }
{
    let running = stage.nodes_mut();
    let n = number_of(running, node);
    running.finish(n, frame, answer)
}

/// Finishes a node that called a job.
pub(crate) fn finish_node_call(stage: &mut Stage, node: usize, end: Result<JobGiven, Refusal>)
    requires { HasNodes (MayAnswer node end) stage.old }
    ensures { NodesGoOn (FinishesCall node end) stage.old stage.new }
{
    let running = stage.nodes_mut();
    let n = number_of(running, node);
    running.finish_call(n, end)
}
