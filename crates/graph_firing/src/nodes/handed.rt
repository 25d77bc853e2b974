ghost use Rattle.std.specs.Prelude.{◌≡◌};
ghost use Rattle.graph_firing.specs.Nodes.Calls.{handed_out};

use kernel_gate::Frame;
use sdf_level::Node;

/// What is handed out with the claim of a node. It must be spent, as its frame must.
pub(crate) enum Handed {
    /// The frame of a kernel, to be fired.
    Fire(Frame),
    /// A node that copies, and its frame.
    Copy(Node, Frame),
}

/// What is handed out of a node with this frame.
pub(crate) fn hand_out(which: Node, frame: Frame) -> Handed
    ensures { result ≡ handed_out which frame }
{
    match which {
        Node::Firing { actor: _, turn: _ } => Handed::Fire(frame),
        Node::Source(s) => Handed::Copy(Node::Source(s), frame),
        Node::Init(l) => Handed::Copy(Node::Init(l), frame),
        Node::End(l) => Handed::Copy(Node::End(l), frame),
        Node::Sink(t) => Handed::Copy(Node::Sink(t), frame),
        Node::Broadcast(l) => Handed::Copy(Node::Broadcast(l), frame),
        Node::Fork { link, turn } => Handed::Copy(Node::Fork { link, turn }, frame),
        Node::Join { link, turn } => Handed::Copy(Node::Join { link, turn }, frame),
        Node::Round(l) => Handed::Copy(Node::Round(l), frame),
    }
}
