// The node's kind, and how it copies.
ghost use Rattle.std.specs.Prelude.{◌≡◌};
ghost use Rattle.kernel_gate.specs.Value.{SameFrame};
ghost use Rattle.special_actors.specs.Copying.{joined, PassesOn};
ghost use Rattle.special_actors.specs.Fitting.{IsFrameOf};

use crate::gathering::{copy_whole, keep_last};
use crate::repeating::repeat;
use crate::spreading::cut;
use kernel_gate::Frame;
use sdf_level::Node;

/// Copies the tokens of the frame's inputs to its outputs, as the node does (PREESM's special actors). Source, Init, End
/// and Sink pass on the tokens of their one input, which are the stored ones of a Source or an Init. A Fork cuts its input
/// into its outputs in order, a Join puts its inputs one after the other, a Broadcast writes its input to the outputs
/// again and again, a Round keeps the last tokens of its inputs. Each output token is written once.
pub fn run_special(node: &Node, frame: &mut Frame)
    requires { IsFrameOf node.now frame.old }
    ensures same { SameFrame frame.old frame.new }
    ensures sets { frame.new.sets ≡ frame.old.sets }
    ensures copied { PassesOn node.now (joined frame.old.inputs) (joined frame.new.outputs) }
{
    match node {
        Node::Source(_) | Node::Init(_) | Node::End(_) | Node::Sink(_) => copy_whole(frame),
        Node::Firing { actor: _, turn: _ } => unreachable!(),
        Node::Broadcast(_) => repeat(frame),
        Node::Fork { link: _, turn: _ } => cut(frame),
        Node::Join { link: _, turn: _ } => keep_last(frame),
        Node::Round(_) => keep_last(frame),
    }
}
