// What a child gave, written into the frame of its node.
ghost use Rattle.std.specs.Prelude.{ℤ, ℕ, List as Seq, ◌≡◌, ◌+◌, ◌<◌, ◌≤◌, ◌++◌, ◌∷◌, [], ◌^◌, take, drop, length, map, slice_index_or, slice_index};
ghost use Rattle.kernel_gate.specs.Value.{lengths};
ghost use Rattle.pisdf_model.specs.Hold.{in_line};
ghost use Rattle.graph_firing.specs.Nodes.Sizes.{child_outs};

use kernel_gate::Frame;
use sdf_level::List;

/// Writes lists one after the other, which fill the slice.
fn write_line(to: &mut [i64], lists: &[List<i64>])
    requires { length (in_line lists.now) ≡ length to.old }
    ensures { to.new ≡ in_line lists.now }
{
    let mut at = 0;
    for list in lists {
        let tokens = list.items();
        to[at..at + tokens.len()].copy_from_slice(tokens);
        at += tokens.len();
    }
}

/// Writes a list into each of the first outputs.
fn write_outs(frame: &mut Frame, outs: &[List<i64>])
    requires many { length outs.now ≤ length frame.old.outputs }
    requires few { length outs.now < 2 ^ 32 }
    requires long { (p : ℕ) → p < length outs.now → length (slice_index_or frame.old.outputs p []) ≡ length (slice_index_or outs.now p []) }
    ensures { frame.new ≡ record frame.old { outputs = outs.now ++ drop (length outs.now) frame.old.outputs } }
{
    for port in 0..outs.len() {
        let tokens = outs[port].items();
        frame.output(port as u32).copy_from_slice(tokens);
    }
}

/// Writes what a child gave: a list for each output, and its state in one line on the last one, where it goes on.
pub(crate) fn write_child(frame: &mut Frame, keeps: bool, outs: &[List<i64>], state: &[List<i64>])
    requires few { length outs.now < 2 ^ 32 }
    requires long { lengths frame.old.outputs ≡ lengths (child_outs keeps outs.now state.now) }
    ensures { frame.new ≡ record frame.old { outputs = child_outs keeps outs.now state.now } }
{
    write_outs(frame, outs);
    if keeps {
        write_line(frame.output(outs.len() as u32), state);
    }
}
