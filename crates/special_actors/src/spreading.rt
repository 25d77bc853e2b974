// From the one input into outputs.
ghost use Rattle.std.specs.Prelude.{◌≡◌, ◌+◌, ◌^◌, ◌<◌, ◌≤◌, length, take, drop, slice_set};
ghost use Rattle.kernel_gate.specs.Value.{port, lengths};
ghost use Rattle.special_actors.specs.Copying.{joined};

use kernel_gate::Frame;

/// Fills an output with the input's tokens from a place on, and gives the place after them.
fn write_piece(frame: &mut Frame, to: u32, place: usize) -> usize
    requires input { length frame.old.inputs ≡ 1 }
    requires to { to < length frame.old.outputs }
    requires within { place + length (port frame.old.outputs to) ≤ length (port frame.old.inputs 0) }
    ensures place { result ≡ place + length (port frame.old.outputs to) }
    ensures written { frame.new ≡ record frame.old { outputs = slice_set frame.old.outputs to (take (length (port frame.old.outputs to)) (drop place (port frame.old.inputs 0))) } }
{
    let (_, input, output) = frame.ports(0, to);
    let end = place + output.len();
    output.copy_from_slice(&input[place..end]);
    end
}

/// Writes the one input's tokens to the outputs in order, so that each is filled.
pub(crate) fn cut(frame: &mut Frame)
    requires input { length frame.old.inputs ≡ 1 }
    requires few { length frame.old.outputs < 2 ^ 32 }
    requires fits { length (joined frame.old.outputs) ≡ length (port frame.old.inputs 0) }
    ensures kept { frame.new ≡ record frame.old { outputs = frame.new.outputs } }
    ensures filled { lengths frame.new.outputs ≡ lengths frame.old.outputs }
    ensures cut { joined frame.new.outputs ≡ port frame.old.inputs 0 }
{
    let mut place = 0;
    for to in 0..frame.outputs() {
        place = write_piece(frame, to, place);
    }
}
