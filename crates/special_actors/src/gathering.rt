// From inputs into the one output.
ghost use Rattle.std.specs.Prelude.{◌≡◌, ◌+◌, ◌-◌, ◌^◌, ◌<◌, ◌≤◌, [], ◌∷◌, length, min};
ghost use Rattle.sdf_level.specs.Interfaces.{last};
ghost use Rattle.kernel_gate.specs.Value.{port, with_output};
ghost use Rattle.special_actors.specs.Copying.{joined};
ghost use Rattle.special_actors.specs.Writing.{ended};

use kernel_gate::Frame;

/// Writes the tokens of the one input to the one output.
pub(crate) fn copy_whole(frame: &mut Frame)
    requires input { length frame.old.inputs ≡ 1 }
    requires output { length frame.old.outputs ≡ 1 }
    requires room { length (port frame.old.outputs 0) ≡ length (port frame.old.inputs 0) }
    ensures { frame.new ≡ record frame.old { outputs = port frame.old.inputs 0 ∷ [] } }
{
    let (_, input, output) = frame.ports(0, 0);
    output.copy_from_slice(input);
}

/// Writes the end of an input, as much as there is room for, before place `end` of the one output, and gives the place
/// where it begins.
fn write_before(frame: &mut Frame, from: u32, end: usize) -> usize
    requires from { from < length frame.old.inputs }
    requires output { length frame.old.outputs ≡ 1 }
    requires within { end ≤ length (port frame.old.outputs 0) }
    ensures start { result ≡ end - length (port frame.old.inputs from) }
    ensures written { frame.new ≡ record frame.old { outputs = ended (port frame.old.outputs 0) (last (end - result) (port frame.old.inputs from)) end ∷ [] } }
{
    let (_, input, output) = frame.ports(from, 0);
    let n = input.len().min(end);
    output[end - n..end].copy_from_slice(&input[input.len() - n..]);
    end - n
}

/// Writes the last tokens of the inputs, one input after the other, to the one output: as many as it is long. It begins
/// with the last input, so that no token is passed over but those before the first that is kept.
pub(crate) fn keep_last(frame: &mut Frame)
    requires few { length frame.old.inputs < 2 ^ 32 }
    requires output { length frame.old.outputs ≡ 1 }
    requires room { length (port frame.old.outputs 0) ≤ length (joined frame.old.inputs) }
    ensures { frame.new ≡ record frame.old { outputs = last (length (port frame.old.outputs 0)) (joined frame.old.inputs) ∷ [] } }
{
    let mut end = frame.output_len(0);
    let mut left = frame.inputs();
    while left > 0 {
        left -= 1;
        end = write_before(frame, left, end);
    }
}
