// The one input again and again.
ghost use Rattle.std.specs.Prelude.{◌≡◌, ◌+◌, ◌-◌, ◌%◌, ◌^◌, ◌<◌, ◌≤◌, length, min, take, ◌++◌, slice_set};
ghost use Rattle.sdf_level.specs.Interfaces.{repeated};
ghost use Rattle.kernel_gate.specs.Value.{port, lengths};
ghost use Rattle.special_actors.specs.Copying.{joined};

use kernel_gate::Frame;

/// Writes tokens from a place on to their end, and then those before, as many as there is room for. Gives how many.
fn write_once(tokens: &[i64], place: usize, output: &mut [i64]) -> usize
    requires { place < length tokens.now }
    ensures count { result ≡ min (length tokens.now) (length output.old) }
    ensures written { take result output.new ≡ repeated tokens.now place result }
{
    let n = (tokens.len() - place).min(output.len());
    output[..n].copy_from_slice(&tokens[place..place + n]);
    let m = place.min(output.len() - n);
    output[n..n + m].copy_from_slice(&tokens[..m]);
    n + m
}

/// Doubles what stands at the front, or fills up with as much of it as there is room for. Gives how many stand then.
fn write_again(filled: usize, output: &mut [i64]) -> usize
    requires { filled ≤ length output.old }
    ensures count { result ≡ filled + min filled (length output.old - filled) }
    ensures written { take result output.new ≡ take filled output.old ++ take (result - filled) output.old }
{
    let n = filled.min(output.len() - filled);
    let (front, rest) = output.split_at_mut(filled);
    rest[..n].copy_from_slice(&front[..n]);
    filled + n
}

/// Fills a list with repeated tokens from a place on.
fn fill_repeated(tokens: &[i64], place: usize, output: &mut [i64])
    requires { place < length tokens.now }
    ensures { output.new ≡ repeated tokens.now place (length output.old) }
{
    let mut filled = write_once(tokens, place, output);
    while filled < output.len() {
        filled = write_again(filled, output);
    }
}

/// Fills an output with the input's repeated tokens from a place on, and gives the place after them.
fn write_round(frame: &mut Frame, to: u32, place: usize) -> usize
    requires input { length frame.old.inputs ≡ 1 }
    requires to { to < length frame.old.outputs }
    requires within { place < length (port frame.old.inputs 0) }
    ensures place { result ≡ (place + length (port frame.old.outputs to)) % length (port frame.old.inputs 0) }
    ensures written { frame.new ≡ record frame.old { outputs = slice_set frame.old.outputs to (repeated (port frame.old.inputs 0) place (length (port frame.old.outputs to))) } }
{
    let (_, input, output) = frame.ports(0, to);
    fill_repeated(input, place, output);
    (place + output.len()) % input.len()
}

/// Writes the one input's tokens to the outputs in order, from the first again where they run out.
pub(crate) fn repeat(frame: &mut Frame)
    requires input { length frame.old.inputs ≡ 1 }
    requires some { 0 < length (port frame.old.inputs 0) }
    requires few { length frame.old.outputs < 2 ^ 32 }
    ensures kept { frame.new ≡ record frame.old { outputs = frame.new.outputs } }
    ensures filled { lengths frame.new.outputs ≡ lengths frame.old.outputs }
    ensures repeated { joined frame.new.outputs ≡ repeated (port frame.old.inputs 0) 0 (length (joined frame.old.outputs)) }
{
    let mut place = 0;
    for to in 0..frame.outputs() {
        place = write_round(frame, to, place);
    }
}
