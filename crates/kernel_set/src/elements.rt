// The kernels that work token by token.
ghost use Rattle.std.specs.Prelude.{◌≡◌, ◌≤◌, length};
ghost use Rattle.kernel_gate.specs.Value.{SameFrame, answer_of, told_by, lengths, port};
ghost use Rattle.kernel_gate.specs.Signed.{Fits};
ghost use Rattle.kernel_gate.specs.Tokens.{each};
ghost use Rattle.kernel_gate.specs.Kernels.{one_output, shaped, size, pairs, pairs_shaped, pass_signature, pass_answer};
ghost use Rattle.kernel_gate.specs.Elements.{dup_signature, dup_answer, gain_signature, gain_answer, add_signature, add_answer, sub_signature, sub_answer, mul_signature, mul_answer, div_signature, div_answer, min_signature, min_answer, max_signature, max_answer, clamp_signature, clamp_answer, threshold_signature, threshold_answer};

use crate::maps::{AtLeast, Between, Divided, Larger, Minus, Multiplied, Plus, Smaller, Times};
use crate::tokens::{PairMap, TokenMap, write_each, write_pairs};
use kernel_gate::{Frame, KernelFault};

/// The image of each token, up to the first fault. Shape unless the output is as long as the input.
fn elementwise<M: TokenMap>(m: &M, frame: &mut Frame) -> Result<(), KernelFault>
    requires ins { length frame.old.inputs ≡ 1 }
    requires outs { length frame.old.outputs ≡ 1 }
    requires sets { length frame.old.sets ≤ 0 }
    ensures same { SameFrame frame.old frame.new }
    ensures value { told_by frame.new result ≡ shaped (length (port frame.old.inputs 0)) (size (lengths frame.old.outputs) 0) (one_output (each (M.image m.now) (port frame.old.inputs 0))) }
{
    let (_, x, o) = frame.ports(0, 0);
    if x.len() != o.len() {
        return Err(KernelFault::SHAPE);
    }
    write_each(m, x, o)
}

/// The images of the tokens of both inputs, place by place, up to the first fault. Shape unless both inputs and the
/// output are of one length.
#[tactic(auto, using(crate::proofs::Firings::pairs_fit, crate::proofs::Firings::pairs_not_first, crate::proofs::Firings::pairs_not_second, crate::proofs::Firings::size_at, crate::proofs::Firings::tells_one))]
fn pairwise<M: PairMap>(m: &M, frame: &mut Frame) -> Result<(), KernelFault>
    requires ins { length frame.old.inputs ≡ 2 }
    requires outs { length frame.old.outputs ≡ 1 }
    requires sets { length frame.old.sets ≤ 0 }
    ensures same { SameFrame frame.old frame.new }
    ensures value { told_by frame.new result ≡ pairs_shaped frame.old.inputs (lengths frame.old.outputs) (one_output (each (λ p. M.image m.now p.0 p.1) (pairs frame.old.inputs))) }
{
    let (x, z, o) = frame.pair_and_output(0, 1, 0);
    if x.len() != o.len() {
        return Err(KernelFault::SHAPE);
    }
    if z.len() != o.len() {
        return Err(KernelFault::SHAPE);
    }
    write_pairs(m, x, z, o)
}

/// The input as it is. Shape unless the output is as long.
#[tactic(auto, using(crate::proofs::Firings::shaped_same, crate::proofs::Firings::shaped_not, crate::proofs::Firings::size_at, crate::proofs::Firings::tells_one), unfolding(kernel_gate::specs::Kernels::pass_answer))]
pub fn pass(frame: &mut Frame) -> Result<(), KernelFault>
    requires { Fits pass_signature.counts frame.old }
    ensures same { SameFrame frame.old frame.new }
    ensures value { told_by frame.new result ≡ answer_of pass_answer frame.old }
{
    let (_, x, o) = frame.ports(0, 0);
    if x.len() != o.len() {
        return Err(KernelFault::SHAPE);
    }
    o.copy_from_slice(x);
    Ok(())
}

/// Each token times the argument. Shape unless the output is as long; Overflow at the first product outside i64.
#[tactic(auto, unfolding(kernel_gate::specs::Elements::gain_answer))]
// Not inlined: where its loop stood in `fire` it was measured slower.
#[inline(never)]
pub fn gain(frame: &mut Frame) -> Result<(), KernelFault>
    requires { Fits gain_signature.counts frame.old }
    ensures same { SameFrame frame.old frame.new }
    ensures value { told_by frame.new result ≡ answer_of gain_answer frame.old }
{
    let factor = frame.args()[0];
    elementwise(&Times { factor }, frame)
}

/// Both outputs are the input. Shape unless both are as long.
#[tactic(auto, unfolding(kernel_gate::specs::Elements::dup_answer))]
pub fn dup(frame: &mut Frame) -> Result<(), KernelFault>
    requires { Fits dup_signature.counts frame.old }
    ensures same { SameFrame frame.old frame.new }
    ensures value { told_by frame.new result ≡ answer_of dup_answer frame.old }
{
    let (_, x, o) = frame.ports(0, 0);
    if x.len() != o.len() {
        return Err(KernelFault::SHAPE);
    }
    o.copy_from_slice(x);
    let (_, x, o) = frame.ports(0, 1);
    if x.len() != o.len() {
        return Err(KernelFault::SHAPE);
    }
    o.copy_from_slice(x);
    Ok(())
}

/// The sums of the tokens at each place. Shape unless both inputs and the output are of one length; Overflow at the
/// first sum outside i64.
#[tactic(auto, unfolding(kernel_gate::specs::Elements::add_answer))]
// Not inlined: where its loop stood in `fire` it was measured slower.
#[inline(never)]
pub fn add(frame: &mut Frame) -> Result<(), KernelFault>
    requires { Fits add_signature.counts frame.old }
    ensures same { SameFrame frame.old frame.new }
    ensures value { told_by frame.new result ≡ answer_of add_answer frame.old }
{
    pairwise(&Plus, frame)
}

/// The tokens of the first input less those of the second. Shape unless both inputs and the output are of one
/// length; Overflow at the first difference outside i64.
#[tactic(auto, unfolding(kernel_gate::specs::Elements::sub_answer))]
pub fn sub(frame: &mut Frame) -> Result<(), KernelFault>
    requires { Fits sub_signature.counts frame.old }
    ensures same { SameFrame frame.old frame.new }
    ensures value { told_by frame.new result ≡ answer_of sub_answer frame.old }
{
    pairwise(&Minus, frame)
}

/// The products of the tokens at each place. Shape unless both inputs and the output are of one length; Overflow at
/// the first product outside i64.
#[tactic(auto, unfolding(kernel_gate::specs::Elements::mul_answer))]
pub fn mul(frame: &mut Frame) -> Result<(), KernelFault>
    requires { Fits mul_signature.counts frame.old }
    ensures same { SameFrame frame.old frame.new }
    ensures value { told_by frame.new result ≡ answer_of mul_answer frame.old }
{
    pairwise(&Multiplied, frame)
}

/// The quotients of the tokens at each place, rounded towards zero. Shape unless both inputs and the output are of
/// one length; Division at the first divisor 0, Overflow at the first quotient outside i64.
#[tactic(auto, unfolding(kernel_gate::specs::Elements::div_answer))]
pub fn div(frame: &mut Frame) -> Result<(), KernelFault>
    requires { Fits div_signature.counts frame.old }
    ensures same { SameFrame frame.old frame.new }
    ensures value { told_by frame.new result ≡ answer_of div_answer frame.old }
{
    pairwise(&Divided, frame)
}

/// The smaller token at each place. Shape unless both inputs and the output are of one length.
#[tactic(auto, using(crate::proofs::Firings::each_total), unfolding(kernel_gate::specs::Elements::min_answer))]
pub fn min(frame: &mut Frame) -> Result<(), KernelFault>
    requires { Fits min_signature.counts frame.old }
    ensures same { SameFrame frame.old frame.new }
    ensures value { told_by frame.new result ≡ answer_of min_answer frame.old }
{
    pairwise(&Smaller, frame)
}

/// The larger token at each place. Shape unless both inputs and the output are of one length.
#[tactic(auto, using(crate::proofs::Firings::each_total), unfolding(kernel_gate::specs::Elements::max_answer))]
pub fn max(frame: &mut Frame) -> Result<(), KernelFault>
    requires { Fits max_signature.counts frame.old }
    ensures same { SameFrame frame.old frame.new }
    ensures value { told_by frame.new result ≡ answer_of max_answer frame.old }
{
    pairwise(&Larger, frame)
}

/// Each token held between the arguments `low` and `high`. Shape unless the output is as long; Value where `low` is
/// above `high`.
#[tactic(auto, using(crate::proofs::Firings::each_total), unfolding(kernel_gate::specs::Elements::clamp_answer))]
pub fn clamp(frame: &mut Frame) -> Result<(), KernelFault>
    requires { Fits clamp_signature.counts frame.old }
    ensures same { SameFrame frame.old frame.new }
    ensures value { told_by frame.new result ≡ answer_of clamp_answer frame.old }
{
    let low = frame.args()[0];
    let high = frame.args()[1];
    if frame.input(0).len() != frame.output_len(0) {
        return Err(KernelFault::SHAPE);
    }
    if high < low {
        return Err(KernelFault::VALUE);
    }
    elementwise(&Between { low, high }, frame)
}

/// 1 where the token is the argument or more, else 0. Shape unless the output is as long.
#[tactic(auto, using(crate::proofs::Firings::each_total), unfolding(kernel_gate::specs::Elements::threshold_answer))]
pub fn threshold(frame: &mut Frame) -> Result<(), KernelFault>
    requires { Fits threshold_signature.counts frame.old }
    ensures same { SameFrame frame.old frame.new }
    ensures value { told_by frame.new result ≡ answer_of threshold_answer frame.old }
{
    let least = frame.args()[0];
    elementwise(&AtLeast { least }, frame)
}
