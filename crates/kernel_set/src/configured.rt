// The kernels of configuration actors, which set parameters.
ghost use Rattle.std.specs.Prelude.{◌≡◌, ◌<◌, ◌-ℤ◌, length};
ghost use Rattle.kernel_gate.specs.Value.{SameFrame, answer_of, told_by};
ghost use Rattle.kernel_gate.specs.Signed.{Fits};
ghost use Rattle.kernel_gate.specs.Tokens.{bounded};
ghost use Rattle.kernel_gate.specs.Configured.{at_place, greatest, least, read_param_signature, read_param_answer, pick_signature, pick_answer, spread_signature, spread_answer};

use crate::tokens::checked_difference;
use kernel_gate::{Frame, KernelFault};

/// The argument at a place, where there is one.
fn argument_at(args: &[i64], place: i64) -> Option<i64>
    ensures { result ≡ at_place args.now place }
{
    if place < 0 {
        return None;
    }
    args.get(place as usize).copied()
}

/// The greatest token less the least, or Overflow.
fn range_of(x: &[i64]) -> Result<i64, KernelFault>
    requires { 0 < length x.now }
    ensures { result ≡ bounded (greatest x.now -ℤ least x.now) }
{
    let mut high = x[0];
    let mut low = x[0];
    for t in x {
        high = high.max(*t);
        low = low.min(*t);
    }
    checked_difference(high, low)
}

/// Each parameter is set to the token at its place. Shape unless there are as many tokens as parameters.
#[tactic(auto, using(crate::proofs::Firings::shaped_same, crate::proofs::Firings::shaped_not), unfolding(kernel_gate::specs::Configured::read_param_answer))]
pub fn read_param(frame: &mut Frame) -> Result<(), KernelFault>
    requires { Fits read_param_signature.counts frame.old }
    ensures same { SameFrame frame.old frame.new }
    ensures value { told_by frame.new result ≡ answer_of read_param_answer frame.old }
{
    let count = frame.sets().len();
    if frame.input(0).len() != count {
        return Err(KernelFault::SHAPE);
    }
    for n in 0..count {
        let token = frame.input(0)[n];
        frame.set(n as u32, token);
    }
    Ok(())
}

/// The parameter is set to the argument at the place that the token says. Shape unless there is one token; Value
/// where no argument has that place.
#[tactic(auto, using(crate::proofs::Firings::shaped_same, crate::proofs::Firings::shaped_not), unfolding(kernel_gate::specs::Configured::pick_answer))]
pub fn pick(frame: &mut Frame) -> Result<(), KernelFault>
    requires { Fits pick_signature.counts frame.old }
    ensures same { SameFrame frame.old frame.new }
    ensures value { told_by frame.new result ≡ answer_of pick_answer frame.old }
{
    let x = frame.input(0);
    if x.len() != 1 {
        return Err(KernelFault::SHAPE);
    }
    match argument_at(frame.args(), x[0]) {
        Some(value) => {
            frame.set(0, value);
            Ok(())
        }
        None => Err(KernelFault::VALUE),
    }
}

/// The output is the input, and the parameter is set to the greatest token less the least. Shape unless the input
/// has a token and the output is as long; Overflow where that difference lies outside i64.
#[tactic(auto, using(crate::proofs::Firings::fitting, crate::proofs::Firings::not_fitting, crate::proofs::Firings::size_at), unfolding(kernel_gate::specs::Configured::spread_answer))]
pub fn spread(frame: &mut Frame) -> Result<(), KernelFault>
    requires { Fits spread_signature.counts frame.old }
    ensures same { SameFrame frame.old frame.new }
    ensures value { told_by frame.new result ≡ answer_of spread_answer frame.old }
{
    let (_, x, o) = frame.ports(0, 0);
    if x.is_empty() {
        return Err(KernelFault::SHAPE);
    }
    if o.len() != x.len() {
        return Err(KernelFault::SHAPE);
    }
    o.copy_from_slice(x);
    match range_of(x) {
        Ok(range) => {
            frame.set(0, range);
            Ok(())
        }
        Err(fault) => Err(fault),
    }
}
