// The kernels that add up, over the whole input or over windows of it.
ghost use Rattle.std.specs.Prelude.{◌≡◌, ◌+◌, ◌<◌, ◌≤◌, length, reverse, take};
ghost use Rattle.std.specs.Bool.{OnTrue};
ghost use Rattle.kernel_gate.specs.Value.{SameFrame, answer_of, told_by};
ghost use Rattle.kernel_gate.specs.Signed.{Fits};
ghost use Rattle.kernel_gate.specs.Tokens.{each, places, mean_of, dot_product, plus_product, window, last};
ghost use Rattle.kernel_gate.specs.Sums.{sum_signature, sum_answer, mean_signature, mean_answer, dot_signature, dot_answer, fir_signature, fir_answer, moving_signature, moving_answer};
ghost use Rattle.kernel_set.specs.Near.{AreNear, last_sum};
ghost use Rattle.kernel_set.specs.Written.{Writes, alone};

use crate::partial_sums::{PART, accumulated, are_near, near_filtered, products, total};
use crate::tokens::checked_quotient;
use kernel_gate::{Frame, KernelFault, MAX_MOVING_WIDTH};

/// The token as the only one of an output.
fn write_token(token: Result<i64, KernelFault>, o: &mut [i64]) -> Result<(), KernelFault>
    requires { length o.old ≡ 1 }
    ensures { Writes (alone token) result o.new }
{
    match token {
        Ok(y) => {
            o[0] = y;
            Ok(())
        }
        Err(fault) => Err(fault),
    }
}

/// The sum of the tokens from the front, divided by their number.
fn mean_of_tokens(x: &[i64]) -> Result<i64, KernelFault>
    ensures { result ≡ mean_of x.now }
{
    match total(x) {
        Ok(all) => checked_quotient(all, x.len() as i64),
        Err(fault) => Err(fault),
    }
}

/// The sum of the products of taps and the tokens of a window, the first tap with the newest token.
#[inline(always)]
fn filtered(taps: &[i64], tokens: &[i64]) -> Result<i64, KernelFault>
    requires { length taps.now ≡ length tokens.now }
    ensures { result ≡ dot_product taps.now (reverse tokens.now) }
{
    let mut all = 0;
    for j in 0..taps.len() {
        match accumulated(all, taps[j], tokens[taps.len() - 1 - j]) {
            Ok(y) => all = y,
            Err(fault) => return Err(fault),
        }
    }
    Ok(all)
}

/// The fewest tokens for which a look at all of them takes less than the looks at each product and sum that it saves.
const WORTH_A_LOOK: usize = 16;

/// Whether taps and tokens are near 0, and the taps few, so that no sum of their products can leave i64. It is false of
/// few tokens, where it isn't worth the look.
fn can_only_fit(taps: &[i64], x: &[i64]) -> bool
    ensures { OnTrue result (AreNear taps.now × AreNear x.now × (length taps.now ≤ 64)) }
{
    if x.len() < WORTH_A_LOOK {
        return false;
    }
    if PART < taps.len() {
        return false;
    }
    if !are_near(taps) {
        return false;
    }
    if !are_near(x) {
        return false;
    }
    true
}

/// A filtered window. Where it can only fit, no step is looked at.
#[inline(always)]
fn window_filtered(fits: bool, taps: &[i64], tokens: &[i64]) -> Result<i64, KernelFault>
    requires fits { OnTrue fits (AreNear taps.now × AreNear tokens.now × (length taps.now ≤ 64)) }
    requires same { length taps.now ≡ length tokens.now }
    ensures { result ≡ dot_product taps.now (reverse tokens.now) }
{
    if fits {
        return Ok(near_filtered(taps, tokens));
    }
    filtered(taps, tokens)
}

/// Writes the filtered windows, up to the first fault.
fn write_filtered(taps: &[i64], x: &[i64], o: &mut [i64]) -> Result<(), KernelFault>
    requires taps { 1 ≤ length taps.now }
    requires shape { length o.old + length taps.now ≡ length x.now + 1 }
    ensures { Writes (each (λ n. dot_product taps.now (reverse (window x.now n (length taps.now)))) (places (length o.old))) result o.new }
{
    let fits = can_only_fit(taps, x);
    for n in 0..o.len() {
        match window_filtered(fits, taps, &x[n..n + taps.len()]) {
            Ok(y) => o[n] = y,
            Err(fault) => return Err(fault),
        }
    }
    Ok(())
}

/// The sum of the last tokens once the token at a place has come, and the one before all of them has left.
#[inline(always)]
fn moved_sum(all: i64, width: usize, n: usize, x: &[i64]) -> i64
    requires width { width ≤ 64 }
    requires place { n < length x.now }
    requires near { AreNear x.now }
    requires before { all ≡ last_sum width x.now n }
    ensures { result ≡ last_sum width x.now (n + 1) }
{
    let grown = all + x[n];
    if n < width {
        return grown;
    }
    grown - x[n - width]
}

/// Writes the means of tokens near 0, each from the sum that the place before it has.
fn write_near_means(width: usize, x: &[i64], o: &mut [i64]) -> Result<(), KernelFault>
    requires width { width ≤ 64 }
    requires same { length x.now ≡ length o.old }
    requires near { AreNear x.now }
    ensures { Writes (each (λ n. mean_of (last width (take (n + 1) x.now))) (places (length o.old))) result o.new }
{
    let mut all = 0;
    for n in 0..o.len() {
        all = moved_sum(all, width, n, x);
        match checked_quotient(all, width.min(n + 1) as i64) {
            Ok(y) => o[n] = y,
            Err(fault) => return Err(fault),
        }
    }
    Ok(())
}

/// Writes the mean of the last tokens up to each place, up to the first fault.
fn write_means(width: usize, x: &[i64], o: &mut [i64]) -> Result<(), KernelFault>
    requires { length x.now ≡ length o.old }
    ensures { Writes (each (λ n. mean_of (last width (take (n + 1) x.now))) (places (length o.old))) result o.new }
{
    if width <= PART && are_near(x) {
        return write_near_means(width, x, o);
    }
    for n in 0..o.len() {
        let from = (n + 1).saturating_sub(width);
        match mean_of_tokens(&x[from..n + 1]) {
            Ok(y) => o[n] = y,
            Err(fault) => return Err(fault),
        }
    }
    Ok(())
}

/// The sum of the tokens from the front, 0 where there is none. Shape unless the output has one token; Overflow at
/// the first partial sum outside i64.
#[tactic(auto, using(crate::proofs::Firings::shaped_same, crate::proofs::Firings::shaped_not, crate::proofs::Firings::size_at, crate::proofs::Firings::tells_token), unfolding(kernel_gate::specs::Sums::sum_answer))]
pub fn sum(frame: &mut Frame) -> Result<(), KernelFault>
    requires { Fits sum_signature.counts frame.old }
    ensures same { SameFrame frame.old frame.new }
    ensures value { told_by frame.new result ≡ answer_of sum_answer frame.old }
{
    let (_, x, o) = frame.ports(0, 0);
    if o.len() != 1 {
        return Err(KernelFault::SHAPE);
    }
    write_token(total(x), o)
}

/// The sum of the tokens from the front, divided by their number and rounded towards zero. Shape unless the output
/// has one token and the input at least one; Overflow at the first partial sum outside i64.
#[tactic(auto, using(crate::proofs::Firings::fitting, crate::proofs::Firings::not_fitting, crate::proofs::Firings::size_at, crate::proofs::Firings::tells_token), unfolding(kernel_gate::specs::Sums::mean_answer))]
pub fn mean(frame: &mut Frame) -> Result<(), KernelFault>
    requires { Fits mean_signature.counts frame.old }
    ensures same { SameFrame frame.old frame.new }
    ensures value { told_by frame.new result ≡ answer_of mean_answer frame.old }
{
    let (_, x, o) = frame.ports(0, 0);
    if o.len() != 1 {
        return Err(KernelFault::SHAPE);
    }
    if x.is_empty() {
        return Err(KernelFault::SHAPE);
    }
    write_token(mean_of_tokens(x), o)
}

/// The sum of the products of the tokens at each place, from the front (the inner product). Shape unless the inputs
/// are of one length and the output has one token; Overflow at the first product or partial sum outside i64.
#[tactic(auto, using(crate::proofs::Firings::fitting, crate::proofs::Firings::not_fitting, crate::proofs::Firings::size_at, crate::proofs::Firings::tells_token), unfolding(kernel_gate::specs::Sums::dot_answer))]
pub fn dot(frame: &mut Frame) -> Result<(), KernelFault>
    requires { Fits dot_signature.counts frame.old }
    ensures same { SameFrame frame.old frame.new }
    ensures value { told_by frame.new result ≡ answer_of dot_answer frame.old }
{
    let (x, z, o) = frame.pair_and_output(0, 1, 0);
    if x.len() != z.len() {
        return Err(KernelFault::SHAPE);
    }
    if o.len() != 1 {
        return Err(KernelFault::SHAPE);
    }
    write_token(products(x, z), o)
}

/// A filter of finite impulse response with the arguments as its taps, at each place where they lie within the
/// input: the sum of the products of the taps with the last tokens, the first tap with the newest (Oppenheim and
/// Schafer, Discrete-Time Signal Processing). Shape unless the input has at least as many tokens as there are taps
/// and the output has one for each window; Overflow at the first product or partial sum outside i64.
#[tactic(auto, using(crate::proofs::Firings::fitting, crate::proofs::Firings::not_fitting, crate::proofs::Firings::size_at, crate::proofs::Firings::tells_one), unfolding(kernel_gate::specs::Sums::fir_answer))]
pub fn fir(frame: &mut Frame) -> Result<(), KernelFault>
    requires { Fits fir_signature.counts frame.old }
    ensures same { SameFrame frame.old frame.new }
    ensures value { told_by frame.new result ≡ answer_of fir_answer frame.old }
{
    let (taps, x, o) = frame.ports(0, 0);
    if x.len() < taps.len() {
        return Err(KernelFault::SHAPE);
    }
    if o.len() != x.len() - taps.len() + 1 {
        return Err(KernelFault::SHAPE);
    }
    write_filtered(taps, x, o)
}

/// The moving average: at each place the mean of the last tokens up to it, as many as the argument says, fewer at
/// the front. Shape unless the output is as long as the input; Value unless the argument is 1 to `MAX_MOVING_WIDTH`;
/// Overflow at the first partial sum outside i64, each sum being made from the oldest token.
#[tactic(auto, using(crate::proofs::Firings::shaped_same, crate::proofs::Firings::shaped_not, crate::proofs::Firings::taken, crate::proofs::Firings::not_taken, crate::proofs::Firings::size_at, crate::proofs::Firings::tells_one), unfolding(kernel_gate::specs::Sums::moving_answer))]
pub fn moving(frame: &mut Frame) -> Result<(), KernelFault>
    requires { Fits moving_signature.counts frame.old }
    ensures same { SameFrame frame.old frame.new }
    ensures value { told_by frame.new result ≡ answer_of moving_answer frame.old }
{
    let (args, x, o) = frame.ports(0, 0);
    if x.len() != o.len() {
        return Err(KernelFault::SHAPE);
    }
    let width = args[0];
    if width < 1 {
        return Err(KernelFault::VALUE);
    }
    if MAX_MOVING_WIDTH < width {
        return Err(KernelFault::VALUE);
    }
    write_means(width.unsigned_abs() as usize, x, o)
}
