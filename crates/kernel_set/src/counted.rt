// The kernels that count tokens.
ghost use Rattle.std.specs.Prelude.{◌≡◌, ◌==◌, ◌≤◌, ◌≤ℤ◌, ◌%◌, ℕ, ℤ, [], ◌∷◌, true, false, pos, length, map, find, count_by, IfNone, IfOk, IfSome, IsOk, Some};
ghost use Rattle.kernel_gate.specs.Value.{SameFrame, answer_of, port, told_by};
ghost use Rattle.kernel_gate.specs.Signed.{Fits};
ghost use Rattle.kernel_gate.specs.Limits.{most_median_tokens};
ghost use Rattle.kernel_gate.specs.Tokens.{places};
ghost use Rattle.kernel_gate.specs.Counted.{larger, in_the_middle, in_bin, median_signature, median_answer, histogram_signature, histogram_answer, count_above_signature, count_above_answer};

use kernel_gate::{Frame, KernelFault, MAX_MEDIAN_TOKENS};

/// The number of tokens greater than a limit.
fn above(limit: i64, x: &[i64]) -> usize
    ensures { result ≡ larger x.now limit }
{
    let mut count = 0;
    for t in x {
        if limit < *t {
            count += 1;
        }
    }
    count
}

/// The token in the middle by size: of the tokens in order, the one with as many before it as after it. It is
/// selected (Hoare 1961, as std has it), since the others needn't be put in order.
fn middle(x: &[i64]) -> i64
    requires odd { length x.now % 2 ≡ 1 }
    requires few { length x.now ≤ most_median_tokens }
    ensures { find (in_the_middle x.now) x.now ≡ Some result }
{
    let mut room = [0i64; MAX_MEDIAN_TOKENS];
    let tokens = &mut room[..x.len()];
    tokens.copy_from_slice(x);
    let (_, token, _) = tokens.select_nth_unstable(x.len() / 2);
    *token
}

/// The bin of a token, of bins from `low` on that are so wide, where it isn't below the first.
#[inline(always)]
fn bin_of(low: i64, width: i64, t: i64) -> Option<u64>
    requires { pos 1 ≤ℤ width }
    ensures below { IfNone result ((b : ℕ) → in_bin low width b t ≡ false) }
    ensures within { IfSome result (λ bin. (b : ℕ) → in_bin low width b t ≡ (b == bin)) }
{
    if t < low {
        return None;
    }
    Some(t.abs_diff(low) / width.unsigned_abs())
}

/// Counts the tokens of each bin.
fn write_counts(low: i64, width: i64, x: &[i64], o: &mut [i64])
    requires { pos 1 ≤ℤ width }
    ensures { o.new ≡ map (λ b. pos (count_by (in_bin low width b) x.now)) (places (length o.old)) }
{
    o.fill(0);
    for t in x {
        if let Some(bin) = bin_of(low, width, *t) {
            if bin < o.len() as u64 {
                o[bin as usize] += 1;
            }
        }
    }
}

/// The number of tokens greater than the argument. Shape unless the output has one token.
#[tactic(auto, using(crate::proofs::Firings::shaped_same, crate::proofs::Firings::shaped_not, crate::proofs::Firings::size_at, crate::proofs::Firings::tells_one), unfolding(kernel_gate::specs::Counted::count_above_answer))]
pub fn count_above(frame: &mut Frame) -> Result<(), KernelFault>
    requires { Fits count_above_signature.counts frame.old }
    ensures same { SameFrame frame.old frame.new }
    ensures value { told_by frame.new result ≡ answer_of count_above_answer frame.old }
{
    let (args, x, o) = frame.ports(0, 0);
    if o.len() != 1 {
        return Err(KernelFault::SHAPE);
    }
    o[0] = above(args[0], x) as i64;
    Ok(())
}

/// The token in the middle by size: at most half of the others are smaller, and at most half are larger. Shape
/// unless the output has one token and the input an odd number, at most `MAX_MEDIAN_TOKENS`.
#[tactic(auto, using(crate::proofs::Firings::fitting, crate::proofs::Firings::not_fitting, crate::proofs::Firings::size_at, crate::proofs::Firings::tells_one), unfolding(kernel_gate::specs::Counted::median_answer))]
pub fn median(frame: &mut Frame) -> Result<(), KernelFault>
    requires { Fits median_signature.counts frame.old }
    ensures same { SameFrame frame.old frame.new }
    ensures value { told_by frame.new result ≡ answer_of median_answer frame.old }
    ensures exists { length (port frame.old.outputs 0) ≡ 1 → length (port frame.old.inputs 0) % 2 ≡ 1 → length (port frame.old.inputs 0) ≤ most_median_tokens → IsOk result }
    ensures only { IfOk result (λ _. (u : ℤ) → in_the_middle (port frame.old.inputs 0) u ≡ true → frame.new.outputs ≡ (u ∷ []) ∷ []) }
{
    let (_, x, o) = frame.ports(0, 0);
    if o.len() != 1 {
        return Err(KernelFault::SHAPE);
    }
    if x.len() % 2 != 1 {
        return Err(KernelFault::SHAPE);
    }
    if MAX_MEDIAN_TOKENS < x.len() {
        return Err(KernelFault::SHAPE);
    }
    o[0] = middle(x);
    Ok(())
}

/// The number of tokens in each bin: bin `b` has those from the first argument plus `b` times the second on, to
/// below that of the next bin; the bounds are whole numbers and may lie outside i64. Shape unless the output has a
/// token; Value where the second argument is below 1.
#[tactic(auto, using(crate::proofs::Firings::fitting, crate::proofs::Firings::not_fitting, crate::proofs::Firings::taken, crate::proofs::Firings::not_taken, crate::proofs::Firings::size_at, crate::proofs::Firings::tells_one), unfolding(kernel_gate::specs::Counted::histogram_answer))]
pub fn histogram(frame: &mut Frame) -> Result<(), KernelFault>
    requires { Fits histogram_signature.counts frame.old }
    ensures same { SameFrame frame.old frame.new }
    ensures value { told_by frame.new result ≡ answer_of histogram_answer frame.old }
{
    let (args, x, o) = frame.ports(0, 0);
    if o.is_empty() {
        return Err(KernelFault::SHAPE);
    }
    if args[1] < 1 {
        return Err(KernelFault::VALUE);
    }
    write_counts(args[0], args[1], x, o);
    Ok(())
}
