// The kernels that repeat, drop, place anew or make tokens.
ghost use Rattle.std.specs.Prelude.{◌≡◌, ◌+◌, ◌*◌, ◌<◌, ◌≤◌, length, map, pos, replicate, ◌+ℤ◌, ◌*ℤ◌};
ghost use Rattle.std.specs.List.{flat_map};
ghost use Rattle.kernel_gate.specs.Value.{SameFrame, answer_of, told_by};
ghost use Rattle.kernel_gate.specs.Signed.{Fits};
ghost use Rattle.kernel_gate.specs.Tokens.{bounded, each, places, token};
ghost use Rattle.kernel_gate.specs.Rearranged.{column, up_signature, up_answer, down_signature, down_answer, ramp_signature, ramp_answer, transpose_signature, transpose_answer};
ghost use Rattle.kernel_set.specs.Written.{Writes};

use crate::tokens::checked_sum;
use kernel_gate::{Frame, KernelFault};

/// Writes each token so many times in a row.
fn write_repeated(times: usize, x: &[i64], o: &mut [i64])
    requires { length o.old ≡ length x.now * times }
    ensures { o.new ≡ flat_map (λ t. replicate times t) x.now }
{
    for i in 0..x.len() {
        o[i * times..(i + 1) * times].fill(x[i]);
    }
}

/// Writes the first token of each run of so many.
fn write_firsts(run: usize, x: &[i64], o: &mut [i64])
    requires run { 1 ≤ run }
    requires shape { length x.now ≡ length o.old * run }
    ensures { o.new ≡ map (λ n. token x.now (n * run)) (places (length o.old)) }
{
    for n in 0..o.len() {
        o[n] = x[n * run];
    }
}

/// Writes the start and from then on each token a step further, up to the first outside i64.
fn write_steps(start: i64, step: i64, o: &mut [i64]) -> Result<(), KernelFault>
    ensures { Writes (each (λ n. bounded (start +ℤ (pos n *ℤ step))) (places (length o.old))) result o.new }
{
    if o.is_empty() {
        return Ok(());
    }
    o[0] = start;
    let mut token = start;
    for n in 1..o.len() {
        match checked_sum(token, step) {
            Ok(next) => {
                token = next;
                o[n] = next;
            }
            Err(fault) => return Err(fault),
        }
    }
    Ok(())
}

/// Writes a column of a matrix that stands row after row, with so many columns.
fn write_column(cols: usize, c: usize, x: &[i64], o: &mut [i64])
    requires within { c < cols }
    requires shape { length x.now ≡ length o.old * cols }
    ensures { o.new ≡ column x.now (length o.old) cols c }
{
    for a in 0..o.len() {
        o[a] = x[a * cols + c];
    }
}

/// Writes column after column of a matrix that stands row after row.
#[tactic(auto, using(crate::proofs::Steps::place_at))]
fn write_columns(rows: usize, cols: usize, x: &[i64], o: &mut [i64])
    requires input { length x.now ≡ rows * cols }
    requires output { length o.old ≡ rows * cols }
    ensures { o.new ≡ flat_map (column x.now rows cols) (places cols) }
{
    for c in 0..cols {
        write_column(cols, c, x, &mut o[c * rows..(c + 1) * rows]);
    }
}

/// Each token several times in a row, as often as the output is longer than the input (expansion by repetition).
/// Shape unless the input has a token and the output is a multiple of it in length, at least as long.
#[tactic(auto, using(crate::proofs::Firings::fitting, crate::proofs::Firings::not_fitting, crate::proofs::Firings::shaped_same, crate::proofs::Firings::shaped_not, crate::proofs::Firings::size_at, crate::proofs::Firings::tells_one), unfolding(kernel_gate::specs::Rearranged::up_answer))]
pub fn up(frame: &mut Frame) -> Result<(), KernelFault>
    requires { Fits up_signature.counts frame.old }
    ensures same { SameFrame frame.old frame.new }
    ensures value { told_by frame.new result ≡ answer_of up_answer frame.old }
{
    let (_, x, o) = frame.ports(0, 0);
    if x.is_empty() {
        return Err(KernelFault::SHAPE);
    }
    if o.len() < x.len() {
        return Err(KernelFault::SHAPE);
    }
    if o.len() % x.len() != 0 {
        return Err(KernelFault::SHAPE);
    }
    write_repeated(o.len() / x.len(), x, o);
    Ok(())
}

/// The first token of each run, as many runs as the output is long (decimation). Shape unless the output has a
/// token and the input is a multiple of it in length, at least as long.
#[tactic(auto, using(crate::proofs::Firings::fitting, crate::proofs::Firings::not_fitting, crate::proofs::Firings::shaped_same, crate::proofs::Firings::shaped_not, crate::proofs::Firings::size_at, crate::proofs::Firings::tells_one), unfolding(kernel_gate::specs::Rearranged::down_answer))]
pub fn down(frame: &mut Frame) -> Result<(), KernelFault>
    requires { Fits down_signature.counts frame.old }
    ensures same { SameFrame frame.old frame.new }
    ensures value { told_by frame.new result ≡ answer_of down_answer frame.old }
{
    let (_, x, o) = frame.ports(0, 0);
    if o.is_empty() {
        return Err(KernelFault::SHAPE);
    }
    if x.len() < o.len() {
        return Err(KernelFault::SHAPE);
    }
    if x.len() % o.len() != 0 {
        return Err(KernelFault::SHAPE);
    }
    write_firsts(x.len() / o.len(), x, o);
    Ok(())
}

/// The first argument, then each token the one before plus the second argument. Overflow at the first sum outside
/// i64; no sum is made past the last token.
#[tactic(auto, using(crate::proofs::Firings::size_at, crate::proofs::Firings::tells_one), unfolding(kernel_gate::specs::Rearranged::ramp_answer))]
pub fn ramp(frame: &mut Frame) -> Result<(), KernelFault>
    requires { Fits ramp_signature.counts frame.old }
    ensures same { SameFrame frame.old frame.new }
    ensures value { told_by frame.new result ≡ answer_of ramp_answer frame.old }
{
    let start = frame.args()[0];
    let step = frame.args()[1];
    let o = frame.output(0);
    write_steps(start, step, o)
}

/// A matrix, of as many rows and columns as the arguments say, that stands row after row, column after column.
/// Shape unless the output is as long as the input; Value unless both arguments are at least 1 and their product,
/// as a whole number, is that length.
#[tactic(auto, using(crate::proofs::Firings::shaped_same, crate::proofs::Firings::shaped_not, crate::proofs::Firings::taken, crate::proofs::Firings::not_taken, crate::proofs::Firings::size_at, crate::proofs::Firings::tells_one), unfolding(kernel_gate::specs::Rearranged::transpose_answer))]
pub fn transpose(frame: &mut Frame) -> Result<(), KernelFault>
    requires { Fits transpose_signature.counts frame.old }
    ensures same { SameFrame frame.old frame.new }
    ensures value { told_by frame.new result ≡ answer_of transpose_answer frame.old }
{
    let (args, x, o) = frame.ports(0, 0);
    if x.len() != o.len() {
        return Err(KernelFault::SHAPE);
    }
    if args[0] < 1 {
        return Err(KernelFault::VALUE);
    }
    if args[1] < 1 {
        return Err(KernelFault::VALUE);
    }
    let (rows, cols) = (args[0].unsigned_abs(), args[1].unsigned_abs());
    if rows as u128 * cols as u128 != x.len() as u128 {
        return Err(KernelFault::VALUE);
    }
    write_columns(rows as usize, cols as usize, x, o);
    Ok(())
}
