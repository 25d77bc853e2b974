// Numbers as tokens, and loops over lists of tokens.
ghost use Rattle.std.specs.Prelude.{◌≡◌, length, ◌*ℤ◌, ◌+ℤ◌, ◌-ℤ◌, zip};
ghost use Rattle.kernel_gate.specs.Tokens.{bounded, quotient, each, running};
ghost use Rattle.kernel_set.specs.Written.{Writes};

use kernel_gate::KernelFault;

/// The product, or Overflow.
#[inline(always)]
pub(crate) fn checked_product(x: i64, z: i64) -> Result<i64, KernelFault>
    ensures { result ≡ bounded (x *ℤ z) }
{
    match x.checked_mul(z) {
        Some(y) => Ok(y),
        None => Err(KernelFault::OVERFLOW),
    }
}

/// The sum, or Overflow.
#[inline(always)]
pub(crate) fn checked_sum(x: i64, z: i64) -> Result<i64, KernelFault>
    ensures { result ≡ bounded (x +ℤ z) }
{
    match x.checked_add(z) {
        Some(y) => Ok(y),
        None => Err(KernelFault::OVERFLOW),
    }
}

/// The difference, or Overflow.
#[inline(always)]
pub(crate) fn checked_difference(x: i64, z: i64) -> Result<i64, KernelFault>
    ensures { result ≡ bounded (x -ℤ z) }
{
    match x.checked_sub(z) {
        Some(y) => Ok(y),
        None => Err(KernelFault::OVERFLOW),
    }
}

/// The quotient, rounded towards zero, or Division where the divisor is 0, or Overflow.
#[inline(always)]
pub(crate) fn checked_quotient(x: i64, divisor: i64) -> Result<i64, KernelFault>
    ensures { result ≡ quotient x divisor }
{
    if divisor == 0 {
        return Err(KernelFault::DIVISION);
    }
    match x.checked_div(divisor) {
        Some(y) => Ok(y),
        None => Err(KernelFault::OVERFLOW),
    }
}

/// A number for each token, or a fault.
pub trait TokenMap {
    ghost use Rattle.std.specs.Prelude.{ℤ, Result};
    ghost use Rattle.kernel_gate.specs.declared.fault.KernelFault.{KernelFault};

    ghost image: { Self → ℤ → Result ℤ KernelFault };

    fn image(&self, t: i64) -> Result<i64, KernelFault>
        ensures { result ≡ image self.now t };
}

/// A number for each two tokens, or a fault.
pub trait PairMap {
    ghost use Rattle.std.specs.Prelude.{ℤ, Result};
    ghost use Rattle.kernel_gate.specs.declared.fault.KernelFault.{KernelFault};

    ghost image: { Self → ℤ → ℤ → Result ℤ KernelFault };

    fn image(&self, t: i64, u: i64) -> Result<i64, KernelFault>
        ensures { result ≡ image self.now t u };
}

/// Writes the image of each token, up to the first fault.
pub(crate) fn write_each<M: TokenMap>(m: &M, x: &[i64], o: &mut [i64]) -> Result<(), KernelFault>
    requires { length x.now ≡ length o.old }
    ensures { Writes (each (M.image m.now) x.now) result o.new }
{
    for i in 0..x.len() {
        match m.image(x[i]) {
            Ok(y) => o[i] = y,
            Err(fault) => return Err(fault),
        }
    }
    Ok(())
}

/// Writes the image of each token of `x` with that of `z` at its place, up to the first fault.
pub(crate) fn write_pairs<M: PairMap>(
    m: &M,
    x: &[i64],
    z: &[i64],
    o: &mut [i64],
) -> Result<(), KernelFault>
    requires first { length x.now ≡ length o.old }
    requires second { length z.now ≡ length o.old }
    ensures { Writes (each (λ p. M.image m.now p.0 p.1) (zip x.now z.now)) result o.new }
{
    for i in 0..x.len() {
        match m.image(x[i], z[i]) {
            Ok(y) => o[i] = y,
            Err(fault) => return Err(fault),
        }
    }
    Ok(())
}

/// What the steps over the tokens lead to, up to the first fault.
pub(crate) fn fold<M: PairMap>(m: &M, start: i64, x: &[i64]) -> Result<i64, KernelFault>
    ensures { result ≡ running (M.image m.now) start x.now }
{
    let mut all = start;
    for t in x {
        match m.image(all, *t) {
            Ok(y) => all = y,
            Err(fault) => return Err(fault),
        }
    }
    Ok(all)
}
