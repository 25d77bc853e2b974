// What the kernels make of a token, or of two.
ghost use Rattle.std.specs.Prelude.{◌≡◌};

use crate::tokens::{
    PairMap, TokenMap, checked_difference, checked_product, checked_quotient, checked_sum,
};
use kernel_gate::KernelFault;

/// Times `factor`.
#[derive(Drop)]
pub(crate) struct Times {
    pub(crate) factor: i64,
}

impl TokenMap for Times {
    ghost use Rattle.std.specs.Prelude.{◌*ℤ◌};
    ghost use Rattle.kernel_gate.specs.Tokens.{bounded};

    ghost image = { λ s t. bounded (t *ℤ s.factor) };

    #[inline(always)]
    fn image(&self, t: i64) -> Result<i64, KernelFault> {
        checked_product(t, self.factor)
    }
}

/// Held between two bounds.
#[derive(Drop)]
pub(crate) struct Between {
    pub(crate) low: i64,
    pub(crate) high: i64,
}

impl TokenMap for Between {
    ghost use Rattle.std.specs.Prelude.{Ok};
    ghost use Rattle.kernel_gate.specs.Elements.{clamped};

    ghost image = { λ s t. Ok (clamped s.low s.high t) };

    #[inline(always)]
    fn image(&self, t: i64) -> Result<i64, KernelFault> {
        if t < self.low {
            return Ok(self.low);
        }
        if self.high < t {
            return Ok(self.high);
        }
        Ok(t)
    }
}

/// 1 from `least` on, else 0.
#[derive(Drop)]
pub(crate) struct AtLeast {
    pub(crate) least: i64,
}

impl TokenMap for AtLeast {
    ghost use Rattle.std.specs.Prelude.{Ok, pos, int_le, if◌then◌else◌};

    ghost image = { λ s t. Ok (if int_le s.least t then pos 1 else pos 0) };

    #[inline(always)]
    fn image(&self, t: i64) -> Result<i64, KernelFault> {
        if self.least <= t { Ok(1) } else { Ok(0) }
    }
}

/// The sum of two.
#[derive(Drop)]
pub(crate) struct Plus;

impl PairMap for Plus {
    ghost use Rattle.std.specs.Prelude.{◌+ℤ◌};
    ghost use Rattle.kernel_gate.specs.Tokens.{bounded};

    ghost image = { λ _ t u. bounded (t +ℤ u) };

    #[inline(always)]
    fn image(&self, t: i64, u: i64) -> Result<i64, KernelFault> {
        checked_sum(t, u)
    }
}

/// The first less the second.
#[derive(Drop)]
pub(crate) struct Minus;

impl PairMap for Minus {
    ghost use Rattle.std.specs.Prelude.{◌-ℤ◌};
    ghost use Rattle.kernel_gate.specs.Tokens.{bounded};

    ghost image = { λ _ t u. bounded (t -ℤ u) };

    #[inline(always)]
    fn image(&self, t: i64, u: i64) -> Result<i64, KernelFault> {
        checked_difference(t, u)
    }
}

/// The product of two.
#[derive(Drop)]
pub(crate) struct Multiplied;

impl PairMap for Multiplied {
    ghost use Rattle.std.specs.Prelude.{◌*ℤ◌};
    ghost use Rattle.kernel_gate.specs.Tokens.{bounded};

    ghost image = { λ _ t u. bounded (t *ℤ u) };

    #[inline(always)]
    fn image(&self, t: i64, u: i64) -> Result<i64, KernelFault> {
        checked_product(t, u)
    }
}

/// The quotient of two.
#[derive(Drop)]
pub(crate) struct Divided;

impl PairMap for Divided {
    ghost use Rattle.kernel_gate.specs.Tokens.{quotient};

    ghost image = { λ _ t u. quotient t u };

    #[inline(always)]
    fn image(&self, t: i64, u: i64) -> Result<i64, KernelFault> {
        checked_quotient(t, u)
    }
}

/// The smaller of two.
#[derive(Drop)]
pub(crate) struct Smaller;

impl PairMap for Smaller {
    ghost use Rattle.std.specs.Prelude.{Ok};
    ghost use Rattle.std.specs.Int.{int_min};

    ghost image = { λ _ t u. Ok (int_min t u) };

    #[inline(always)]
    fn image(&self, t: i64, u: i64) -> Result<i64, KernelFault> {
        Ok(t.min(u))
    }
}

/// The larger of two.
#[derive(Drop)]
pub(crate) struct Larger;

impl PairMap for Larger {
    ghost use Rattle.std.specs.Prelude.{Ok};
    ghost use Rattle.std.specs.Int.{int_max};

    ghost image = { λ _ t u. Ok (int_max t u) };

    #[inline(always)]
    fn image(&self, t: i64, u: i64) -> Result<i64, KernelFault> {
        Ok(t.max(u))
    }
}
