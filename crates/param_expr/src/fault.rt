use std::alloc::{AllocError, AllocFailed};

/// Why a text is no expression, the first of these in the order `TooLong`, `Syntax`, `TooLarge`,
/// `TooDeep` that the text shows.
#[derive(Clone, Copy, Debug, PartialEq, Eq)]
pub enum ExprFault {
    /// No further token fits the grammar at this byte, or at the text's length where it ends too
    /// early.
    Syntax { at: u32 },
    /// The first number over `i64::MAX` begins at this byte.
    TooLarge { at: u32 },
    /// More than `MAX_OPEN_PARENTHESES` parentheses are open at once.
    TooDeep,
    /// The text has more than `MAX_EXPRESSION_BYTES` bytes.
    TooLong,
    /// Want of memory.
    Memory,
}

impl From<AllocError> for ExprFault {
    ghost use Rattle.param_expr.specs.declared.fault.ExprFault.TheVariants.{Memory};
    ghost use Rattle.std.specs.Prelude.{◌≡◌};

    ghost from_gives = { λ _ e. e ≡ Memory };

    fn from(_refused: AllocError) -> ExprFault {
        ExprFault::Memory
    }
}

impl<T: Drop> From<AllocFailed<T>> for ExprFault {
    ghost use Rattle.param_expr.specs.declared.fault.ExprFault.TheVariants.{Memory};
    ghost use Rattle.std.specs.Prelude.{◌≡◌};

    ghost from_gives = { λ _ e. e ≡ Memory };

    fn from(_refused: AllocFailed<T>) -> ExprFault {
        ExprFault::Memory
    }
}
