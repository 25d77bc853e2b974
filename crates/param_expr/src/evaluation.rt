ghost use Rattle.std.specs.Prelude.{◌≡◌, length};
ghost use Rattle.param_expr.specs.Eval.{RefersBelow, applied, own_fault, eval_of, unless_fault};

use crate::expr::{Expr, ExprForm};
use crate::op::Op;

/// Why an expression has no value.
#[derive(Clone, Copy, Debug, PartialEq, Eq)]
pub enum EvalFault {
    /// The value of some part lies outside `i64`.
    Overflow,
    /// A dividend is below 0, or a divisor below 1.
    Division,
}

/// The operation on two numbers.
fn apply(op: Op, lhs: i64, rhs: i64) -> Result<i64, EvalFault>
    ensures { result ≡ unless_fault (own_fault op lhs rhs) (applied op lhs rhs) }
{
    match op {
        Op::Add => lhs.checked_add(rhs).ok_or(EvalFault::Overflow),
        Op::Sub => lhs.checked_sub(rhs).ok_or(EvalFault::Overflow),
        Op::Mul => lhs.checked_mul(rhs).ok_or(EvalFault::Overflow),
        Op::Div | Op::Rem if lhs < 0 || rhs < 1 => Err(EvalFault::Division),
        Op::Div => Ok(lhs / rhs),
        Op::Rem => Ok(lhs % rhs),
        Op::Min => Ok(lhs.min(rhs)),
        Op::Max => Ok(lhs.max(rhs)),
    }
}

/// The value of an expression, where `values[i]` is the value of the parameter at place `i`.
///
/// Of several faults the left part's comes before the right part's, and both before the
/// operation's own.
///
/// # Errors
///
/// - `Overflow`: the exact value of some part lies outside `i64`.
/// - `Division`: a dividend is below 0, or a divisor below 1.
pub fn eval(expr: &Expr, values: &[i64]) -> Result<i64, EvalFault>
    requires { RefersBelow (length values.now) expr.now }
    ensures value { result ≡ eval_of values.now expr.now }
{
    match &expr.form {
        ExprForm::Number(value) => Ok(*value),
        ExprForm::Param(place) => Ok(values[*place as usize]),
        ExprForm::Binary(op, lhs, rhs) => {
            let lhs = eval(lhs, values)?;
            let rhs = eval(rhs, values)?;
            apply(*op, lhs, rhs)
        }
    }
}
