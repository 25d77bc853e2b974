ghost use Rattle.std.specs.Prelude.{◌≡◌, IfOk};
ghost use Rattle.param_expr.specs.Tree.{number, param, binary};

use crate::op::Op;
use std::alloc::{AllocError, Global};
use std::marker::Model;

/// An expression whose parameters are places.
#[cycle(expr)]
#[derive(Drop)]
pub struct Expr {
    /// Its root.
    pub form: ExprForm,
}

/// The root of an expression.
#[cycle(expr)]
#[derive(Drop)]
pub enum ExprForm {
    /// A whole number, at least 0 where it was read from a text.
    Number(i64),
    /// A parameter, by its place.
    Param(u32),
    /// An operation on a left and a right operand.
    Binary(Op, Box<Expr>, Box<Expr>),
}

impl Model for Expr {
    ghost use Rattle.param_expr.specs.Tree.{Tree, tree_code, height};

    ghost Value = { Tree };

    ghost coded = { tree_code };

    ghost use Rattle.param_expr.specs.View.{tree_of};

    ghost view = { λ e. tree_of e.form };

    ghost size = { height };

    ghost use Rattle.std.proofs.Common.{arith};

    ghost size_decreases = { λ a h. Prim.grind arith };
}

impl Expr {
    /// The expression that is a number.
    pub fn number(value: i64) -> Expr
        ensures { result ≡ number value }
    {
        Expr {
            form: ExprForm::Number(value),
        }
    }

    /// The expression that is the parameter at a place.
    pub fn param(place: u32) -> Expr
        ensures { result ≡ param place }
    {
        Expr {
            form: ExprForm::Param(place),
        }
    }

    /// An operation on two operands. The error is want of memory.
    pub fn binary(alloc: Global, op: Op, lhs: Expr, rhs: Expr) -> Result<Expr, AllocError>
        ensures { IfOk result (λ e. e ≡ binary op lhs rhs) }
    {
        let lhs = Box::new(alloc, lhs)?;
        let rhs = Box::new(alloc, rhs)?;
        Ok(Expr {
            form: ExprForm::Binary(op, lhs, rhs),
        })
    }
}
