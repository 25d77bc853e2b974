ghost use Rattle.std.specs.Prelude.{◌≡◌, IfOk};
ghost use Rattle.param_expr.specs.Named.{number, name, binary};

use crate::name::Name;
use crate::op::Op;
use std::alloc::{AllocError, Global};
use std::marker::Model;

/// An expression whose parameters are names, which contracts see as a tree.
#[cycle(parsed)]
#[derive(Drop)]
pub struct Parsed {
    pub(crate) form: NamedForm,
}

#[cycle(parsed)]
#[derive(Drop)]
pub(crate) enum NamedForm {
    Number(i64),
    Named(Name),
    Binary(Op, Box<Parsed>, Box<Parsed>),
}

impl Model for Parsed {
    ghost use Rattle.param_expr.specs.Named.{NamedTree, named_code, height};

    ghost Value = { NamedTree };

    ghost coded = { named_code };

    ghost use Rattle.param_expr.specs.ParsedView.{named_tree};

    ghost view = { λ e. named_tree e.form };

    ghost size = { height };

    ghost use Rattle.std.proofs.Common.{arith};

    ghost size_decreases = { λ a h. Prim.grind arith };
}

impl Parsed {
    pub(crate) fn number(value: i64) -> Parsed
        ensures { result ≡ number value }
    {
        Parsed {
            form: NamedForm::Number(value),
        }
    }

    pub(crate) fn named(text: Name) -> Parsed
        ensures { result ≡ name text }
    {
        Parsed {
            form: NamedForm::Named(text),
        }
    }

    pub(crate) fn binary(
        alloc: Global,
        op: Op,
        lhs: Parsed,
        rhs: Parsed,
    ) -> Result<Parsed, AllocError>
        ensures { IfOk result (λ e. e ≡ binary op lhs rhs) }
    {
        let lhs = Box::new(alloc, lhs)?;
        let rhs = Box::new(alloc, rhs)?;
        Ok(Parsed {
            form: NamedForm::Binary(op, lhs, rhs),
        })
    }
}
