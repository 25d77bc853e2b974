ghost use Rattle.std.specs.Prelude.{◌≡◌, ◌^◌, ◌<◌, IfOk, length};
ghost use Rattle.param_expr.specs.Bind.{Binds, place_of};
ghost use Rattle.param_expr.specs.Eval.{RefersBelow};
ghost use Rattle.param_expr.specs.Parse.{IsStated};
ghost use Rattle.param_expr.specs.Print.{NonNegative};

use crate::expr::Expr;
use crate::name::Name;
use crate::parsed::{NamedForm, Parsed};
use std::alloc::{AllocError, AllocFailed, Global};
use std::marker::Model;

/// Why the names of an expression can't be bound.
#[derive(Debug, Drop)]
pub enum BindFault {
    /// The first name, from the left, that isn't in the list.
    Unknown(Name),
    /// Want of memory.
    Memory,
}

impl From<AllocError> for BindFault {
    ghost use Rattle.param_expr.specs.declared.binding.BindFault.TheVariants.{Memory};
    ghost use Rattle.std.specs.Prelude.{◌≡◌};

    ghost from_gives = { λ _ e. e ≡ Memory };

    fn from(_refused: AllocError) -> BindFault {
        BindFault::Memory
    }
}

impl<T: Drop> From<AllocFailed<T>> for BindFault {
    ghost use Rattle.param_expr.specs.declared.binding.BindFault.TheVariants.{Memory};
    ghost use Rattle.std.specs.Prelude.{◌≡◌};

    ghost from_gives = { λ _ e. e ≡ Memory };

    fn from(_refused: AllocFailed<T>) -> BindFault {
        BindFault::Memory
    }
}

/// Names in which a name is looked up.
pub trait Places {
    ghost use Rattle.std.specs.Prelude.{List, ℕ};

    /// The names, in their order.
    ghost names: { Self → List (List ℕ) };

    /// The first place of a name.
    fn first_place(&self, name: &Name) -> Option<u32>
        ensures { result ≡ place_of (names self.now) name.now };
}

/// A list of fewer than 2^32 names, which is gone through at each look.
#[derive(Drop)]
struct Listed<'a> {
    names: &'a [Name],
}

impl<'a> Model for Listed<'a> {
    ghost use Rattle.std.specs.Prelude.{List, ℕ, ◌<◌, ◌^◌, length};

    ghost Value = { List (List ℕ) };

    ghost view = { λ l. l.names.now };

    ghost invariant = { λ l. length l.names.now < 2 ^ 32 };
}

fn position(names: &[Name], name: &Name) -> Option<usize>
    ensures { result ≡ place_of names.now name.now }
{
    names.iter().position(|other| name == other)
}

impl Places for Listed<'_> {
    ghost names = { λ l. l };

    fn first_place(&self, name: &Name) -> Option<u32> {
        match position(self.names, name) {
            Some(place) => Some(place as u32),
            None => None,
        }
    }
}

/// The expression in which each name is the parameter at the name's first place.
///
/// # Errors
///
/// - `Unknown`: the first name, from the left, that isn't there.
/// - `Memory`: want of memory.
pub fn bind_in<P: Places>(alloc: Global, parsed: &Parsed, names: &P) -> Result<Expr, BindFault>
    ensures bound { Binds (P.names names.now) parsed.now result }
{
    match &parsed.form {
        NamedForm::Number(value) => Ok(Expr::number(*value)),
        NamedForm::Named(name) => match names.first_place(name) {
            Some(place) => Ok(Expr::param(place)),
            None => Err(BindFault::Unknown(name.clone()?)),
        },
        NamedForm::Binary(op, lhs, rhs) => {
            let lhs = bind_in(alloc, lhs, names)?;
            let rhs = bind_in(alloc, rhs, names)?;
            Ok(Expr::binary(alloc, *op, lhs, rhs)?)
        }
    }
}

/// The expression in which each name is the parameter at the name's first place in `names`. The list is gone through for
/// each name: where it is long, `bind_in` takes names that are looked up faster.
///
/// # Errors
///
/// - `Unknown`: the first name, from the left, that isn't in `names`.
/// - `Memory`: want of memory.
pub fn bind(alloc: Global, parsed: &Parsed, names: &[Name]) -> Result<Expr, BindFault>
    requires { length names.now < 2 ^ 32 }
    ensures bound { Binds names.now parsed.now result }

    // What follows for those who print it.
    ensures refers { IfOk result (λ expr. RefersBelow (length names.now) expr) }
    ensures numbers { IfOk result (λ expr. IsStated parsed.now → NonNegative expr) }
{
    bind_in(alloc, parsed, &Listed { names })
}
