ghost use Rattle.std.specs.Prelude.{◌≡◌, ◌≤◌, ℕ, List, [], None, ◌++◌, OnOk, IfOk, All, codes, if◌then◌else◌, IsTrue, length, string_bytes};
ghost use Rattle.param_expr.specs.Eval.{RefersBelow};
ghost use Rattle.param_expr.specs.Words.{IsName};
ghost use Rattle.param_expr.specs.Tokens.{tokens_of};
ghost use Rattle.param_expr.specs.Grammar.{Spells};
ghost use Rattle.param_expr.specs.Pieces.{HasSmallNumbers, after_of, before_of, between_of, lhs_asks, rhs_asks};
ghost use Rattle.param_expr.specs.Parse.{first_large, most_open};
ghost use Rattle.param_expr.specs.Print.{Differ, IsReadAgain, IsStatable, NonNegative, has_no_leading_zeros, has_no_spaces, level_of, operand, parentheses, printed, with_names};

use crate::expr::{Expr, ExprForm};
use crate::name::Name;
use crate::op::Op;
use std::alloc::{AllocError, Global};

/// How tightly an operator binds: sums 0, products 1, calls 2.
fn level(op: Op) -> u8
    ensures { result ≡ level_of op }
{
    match op {
        Op::Add | Op::Sub => 0,
        Op::Mul | Op::Div | Op::Rem => 1,
        Op::Min | Op::Max => 2,
    }
}

/// What begins an operand that binds too loosely.
fn opening(loose: bool) -> &'static str
    ensures { result.now ≡ (if loose then codes "(" else []) }
{
    if loose { "(" } else { "" }
}

/// What ends it.
fn closing(loose: bool) -> &'static str
    ensures { result.now ≡ (if loose then codes ")" else []) }
{
    if loose { ")" } else { "" }
}

/// What is written before the left operand.
fn before(op: Op) -> &'static str
    ensures { result.now ≡ before_of op }
{
    match op {
        Op::Min => "min(",
        Op::Max => "max(",
        _ => "",
    }
}

/// What is written between the operands.
fn between(op: Op) -> &'static str
    ensures { result.now ≡ between_of op }
{
    match op {
        Op::Add => "+",
        Op::Sub => "-",
        Op::Mul => "*",
        Op::Div => "/",
        Op::Rem => "%",
        Op::Min | Op::Max => ",",
    }
}

/// What is written after the right operand.
fn after(op: Op) -> &'static str
    ensures { result.now ≡ after_of op }
{
    match op {
        Op::Min | Op::Max => ")",
        _ => "",
    }
}

/// How tightly the left operand has to bind.
fn lhs_asks(op: Op) -> u8
    ensures { result ≡ lhs_asks op }
{
    match op {
        Op::Min | Op::Max => 0,
        _ => level(op),
    }
}

/// How tightly the right operand has to bind.
fn rhs_asks(op: Op) -> u8
    ensures { result ≡ rhs_asks op }
{
    match op {
        Op::Min | Op::Max => 0,
        _ => level(op) + 1,
    }
}

fn append(text: &mut String, piece: &str) -> Result<(), AllocError>
    ensures { OnOk result (string_bytes text.new ≡ string_bytes text.old ++ piece.now) }
{
    text.push_str(piece)
}

/// Writes an expression at the end of a text, in parentheses if it binds less tightly than asked.
fn write_expr(text: &mut String, asked: u8, expr: &Expr, names: &[Name]) -> Result<(), AllocError>
    requires asked { asked ≤ 2 }
    requires refers { RefersBelow (length names.now) expr.now }
    ensures written { OnOk result (string_bytes text.new ≡ string_bytes text.old ++ operand asked (with_names names.now expr.now)) }
    ensures limited { OnOk result (HasSmallNumbers expr.now) }
{
    match &expr.form {
        ExprForm::Number(value) => {
            let value = *value;
            write!(text, "{value}")
        }
        ExprForm::Param(place) => append(text, names[*place as usize].text()),
        ExprForm::Binary(op, lhs, rhs) => {
            let loose = level(*op) < asked;
            append(text, opening(loose))?;
            append(text, before(*op))?;
            write_expr(text, lhs_asks(*op), lhs, names)?;
            append(text, between(*op))?;
            write_expr(text, rhs_asks(*op), rhs, names)?;
            append(text, after(*op))?;
            append(text, closing(loose))
        }
    }
}

/// The text of an expression with the fewest parentheses, without spaces and without leading
/// zeros, where `names[i]` is the name of the parameter at place `i`. No text of the expression
/// is shorter.
///
/// An operand stands in parentheses only where the text would else spell another expression: a
/// left operand that is a sum, under `*`, `/` and `%`, and a right operand that is a sum, or, under
/// `*`, `/` and `%`, a product. Operands of `min` and `max` have none of their own.
///
/// # Errors
///
/// Want of memory.
pub fn print(alloc: Global, expr: &Expr, names: &[Name]) -> Result<String, AllocError>
    requires refers { RefersBelow (length names.now) expr.now }
    requires names { All IsName names.now }
    requires numbers { NonNegative expr.now }
    ensures printed { IfOk result (λ text. string_bytes text ≡ printed (with_names names.now expr.now)) }
    ensures spelled { IfOk result (λ text. Spells (string_bytes text) (with_names names.now expr.now)) }

    ensures no_spaces { IfOk result (λ text. IsTrue (has_no_spaces (string_bytes text))) }
    ensures no_leading_zeros { IfOk result (λ text. IsTrue (has_no_leading_zeros (string_bytes text))) }
    ensures no_large_number { IfOk result (λ text. first_large (tokens_of (string_bytes text)) ≡ None) }
    // Among all texts that the expression spells, none has fewer parentheses, none has fewer of them open at once, and none is shorter.
    ensures fewest { IfOk result (λ text. (other : List ℕ) → Spells other (with_names names.now expr.now) → parentheses (string_bytes text) ≤ parentheses other) }
    ensures flattest { IfOk result (λ text. (other : List ℕ) → Spells other (with_names names.now expr.now) → most_open 0 (tokens_of (string_bytes text)) ≤ most_open 0 (tokens_of other)) }
    ensures shortest { IfOk result (λ text. (other : List ℕ) → Spells other (with_names names.now expr.now) → length (string_bytes text) ≤ length other) }

    // Where some text within the limits of `parse` states the expression, and no two names are one, `parse` and `bind` give it again.
    ensures again { IfOk result (λ text. IsStatable (with_names names.now expr.now) → Differ names.now → IsReadAgain (string_bytes text) names.now expr.now) }
{
    let mut text = String::new(alloc);
    write_expr(&mut text, 0, expr, names)?;
    Ok(text)
}
