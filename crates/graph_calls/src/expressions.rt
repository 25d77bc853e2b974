// Names and expressions.
ghost use Rattle.std.specs.Prelude.{◌≡◌, ◌↔◌, ◌^◌, ◌<◌, All, IsTrue, length};
ghost use Rattle.param_expr.specs.Words.{IsName};

use crate::parts::{names_of, text_answer};
use case_rows::{Trouble, answer_of_text, numbers, text};
use param_expr::{BindFault, EvalFault, ExprFault, Name, bind, eval, is_name, parse, print};
use serde_json::Value;
use std::alloc::{AllocError, Global};

/// Whether the row's text is a name.
pub fn is_name_of(alloc: Global, row: &Value) -> Result<Value, Trouble> {
    let text = text(alloc, row, "text")?;
    Ok(Value::from(is_name(text.as_str())))
}

fn are_names(names: &[Name]) -> bool
    ensures { IsTrue result ↔ All IsName names.now }
{
    names.iter().all(|name| is_name(name.text()))
}

/// What a text of a few words says of a fault.
fn fault_text(alloc: Global, fault: ExprFault) -> Result<String, AllocError> {
    match fault {
        ExprFault::Syntax { at } => format!(in alloc; "syntax {at}"),
        ExprFault::TooLarge { at } => format!(in alloc; "large {at}"),
        ExprFault::TooDeep => String::from_str(alloc, "deep"),
        ExprFault::TooLong => String::from_str(alloc, "long"),
        ExprFault::Memory => Err(AllocError),
    }
}

/// The first name that isn't there.
fn unbound(alloc: Global, fault: &BindFault) -> Result<String, AllocError> {
    match fault {
        BindFault::Unknown(name) => format!(in alloc; "unknown {}", name.text()),
        BindFault::Memory => Err(AllocError),
    }
}

/// What is printed of a text that is an expression over names, or why it isn't.
fn outcome(alloc: Global, text: &str, names: &[Name]) -> Result<String, AllocError>
    requires few { length names.now < 2 ^ 32 }
    requires names { All IsName names.now }
{
    let parsed = match parse(alloc, text) {
        Ok(parsed) => parsed,
        Err(fault) => return fault_text(alloc, fault),
    };
    match bind(alloc, &parsed, names) {
        Ok(expr) => print(alloc, &expr, names),
        Err(fault) => unbound(alloc, &fault),
    }
}

/// What is printed of the row's text, where it is an expression over the row's names, or why it isn't.
pub fn printed(alloc: Global, row: &Value) -> Result<Value, Trouble> {
    let names = names_of(alloc, row)?;
    let text = text(alloc, row, "text")?;
    let names = names.as_slice();
    if names.len() > 100 || !are_names(names) {
        return Err(Trouble::Member("names"));
    }
    text_answer(outcome(alloc, text.as_str(), names))
}

/// The value of a text over names with these values, or why there is none.
fn value_of(alloc: Global, text: &str, names: &[Name], values: &[i64]) -> Result<Value, Trouble>
    requires few { length names.now < 2 ^ 32 }
    requires all { length names.now ≡ length values.now }
{
    let parsed = match parse(alloc, text) {
        Ok(parsed) => parsed,
        Err(fault) => return text_answer(fault_text(alloc, fault)),
    };
    let expr = match bind(alloc, &parsed, names) {
        Ok(expr) => expr,
        Err(fault) => return text_answer(unbound(alloc, &fault)),
    };
    match eval(&expr, values) {
        Ok(value) => Ok(Value::from(value)),
        Err(EvalFault::Overflow) => answer_of_text(alloc, "overflow"),
        Err(EvalFault::Division) => answer_of_text(alloc, "division"),
    }
}

/// The value of the row's text, where the row's names have the row's values.
pub fn evaluated(alloc: Global, row: &Value) -> Result<Value, Trouble> {
    let values = numbers(alloc, row, "values")?;
    let names = names_of(alloc, row)?;
    let text = text(alloc, row, "text")?;
    let names = names.as_slice();
    let values = values.as_slice();
    if names.len() > 100 || values.len() != names.len() {
        return Err(Trouble::Member("values"));
    }
    value_of(alloc, text.as_str(), names, values)
}
