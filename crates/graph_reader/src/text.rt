ghost use Rattle.std.specs.Prelude.{◌≡◌, option_map};
ghost use Rattle.param_expr.specs.Words.{is_reserved};
ghost use Rattle.graph_format.specs.Texts.{cut_at_point, end_from, expression_at, end_at, is_kernel_name, kernel_at, name_at};
ghost use Rattle.graph_reader.specs.Gives.{EndGives};

use crate::place::Place;
use crate::shape::Form;
use graph_format::FileEnd;
use param_expr::{ExprFault, Name, Parsed, is_name, parse};
use pisdf_model::DetailFault;
use serde_json::Value;
use std::alloc::{AllocError, Global};

/// A name.
pub(crate) struct PlainName;

impl Form for PlainName {
    type Stated = Name;

    ghost reads = { λ _. name_at };

    fn read_at(
        &self,
        alloc: Global,
        place: &Place<'_>,
        value: &Value,
    ) -> Result<Name, DetailFault<Name>> {
        match value.as_str() {
            Some(text) if is_name(text) => Ok(Name::new(String::from_str(alloc, text)?)),
            _ => Err(place.misshapen(alloc)),
        }
    }
}

/// The name of a kernel, which may also be `min` or `max`.
pub(crate) struct KernelName;

fn is_reserved(text: &str) -> bool
    ensures { result ≡ is_reserved text.now }
{
    text == "min" || text == "max"
}

fn is_kernel_name(text: &str) -> bool
    ensures { result ≡ is_kernel_name text.now }
{
    is_name(text) || is_reserved(text)
}

impl Form for KernelName {
    type Stated = Name;

    ghost reads = { λ _. kernel_at };

    fn read_at(
        &self,
        alloc: Global,
        place: &Place<'_>,
        value: &Value,
    ) -> Result<Name, DetailFault<Name>> {
        match value.as_str() {
            Some(text) if is_kernel_name(text) => Ok(Name::new(String::from_str(alloc, text)?)),
            _ => Err(place.misshapen(alloc)),
        }
    }
}

/// The text of an expression.
pub(crate) struct Expression;

impl Form for Expression {
    type Stated = Parsed;

    ghost reads = { λ _. expression_at };

    fn read_at(
        &self,
        alloc: Global,
        place: &Place<'_>,
        value: &Value,
    ) -> Result<Parsed, DetailFault<Name>> {
        let Some(text) = value.as_str() else {
            return Err(place.misshapen(alloc));
        };
        match parse(alloc, text) {
            Ok(parsed) => Ok(parsed),
            Err(ExprFault::Memory) => Err(DetailFault::Memory),
            Err(_) => Err(place.misshapen(alloc)),
        }
    }
}

/// An end of a FIFO: a name, or two names joined by `.`.
pub(crate) struct End;

/// What stands before the first `.`, and what after it.
fn cut_at_point(text: &str) -> Option<(&str, &str)>
    ensures { option_map (λ parts. (parts.0.now, parts.1.now)) result ≡ cut_at_point text.now }
{
    text.split_once('.')
}

/// The end that a text states.
fn end_from(alloc: Global, text: &str) -> Result<Option<FileEnd>, AllocError>
    ensures { EndGives result (end_from text.now) }
{
    match cut_at_point(text) {
        None if is_name(text) => Ok(Some(FileEnd::Interface(Name::new(String::from_str(
            alloc, text,
        )?)))),
        Some((actor, port)) if is_name(actor) && is_name(port) => {
            let actor = Name::new(String::from_str(alloc, actor)?);
            let port = Name::new(String::from_str(alloc, port)?);
            Ok(Some(FileEnd::Port { actor, port }))
        }
        _ => Ok(None),
    }
}

impl Form for End {
    type Stated = FileEnd;

    ghost reads = { λ _. end_at };

    fn read_at(
        &self,
        alloc: Global,
        place: &Place<'_>,
        value: &Value,
    ) -> Result<FileEnd, DetailFault<Name>> {
        let Some(text) = value.as_str() else {
            return Err(place.misshapen(alloc));
        };
        match end_from(alloc, text)? {
            Some(end) => Ok(end),
            None => Err(place.misshapen(alloc)),
        }
    }
}
