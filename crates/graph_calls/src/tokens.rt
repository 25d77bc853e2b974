// Token files, and the rows that a run writes.
use crate::parts::{bytes_answer, name_of, names_of, text_answer};
use crate::shown::{Shown, Writing, text_of};
use case_rows::{Trouble, bytes, items, member, number, numbers_of, small, word};
use param_expr::Name;
use sdf_level::List;
use serde_json::Value;
use std::alloc::{AllocError, Global};
use token_text::{TokenFault, param_row, push_param_row, push_tokens_row, read_tokens, tokens_row};

/// The tokens of each name.
#[derive(Drop)]
struct Streams {
    streams: List<List<i64>>,
}

/// Writes the tokens, each with a space after it, and a slash at the end.
fn put_stream(writing: &mut Writing, tokens: &[i64]) {
    for token in tokens {
        writing.put(format_args!("{token} "));
    }
    writing.put('/');
}

impl Shown for Streams {
    fn show(&self, writing: &mut Writing) {
        for stream in self.streams.items() {
            put_stream(writing, stream.items());
        }
    }
}

/// What the row's token file gives for the row's names: the tokens of each name with a slash after them, or the fault.
pub fn tokens_read(alloc: Global, row: &Value) -> Result<Value, Trouble> {
    let names = names_of(alloc, row)?;
    let file = bytes(alloc, row, "file")?;
    text_answer(
        match read_tokens(alloc, file.as_slice(), names.as_slice()) {
            Ok(streams) => text_of(alloc, &Streams { streams }),
            Err(TokenFault::Name { row }) => format!(in alloc; "name {row}"),
            Err(TokenFault::Repeated { row }) => format!(in alloc; "repeated {row}"),
            Err(TokenFault::Number { row, field }) => format!(in alloc; "number {row} {field}"),
            Err(TokenFault::Memory) => Err(AllocError),
        },
    )
}

/// Puts the row of a parameter's value behind those that are there, made alone or not.
fn push_param(
    alloc: Global,
    text: &mut Vec<u8>,
    row: &Value,
    name: &Name,
    is_alone: bool,
) -> Result<(), Trouble> {
    let iteration = small(row, "iteration")?;
    let value = number(row, "value")?;
    let path = name_of(alloc, word(row, "path")?)?;
    if !is_alone {
        return Ok(push_param_row(alloc, text, iteration, &path, name, value)?);
    }
    let made = param_row(alloc, iteration, &path, name, value)?;
    text.extend_from_slice(made.as_slice())?;
    Ok(())
}

/// Puts a row of tokens behind those that are there, made alone or not.
fn push_tokens(
    alloc: Global,
    text: &mut Vec<u8>,
    row: &Value,
    name: &Name,
    is_alone: bool,
) -> Result<(), Trouble> {
    let iteration = small(row, "iteration")?;
    let tokens = numbers_of(alloc, items(row, "tokens")?)?;
    if !is_alone {
        return Ok(push_tokens_row(alloc, text, iteration, name, tokens.as_slice())?);
    }
    let made = tokens_row(alloc, iteration, name, tokens.as_slice())?;
    text.extend_from_slice(made.as_slice())?;
    Ok(())
}

/// Puts a row behind those that are there: of tokens, or of a parameter's value where it has a path.
fn push_row(alloc: Global, text: &mut Vec<u8>, row: &Value, is_alone: bool) -> Result<(), Trouble> {
    let name = name_of(alloc, word(row, "name")?)?;
    match row.get("path") {
        Some(_) => push_param(alloc, text, row, &name, is_alone),
        None => push_tokens(alloc, text, row, &name, is_alone),
    }
}

/// The text that the row's rows are, each made alone or put behind the others.
pub fn rows_written(alloc: Global, row: &Value) -> Result<Value, Trouble> {
    let is_alone = member(row, "alone")?.as_bool() == Some(true);
    let mut text = Vec::new(alloc);
    for one in items(row, "rows")? {
        push_row(alloc, &mut text, one, is_alone)?;
    }
    bytes_answer(alloc, text)
}
