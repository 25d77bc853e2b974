// Small parts of rows, and answers that are texts.
use case_rows::{Trouble, answer_of_text, items};
use param_expr::Name;
use serde_json::Value;
use std::alloc::{AllocError, Global};

/// The two items of a list.
pub(crate) fn pair<'a>(
    list: &'a Value,
    what: &'static str,
) -> Result<(&'a Value, &'a Value), Trouble> {
    match (list.get(0usize), list.get(1usize), list.get(2usize)) {
        (Some(first), Some(second), None) => Ok((first, second)),
        _ => Err(Trouble::Member(what)),
    }
}

/// A name that is this text.
pub(crate) fn name_of(alloc: Global, text: &str) -> Result<Name, Trouble> {
    Ok(Name::new(String::from_str(alloc, text)?))
}

/// The name that a value is.
pub(crate) fn name_in(alloc: Global, value: &Value, what: &'static str) -> Result<Name, Trouble> {
    match value.as_str() {
        Some(text) => name_of(alloc, text),
        None => Err(Trouble::Member(what)),
    }
}

/// The row's `names`.
pub(crate) fn names_of(alloc: Global, row: &Value) -> Result<Vec<Name>, Trouble> {
    let mut names = Vec::new(alloc);
    for name in items(row, "names")? {
        names.push(name_in(alloc, name, "names")?)?;
    }
    Ok(names)
}

/// The answer that a text is.
pub(crate) fn text_answer(text: Result<String, AllocError>) -> Result<Value, Trouble> {
    Ok(Value::from(text?))
}

/// The answer that bytes are.
pub(crate) fn bytes_answer(alloc: Global, bytes: Vec<u8>) -> Result<Value, Trouble> {
    match String::from_utf8(bytes) {
        Ok(text) => Ok(Value::from(text)),
        Err(_) => answer_of_text(alloc, "bytes that are no text"),
    }
}
