// Answers, which calls write as JSON texts.
use crate::trouble::Trouble;
use sdf_level::List;
use serde_json::Value;
use std::alloc::{AllocError, Global};
use std::fmt::{Debug, Write};

/// The answer whose JSON text this is.
///
/// # Errors
///
/// [`Trouble::Memory`] where there is no text; [`Trouble::Member`] where it is no JSON text.
pub fn answer_in(alloc: Global, text: Result<String, AllocError>) -> Result<Value, Trouble> {
    match Value::from_str(alloc, text?.as_str()) {
        Ok(answer) => Ok(answer),
        Err(_) => Err(Trouble::Member("the answer")),
    }
}

/// The JSON text of lists of numbers.
///
/// # Errors
///
/// Want of memory.
pub fn lists_text<T: Debug>(alloc: Global, lists: &[List<T>]) -> Result<String, AllocError> {
    let mut text = String::from_str(alloc, "[")?;
    let mut before = "";
    for list in lists {
        let numbers = list.items();
        write!(text, "{before}{numbers:?}")?;
        before = ", ";
    }
    text.push(']')?;
    Ok(text)
}

/// The answer that this text is.
///
/// # Errors
///
/// [`Trouble::Memory`].
pub fn answer_of_text(alloc: Global, text: &str) -> Result<Value, Trouble> {
    Ok(Value::try_from_str(alloc, text)?)
}
