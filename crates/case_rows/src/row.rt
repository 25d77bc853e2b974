// The members of a row.
use crate::trouble::Trouble;
use serde_json::Value;

/// The member of this name.
///
/// # Errors
///
/// [`Trouble`].
pub fn member<'a>(row: &'a Value, name: &'static str) -> Result<&'a Value, Trouble> {
    match row.get(name) {
        Some(value) => Ok(value),
        None => Err(Trouble::Member(name)),
    }
}

/// The items of the member of this name; none where there is no such member.
///
/// # Errors
///
/// [`Trouble`].
pub fn items<'a>(row: &'a Value, name: &'static str) -> Result<&'a [Value], Trouble> {
    match row.get(name) {
        Some(Value::Array(items)) => Ok(items.as_slice()),
        Some(_) => Err(Trouble::Member(name)),
        None => Ok(&[]),
    }
}

/// The text of the member of this name.
///
/// # Errors
///
/// [`Trouble`].
pub fn word<'a>(row: &'a Value, name: &'static str) -> Result<&'a str, Trouble> {
    match row.get(name) {
        Some(Value::String(text)) => Ok(text.as_str()),
        _ => Err(Trouble::Member(name)),
    }
}

/// The number that a value is.
///
/// # Errors
///
/// [`Trouble`], which names `what`.
pub(crate) fn number_of(value: &Value, what: &'static str) -> Result<i64, Trouble> {
    match value.as_i64() {
        Some(number) => Ok(number),
        None => Err(Trouble::Member(what)),
    }
}

/// The number that is the member of this name.
///
/// # Errors
///
/// [`Trouble`].
pub fn number(row: &Value, name: &'static str) -> Result<i64, Trouble> {
    number_of(member(row, name)?, name)
}

/// The number of 32 bits that is the member of this name.
///
/// # Errors
///
/// [`Trouble`].
pub fn small(row: &Value, name: &'static str) -> Result<u32, Trouble> {
    small_of(member(row, name)?, name)
}

/// The number of 32 bits that is the member of this name, or another one where there is no such member.
///
/// # Errors
///
/// [`Trouble`].
pub fn small_or(row: &Value, name: &'static str, other: u32) -> Result<u32, Trouble> {
    match row.get(name) {
        Some(value) => small_of(value, name),
        None => Ok(other),
    }
}

/// The number of 32 bits that a value is.
///
/// # Errors
///
/// [`Trouble`], which names `what`.
pub fn small_of(value: &Value, what: &'static str) -> Result<u32, Trouble> {
    let Some(number) = value.as_u64() else {
        return Err(Trouble::Member(what));
    };
    match u32::try_from(number) {
        Ok(number) => Ok(number),
        Err(_) => Err(Trouble::Member(what)),
    }
}
