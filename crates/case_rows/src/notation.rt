// Texts as the tables write them, so that long ones take few words:
//
// - a string is itself, and a list its pieces one after the other;
// - `{"times": n, "of": piece}` is a piece so many times, and with `"between": text` this text between them; with the
//   member `numbered` the marks that the written piece has are replaced as in the next form;
// - `{"times": n, "each": text, "from": k}` is a text so many times, `#` in it replaced by the numbers from k on (from 0
//   on where it isn't given), and `@` by the number after; `between` as before;
// - `{"bytes": [n, ..]}` are these bytes;
// - `{"quoted": piece}` is a piece with `"` in the place of each `'`.
use crate::row::{items, member, number, small, word};
use crate::trouble::Trouble;
use serde_json::Value;
use std::alloc::Global;
use std::fmt::Write;

/// How deep pieces may stand in each other.
const MOST_DEEP: u32 = 16;

/// A text with numbers in the place of its marks.
fn push_numbered(text: &mut String, pattern: &str, at: u64) -> Result<(), Trouble> {
    let next = at.saturating_add(1);
    for letter in pattern.chars() {
        match letter {
            '#' => write!(text, "{at}")?,
            '@' => write!(text, "{next}")?,
            other => text.push(other)?,
        }
    }
    Ok(())
}

/// What stands between two pieces.
fn between(piece: &Value) -> &str {
    match piece.get("between") {
        Some(Value::String(text)) => text.as_str(),
        _ => "",
    }
}

fn push_each(
    alloc: Global,
    bytes: &mut Vec<u8>,
    piece: &Value,
    pattern: &str,
) -> Result<(), Trouble> {
    let from = match piece.get("from") {
        Some(from) => from.as_u64().unwrap_or(0),
        None => 0,
    };
    for place in 0..small(piece, "times")? {
        if place > 0 {
            bytes.extend_from_slice(between(piece).as_bytes())?;
        }
        let mut text = String::new(alloc);
        push_numbered(&mut text, pattern, from.saturating_add(u64::from(place)))?;
        bytes.extend_from_slice(text.as_bytes())?;
    }
    Ok(())
}

fn push_times(bytes: &mut Vec<u8>, piece: &Value, of: &[u8]) -> Result<(), Trouble> {
    for place in 0..small(piece, "times")? {
        if place > 0 {
            bytes.extend_from_slice(between(piece).as_bytes())?;
        }
        bytes.extend_from_slice(of)?;
    }
    Ok(())
}

/// A piece so many times, as it is or with numbers in the place of its marks.
fn push_copies(
    alloc: Global,
    bytes: &mut Vec<u8>,
    piece: &Value,
    of: Vec<u8>,
) -> Result<(), Trouble> {
    if piece.get("numbered").is_none() {
        return push_times(bytes, piece, of.as_slice());
    }
    match String::from_utf8(of) {
        Ok(pattern) => push_each(alloc, bytes, piece, pattern.as_str()),
        Err(_) => Err(Trouble::Member("of")),
    }
}

/// The byte that a number is.
fn byte_of(number: &Value) -> Result<u8, Trouble> {
    let Some(number) = number.as_u64() else {
        return Err(Trouble::Member("bytes"));
    };
    match u8::try_from(number) {
        Ok(byte) => Ok(byte),
        Err(_) => Err(Trouble::Member("bytes")),
    }
}

fn push_bytes(bytes: &mut Vec<u8>, numbers: &[Value]) -> Result<(), Trouble> {
    for number in numbers {
        bytes.push(byte_of(number)?)?;
    }
    Ok(())
}

fn push_quoted(bytes: &mut Vec<u8>, piece: &[u8]) -> Result<(), Trouble> {
    for byte in piece {
        bytes.push(if *byte == b'\'' { b'"' } else { *byte })?;
    }
    Ok(())
}

/// The bytes of an object that holds no other piece, behind those that are there.
fn push_plain(alloc: Global, bytes: &mut Vec<u8>, piece: &Value) -> Result<(), Trouble> {
    if let Some(Value::Array(numbers)) = piece.get("bytes") {
        return push_bytes(bytes, numbers.as_slice());
    }
    match piece.get("each") {
        Some(Value::String(pattern)) => push_each(alloc, bytes, piece, pattern.as_str()),
        _ => Err(Trouble::Member("times")),
    }
}

/// The bytes of a piece, behind those that are there.
fn push_piece(piece: &Value, alloc: Global, bytes: &mut Vec<u8>) -> Result<(), Trouble> {
    match piece {
        Value::String(text) => bytes.extend_from_slice(text.as_bytes())?,
        Value::Array(pieces) => {
            for inner in pieces {
                push_piece(inner, alloc, bytes)?;
            }
        }
        Value::Object(members) => {
            let mut inner = Vec::new(alloc);
            if let Some(quoted) = members.get("quoted") {
                push_piece(quoted, alloc, &mut inner)?;
                return push_quoted(bytes, inner.as_slice());
            }
            if let Some(of) = members.get("of") {
                push_piece(of, alloc, &mut inner)?;
                return push_copies(alloc, bytes, piece, inner);
            }
            return push_plain(alloc, bytes, piece);
        }
        _ => return Err(Trouble::Member("text")),
    }
    Ok(())
}

/// The bytes that a piece is.
///
/// # Errors
///
/// [`Trouble`].
pub fn bytes_of(alloc: Global, piece: &Value) -> Result<Vec<u8>, Trouble> {
    let mut bytes = Vec::new(alloc);
    push_piece(piece, alloc, &mut bytes)?;
    Ok(bytes)
}

/// The bytes of the member of this name.
///
/// # Errors
///
/// [`Trouble`].
pub fn bytes(alloc: Global, row: &Value, name: &'static str) -> Result<Vec<u8>, Trouble> {
    bytes_of(alloc, member(row, name)?)
}

/// The text that a piece is.
///
/// # Errors
///
/// [`Trouble`].
pub fn text_of(alloc: Global, piece: &Value) -> Result<String, Trouble> {
    match String::from_utf8(bytes_of(alloc, piece)?) {
        Ok(text) => Ok(text),
        Err(_) => Err(Trouble::Member("text")),
    }
}

/// The text of the member of this name.
///
/// # Errors
///
/// [`Trouble`].
pub fn text(alloc: Global, row: &Value, name: &'static str) -> Result<String, Trouble> {
    text_of(alloc, member(row, name)?)
}

/// The bytes of the member of this name, with `"` in the place of each `'`.
///
/// # Errors
///
/// [`Trouble`].
pub fn quoted(alloc: Global, row: &Value, name: &'static str) -> Result<Vec<u8>, Trouble> {
    let written = bytes(alloc, row, name)?;
    let mut quoted = Vec::new(alloc);
    push_quoted(&mut quoted, written.as_slice())?;
    Ok(quoted)
}
