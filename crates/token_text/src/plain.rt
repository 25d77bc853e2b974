// The common token file: no quotes, each row of a name of its own, and each field after the name a token. Its tokens are
// read from where they lie, so that no copy of its fields is made. What isn't such a file is left to `reading`.
ghost use Rattle.std.specs.Prelude.{◌≡◌, ◌≢◌, ◌<◌, ◌≤◌, ◌^◌, [], true, false, pos, neg_ℤ, Ok, Some, IfOk, IfSome, List as Seq, ℕ, length, map, slice_index, slice_index_or};
ghost use Rattle.std.specs.Bool.{OnFalse, OnTrue};
ghost use Rattle.std.specs.List.{between};
ghost use Rattle.std.specs.Str.{all_ascii_digits, bytes_eq};
ghost use Rattle.std.specs.Str.Parse.{digits_value};
ghost use Rattle.csv.specs.Reading.{strip_bom};
ghost use Rattle.token_text.specs.Plain.{EndsRecord, IsRow, IsTaken, ends_field, ends_line, field_at, first_at, record_at};
ghost use Rattle.token_text.specs.Records.{Record};
ghost use Rattle.token_text.specs.Streams.{read_of, tokens_named};
ghost use Rattle.token_text.specs.Token.{token_of};

use crate::reading::{all_streams, not_given, place_of};
use crate::token::{LAST_TO_EXTEND, LEAST_MAGNITUDE};
use param_expr::Name;
use sdf_level::List;
use std::alloc::{AllocError, Global};

/// A number, and the place after its digits.
#[derive(Clone, Copy)]
struct Digits {
    value: u64,
    end: usize,
}

/// A token, and the place after its field.
#[derive(Clone, Copy)]
struct Field {
    token: i64,
    end: usize,
}

/// A row: where its name ends, its tokens, and the place after it.
#[derive(Drop)]
struct Row {
    name_end: usize,
    tokens: Vec<i64>,
    end: usize,
}

/// Whether a text may begin with a byte order mark.
fn may_be_marked(text: &[u8]) -> bool
    ensures { OnFalse result (strip_bom text.now ≡ text.now) }
{
    if text.is_empty() {
        return false;
    }
    text[0] == 0xEF
}

/// Whether a byte ends a line.
#[inline(always)]
fn is_line_end(byte: u8) -> bool
    ensures { result ≡ ends_line byte }
{
    byte == b'\n' || byte == b'\r'
}

/// Whether a byte ends a field, or is a quote.
#[inline(always)]
fn is_field_end(byte: u8) -> bool
    ensures { result ≡ ends_field byte }
{
    byte == b',' || byte == b'"' || is_line_end(byte)
}

/// The first place from a place on where no line ends.
fn past_line_ends(text: &[u8], from: usize) -> usize
    requires { from ≤ length text.now }
    ensures within { (from ≤ result) × (result ≤ length text.now) }
    ensures same { record_at text.now result ≡ record_at text.now from }
    ensures stops { result < length text.now → ends_line (slice_index text.now result) ≡ false }
{
    let mut at = from;
    while at < text.len() {
        if !is_line_end(text[at]) {
            return at;
        }
        at += 1;
    }
    at
}

/// The first place from a place on that ends a field, or has a quote.
fn end_of_field(text: &[u8], from: usize) -> usize
    requires { from ≤ length text.now }
    ensures within { (from ≤ result) × (result ≤ length text.now) }
    ensures joined { field_at [] (between from result text.now) text.now result ≡ field_at [] [] text.now from }
{
    let mut at = from;
    while at < text.len() {
        if is_field_end(text[at]) {
            return at;
        }
        at += 1;
    }
    at
}

/// The digits from a place on, where they write no more than the magnitude of the least i64.
#[inline(always)]
fn digits_at(text: &[u8], from: usize) -> Option<Digits>
    requires { from ≤ length text.now }
    ensures within { IfSome result (λ d. (from ≤ d.end) × (d.end ≤ length text.now)) }
    ensures digits { IfSome result (λ d. all_ascii_digits (between from d.end text.now) ≡ true) }
    ensures value { IfSome result (λ d. (digits_value 10 (between from d.end text.now) ≡ d.value) × (d.value ≤ 2 ^ 63)) }
{
    let mut value = 0;
    let mut at = from;
    while at < text.len() {
        let byte = text[at];
        if !byte.is_ascii_digit() {
            break;
        }
        if value > LAST_TO_EXTEND {
            return None;
        }
        value = value * 10 + u64::from(byte - b'0');
        at += 1;
    }
    if value > LEAST_MAGNITUDE {
        return None;
    }
    Some(Digits { value, end: at })
}

/// The token of a minus and a magnitude.
#[inline(always)]
fn negated(value: u64) -> i64
    requires { value ≤ 2 ^ 63 }
    ensures { result ≡ neg_ℤ (pos value) }
{
    if value == LEAST_MAGNITUDE {
        return i64::MIN;
    }
    -(value as i64)
}

/// The token of the digits from a place on, which stands after a minus, or doesn't.
#[inline(always)]
fn token_at(text: &[u8], from: usize) -> Option<Field>
    requires { from < length text.now }
    ensures within { IfSome result (λ f. (from < f.end) × (f.end ≤ length text.now)) }
    ensures token { IfSome result (λ f. token_of (between from f.end text.now) ≡ Some f.token) }
    ensures joined { IfSome result (λ f. (fields : Seq (Seq ℕ)) → first_at fields text.now from ≡ field_at fields (between from f.end text.now) text.now f.end) }
{
    if text[from] == b'-' {
        let digits = digits_at(text, from + 1)?;
        if digits.end == from + 1 {
            return None;
        }
        let token = negated(digits.value);
        return Some(Field {
            token,
            end: digits.end,
        });
    }
    let digits = digits_at(text, from)?;
    if digits.end == from {
        return None;
    }
    if digits.value == LEAST_MAGNITUDE {
        return None;
    }
    let token = digits.value as i64;
    Some(Field {
        token,
        end: digits.end,
    })
}

/// The place after a record whose last field ends at a place.
fn after_record(text: &[u8], at: usize) -> Option<usize>
    requires { at ≤ length text.now }
    ensures within { IfSome result (λ end. (at ≤ end) × (end ≤ length text.now)) }
    ensures record { IfSome result (λ end. EndsRecord text.now at end) }
{
    if at == text.len() {
        return Some(at);
    }
    if !is_line_end(text[at]) {
        return None;
    }
    Some(at + 1)
}

/// The row from a place on.
fn row_at(alloc: Global, text: &[u8], from: usize) -> Result<Option<Row>, AllocError>
    requires within { from < length text.now }
    requires begins { ends_line (slice_index text.now from) ≡ false }
    ensures within { IfOk result (λ o. IfSome o (λ row. (from ≤ row.name_end) × (row.name_end ≤ row.end) × (row.end ≤ length text.now))) }
    ensures row { IfOk result (λ o. IfSome o (λ row. IsRow text.now from row.name_end row.tokens.items row.end)) }
{
    if text[from] == b'"' {
        return Ok(None);
    }
    let name_end = end_of_field(text, from);
    let mut tokens = Vec::new(alloc);
    let mut at = name_end;
    'fields: while at < text.len() {
        if text[at] != b',' {
            break;
        }
        if at + 1 == text.len() {
            return Ok(None);
        }
        match token_at(text, at + 1) {
            Some(field) => {
                tokens.push(field.token)?;
                at = field.end;
            }
            None => return Ok(None),
        }
    }
    match after_record(text, at) {
        Some(end) => Ok(Some(Row {
            name_end,
            tokens,
            end,
        })),
        None => Ok(None),
    }
}

/// Whether a name stands at no other place than this.
fn stands_once(names: &[Name], place: usize, name: &[u8]) -> bool
    ensures { OnTrue result ((k : ℕ) → k < length names.now → k ≢ place → bytes_eq (slice_index_or names.now k []) name.now ≡ false) }
{
    for other in 0..names.len() {
        if other != place && names[other].text().as_bytes() == name {
            return false;
        }
    }
    true
}

/// Takes in the row from a place on, where the streams are those of the rows before it, and gives the place after it.
fn take_plain_row(
    alloc: Global,
    names: &[Name],
    text: &[u8],
    from: usize,
    streams: &mut [Option<List<i64>>],
) -> Result<Option<usize>, AllocError>
    requires within { from < length text.now }
    requires begins { ends_line (slice_index text.now from) ≡ false }
    requires streams { length streams.old ≡ length names.now }
    ensures within { IfOk result (λ o. IfSome o (λ end. end ≤ length text.now)) }
    ensures taken { (before : Seq Record) → streams.old ≡ map (tokens_named before) names.now
        → IfOk result (λ o. IfSome o (λ end. IsTaken names.now text.now from before streams.new end)) }
{
    let Some(row) = row_at(alloc, text, from)? else {
        return Ok(None);
    };
    let Row {
        name_end,
        tokens,
        end,
    } = row;
    let name = &text[from..name_end];
    let Some(place) = place_of(names, name) else {
        return Ok(None);
    };
    if !stands_once(names, place, name) {
        return Ok(None);
    }
    if streams[place].is_some() {
        return Ok(None);
    }
    streams[place] = Some(List::new(tokens));
    Ok(Some(end))
}

/// The streams of a token file that is plain, and nothing of another.
pub(crate) fn plain_streams(
    alloc: Global,
    bytes: &[u8],
    names: &[Name],
) -> Result<Option<List<List<i64>>>, AllocError>
    ensures { IfOk result (λ o. IfSome o (λ streams. read_of bytes.now names.now ≡ Ok streams)) }
{
    if may_be_marked(bytes) {
        return Ok(None);
    }
    let mut streams = not_given(alloc, names)?;
    let mut at = 0;
    'rows: loop {
        let from = past_line_ends(bytes, at);
        if from == bytes.len() {
            return Ok(Some(all_streams(alloc, streams)?));
        }
        match take_plain_row(alloc, names, bytes, from, &mut streams)? {
            Some(end) => at = end,
            None => return Ok(None),
        }
    }
}
