ghost use Rattle.std.specs.Prelude.{◌≡◌, ◌⊎◌, ◌<◌, ◌++◌, ◌∷◌, [], Option, Ok, Err, None, Some, OnOk, IfOk, IfErr, List as Seq, ℕ, ℤ, length, map, slice_index_or, unwrap_or};
ghost use Rattle.csv.specs.Reading.{error_kind};
ghost use Rattle.csv.specs.Records.{fields_of};
ghost use Rattle.std.specs.List.{position_from};
ghost use Rattle.std.specs.Str.{bytes_eq};
ghost use Rattle.token_text.specs.Records.{AreAllRecords, IsWant, Record, name_of, records_of};
ghost use Rattle.token_text.specs.Streams.{fault_at, number_fault, read_of, tokens_named, tokens_of, with_tokens};

use crate::fault::TokenFault;
use crate::plain::plain_streams;
use crate::record::{name_field, tokens};
use csv::{ByteRecord, Error, ErrorKind, ReaderBuilder};
use param_expr::Name;
use sdf_level::List;
use std::alloc::{AllocError, Global};

/// The only error of a read of bytes in memory whose records may differ in length.
fn want_of_memory(error: Error) -> TokenFault
    requires { IsWant (error_kind error) }
    ensures { result ≡ TokenFault.Memory }
{
    match error.into_kind() {
        // No read of bytes in memory fails by itself.
        ErrorKind::Io(_) | ErrorKind::OutOfMemory => TokenFault::Memory,
        _ => unreachable!(),
    }
}

/// The first place of a name.
pub(crate) fn place_of(names: &[Name], name: &[u8]) -> Option<usize>
    ensures { result ≡ position_from (λ other. bytes_eq other name.now) 0 names.now }
{
    names
        .iter()
        .position(|other| other.text().as_bytes() == name)
}

/// A stream for each name, none of which a record has given yet.
pub(crate) fn not_given(alloc: Global, names: &[Name]) -> Result<Vec<Option<List<i64>>>, AllocError>
    ensures { IfOk result (λ streams. streams.items ≡ map (tokens_named []) names.now) }
{
    names.iter().map(|_| None).collect(alloc)
}

/// The streams, those that no record gave being empty.
pub(crate) fn all_streams(
    alloc: Global,
    given: Vec<Option<List<i64>>>,
) -> Result<List<List<i64>>, AllocError>
    ensures { IfOk result (λ streams. streams ≡ map (λ stream. unwrap_or stream []) given.items) }
{
    let streams: Vec<List<i64>> = given
        .into_iter()
        .map(|stream| stream.unwrap_or(List::new(Vec::new(alloc))))
        .collect(alloc)?;
    Ok(List::new(streams))
}

/// Gives the tokens of a row to each place of its name.
fn give(
    alloc: Global,
    names: &[Name],
    row: u64,
    fields: &ByteRecord,
    streams: &mut [Option<List<i64>>],
) -> Result<(), TokenFault>
    requires { length streams.old ≡ length names.now }
    ensures given { (f : Seq ℕ → Option (Seq ℤ)) → streams.old ≡ map f names.now
        → OnOk result (streams.new ≡ map (with_tokens f (name_of (fields_of fields.now)) (tokens_of (fields_of fields.now))) names.now) }
    ensures whole { (place : ℕ) → place < length names.now → slice_index_or names.now place [] ≡ name_of (fields_of fields.now)
        → OnOk result (number_fault row (fields_of fields.now) ≡ None) }
    ensures fault { IfErr result (λ fault. (fault ≡ TokenFault.Memory) ⊎ (number_fault row (fields_of fields.now) ≡ Some fault)) }
{
    let name = name_field(fields);
    for place in 0..names.len() {
        if names[place].text().as_bytes() == name {
            streams[place] = Some(tokens(alloc, row, fields)?);
        }
    }
    Ok(())
}

/// Takes in a row, where the streams are those of the rows before it.
fn take_row(
    alloc: Global,
    names: &[Name],
    row: u64,
    fields: &ByteRecord,
    streams: &mut [Option<List<i64>>],
) -> Result<(), TokenFault>
    requires { length streams.old ≡ length names.now }
    ensures taken { (before : Seq Record) → streams.old ≡ map (tokens_named before) names.now
        → OnOk result ((fault_at names.now (map name_of before) row (fields_of fields.now) ≡ None)
        × (streams.new ≡ map (tokens_named (before ++ fields_of fields.now ∷ [])) names.now)) }
    ensures fault { (before : Seq Record) → streams.old ≡ map (tokens_named before) names.now
        → IfErr result (λ fault. (fault ≡ TokenFault.Memory) ⊎ (fault_at names.now (map name_of before) row (fields_of fields.now) ≡ Some fault)) }
{
    let Some(place) = place_of(names, name_field(fields)) else {
        return Err(TokenFault::Name { row });
    };
    if streams[place].is_some() {
        return Err(TokenFault::Repeated { row });
    }
    give(alloc, names, row, fields, streams)
}

/// Reads a token file record by record, whatever its fields.
fn read_records(alloc: Global, bytes: &[u8], names: &[Name]) -> Result<List<List<i64>>, TokenFault>
    ensures records { AreAllRecords bytes.now (records_of bytes.now) }
    ensures streams { IfOk result (λ streams. read_of bytes.now names.now ≡ Ok streams) }
    ensures fault { IfErr result (λ fault. (fault ≡ TokenFault.Memory) ⊎ (read_of bytes.now names.now ≡ Err fault)) }
{
    let mut streams = not_given(alloc, names)?;
    let mut reader = ReaderBuilder::new()
        .has_headers(false)
        .flexible(true)
        .from_reader(alloc, bytes);
    let mut fields = ByteRecord::new(alloc);
    let mut row = 0u64;
    'rows: loop {
        match reader.read_byte_record(&mut fields) {
            Ok(true) => {
                row += 1;
                take_row(alloc, names, row, &fields, &mut streams)?;
            }
            Ok(false) => return Ok(all_streams(alloc, streams)?),
            Err(error) => return Err(want_of_memory(error)),
        }
    }
}

/// Reads a token file: CSV records (RFC 4180) of a name and its tokens, which may differ in length, with no header row.
///
/// The answer has one list for each of `names`, in their order, which holds the tokens of the record of that name and
/// is empty where no record has it. A name that stands at several places of `names` gives each of them its tokens.
/// Otherwise it is the fault of the first row that has one: its name is none of `names`, an earlier row had it, or, of
/// the first field that is no token, its number. Want of memory is possible at any time.
pub fn read_tokens(
    alloc: Global,
    bytes: &[u8],
    names: &[Name],
) -> Result<List<List<i64>>, TokenFault>
    ensures records { AreAllRecords bytes.now (records_of bytes.now) }
    ensures streams { IfOk result (λ streams. read_of bytes.now names.now ≡ Ok streams) }
    ensures fault { IfErr result (λ fault. (fault ≡ TokenFault.Memory) ⊎ (read_of bytes.now names.now ≡ Err fault)) }
{
    if let Some(streams) = plain_streams(alloc, bytes, names)? {
        return Ok(streams);
    }
    read_records(alloc, bytes, names)
}
