ghost use Rattle.std.specs.Prelude.{◌≡◌, ◌⊎◌, None, Some, OnOk, IfOk, IfErr, option_map, length};
ghost use Rattle.csv.specs.Records.{fields_of};
ghost use Rattle.std.specs.List.{position_from};
ghost use Rattle.token_text.specs.Records.{name_of, token_fields};
ghost use Rattle.token_text.specs.Streams.{number_fault, tokens_of};

use crate::fault::TokenFault;
use crate::token::token;
use csv::ByteRecord;
use sdf_level::List;
use std::alloc::Global;

/// The name that a record is for.
pub(crate) fn name_field(fields: &ByteRecord) -> &[u8]
    ensures { result.now ≡ name_of (fields_of fields.now) }
{
    match fields.get(0) {
        Some(name) => name,
        None => b"",
    }
}

/// The tokens of the record of a row, or its first field that is none.
pub(crate) fn tokens(alloc: Global, row: u64, fields: &ByteRecord) -> Result<List<i64>, TokenFault>
    ensures whole { IfOk result (λ tokens. (number_fault row (fields_of fields.now) ≡ None) × (tokens ≡ tokens_of (fields_of fields.now))) }
    ensures fault { IfErr result (λ fault. (fault ≡ TokenFault.Memory) ⊎ (number_fault row (fields_of fields.now) ≡ Some fault)) }
{
    let mut tokens = Vec::with_capacity(alloc, fields.len())?;
    let mut field = 1;
    while let Some(bytes) = fields.get(field) {
        let number = field as u64 + 1;
        match token(bytes) {
            Some(value) => tokens.push(value)?,
            None => return Err(TokenFault::Number { row, field: number }),
        }
        field += 1;
    }
    Ok(List::new(tokens))
}
