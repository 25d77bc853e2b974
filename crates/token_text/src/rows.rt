ghost use Rattle.std.specs.Prelude.{◌≡◌, ◌∷◌, ◌++◌, OnOk, OnErr, IfOk, List as Seq, ℕ, string_bytes};
ghost use Rattle.std.specs.Fmt.{signed_decimal};
ghost use Rattle.token_text.specs.Rows.{comma, param_text, tokens_text};

use param_expr::Name;
use std::alloc::{AllocError, Global};
use std::fmt::Write;

/// The row of the tokens that an iteration put at the output of a name: `tokens,ITERATION,NAME`, then each token, joined
/// by commas and ended by a line feed. Without tokens it has just the three fields.
///
/// # Errors
///
/// Want of memory.
pub fn tokens_row(
    alloc: Global,
    iteration: u32,
    name: &Name,
    tokens: &[i64],
) -> Result<Vec<u8>, AllocError>
    ensures { IfOk result (λ row. row.items ≡ tokens_text iteration name.now tokens.now) }
{
    let mut text = Vec::new(alloc);
    push_tokens_row(alloc, &mut text, iteration, name, tokens)?;
    Ok(text)
}

/// The row of the value that an iteration gave a chosen parameter: `param,ITERATION,PATH,NAME,VALUE`, ended by a line
/// feed, where the path leads to the graph of the parameter.
///
/// # Errors
///
/// Want of memory.
pub fn param_row(
    alloc: Global,
    iteration: u32,
    path: &Name,
    name: &Name,
    value: i64,
) -> Result<Vec<u8>, AllocError>
    ensures { IfOk result (λ row. row.items ≡ param_text iteration path.now name.now value) }
{
    let mut text = Vec::new(alloc);
    push_param_row(alloc, &mut text, iteration, path, name, value)?;
    Ok(text)
}

/// Appends the row of `tokens_row` to a text, which stays as it is where there is no memory.
pub fn push_tokens_row(
    alloc: Global,
    text: &mut Vec<u8>,
    iteration: u32,
    name: &Name,
    tokens: &[i64],
) -> Result<(), AllocError>
    ensures row { OnOk result (text.new.items ≡ text.old.items ++ tokens_text iteration name.now tokens.now) }
    ensures kept { OnErr result (text.new.items ≡ text.old.items) }
{
    let start = text.len();
    if write_tokens(alloc, text, iteration, name.text(), tokens).is_err() {
        text.truncate(start);
        return Err(AllocError);
    }
    Ok(())
}

/// Appends the row of `param_row` to a text, which stays as it is where there is no memory.
pub fn push_param_row(
    alloc: Global,
    text: &mut Vec<u8>,
    iteration: u32,
    path: &Name,
    name: &Name,
    value: i64,
) -> Result<(), AllocError>
    ensures row { OnOk result (text.new.items ≡ text.old.items ++ param_text iteration path.now name.now value) }
    ensures kept { OnErr result (text.new.items ≡ text.old.items) }
{
    let row = param_line(alloc, iteration, path.text(), name.text(), value)?;
    text.extend_from_slice(row.as_bytes())
}

/// The row of a parameter as a text.
fn param_line(
    alloc: Global,
    iteration: u32,
    path: &str,
    name: &str,
    value: i64,
) -> Result<String, AllocError>
    ensures { IfOk result (λ row. string_bytes row ≡ param_text iteration path.now name.now value) }
{
    let mut row = format!(in alloc; "param,{iteration},{path}")?;
    writeln!(row, ",{name},{value}")?;
    Ok(row)
}

/// Writes a row of tokens. Where there is no memory, the text may have got the beginning of the row.
fn write_tokens(
    alloc: Global,
    text: &mut Vec<u8>,
    iteration: u32,
    name: &str,
    tokens: &[i64],
) -> Result<(), AllocError>
    ensures row { OnOk result (text.new.items ≡ text.old.items ++ tokens_text iteration name.now tokens.now) }
    ensures begun { (more : Seq ℕ) × (text.new.items ≡ text.old.items ++ more) }
{
    let mut field = format!(in alloc; "tokens,{iteration},{name}")?;
    text.extend_from_slice(field.as_bytes())?;
    for token in tokens {
        write_token(text, &mut field, *token)?;
    }
    text.push(b'\n')?;
    Ok(())
}

/// Writes a comma and a token, which are first put together in `field`.
fn write_token(text: &mut Vec<u8>, field: &mut String, token: i64) -> Result<(), AllocError>
    ensures row { OnOk result (text.new.items ≡ text.old.items ++ comma ∷ signed_decimal token) }
    ensures kept { OnErr result (text.new.items ≡ text.old.items) }
{
    field.clear();
    write!(field, ",{token}")?;
    text.extend_from_slice(field.as_bytes())
}
