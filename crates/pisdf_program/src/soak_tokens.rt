// The tokens of a soak run.
ghost use Rattle.std.specs.Prelude.{◌≡◌, ◌+◌, ◌*◌, ◌<◌, ◌≤◌, IfOk};
ghost use Rattle.pisdf_program.specs.Soak.{k_token, soak_iterations, soak_part, tokens_from, x_token};
ghost use Rattle.pisdf_program.specs.Words.{greatest_number};

use sdf_level::List;
use std::alloc::{AllocError, Global};

/// How many iterations it has.
pub(crate) fn soak_iterations(number: u32) -> u32
    ensures { result ≡ soak_iterations number }
{
    4 + number % 2045
}

/// The token of the input `k` at a place of its stream.
fn k_token(number: u32, place: u32) -> i64
    requires number { number ≤ greatest_number }
    requires place { place < 131072 }
    ensures { result ≡ k_token number place }
{
    i64::from(1 + (place + number) % 8)
}

/// The token of the input `x` at a place of its stream.
fn x_token(number: u32, place: u32) -> i64
    requires number { number ≤ greatest_number }
    requires place { place < 131136 }
    ensures { result ≡ x_token number place }
{
    i64::from((7 * place + number) % 101)
}

/// So many tokens of `x`, from a place on.
fn x_tokens(alloc: Global, number: u32, start: u32, count: u32) -> Result<Vec<i64>, AllocError>
    requires number { number ≤ greatest_number }
    requires within { start + count ≤ 131136 }
    ensures { IfOk result (λ tokens. tokens.items ≡ tokens_from (x_token number) start count) }
{
    let mut tokens = Vec::with_capacity(alloc, count as usize)?;
    for place in start..start + count {
        tokens.push(x_token(number, place))?;
    }
    Ok(tokens)
}

/// The tokens that an iteration takes from each stream.
pub(crate) fn soak_part(
    alloc: Global,
    number: u32,
    iteration: u32,
) -> Result<Vec<List<i64>>, AllocError>
    requires number { number ≤ greatest_number }
    requires iteration { iteration < 2049 }
    ensures { IfOk result (λ part. part.items ≡ soak_part number iteration) }
{
    let k = vec![in alloc; k_token(number, iteration)]?;
    let x = x_tokens(alloc, number, 64 * iteration, 64)?;
    let mut part = Vec::with_capacity(alloc, 2)?;
    part.push(List::new(k))?;
    part.push(List::new(x))?;
    Ok(part)
}
