// What is told of the outputs of a soak run.
ghost use Rattle.std.specs.Prelude.{◌≡◌, ◌+◌, ◌+ℤ◌, ◌++◌, fold, length, string_bytes, IfOk, IfSome, OnOk};
ghost use Rattle.pisdf_program.specs.Soak.{last_field, soak_row, y_tokens};
ghost use Rattle.pisdf_program.specs.SoakEnd.{total_row};

use crate::soak_tokens::soak_iterations;
use pisdf_meaning::Iteration;
use std::alloc::{AllocError, Global};
use std::fmt::Write;

/// How many tokens there were, and their sum.
#[derive(Clone, Copy)]
pub(crate) struct Total {
    pub(crate) count: u64,
    pub(crate) sum: i128,
}

/// The total with these tokens more. There is none where a number of it doesn't fit, which no soak run comes near: its iterations,
/// 2,048 at most, give 8 tokens each.
pub(crate) fn with_tokens(total: Total, tokens: &[i64]) -> Option<Total>
    ensures count { IfSome result (λ t. t.count ≡ total.count + length tokens.now) }
    ensures sum { IfSome result (λ t. t.sum ≡ fold (λ sum token. sum +ℤ token) total.sum tokens.now) }
{
    let mut sum = total.sum;
    for token in tokens {
        sum = sum.checked_add(i128::from(*token))?;
    }
    let count = total.count.checked_add(tokens.len() as u64)?;
    Some(Total { count, sum })
}

/// The tokens of the first output.
pub(crate) fn y_tokens(iteration: &Iteration) -> &[i64]
    ensures { result.now ≡ y_tokens iteration.now }
{
    match iteration.outs.items() {
        [y, ..] => y.items(),
        [] => &[],
    }
}

/// Puts a sum as the last field of a row.
fn push_sum(text: &mut String, sum: i128) -> Result<(), AllocError>
    ensures { OnOk result (string_bytes text.new ≡ string_bytes text.old ++ last_field sum) }
{
    write!(text, ",{sum}\n")
}

/// The row of a number with these counts and this sum.
fn soak_row(
    alloc: Global,
    number: u32,
    iterations: u32,
    count: u64,
    sum: i128,
) -> Result<String, AllocError>
    ensures { IfOk result (λ text. string_bytes text ≡ soak_row number iterations count sum) }
{
    let mut text = format!(in alloc; "soak,{number},{iterations},{count}")?;
    push_sum(&mut text, sum)?;
    Ok(text)
}

/// The row that tells of a soak run.
pub(crate) fn total_row(alloc: Global, number: u32, total: Total) -> Result<String, AllocError>
    ensures { IfOk result (λ text. string_bytes text ≡ total_row number total) }
{
    soak_row(
        alloc,
        number,
        soak_iterations(number),
        total.count,
        total.sum,
    )
}
