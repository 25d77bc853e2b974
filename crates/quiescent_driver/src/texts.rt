// The texts that a run puts to standard output.
ghost use Rattle.std.specs.Prelude.{◌≡◌, ◌++◌, IfOk, OnOk};
ghost use Rattle.quiescent_driver.specs.Texts.{iteration_text, param_rows, token_rows};

use pisdf_meaning::{Iteration, TraceRow};
use pisdf_model::Interface;
use sdf_level::List;
use std::alloc::{AllocError, Global};
use token_text::{push_param_row, push_tokens_row};

fn push_params(
    alloc: Global,
    text: &mut Vec<u8>,
    number: u32,
    rows: &[TraceRow],
) -> Result<(), AllocError>
    ensures { OnOk result (text.new.items ≡ text.old.items ++ param_rows number rows.now) }
{
    for row in rows {
        push_param_row(alloc, text, number, row.path.text(), &row.name, row.value)?;
    }
    Ok(())
}

fn push_tokens(
    alloc: Global,
    text: &mut Vec<u8>,
    number: u32,
    outputs: &[Interface],
    lists: &[List<i64>],
) -> Result<(), AllocError>
    ensures { OnOk result (text.new.items ≡ text.old.items ++ token_rows number outputs.now lists.now) }
{
    let count = outputs.len().min(lists.len());
    for output in 0..count {
        push_tokens_row(
            alloc,
            text,
            number,
            &outputs[output].name,
            lists[output].items(),
        )?;
    }
    Ok(())
}

/// The text of an iteration: its parameter trace, and then a row for each output.
pub(crate) fn iteration_text(
    alloc: Global,
    number: u32,
    outputs: &[Interface],
    iteration: &Iteration,
) -> Result<Vec<u8>, AllocError>
    ensures { IfOk result (λ t. t.items ≡ iteration_text number outputs.now iteration.now) }
{
    let mut text = Vec::new(alloc);
    push_params(alloc, &mut text, number, iteration.trace.items())?;
    push_tokens(alloc, &mut text, number, outputs, iteration.outs.items())?;
    Ok(text)
}
