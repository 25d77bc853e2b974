// Lines of iterations, refusals and journals, as the program writes them.
use board_journal::{EntryAt, Journal};
use board_rules::ItemName;
use case_rows::Trouble;
use job_compiler::What;
use param_resolver::Why;
use pisdf_meaning::{Cause, Iteration, Left, Refusal};
use pisdf_model::Interface;
use std::alloc::Global;
use std::fmt::Write;

/// Appends the lines of an iteration: its parameters, and then the tokens of each output.
pub(crate) fn push_iteration(
    text: &mut String,
    number: u32,
    outputs: &[Interface],
    iteration: &Iteration,
) -> Result<(), Trouble> {
    for row in iteration.trace.items() {
        let path = row.path.text().text();
        let name = row.name.text();
        let value = row.value;
        write!(text, "param,{number},{path},{name},{value}\n")?;
    }
    for (output, tokens) in outputs.iter().zip(iteration.outs.items()) {
        let name = output.name.text();
        write!(text, "tokens,{number},{name}")?;
        for token in tokens.items() {
            write!(text, ",{token}")?;
        }
        text.push_str("\n")?;
    }
    Ok(())
}

fn push_why(text: &mut String, why: Why) -> Result<(), Trouble> {
    match why {
        Why::Value(value) => write!(text, "value {value}")?,
        Why::Overflow => text.push_str("overflow")?,
        Why::Division => text.push_str("division")?,
    }
    Ok(())
}

fn word_of(what: What) -> &'static str {
    match what {
        What::Firings => "firings",
        What::Links => "links",
        What::Tokens => "tokens",
    }
}

fn push_left(text: &mut String, left: &[Left]) -> Result<(), Trouble> {
    for one in left {
        write!(text, " {} {}", one.name.text(), one.count)?;
    }
    Ok(())
}

fn push_cause(text: &mut String, cause: &Cause) -> Result<(), Trouble> {
    match cause {
        Cause::Param {
            name,
            why,
            low,
            high,
        } => {
            write!(text, "param {} ", name.text())?;
            push_why(text, *why)?;
            if matches!(*why, Why::Value(_)) {
                write!(text, " range {low} {high}")?;
            }
        }
        Cause::Rate { name, why } => {
            write!(text, "rate {} ", name.text())?;
            push_why(text, *why)?;
        }
        Cause::Rates => text.push_str("rates")?,
        Cause::Limit { what, value } => write!(text, "limit {} {value}", word_of(*what))?,
        Cause::Deadlock { left } => {
            text.push_str("deadlock")?;
            push_left(text, left.items())?;
        }
        Cause::Kernel {
            actor,
            firing,
            code,
        } => write!(text, "kernel {}:{firing} {code}", actor.text())?,
    }
    Ok(())
}

/// Appends the line of a refusal.
pub(crate) fn push_refusal(text: &mut String, refusal: &Refusal) -> Result<(), Trouble> {
    write!(text, "run: {} ", refusal.path.text().text())?;
    push_cause(text, &refusal.cause)?;
    text.push_str("\n")?;
    Ok(())
}

/// Appends a line for each entry of a journal. One that can't be read is taken for want of memory.
pub(crate) fn push_journal(
    text: &mut String,
    number: u32,
    journal: &Journal,
) -> Result<(), Trouble> {
    if !journal.is_readable() {
        return Err(Trouble::Memory);
    }
    for entry in 0..journal.len() {
        match journal.entry(entry) {
            EntryAt::Claim { worker, path, item } => {
                write!(text, "claim,{number},{worker},{},", path.text().text())?;
                match item {
                    ItemName::Configure(actor) => write!(text, "configure,{actor}\n")?,
                    ItemName::Compile => text.push_str("compile,0\n")?,
                    ItemName::Node(node) => write!(text, "node,{node}\n")?,
                }
            }
            EntryAt::Finish { worker } => write!(text, "finish,{number},{worker}\n")?,
        }
    }
    Ok(())
}
