// The lines that a status puts to standard error.
ghost use Rattle.std.specs.Prelude.{◌≡◌, ◌==◌, ◌++◌, [], codes, if◌then◌else◌, IfOk, OnOk, IsOk, string_bytes};
ghost use Rattle.pisdf_program.specs.LineSeen.{line_text};
ghost use Rattle.pisdf_program.specs.Lines.{cause_words, graph_fault_line, graph_line, journal_line, left_line, left_lines, left_words, line_of, named_line, range_words, read_line, refusal_line, tokens_line, what_word, why_words};

use crate::status::{GraphCause, JournalCause, Status, TokenCause, Which};
use graph_format::GraphFault;
use level_schedule::What;
use param_expr::Name;
use param_resolver::Why;
use pisdf_meaning::{Cause, Left, Refusal};
use pisdf_model::Interface;
use std::alloc::{AllocError, Global};
use std::fmt::Write;
use token_text::TokenFault;

/// The line of `Usage`, which takes no memory.
const USAGE: &str = "usage: run GRAPH TOKENS ITERATIONS WORKERS\n";

/// The line of `WantOfMemory`, which takes no memory.
pub(crate) const MEMORY: &str = "memory\n";

/// A line, of which only one with names or numbers took memory.
#[derive(Drop)]
pub(crate) enum Line {
    Fixed(&'static str),
    Written(String),
}

impl Line {
    /// The bytes, with the line feed.
    pub(crate) fn bytes(&self) -> &[u8]
        ensures { result.now ≡ line_text self.now }
    {
        match self {
            Line::Fixed(text) => text.as_bytes(),
            Line::Written(text) => text.as_str().as_bytes(),
        }
    }
}

/// Words and a name.
fn named_line(alloc: Global, words: &str, name: &Name) -> Result<String, AllocError>
    ensures { IfOk result (λ s. string_bytes s ≡ named_line words.now name.now) }
{
    let name = name.text();
    format!(in alloc; "{words}{name}\n")
}

fn version_line(alloc: Global, version: i64) -> Result<String, AllocError>
    ensures { IfOk result (λ s. string_bytes s ≡ graph_fault_line (GraphFault.Version version)) }
{
    format!(in alloc; "graph: 3 version {version}\n")
}

fn fifo_line(alloc: Global, graph: &Name, fifo: u32) -> Result<String, AllocError>
    ensures { IfOk result (λ s. string_bytes s ≡ graph_fault_line (GraphFault.InterfaceWire graph.now fifo)) }
{
    let graph = graph.text();
    format!(in alloc; "graph: 9 interface {graph} {fifo}\n")
}

fn graph_fault_line(alloc: Global, fault: &GraphFault) -> Result<Line, AllocError>
    ensures { IfOk result (λ l. line_text l ≡ graph_fault_line fault.now) }
{
    let line = match fault {
        GraphFault::NotJson => return Ok(Line::Fixed("graph: 1 json\n")),
        GraphFault::Shape(pointer) => named_line(alloc, "graph: 2 shape ", pointer)?,
        GraphFault::Version(version) => version_line(alloc, *version)?,
        GraphFault::Duplicate(name) => named_line(alloc, "graph: 4 duplicate ", name)?,
        GraphFault::Unknown(name) => named_line(alloc, "graph: 5 unknown ", name)?,
        GraphFault::Kernel(name) => named_line(alloc, "graph: 6 kernel ", name)?,
        GraphFault::Ports(name) => named_line(alloc, "graph: 7 ports ", name)?,
        GraphFault::Wire(end) => named_line(alloc, "graph: 8 wire ", end)?,
        GraphFault::InterfaceWire { graph, fifo } => fifo_line(alloc, graph, *fifo)?,
        GraphFault::ParamOrder(name) => named_line(alloc, "graph: 10 order ", name)?,
        GraphFault::GraphCycle(name) => named_line(alloc, "graph: 11 cycle ", name)?,
        GraphFault::Depth(name) => named_line(alloc, "graph: 12 depth ", name)?,
        GraphFault::Count(what) => named_line(alloc, "graph: 13 count ", what)?,
        GraphFault::Memory => return Ok(Line::Fixed(MEMORY)),
    };
    Ok(Line::Written(line))
}

fn graph_line(alloc: Global, cause: &GraphCause) -> Result<Line, AllocError>
    ensures { IfOk result (λ l. line_text l ≡ graph_line cause.now) }
{
    match cause {
        GraphCause::TooLong => Ok(Line::Fixed("graph: 0 length\n")),
        GraphCause::Fault(fault) => graph_fault_line(alloc, fault),
    }
}

fn read_line(which: Which) -> &'static str
    ensures { result.now ≡ read_line which }
{
    match which {
        Which::Graph => "read: graph\n",
        Which::Tokens => "read: tokens\n",
        Which::Journal => "read: journal\n",
    }
}

fn tokens_line(alloc: Global, cause: &TokenCause) -> Result<Line, AllocError>
    ensures { IfOk result (λ l. line_text l ≡ tokens_line cause.now) }
{
    match cause {
        TokenCause::TooLong => Ok(Line::Fixed("tokens: length\n")),
        TokenCause::Fault(fault) => fault_line(alloc, *fault),
        TokenCause::Short { stream, has, needs } => {
            Ok(Line::Written(short_line(alloc, stream, *has, *needs)?))
        }
    }
}

fn fault_line(alloc: Global, fault: TokenFault) -> Result<Line, AllocError>
    ensures { IfOk result (λ l. line_text l ≡ tokens_line (TokenCause.Fault fault)) }
{
    match fault {
        TokenFault::Name { row } => Ok(Line::Written(format!(in alloc; "tokens: name {row}\n")?)),
        TokenFault::Repeated { row } => {
            Ok(Line::Written(format!(in alloc; "tokens: repeated {row}\n")?))
        }
        TokenFault::Number { row, field } => {
            Ok(Line::Written(format!(in alloc; "tokens: number {row} {field}\n")?))
        }
        TokenFault::Memory => Ok(Line::Fixed(MEMORY)),
    }
}

fn short_line(alloc: Global, stream: &Name, has: u64, needs: u32) -> Result<String, AllocError>
    ensures { IfOk result (λ s. string_bytes s ≡ tokens_line (TokenCause.Short stream.now has needs)) }
{
    let name = stream.text();
    format!(in alloc; "tokens: short {name} has {has} needs {needs}\n")
}

fn journal_line(alloc: Global, cause: &JournalCause) -> Result<Line, AllocError>
    ensures { IfOk result (λ l. line_text l ≡ journal_line cause.now) }
{
    match cause {
        JournalCause::TooLong => Ok(Line::Fixed("journal: length\n")),
        JournalCause::Illegal { line } => {
            Ok(Line::Written(format!(in alloc; "journal: line {line}\n")?))
        }
    }
}

/// Appends why a number isn't what it may be.
fn push_why(text: &mut String, why: Why) -> Result<(), AllocError>
    ensures { OnOk result (string_bytes text.new ≡ string_bytes text.old ++ why_words why) }
{
    match why {
        Why::Value(value) => write!(text, "value {value}"),
        Why::Overflow => write!(text, "overflow"),
        Why::Division => write!(text, "division"),
    }
}

/// Appends the range of a parameter, where its value lies outside it.
fn push_range(text: &mut String, why: Why, low: i64, high: i64) -> Result<(), AllocError>
    ensures { OnOk result (string_bytes text.new ≡ string_bytes text.old ++ range_words why low high) }
{
    match why {
        Why::Value(_) => write!(text, " range {low} {high}"),
        Why::Overflow | Why::Division => Ok(()),
    }
}

fn what_word(what: What) -> &'static str
    ensures { result.now ≡ what_word what }
{
    match what {
        What::Firings => "firings",
        What::Links => "links",
        What::Tokens => "tokens",
    }
}

/// Appends each actor with firings left.
fn push_left_over(text: &mut String, left: &[Left]) -> Result<(), AllocError>
    ensures { OnOk result (string_bytes text.new ≡ string_bytes text.old ++ left_words left.now) }
{
    for actor in left {
        let name = actor.name.text();
        let count = actor.count;
        write!(text, " {name} {count}")?;
    }
    Ok(())
}

fn push_param(
    text: &mut String,
    name: &Name,
    why: Why,
    low: i64,
    high: i64,
) -> Result<(), AllocError>
    ensures { OnOk result (string_bytes text.new ≡ string_bytes text.old ++ cause_words (Cause.Param name.now why low high)) }
{
    let name = name.text();
    write!(text, "param {name} ")?;
    push_why(text, why)?;
    push_range(text, why, low, high)
}

fn push_rate(text: &mut String, name: &Name, why: Why) -> Result<(), AllocError>
    ensures { OnOk result (string_bytes text.new ≡ string_bytes text.old ++ cause_words (Cause.Rate name.now why)) }
{
    let name = name.text();
    write!(text, "rate {name} ")?;
    push_why(text, why)
}

fn push_limit(text: &mut String, what: What, value: u64) -> Result<(), AllocError>
    ensures { OnOk result (string_bytes text.new ≡ string_bytes text.old ++ cause_words (Cause.Limit what value)) }
{
    let what = what_word(what);
    write!(text, "limit {what} {value}")
}

fn push_deadlock(text: &mut String, left: &[Left]) -> Result<(), AllocError>
    ensures { OnOk result (string_bytes text.new ≡ string_bytes text.old ++ (codes "deadlock" ++ left_words left.now)) }
{
    write!(text, "deadlock")?;
    push_left_over(text, left)
}

fn push_kernel(text: &mut String, actor: &Name, firing: u32, code: u8) -> Result<(), AllocError>
    ensures { OnOk result (string_bytes text.new ≡ string_bytes text.old ++ cause_words (Cause.Kernel actor.now firing code)) }
{
    let actor = actor.text();
    write!(text, "kernel {actor}:{firing} {code}")
}

/// Appends a cause.
fn push_cause(text: &mut String, cause: &Cause) -> Result<(), AllocError>
    ensures { OnOk result (string_bytes text.new ≡ string_bytes text.old ++ cause_words cause.now) }
{
    match cause {
        Cause::Param {
            name,
            why,
            low,
            high,
        } => push_param(text, name, *why, *low, *high),
        Cause::Rate { name, why } => push_rate(text, name, *why),
        Cause::Rates => write!(text, "rates"),
        Cause::Limit { what, value } => push_limit(text, *what, *value),
        Cause::Deadlock { left } => push_deadlock(text, left.items()),
        Cause::Kernel {
            actor,
            firing,
            code,
        } => push_kernel(text, actor, *firing, *code),
    }
}

fn refusal_line(alloc: Global, refusal: &Refusal) -> Result<String, AllocError>
    ensures { IfOk result (λ s. string_bytes s ≡ refusal_line refusal.now.path refusal.now.cause) }
{
    let path = refusal.path.text().text();
    let mut text = format!(in alloc; "run: {path} ")?;
    push_cause(&mut text, &refusal.cause)?;
    write!(text, "\n")?;
    Ok(text)
}

/// The line of a status. That of `Usage` takes no memory.
pub(crate) fn line_of(alloc: Global, status: &Status) -> Result<Line, AllocError>
    ensures text { IfOk result (λ l. line_text l ≡ line_of status.now) }
    ensures usage { status.now ≡ Status.Usage → IsOk result }
{
    match status {
        Status::Done | Status::WriteFault => Ok(Line::Fixed("")),
        Status::Usage => Ok(Line::Fixed(USAGE)),
        Status::GraphRefused(cause) => graph_line(alloc, cause),
        Status::TokensRefused(cause) => tokens_line(alloc, cause),
        Status::RunRefused(refusal) => Ok(Line::Written(refusal_line(alloc, refusal)?)),
        Status::ReadFault(which) => Ok(Line::Fixed(read_line(*which))),
        Status::WantOfMemory => Ok(Line::Fixed(MEMORY)),
        Status::JournalRefused(cause) => journal_line(alloc, cause),
    }
}

/// Appends the line of a stream with tokens left.
fn push_left(text: &mut String, name: &Name, count: u64) -> Result<(), AllocError>
    ensures { OnOk result (string_bytes text.new ≡ string_bytes text.old ++ (if count == 0 then [] else left_line name.now count)) }
{
    if count == 0 {
        return Ok(());
    }
    let name = name.text();
    write!(text, "left: {name} {count}\n")
}

/// A line for each stream with tokens left, in the order of the inputs.
pub(crate) fn left_lines(
    alloc: Global,
    inputs: &[Interface],
    left: &[u64],
) -> Result<String, AllocError>
    ensures { IfOk result (λ s. string_bytes s ≡ left_lines inputs.now left.now) }
{
    let mut text = String::new(alloc);
    let count = inputs.len().min(left.len());
    for input in 0..count {
        push_left(&mut text, &inputs[input].name, left[input])?;
    }
    Ok(text)
}
