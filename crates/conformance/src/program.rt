// The whole program, over a shelf and sinks in memory, with the library of kernels or with kernels that are watched.
ghost use Rattle.std.specs.Prelude.{◌≡◌};
ghost use Rattle.kernel_gate.specs.Table.{the_signatures};

use crate::blocks::Blocks;
use crate::meeting::{Meeting, TURNS};
use case_rows::{Trouble, small, small_or, text};
use graph_calls::world::{failing_loads, failing_puts, files_of, text_after};
use kernel_gate::Gate;
use kernel_library::Library;
use outer_world::{MemoryShelf, MemorySink};
use pisdf_program::run_program;
use serde_json::Value;
use std::alloc::Global;
use std::sync::Wait;
use std::thread::Threads;

/// The row's `words`, which blanks separate.
fn words_of(alloc: Global, row: &Value) -> Result<Vec<String>, Trouble> {
    let mut words = Vec::new(alloc);
    for word in text(alloc, row, "words")?.as_str().split_whitespace() {
        words.push(String::from_str(alloc, word)?)?;
    }
    Ok(words)
}

/// A shelf with the row's `files`, of whose loads those in `failing_loads` fail.
fn shelf_of(alloc: Global, row: &Value) -> Result<MemoryShelf, Trouble> {
    let failing = failing_loads(alloc, row, "failing_loads")?;
    Ok(MemoryShelf::new(alloc, files_of(alloc, row, "files")?, failing))
}

/// An output with the row's `room`, a million bytes where it has none, of whose puts those that the member has fail.
fn output_of(alloc: Global, row: &Value, failing: &'static str) -> Result<MemorySink, Trouble> {
    let room = small_or(row, "room", 1_000_000)? as usize;
    Ok(MemorySink::new(alloc, room, failing_puts(alloc, row, failing)?)?)
}

/// What the program puts to its two outputs for the row's words, and its exit status. Where puts are to fail, the row has
/// `failing_out` and `failing_err`.
fn answers<K: Gate + Sync, R: Threads + Wait + Sync>(
    rt: &R,
    alloc: Global,
    row: &Value,
    gate: &K,
) -> Result<Vec<Value>, Trouble>
    requires { K.kernels gate.now ≡ the_signatures }
{
    let words = words_of(alloc, row)?;
    let mut shelf = shelf_of(alloc, row)?;
    let mut out = output_of(alloc, row, "failing_out")?;
    let mut err = output_of(alloc, row, "failing_err")?;
    let status = run_program(
        rt,
        alloc,
        words.as_slice(),
        &mut shelf,
        &mut out,
        &mut err,
        gate,
    );
    let answers = vec![in alloc;
        text_after(alloc, "", out.bytes())?,
        text_after(alloc, "", err.bytes())?,
        Value::from(status.code()),
    ]?;
    Ok(answers)
}

/// What the program puts to its two outputs, and its exit status.
pub fn ran<R: Threads + Wait + Sync>(rt: &R, alloc: Global, row: &Value) -> Result<Value, Trouble> {
    Ok(Value::from(answers(rt, alloc, row, &Library)?))
}

/// As [`ran`], with kernels that wait for one another: and at last whether as many of them as the row's `workers` have begun
/// before one of them went on, each of which waits for so many `turns` at most.
pub fn met<R: Threads + Wait + Sync>(rt: &R, alloc: Global, row: &Value) -> Result<Value, Trouble> {
    let gate = Meeting::new(small(row, "workers")?, small_or(row, "turns", TURNS)?);
    let mut answers = answers(rt, alloc, row, &gate)?;
    answers.push(Value::from(gate.has_met()))?;
    Ok(Value::from(answers))
}

/// As [`ran`], where one worker fires all kernels: and at last in how many blocks, each of firings of one kernel that come one
/// after another.
pub fn fired_in_blocks<R: Threads + Wait + Sync>(
    rt: &R,
    alloc: Global,
    row: &Value,
) -> Result<Value, Trouble> {
    let gate = Blocks::new();
    let mut answers = answers(rt, alloc, row, &gate)?;
    answers.push(Value::from(gate.count()))?;
    Ok(Value::from(answers))
}
