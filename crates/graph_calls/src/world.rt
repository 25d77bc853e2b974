// Shelves and sinks in memory.
use crate::parts::{bytes_answer, pair};
use case_rows::{Trouble, answer_of_text, bytes_of, items, small, text_of};
use outer_world::{LoadFault, MemoryShelf, MemorySink, Shelf, Sink};
use serde_json::Value;
use std::alloc::Global;

/// A file that is a name and a piece of text.
fn file_of(alloc: Global, item: &Value, name: &'static str) -> Result<(String, Vec<u8>), Trouble> {
    let (file, text) = pair(item, name)?;
    Ok((text_of(alloc, file)?, bytes_of(alloc, text)?))
}

/// The row's files of this name, each a name and a piece of text.
pub fn files_of(
    alloc: Global,
    row: &Value,
    name: &'static str,
) -> Result<Vec<(String, Vec<u8>)>, Trouble> {
    let mut files = Vec::new(alloc);
    for item in items(row, name)? {
        files.push(file_of(alloc, item, name)?)?;
    }
    Ok(files)
}

/// A whole number.
fn whole_of(item: &Value, name: &'static str) -> Result<u64, Trouble> {
    match item.as_u64() {
        Some(number) => Ok(number),
        None => Err(Trouble::Member(name)),
    }
}

/// The numbers of the loads that fail.
pub fn failing_loads(alloc: Global, row: &Value, name: &'static str) -> Result<Vec<u64>, Trouble> {
    let mut numbers = Vec::new(alloc);
    for item in items(row, name)? {
        numbers.push(whole_of(item, name)?)?;
    }
    Ok(numbers)
}

/// A put that fails.
fn put_of(item: &Value, name: &'static str) -> Result<(u64, usize), Trouble> {
    let (number, kept) = pair(item, name)?;
    Ok((whole_of(number, name)?, whole_of(kept, name)? as usize))
}

/// The puts that fail, each by its number and the count of the bytes that it keeps.
pub fn failing_puts(
    alloc: Global,
    row: &Value,
    name: &'static str,
) -> Result<Vec<(u64, usize)>, Trouble> {
    let mut puts = Vec::new(alloc);
    for item in items(row, name)? {
        puts.push(put_of(item, name)?)?;
    }
    Ok(puts)
}

/// The text that bytes are behind a word.
pub fn text_after(alloc: Global, word: &str, bytes: &[u8]) -> Result<Value, Trouble> {
    let mut all = Vec::from_slice(alloc, word.as_bytes())?;
    all.extend_from_slice(bytes)?;
    bytes_answer(alloc, all)
}

/// The answer of a load, which is the name of a file and the most bytes that it may have.
fn load_told(alloc: Global, shelf: &mut MemoryShelf, load: &Value) -> Result<Value, Trouble> {
    let (name, most) = pair(load, "loads")?;
    let most = whole_of(most, "loads")? as usize;
    let name = text_of(alloc, name)?;
    match shelf.load(name.as_str(), most) {
        Ok(bytes) => text_after(alloc, "ok ", bytes.as_slice()),
        Err(LoadFault::Failed) => answer_of_text(alloc, "failed"),
        Err(LoadFault::TooLong) => answer_of_text(alloc, "too long"),
        Err(LoadFault::Memory) => Err(Trouble::Memory),
    }
}

/// The answers of the row's loads from a shelf of the row's files.
pub fn loads(alloc: Global, row: &Value) -> Result<Value, Trouble> {
    let loads = items(row, "loads")?;
    let failing = failing_loads(alloc, row, "failing")?;
    let mut shelf = MemoryShelf::new(alloc, files_of(alloc, row, "files")?, failing);
    let mut answers = Vec::new(alloc);
    for load in loads {
        answers.push(load_told(alloc, &mut shelf, load)?)?;
    }
    Ok(Value::from(answers))
}

/// The answer of a put of a piece of text, with what the sink holds then.
fn put_told(alloc: Global, sink: &mut MemorySink, put: &Value) -> Result<Value, Trouble> {
    let bytes = bytes_of(alloc, put)?;
    let word = match sink.put(bytes.as_slice()) {
        Ok(()) => "ok ",
        Err(_) => "failed ",
    };
    text_after(alloc, word, sink.bytes())
}

/// The answers of the row's puts to a sink with so much room, each with what the sink holds then.
pub fn puts(alloc: Global, row: &Value) -> Result<Value, Trouble> {
    let puts = items(row, "puts")?;
    let room = small(row, "room")? as usize;
    let mut sink = MemorySink::new(alloc, room, failing_puts(alloc, row, "failing")?)?;
    let mut answers = Vec::new(alloc);
    for put in puts {
        answers.push(put_told(alloc, &mut sink, put)?)?;
    }
    Ok(Value::from(answers))
}
