// The lines of a table, and what is told of them.
use crate::bases::{Bases, keep_base, with_base};
use crate::notation::text_of;
use crate::number_lists::written_out;
use crate::row::member;
use crate::trouble::Trouble;
use serde_json::Value;
use std::alloc::Global;
use std::io;

/// What became of a case.
#[derive(Drop)]
pub enum Outcome {
    /// It gave the wanted answer.
    Same,
    /// It gave the second answer, where the first is wanted.
    Different(String, String),
}

/// Whether an answer, or a part of one, is the wanted one.
fn is_same(alloc: Global, wanted: &Value, answer: &Value) -> Result<bool, Trouble> {
    match answer {
        Value::String(text) => Ok(text_of(alloc, wanted)?.as_str() == text.as_str()),
        _ => Ok(written_out(wanted, alloc)? == *answer),
    }
}

/// Whether an answer of texts and others is the wanted one.
fn are_wanted(alloc: Global, wanted: &[Value], answers: &[Value]) -> Result<bool, Trouble> {
    if wanted.len() != answers.len() {
        return Ok(false);
    }
    for (one, answer) in wanted.iter().zip(answers) {
        if !is_same(alloc, one, answer)? {
            return Ok(false);
        }
    }
    Ok(true)
}

/// Whether an answer is the wanted one.
fn is_wanted(alloc: Global, wanted: &Value, answer: &Value) -> Result<bool, Trouble> {
    match answer {
        Value::Array(answers) if matches!(answers.first(), Some(Value::String(_))) =>
            match wanted.as_array() {
                Some(wanted) => are_wanted(alloc, wanted.as_slice(), answers.as_slice()),
                None => Ok(false),
            },
        _ => is_same(alloc, wanted, answer),
    }
}

/// What becomes of a case that gave this answer.
///
/// # Errors
///
/// [`Trouble`].
pub fn outcome_of(alloc: Global, row: &Value, answer: &Value) -> Result<Outcome, Trouble> {
    let wanted = member(row, "want")?;
    if is_wanted(alloc, wanted, answer)? {
        return Ok(Outcome::Same);
    }
    Ok(Outcome::Different(wanted.to_string(alloc)?, answer.to_string(alloc)?))
}

/// The lines of a table so far: how many cases they are, and how many of these gave another answer than the wanted one.
#[derive(Drop)]
pub struct Table {
    file: &'static str,
    bases: Bases,
    line: u32,
    cases: u32,
    differences: u32,
}

impl Table {
    /// A table of which no line is read yet.
    pub fn new(alloc: Global, file: &'static str) -> Table {
        Table {
            file,
            bases: Bases::new(alloc),
            line: 0,
            cases: 0,
            differences: 0,
        }
    }

    /// The row of the next line, or none where the line only keeps a text for later ones.
    ///
    /// # Errors
    ///
    /// [`Trouble`].
    pub fn next_row(&mut self, alloc: Global, line: &str) -> Result<Option<Value>, Trouble> {
        self.line = self.line.saturating_add(1);
        let Ok(mut row) = Value::from_str(alloc, line) else {
            return Err(Trouble::Member("the line"));
        };
        if row.get("base").is_some() {
            keep_base(alloc, &mut self.bases, &row)?;
            return Ok(None);
        }
        with_base(alloc, &self.bases, &mut row)?;
        Ok(Some(row))
    }

    /// Counts a case of the line, and prints its answer where it isn't the wanted one.
    ///
    /// # Errors
    ///
    /// Where nothing could be printed.
    pub fn see(&mut self, rt: &impl Print, outcome: Result<Outcome, Trouble>) -> io::Result<()> {
        self.cases = self.cases.saturating_add(1);
        if matches!(outcome, Ok(Outcome::Same)) {
            return Ok(());
        }
        self.differences = self.differences.saturating_add(1);
        let file = self.file;
        let line = self.line;
        match outcome {
            Ok(Outcome::Same) => Ok(()),
            Ok(Outcome::Different(wanted, got)) => {
                println!(rt; "{file}, line {line}: wanted {wanted}, got {got}")
            }
            Err(Trouble::Member(name)) => println!(rt; "{file}, line {line}: {name} is wrong"),
            Err(Trouble::Memory) => println!(rt; "{file}, line {line}: no memory"),
        }
    }

    /// Prints how many cases there are, and how many gave another answer than the wanted one.
    ///
    /// # Errors
    ///
    /// Where nothing could be printed.
    pub fn close(self, rt: &impl Print) -> io::Result<()> {
        let file = self.file;
        let cases = self.cases;
        let differences = self.differences;
        println!(rt; "{file}: {cases} cases, {differences} with another answer")
    }
}
