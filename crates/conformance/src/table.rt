// One table: each of its lines is a case of a call, or a graph with cases of it.
use crate::answers::{Call, answer};
use board_calls::outcomes;
use case_rows::{Outcome, Table, Trouble, outcome_of};
use std::alloc::Global;
use std::rt::Files;
use std::sync::Wait;
use std::thread::Threads;
use std::{fs, io};

/// What becomes of the case of the next line, if it is one.
fn outcomes_of_call<R: Threads + Wait + Sync>(
    rt: &R,
    alloc: Global,
    table: &mut Table,
    call: Call,
    line: &str,
) -> Result<Vec<Outcome>, Trouble> {
    let mut outcomes = Vec::new(alloc);
    if let Some(row) = table.next_row(alloc, line)? {
        let answer = answer(call, rt, alloc, &row)?;
        outcomes.push(outcome_of(alloc, &row, &answer)?)?;
    }
    Ok(outcomes)
}

/// Runs the cases of a line.
fn run_line<R: Print + AllocGlobal + Threads + Wait + Sync>(
    rt: &R,
    table: &mut Table,
    call: Option<Call>,
    line: &str,
) -> io::Result<()> {
    let alloc = rt.alloc();
    let outcomes = match call {
        Some(call) => outcomes_of_call(rt, alloc, table, call, line),
        None => outcomes(rt, alloc, table, line),
    };
    match outcomes {
        Ok(outcomes) => {
            for outcome in outcomes {
                table.see(rt, Ok(outcome))?;
            }
            Ok(())
        }
        Err(trouble) => table.see(rt, Err(trouble)),
    }
}

/// Runs the cases of a file, which are about a call, or else about graphs, and prints how many there are.
fn run_table<R: Files + Print + AllocGlobal + Threads + Wait + Sync>(
    rt: &R,
    file: &'static str,
    call: Option<Call>,
) -> io::Result<()> {
    let text = fs::read_to_string(rt, file)?;
    let mut table = Table::new(rt.alloc(), file);
    for line in text.as_str().lines() {
        run_line(rt, &mut table, call, line)?;
    }
    table.close(rt)
}

/// Runs the cases of files, each of which is about a call.
pub fn run_calls<R: Files + Print + AllocGlobal + Threads + Wait + Sync>(
    rt: &R,
    tables: &[(&'static str, Call)],
) -> io::Result<()> {
    for (file, call) in tables {
        run_table(rt, *file, Some(*call))?;
    }
    Ok(())
}

/// Runs the cases of files about graphs.
pub fn run_boards<R: Files + Print + AllocGlobal + Threads + Wait + Sync>(
    rt: &R,
    files: &[&'static str],
) -> io::Result<()> {
    for file in files {
        run_table(rt, *file, None)?;
    }
    Ok(())
}
