// Graph files: what reading them answers, and what is written of the graphs.
ghost use Rattle.std.specs.Prelude.{◌≡◌, All, IfOk};
ghost use Rattle.graph_format.specs.Writable.{IsWritableGraph};
ghost use Rattle.pisdf_model.specs.WellFormed.{WellFormed};

use crate::parts::text_answer;
use crate::shown::text_of;
use crate::signatures::signatures_of;
use case_rows::{Trouble, answer_of_text, bytes, quoted};
use graph_format::GraphFault;
use graph_reader::read;
use graph_writer::{upgrade, write};
use kernel_gate::Signature;
use pisdf_model::Graphs;
use serde_json::Value;
use std::alloc::{AllocError, Global};

/// The bytes of the row's file: its `bytes`, or its `file`, which is written with `'` in the place of `"`.
fn file_of(alloc: Global, row: &Value) -> Result<Vec<u8>, Trouble> {
    match row.get("bytes") {
        Some(_) => bytes(alloc, row, "bytes"),
        None => quoted(alloc, row, "file"),
    }
}

/// A fault by its number, as the program tells it.
fn fault_text(alloc: Global, fault: &GraphFault) -> Result<String, AllocError> {
    match fault {
        GraphFault::NotJson => format!(in alloc; "1 json"),
        GraphFault::Shape(pointer) => format!(in alloc; "2 shape {}", pointer.text()),
        GraphFault::Version(version) => format!(in alloc; "3 version {version}"),
        GraphFault::Duplicate(name) => format!(in alloc; "4 duplicate {}", name.text()),
        GraphFault::Unknown(name) => format!(in alloc; "5 unknown {}", name.text()),
        GraphFault::Kernel(name) => format!(in alloc; "6 kernel {}", name.text()),
        GraphFault::Ports(name) => format!(in alloc; "7 ports {}", name.text()),
        GraphFault::Wire(end) => format!(in alloc; "8 wire {}", end.text()),
        GraphFault::InterfaceWire { graph, fifo } => {
            format!(in alloc; "9 interface {} {fifo}", graph.text())
        }
        GraphFault::ParamOrder(name) => format!(in alloc; "10 order {}", name.text()),
        GraphFault::GraphCycle(name) => format!(in alloc; "11 cycle {}", name.text()),
        GraphFault::Depth(name) => format!(in alloc; "12 depth {}", name.text()),
        GraphFault::Count(word) => format!(in alloc; "13 count {}", word.text()),
        GraphFault::Memory => Err(AllocError),
    }
}

/// What reading these bytes answers: `ok`, or the first fault.
fn outcome(alloc: Global, bytes: &[u8], signatures: &[Signature]) -> Result<String, AllocError> {
    match read(alloc, bytes, signatures) {
        Ok(_graphs) => String::from_str(alloc, "ok"),
        Err(fault) => fault_text(alloc, &fault),
    }
}

/// The one answer for each beginning of a file, or the answer for the first that has another than the shorter ones.
fn outcome_of_beginnings(
    alloc: Global,
    file: &[u8],
    signatures: &[Signature],
) -> Result<String, AllocError> {
    let first = outcome(alloc, b"", signatures)?;
    for length in 0..file.len() {
        let answer = outcome(alloc, &file[..length], signatures)?;
        if answer.as_str() != first.as_str() {
            return format!(in alloc; "after {length} bytes {answer}");
        }
    }
    Ok(first)
}

/// What reading the row's file answers: `ok`, or its first fault; the same for each of its beginnings, where the row asks
/// for `beginnings`.
pub fn fault(alloc: Global, row: &Value) -> Result<Value, Trouble> {
    let signatures = signatures_of(alloc, row)?;
    let file = file_of(alloc, row)?;
    text_answer(match row.get("beginnings") {
        Some(_) => outcome_of_beginnings(alloc, file.as_slice(), signatures.as_slice()),
        None => outcome(alloc, file.as_slice(), signatures.as_slice()),
    })
}

/// The graphs that are read from these bytes in a few words, or the first fault.
fn graphs_text(
    alloc: Global,
    bytes: &[u8],
    signatures: &[Signature],
) -> Result<String, AllocError> {
    match read(alloc, bytes, signatures) {
        Ok(graphs) => text_of(alloc, &graphs),
        Err(fault) => fault_text(alloc, &fault),
    }
}

/// The graphs of the row's file in a few words, or its first fault.
pub fn meaning(alloc: Global, row: &Value) -> Result<Value, Trouble> {
    let signatures = signatures_of(alloc, row)?;
    let file = file_of(alloc, row)?;
    text_answer(graphs_text(alloc, file.as_slice(), signatures.as_slice()))
}

/// These graphs, as those of version 2 where the row asks for `upgraded` ones.
fn asked_for(alloc: Global, row: &Value, graphs: Graphs) -> Result<Graphs, Trouble>
    requires { WellFormed graphs }
    ensures { IfOk result (λ asked. asked.graphs ≡ graphs.graphs) }
{
    if row.get("upgraded").is_none() {
        return Ok(graphs);
    }
    if graphs.version != 1 {
        return Err(Trouble::Member("upgraded"));
    }
    Ok(upgrade(alloc, &graphs)?)
}

/// What is read from what is written of graphs, where it isn't these.
fn unlike(
    alloc: Global,
    written: &[u8],
    graphs: &Graphs,
    signatures: &[Signature],
) -> Result<Option<String>, AllocError> {
    let first = text_of(alloc, graphs)?;
    let again = graphs_text(alloc, written, signatures)?;
    if again.as_str() == first.as_str() {
        return Ok(None);
    }
    Ok(Some(again))
}

/// What is written, with `'` in the place of `"`; `same` where it is the file.
fn written_told(alloc: Global, file: &[u8], written: Vec<u8>) -> Result<Value, Trouble> {
    if written.as_slice() == file {
        return answer_of_text(alloc, "same");
    }
    match String::from_utf8(written) {
        Ok(text) => text_answer(text.replace(alloc, '"', "'")),
        Err(_) => answer_of_text(alloc, "bytes that are no text"),
    }
}

/// What is written of graphs, or what is wrong with it.
fn graphs_rewritten(
    alloc: Global,
    file: &[u8],
    graphs: &Graphs,
    signatures: &[Signature],
) -> Result<Value, Trouble>
    requires { All IsWritableGraph graphs.now.graphs }
{
    let written = write(alloc, graphs, signatures)?;
    match unlike(alloc, written.as_slice(), graphs, signatures) {
        Ok(Some(wrong)) => Ok(Value::from(wrong)),
        Ok(None) => written_told(alloc, file, written),
        Err(_) => Err(Trouble::Memory),
    }
}

/// What is written of the graphs of the row's file, or of the upgraded ones, where these are read from it again, with `'`
/// in the place of `"`; `same` where it is the row's file.
pub fn rewritten(alloc: Global, row: &Value) -> Result<Value, Trouble> {
    let signatures = signatures_of(alloc, row)?;
    let file = file_of(alloc, row)?;
    let graphs = match read(alloc, file.as_slice(), signatures.as_slice()) {
        Ok(graphs) => asked_for(alloc, row, graphs)?,
        Err(fault) => return text_answer(fault_text(alloc, &fault)),
    };
    graphs_rewritten(alloc, file.as_slice(), &graphs, signatures.as_slice())
}
