// Loading the two files of a run, and a journal.
ghost use Rattle.std.specs.Prelude.{◌≡◌, ◌<◌, ◌≤◌, ◌↔◌, ℕ, List as Seq, Some, length, map, IfOk, IfErr, IsTrue, Result as Read};
ghost use Rattle.token_text.specs.Streams.{read_of};
ghost use Rattle.pisdf_program.specs.Loaded.{AreGood, FaultsOnly, NoFault, Settles, StopsReading};
ghost use Rattle.pisdf_program.specs.Result.{ReadsFiles, graphs_in_json, json_of, read_graphs, read_journal, read_streams, streams_in};
ghost use Rattle.quiescent_driver.specs.Top.{top_of};
ghost use Rattle.pisdf_program.specs.Inputs.{input_names};
ghost use Rattle.pisdf_program.specs.Worked.{FilesRose};
ghost use Rattle.pisdf_program.specs.declared.load.Input.{Input as Files};
ghost use Rattle.pisdf_program.specs.declared.status.Status.{Status as Answer};
ghost use Rattle.kernel_gate.specs.Signed.{signature_view};
ghost use Rattle.kernel_gate.specs.Table.{the_signatures};

use crate::limits;
use crate::status::{GraphCause, JournalCause, Status, TokenCause, Which};
use graph_format::GraphFault;
use graph_laws::kernels_fit;
use graph_reader::read;
use kernel_gate::Signature;
use outer_world::{LoadFault, Shelf};
use param_expr::Name;
use pisdf_model::{Graphs, Interface};
use quiescent_driver::top_of;
use sdf_level::List;
use std::alloc::{AllocError, Global};
use token_text::{TokenFault, read_tokens};

fn is_memory(fault: &GraphFault) -> bool
    ensures { IsTrue result ↔ (fault.now ≡ GraphFault.Memory) }
{
    matches!(fault, GraphFault::Memory)
}

/// The graphs in the bytes of a file.
pub(crate) fn parse_graphs(
    alloc: Global,
    bytes: &[u8],
    signatures: &[Signature],
) -> Result<Graphs, Status>
    requires { map signature_view signatures.now ≡ the_signatures }
    ensures settles { Settles (graphs_in_json (json_of bytes.now)) result }
    ensures good { IfOk result AreGood }
    ensures faults { IfErr result NoFault }
{
    kernels_fit();
    match read(alloc, bytes, signatures) {
        Ok(graphs) => Ok(graphs),
        Err(fault) => {
            if is_memory(&fault) {
                return Err(Status::WantOfMemory);
            }
            Err(Status::GraphRefused(GraphCause::Fault(fault)))
        }
    }
}

/// The graphs in the bytes of a file, unless there are too many of these.
pub(crate) fn graphs_in(
    alloc: Global,
    bytes: &[u8],
    signatures: &[Signature],
) -> Result<Graphs, Status>
    requires { map signature_view signatures.now ≡ the_signatures }
    ensures settles { Settles (read_graphs bytes.now) result }
    ensures good { IfOk result AreGood }
    ensures faults { IfErr result NoFault }
{
    if bytes.len() > limits::GRAPH_BYTES {
        return Err(Status::GraphRefused(GraphCause::TooLong));
    }
    parse_graphs(alloc, bytes, signatures)
}

/// Loads a graph file, and reads the graphs in it.
pub(crate) fn load_graphs<S: Shelf>(
    alloc: Global,
    shelf: &mut S,
    name: &str,
    signatures: &[Signature],
) -> Result<Graphs, Status>
    requires { map signature_view signatures.now ≡ the_signatures }
    ensures settles { (told : Seq ℕ) → S.holds shelf.old name.now ≡ Some told → Settles (read_graphs told) result }
    ensures good { IfOk result AreGood }
    ensures faults { IfErr result (FaultsOnly Which.Graph (S.faults shelf.old name.now) (S.faults shelf.new name.now)) }
    ensures contents { (other : Seq ℕ) → S.holds shelf.new other ≡ S.holds shelf.old other }
    ensures never_falls { (other : Seq ℕ) → S.faults shelf.old other ≤ S.faults shelf.new other }
{
    match shelf.load(name, limits::GRAPH_BYTES) {
        Ok(bytes) => graphs_in(alloc, bytes.as_slice(), signatures),
        Err(LoadFault::Failed) => Err(Status::ReadFault(Which::Graph)),
        Err(LoadFault::TooLong) => Err(Status::GraphRefused(GraphCause::TooLong)),
        Err(LoadFault::Memory) => Err(Status::WantOfMemory),
    }
}

/// The names of inputs.
fn names_of(alloc: Global, inputs: &[Interface]) -> Result<Vec<Name>, AllocError>
    ensures { IfOk result (λ v. v.items ≡ map (λ i. i.name) inputs.now) }
{
    let mut names = Vec::with_capacity(alloc, inputs.len())?;
    for input in inputs {
        names.push(input.name.clone()?)?;
    }
    Ok(names)
}

/// The streams in the bytes of a file.
fn parse_streams(alloc: Global, bytes: &[u8], graphs: &Graphs) -> Result<List<List<i64>>, Status>
    requires { graphs.now.top < length graphs.now.graphs }
    ensures settles { Settles (streams_in (read_of bytes.now (input_names graphs.now))) result }
    ensures fit { IfOk result (λ l. length l ≡ length (top_of graphs.now).inputs) }
    ensures faults { IfErr result NoFault }
{
    let Ok(names) = names_of(alloc, top_of(graphs).inputs.items()) else {
        return Err(Status::WantOfMemory);
    };
    match read_tokens(alloc, bytes, names.as_slice()) {
        Ok(streams) => Ok(streams),
        Err(TokenFault::Memory) => Err(Status::WantOfMemory),
        Err(fault) => Err(Status::TokensRefused(TokenCause::Fault(fault))),
    }
}

/// Loads the token file, and reads it.
pub(crate) fn load_streams<S: Shelf>(
    alloc: Global,
    shelf: &mut S,
    name: &str,
    graphs: &Graphs,
) -> Result<List<List<i64>>, Status>
    requires { graphs.now.top < length graphs.now.graphs }
    ensures settles { (told : Seq ℕ) → S.holds shelf.old name.now ≡ Some told → Settles (read_streams graphs.now told) result }
    ensures fit { IfOk result (λ l. length l ≡ length (top_of graphs.now).inputs) }
    ensures faults { IfErr result (FaultsOnly Which.Tokens (S.faults shelf.old name.now) (S.faults shelf.new name.now)) }
    ensures contents { (other : Seq ℕ) → S.holds shelf.new other ≡ S.holds shelf.old other }
    ensures never_falls { (other : Seq ℕ) → S.faults shelf.old other ≤ S.faults shelf.new other }
{
    match shelf.load(name, limits::TOKEN_BYTES) {
        Ok(bytes) => parse_streams(alloc, bytes.as_slice(), graphs),
        Err(LoadFault::Failed) => Err(Status::ReadFault(Which::Tokens)),
        Err(LoadFault::TooLong) => Err(Status::TokensRefused(TokenCause::TooLong)),
        Err(LoadFault::Memory) => Err(Status::WantOfMemory),
    }
}

/// What the two files of a run hold.
#[derive(Drop)]
pub(crate) struct Input {
    pub(crate) graphs: Graphs,
    /// A stream of tokens for each input of the top graph.
    pub(crate) streams: List<List<i64>>,
}

/// Loads the graph file, and then the token file, and reads them.
pub(crate) fn load_input<S: Shelf>(
    alloc: Global,
    shelf: &mut S,
    graph: &str,
    tokens: &str,
    signatures: &[Signature],
) -> Result<Input, Status>
    requires { map signature_view signatures.now ≡ the_signatures }
    ensures settles { (told : Read Files Answer) → ReadsFiles (S.holds shelf.old graph.now) (S.holds shelf.old tokens.now) told → Settles told result }
    ensures good { IfOk result (λ input. AreGood input.graphs) }
    ensures fit { IfOk result (λ input. length input.streams ≡ length (top_of input.graphs).inputs) }
    ensures stops { IfErr result StopsReading }
    ensures contents { (other : Seq ℕ) → S.holds shelf.new other ≡ S.holds shelf.old other }
    ensures never_falls { (other : Seq ℕ) → S.faults shelf.old other ≤ S.faults shelf.new other }
    ensures rose { IfErr result (FilesRose graph.now tokens.now (S.faults shelf.old) (S.faults shelf.new)) }
{
    let graphs = match load_graphs(alloc, shelf, graph, signatures) {
        Ok(graphs) => graphs,
        Err(status) => return Err(status),
    };
    match load_streams(alloc, shelf, tokens, &graphs) {
        Ok(streams) => Ok(Input { graphs, streams }),
        Err(status) => Err(status),
    }
}

/// Loads a journal.
pub(crate) fn load_journal<S: Shelf>(shelf: &mut S, name: &str) -> Result<List<u8>, Status>
    ensures settles { (told : Seq ℕ) → S.holds shelf.old name.now ≡ Some told → Settles (read_journal told) result }
    ensures faults { IfErr result (FaultsOnly Which.Journal (S.faults shelf.old name.now) (S.faults shelf.new name.now)) }
{
    match shelf.load(name, limits::JOURNAL_BYTES) {
        Ok(bytes) => Ok(List::new(bytes)),
        Err(LoadFault::Failed) => Err(Status::ReadFault(Which::Journal)),
        Err(LoadFault::TooLong) => Err(Status::JournalRefused(JournalCause::TooLong)),
        Err(LoadFault::Memory) => Err(Status::WantOfMemory),
    }
}
