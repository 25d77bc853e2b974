// What a run is given: graphs, tokens, and what an iteration takes of them.
ghost use Rattle.std.specs.Prelude.{◌≡◌, IfOk};
ghost use Rattle.kernel_gate.specs.Value.{lengths};
ghost use Rattle.board_calls.specs.Given.{AreSound, IfTaken};

use case_rows::Trouble;
use graph_laws::kernels_fit;
use graph_reader::read;
use kernel_gate::Gate;
use kernel_library::Library;
use param_expr::Name;
use pisdf_meaning::copy_name;
use pisdf_model::{Graph, Graphs, Interface};
use sdf_level::List;
use std::alloc::Global;
use std::fmt::Write;
use token_text::read_tokens;

/// The graphs of a file, in which `'` stands for `"`, over the library's kernels.
pub(crate) fn graphs_of(alloc: Global, file: &str) -> Result<Graphs, Trouble>
    ensures { IfOk result AreSound }
{
    kernels_fit();
    let file = String::from_str(alloc, file)?.replace(alloc, '\'', "\"")?;
    match read(alloc, file.as_bytes(), Library.signatures()) {
        Ok(graphs) => Ok(graphs),
        Err(_) => Err(Trouble::Member("file")),
    }
}

/// The top graph.
pub(crate) fn top_of(graphs: &Graphs) -> &Graph
    requires { AreSound graphs.now }
{
    &graphs.graphs.items()[graphs.top as usize]
}

fn names_of(alloc: Global, inputs: &[Interface]) -> Result<Vec<Name>, Trouble> {
    let mut names = Vec::new(alloc);
    for input in inputs {
        names.push(copy_name(alloc, &input.name)?)?;
    }
    Ok(names)
}

/// The tokens of each input of the top graph, by a token file.
pub(crate) fn streams_of(
    alloc: Global,
    tokens: &str,
    graphs: &Graphs,
) -> Result<List<List<i64>>, Trouble>
    requires { AreSound graphs.now }
{
    let names = names_of(alloc, top_of(graphs).inputs.items())?;
    match read_tokens(alloc, tokens.as_bytes(), names.as_slice()) {
        Ok(streams) => Ok(streams),
        Err(_) => Err(Trouble::Member("tokens")),
    }
}

/// What is left of a stream after so many iterations.
fn rest(tokens: &[i64], number: u32, need: u32) -> &[i64] {
    let start = (number as usize)
        .saturating_mul(need as usize)
        .min(tokens.len());
    &tokens[start..]
}

/// The tokens that an iteration takes, or the line of a stream that has too few.
#[derive(Drop)]
pub(crate) enum Taken {
    All(Vec<List<i64>>),
    Short(String),
}

/// The line of a stream with too few tokens.
fn short(alloc: Global, input: &Interface, has: usize, needs: u32) -> Result<String, Trouble> {
    let name = input.name.text();
    Ok(format!(in alloc; "tokens: short {name} has {has} needs {needs}\n")?)
}

/// The tokens of each input that an iteration takes, or the line of the first that has too few.
pub(crate) fn take_ins(
    alloc: Global,
    inputs: &[Interface],
    streams: &[List<i64>],
    needs: &[u32],
    number: u32,
) -> Result<Taken, Trouble>
    ensures { IfOk result (IfTaken (λ ins. lengths ins ≡ needs.now)) }
{
    if inputs.len() != needs.len() || streams.len() != needs.len() {
        return Err(Trouble::Member("tokens"));
    }
    let mut ins = Vec::new(alloc);
    for place in 0..needs.len() {
        let need = needs[place];
        let rest = rest(streams[place].items(), number, need);
        if rest.len() < need as usize {
            let line = short(alloc, &inputs[place], rest.len(), need)?;
            return Ok(Taken::Short(line));
        }
        ins.push(List::new(Vec::from_slice(alloc, &rest[..need as usize])?))?;
    }
    Ok(Taken::All(ins))
}
