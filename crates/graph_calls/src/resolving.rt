// What is known of graphs before their configuration actors fire, and the values of their parameters after that.
ghost use Rattle.std.specs.Prelude.{ℤ, ◌≡◌, ◌<◌, IfOk, List as Seq, length, slice_get};
ghost use Rattle.std.specs.List.{count_by};
ghost use Rattle.param_resolver.specs.EarlyCheck.{early_of};
ghost use Rattle.pisdf_model.specs.Ports.{inherited_count, is_inherited};
ghost use Rattle.pisdf_model.specs.Valid.{AreValid};

use crate::made_levels::level_told;
use crate::parts::text_answer;
use crate::shown::{Shown, Writing, text_of};
use crate::signatures::signatures_of;
use case_rows::{Trouble, answer_in, numbers, quoted, small_or};
use graph_reader::read;
use param_resolver::{Early, EarlyFault, Why, early, graphs_resolvable, part_name, resolve};
use pisdf_model::{Graph, Graphs, Param, ParamKind};
use serde_json::Value;
use std::alloc::Global;

fn is_inherited(param: &Param) -> bool
    ensures { result ≡ is_inherited param.now.kind }
{
    matches!(param.kind, ParamKind::Inherited)
}

/// How many parameters are inherited.
fn inherited_of(params: &[Param]) -> usize
    ensures { result ≡ count_by (λ p. is_inherited p.kind) params.now }
{
    params.iter().filter(|param| is_inherited(*param)).count()
}

/// The graphs of the row's file, which has `'` in the place of `"`.
pub(crate) fn graphs_read(alloc: Global, row: &Value) -> Result<Graphs, Trouble>
    ensures { IfOk result AreValid }
{
    let signatures = signatures_of(alloc, row)?;
    let file = quoted(alloc, row, "file")?;
    match read(alloc, file.as_slice(), signatures.as_slice()) {
        Ok(graphs) => Ok(graphs),
        Err(_) => Err(Trouble::Member("file")),
    }
}

/// Why a number isn't what it may be: `value` and the number, `overflow` or `division`.
impl Shown for Why {
    fn show(&self, writing: &mut Writing) {
        match self {
            Why::Value(value) => writing.put(format_args!("value {value}")),
            Why::Overflow => writing.put("overflow"),
            Why::Division => writing.put("division"),
        }
    }
}

/// Where the early check of a graph fails, and why: the place of the parameter or the word `rate`, behind the places of the
/// actors that lead to the graph.
impl Shown for EarlyFault {
    fn show(&self, writing: &mut Writing) {
        match self {
            EarlyFault::Param { param, why } => {
                writing.put(format_args!("param {param} "));
                why.show(writing);
            }
            EarlyFault::Rate { name: _, why } => {
                writing.put("rate ");
                why.show(writing);
            }
            EarlyFault::Child { actor, fault } => {
                writing.put(format_args!("actor {actor} "));
                fault.show(writing);
            }
            EarlyFault::Memory => writing.is_whole = false,
        }
    }
}

/// What is known of a graph, as a JSON text: the values of its parameters, `null` for each late one, the rates of its inputs
/// and outputs, and for each configuration actor its arguments, its output rates, and what is known of the graph that it
/// names, or `null`.
impl Shown for Early {
    fn show(&self, writing: &mut Writing) {
        writing.put_list('[', self.values.items());
        writing.put(format_args!(",{:?},{:?}", self.inputs.items(), self.outputs.items()));
        writing.put_list(',', self.args.items());
        writing.put_list(',', self.outs.items());
        writing.put(",[");
        let mut before = ' ';
        for child in &self.children {
            writing.put(before);
            match child {
                Some(child) => child.show(writing),
                None => writing.put("null"),
            }
            before = ',';
        }
        writing.put("]]");
    }
}

/// The name of the part at which the early check of a graph fails, and where and why it does.
fn fault_told(
    alloc: Global,
    graphs: &[Graph],
    graph: &Graph,
    fault: &EarlyFault,
) -> Result<Value, Trouble> {
    let name = part_name(alloc, graphs, graph, fault)?;
    let fault = text_of(alloc, fault)?;
    text_answer(format!(in alloc; "{}: {fault}", name.text()))
}

/// The values of all parameters, or where there is a fault, and why.
fn values_told(
    alloc: Global,
    graphs: &Graphs,
    place: u32,
    early: &Early,
    chosen: &[i64],
) -> Result<Value, Trouble>
    requires valid { AreValid graphs.now }
    requires there { place < length graphs.now.graphs }
{
    graphs_resolvable();
    let graph = &graphs.graphs.items()[place as usize];
    match resolve(alloc, graph, early, chosen) {
        Ok(values) => answer_in(alloc, format!(in alloc; "{:?}", values.items())),
        Err(fault) => text_answer(text_of(alloc, &EarlyFault::from(fault))),
    }
}

/// What is asked of a graph whose inherited parameters have values.
#[derive(Clone, Copy)]
pub(crate) enum Asked {
    /// What is known before its configuration actors fire, or where the row has `chosen` values the values of all parameters.
    Values,
    /// Its level, where the chosen parameters have the row's `chosen` values.
    Level,
}

/// What is asked, of a graph of which this is known.
fn asked_told(
    alloc: Global,
    row: &Value,
    graphs: &Graphs,
    place: u32,
    early: &Early,
    asked: Asked,
) -> Result<Value, Trouble>
    requires valid { AreValid graphs.now }
    requires there { place < length graphs.now.graphs }
    requires early { (inherited : Seq ℤ) × (early.now ≡ early_of graphs.now.graphs place inherited) }
{
    let chosen = numbers(alloc, row, "chosen")?;
    match asked {
        Asked::Level => level_told(alloc, graphs, place, early, chosen.as_slice()),
        Asked::Values if row.get("chosen").is_some() => {
            values_told(alloc, graphs, place, early, chosen.as_slice())
        }
        Asked::Values => answer_in(alloc, text_of(alloc, early)),
    }
}

/// What is asked of the graph at the row's place, where its inherited parameters have the row's values, or the fault.
pub(crate) fn told_of(
    alloc: Global,
    row: &Value,
    graphs: &Graphs,
    asked: Asked,
) -> Result<Value, Trouble>
    requires { AreValid graphs.now }
{
    let place = small_or(row, "graph", graphs.top)?;
    let all = graphs.graphs.items();
    if place as usize >= all.len() {
        return Err(Trouble::Member("graph"));
    }
    let graph = &all[place as usize];
    let inherited = numbers(alloc, row, "inherited")?;
    if inherited.len() != inherited_of(graph.params.items()) {
        return Err(Trouble::Member("inherited"));
    }
    match early(alloc, graphs, place, inherited.as_slice()) {
        Ok(known) => asked_told(alloc, row, graphs, place, &known, asked),
        Err(fault) => fault_told(alloc, all, graph, &fault),
    }
}

/// What is known of the graph at the row's place, where its inherited parameters have these values; or, where the row has
/// `chosen` values, the values of all parameters. Or the fault.
pub fn resolved(alloc: Global, row: &Value) -> Result<Value, Trouble> {
    let graphs = graphs_read(alloc, row)?;
    told_of(alloc, row, &graphs, Asked::Values)
}
