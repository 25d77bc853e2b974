// The checks of graphs.
use crate::graphs::{delay_of, graphs_of};
use crate::parts::{name_of, text_answer};
use crate::shown::{Shown, Writing, text_of};
use case_rows::{Trouble, answer_of_text, items, member, small_of, small_or, word};
use pisdf_model::{
    AnyCounts, Body, Counted, Counts, DetailFault, FifoPlace, Graphs, Life, ModelFault, Scope,
    ScopedName, count, depth, duplicate, graph_cycle, in_range, interface_wire, life_of,
    param_order, port_text, ports, push_name, repeat, well_formed, wire,
};
use serde_json::Value;
use std::alloc::{AllocError, Global};

/// Where no actor fits its kernel.
struct NoCounts;

impl Counts for NoCounts {
    ghost use Rattle.std.specs.Prelude.{false};

    ghost fits = { λ _ _. false };

    fn fit(&self, _body: &Body) -> bool {
        false
    }
}

/// The fault of a check, or `none`.
fn fault_text<F: Shown + Drop>(
    alloc: Global,
    answer: Result<(), DetailFault<F>>,
) -> Result<String, AllocError> {
    match answer {
        Ok(()) => String::from_str(alloc, "none"),
        Err(DetailFault::Fault(fault)) => text_of(alloc, &fault),
        Err(DetailFault::Memory) => Err(AllocError),
    }
}

/// The graph and the number of a FIFO that may not stand where it does.
impl Shown for FifoPlace {
    fn show(&self, writing: &mut Writing) {
        writing.put(format_args!("{} {}", self.graph.text(), self.fifo));
    }
}

/// What there is too much of.
impl Shown for Counted {
    fn show(&self, writing: &mut Writing) {
        let counted = *self;
        writing.put(counted.word());
    }
}

/// The fault that stands first, with its number.
fn first(alloc: Global, graphs: &Graphs) -> Result<String, AllocError> {
    if !in_range(graphs) {
        return String::from_str(alloc, "out of range");
    }
    match well_formed(alloc, graphs) {
        Ok(()) => String::from_str(alloc, "none"),
        Err(ModelFault::Fault(number, name)) => format!(in alloc; "{number} {}", name.text()),
        Err(ModelFault::Memory) => Err(AllocError),
    }
}

/// The answer of a check that asks for numbers in range.
#[tactic(auto, using(pisdf_model::proofs::Referring::each_refers_to_params, pisdf_model::proofs::Referring::refers_to_graphs))]
fn ranged(alloc: Global, check: &str, graphs: &Graphs) -> Result<String, AllocError> {
    if !in_range(graphs) {
        return String::from_str(alloc, "out of range");
    }
    match check {
        "order" => fault_text(alloc, param_order(alloc, graphs)),
        "cycle" => fault_text(alloc, graph_cycle(alloc, graphs)),
        "depth" => fault_text(alloc, depth(alloc, graphs)),
        _ => String::from_str(alloc, "no check"),
    }
}

/// The answer of a check.
fn check_told(alloc: Global, check: &str, graphs: &Graphs) -> Result<String, AllocError> {
    match check {
        "all" => first(alloc, graphs),
        "duplicate" => fault_text(alloc, duplicate(alloc, graphs)),
        "ports" => fault_text(alloc, ports(alloc, &AnyCounts, graphs)),
        "no counts" => fault_text(alloc, ports(alloc, &NoCounts, graphs)),
        "wire" => fault_text(alloc, wire(alloc, graphs)),
        "interface" => fault_text(alloc, interface_wire(graphs)),
        "count" => fault_text(alloc, count(alloc, graphs)),
        _ => ranged(alloc, check, graphs),
    }
}

/// The answer of the row's check on the row's graphs.
pub fn checked(alloc: Global, row: &Value) -> Result<Value, Trouble> {
    let check = word(row, "check")?;
    let graphs = graphs_of(alloc, row)?;
    if check == "range" {
        return Ok(Value::from(in_range(&graphs)));
    }
    text_answer(check_told(alloc, check, &graphs))
}

/// Puts an item's name behind the names that are there. It has to be the only one among a graph's parts, or among the graphs.
fn push_named(alloc: Global, names: &mut Vec<ScopedName>, item: &Value) -> Result<(), Trouble> {
    let scope = match item.get("parts") {
        None => Scope::Graphs,
        Some(graph) => Scope::Parts {
            graph: small_of(graph, "parts")? as usize,
        },
    };
    let name = name_of(alloc, word(item, "name")?)?;
    push_name(names, scope, &name)?;
    Ok(())
}

/// The first of the row's names that is repeated in its scope, or `none`. A name is a text and the number of a graph's
/// parts, or the text alone for the name of a graph.
pub fn repeated(alloc: Global, row: &Value) -> Result<Value, Trouble> {
    let mut names = Vec::new(alloc);
    for item in items(row, "names")? {
        push_named(alloc, &mut names, item)?;
    }
    text_answer(fault_text(alloc, repeat(alloc, names.as_slice())))
}

/// The text of an actor's port.
fn port_told(alloc: Global, actor: &str, port: &str) -> Result<Value, Trouble> {
    let actor = name_of(alloc, actor)?;
    let port = name_of(alloc, port)?;
    match port_text(alloc, &actor, &port) {
        Ok(text) => answer_of_text(alloc, text.text()),
        Err(_) => Err(Trouble::Memory),
    }
}

/// The life that the row's version gives a delay whose file states the row's `life`, or the text of an actor's port.
pub fn small_calls(alloc: Global, row: &Value) -> Result<Value, Trouble> {
    if row.get("port").is_some() {
        return port_told(alloc, word(row, "actor")?, word(row, "port")?);
    }
    let version = small_or(row, "version", 1)?;
    let is_top = member(row, "top")?.as_bool() == Some(true);
    let stated = match word(row, "life") {
        Ok("permanent") => Life::Permanent,
        _ => Life::Firing,
    };
    let delay = delay_of(alloc, member(row, "delay")?)?;
    let word = match life_of(version, is_top, stated, delay.items()) {
        Life::Firing => "firing",
        Life::Permanent => "permanent",
    };
    answer_of_text(alloc, word)
}
