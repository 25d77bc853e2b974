ghost use Rattle.std.specs.Prelude.{◌≡◌, ◌==◌, [], ◌∷◌, ◌++◌, IfOk, OnOk, Some, None, map};
ghost use Rattle.std.specs.Option.{option_copied};
ghost use Rattle.pisdf_model.specs.Details.{Answers, Refuses, of_each};
ghost use Rattle.pisdf_model.specs.EndTimes.{times_at};
ghost use Rattle.pisdf_model.specs.Wires.{actor_wires, end_text, ends_of, fifo_wires, gives_tokens, graph_wires, interface_wires, is_input_port, is_output_port, names_of_interfaces, actor_port_names, port_text, port_wires, takes_tokens, text_or_none, wire_faults};

use crate::actor::{Actor, Body};
use crate::detail_fault::DetailFault;
use crate::end_times::{EndTimes, stands_once, times_of_ends};
use crate::fifo::{End, Fifo};
use crate::graph::{Graph, Graphs};
use crate::names::fault_at;
use crate::parts::{Named, input_count, output_count};
use param_expr::Name;
use std::alloc::{AllocError, Global};

/// Puts the names of these parts behind others.
fn push_all<T: Named>(names: &mut Vec<Name>, parts: &[T]) -> Result<(), AllocError>
    ensures { OnOk result (names.new.items ≡ names.old.items ++ map T.named parts.now) }
{
    for part in parts {
        names.push(part.name().clone()?)?;
    }
    Ok(())
}

/// The names of two lists of parts, the one behind the other.
fn names_of<S: Named, T: Named>(
    alloc: Global,
    first: &[S],
    second: &[T],
) -> Result<Vec<Name>, AllocError>
    ensures { IfOk result (λ names. names.items ≡ map S.named first.now ++ map T.named second.now) }
{
    let mut names = Vec::new(alloc);
    push_all(&mut names, first)?;
    push_all(&mut names, second)?;
    Ok(names)
}

/// The names of a graph's interfaces, as ends count them.
fn names_of_interfaces(alloc: Global, graph: &Graph) -> Result<Vec<Name>, AllocError>
    ensures { IfOk result (λ names. names.items ≡ names_of_interfaces graph.now) }
{
    names_of(alloc, graph.inputs.items(), graph.outputs.items())
}

/// The names of an actor's ports, as ends count them.
fn actor_port_names(alloc: Global, graphs: &[Graph], actor: &Actor) -> Result<Vec<Name>, AllocError>
    ensures { IfOk result (λ names. names.items ≡ actor_port_names graphs.now actor.now) }
{
    match &actor.body {
        Body::Kernel { ins, outs, .. } => names_of(alloc, ins.items(), outs.items()),
        Body::Config { ins, outs, .. } => names_of(alloc, ins.items(), outs.items()),
        Body::Child { graph, .. } | Body::ConfigChild { graph, .. } => {
            match graphs.get(*graph as usize) {
                Some(child) => names_of_interfaces(alloc, child),
                None => Ok(Vec::new(alloc)),
            }
        }
    }
}

fn text_or_none(alloc: Global, name: Option<&Name>) -> Result<Name, AllocError>
    ensures { IfOk result (λ text. text ≡ text_or_none (option_copied name.entry)) }
{
    match name {
        Some(name) => name.clone(),
        None => Ok(Name::new(String::new(alloc))),
    }
}

/// The text of an end at a port: the actor's name and the port's, joined by a point. The error is want of memory.
pub fn port_text(alloc: Global, actor: &Name, port: &Name) -> Result<Name, AllocError>
    ensures { IfOk result (λ text. text ≡ port_text actor.now port.now) }
{
    let mut text = String::from_str(alloc, actor.text())?;
    text.push_str(".")?;
    text.push_str(port.text())?;
    Ok(Name::new(text))
}

/// The text of an end, as a file writes it: an interface's name, or an actor's and a port's, joined by a point.
fn end_text(alloc: Global, graphs: &[Graph], graph: &Graph, end: &End) -> Result<Name, AllocError>
    ensures { IfOk result (λ text. text ≡ end_text graphs.now graph.now end.now) }
{
    match end {
        End::Interface(place) => {
            let names = names_of_interfaces(alloc, graph)?;
            text_or_none(alloc, names.get(*place as usize))
        }
        End::Port { actor, port } => match graph.actors.items().get(*actor as usize) {
            Some(actor) => {
                let names = actor_port_names(alloc, graphs, actor)?;
                let port = text_or_none(alloc, names.get(*port as usize))?;
                port_text(alloc, &actor.name, &port)
            }
            None => Ok(Name::new(String::new(alloc))),
        },
    }
}

fn is_output_port(graphs: &[Graph], actor: Option<&Actor>, port: usize) -> bool
    ensures { result ≡ is_output_port graphs.now (option_copied actor.entry) port }
{
    match actor {
        Some(actor) => {
            let inputs = input_count(graphs, &actor.body);
            inputs <= port && port - inputs < output_count(graphs, &actor.body)
        }
        None => false,
    }
}

/// Whether an end is an input interface or an output port.
fn gives_tokens(graphs: &[Graph], graph: &Graph, end: &End) -> bool
    ensures { result ≡ gives_tokens graphs.now graph.now end.now }
{
    match end {
        End::Interface(place) => (*place as usize) < graph.inputs.items().len(),
        End::Port { actor, port } => is_output_port(
            graphs,
            graph.actors.items().get(*actor as usize),
            *port as usize,
        ),
    }
}

fn is_input_port(graphs: &[Graph], actor: Option<&Actor>, port: usize) -> bool
    ensures { result ≡ is_input_port graphs.now (option_copied actor.entry) port }
{
    match actor {
        Some(actor) => port < input_count(graphs, &actor.body),
        None => false,
    }
}

/// Whether an end is an output interface or an input port.
fn takes_tokens(graphs: &[Graph], graph: &Graph, end: &End) -> bool
    ensures { result ≡ takes_tokens graphs.now graph.now end.now }
{
    match end {
        End::Interface(place) => {
            let place = *place as usize;
            let inputs = graph.inputs.items().len();
            inputs <= place && place - inputs < graph.outputs.items().len()
        }
        End::Port { actor, port } => is_input_port(
            graphs,
            graph.actors.items().get(*actor as usize),
            *port as usize,
        ),
    }
}

fn fault_at_end(alloc: Global, graphs: &[Graph], graph: &Graph, end: &End) -> DetailFault<Name>
    ensures { Refuses (end_text graphs.now graph.now end.now ∷ []) result }
{
    match end_text(alloc, graphs, graph, end) {
        Ok(text) => DetailFault::Fault(text),
        Err(_) => DetailFault::Memory,
    }
}

fn fifo_runs(
    alloc: Global,
    graphs: &[Graph],
    graph: &Graph,
    fifo: &Fifo,
) -> Result<(), DetailFault<Name>>
    ensures { Answers (fifo_wires graphs.now graph.now fifo.now) result }
{
    if !gives_tokens(graphs, graph, &fifo.tail) {
        return Err(fault_at_end(alloc, graphs, graph, &fifo.tail));
    }
    if !takes_tokens(graphs, graph, &fifo.head) {
        return Err(fault_at_end(alloc, graphs, graph, &fifo.head));
    }
    Ok(())
}

fn fifos_run(alloc: Global, graphs: &[Graph], graph: &Graph) -> Result<(), DetailFault<Name>>
    ensures { Answers (of_each (λ n f. fifo_wires graphs.now graph.now f) graph.now.fifos) result }
{
    for fifo in graph.fifos.items() {
        fifo_runs(alloc, graphs, graph, fifo)?;
    }
    Ok(())
}

fn push_ends(ends: &mut Vec<End>, fifo: &Fifo) -> Result<(), AllocError>
    ensures { OnOk result (ends.new.items ≡ ends.old.items ++ fifo.now.tail ∷ fifo.now.head ∷ []) }
{
    ends.push(fifo.tail)?;
    ends.push(fifo.head)?;
    Ok(())
}

/// All ends of FIFOs.
fn ends_of(alloc: Global, fifos: &[Fifo]) -> Result<Vec<End>, AllocError>
    ensures { IfOk result (λ ends. ends.items ≡ ends_of fifos.now) }
{
    let mut ends = Vec::new(alloc);
    for fifo in fifos {
        push_ends(&mut ends, fifo)?;
    }
    Ok(ends)
}

fn interfaces_stand(times: &EndTimes, names: &[Name]) -> Result<(), DetailFault<Name>>
    ensures { Answers (of_each (λ i name. interface_wires (λ i. times_at times.now (None, i)) i name) names.now) result }
{
    for (place, name) in names.iter().enumerate() {
        if !stands_once(times, None, place) {
            return Err(fault_at(name));
        }
    }
    Ok(())
}

fn fault_at_port(alloc: Global, actor: &Name, port: &Name) -> DetailFault<Name>
    ensures { Refuses (port_text actor.now port.now ∷ []) result }
{
    match port_text(alloc, actor, port) {
        Ok(text) => DetailFault::Fault(text),
        Err(_) => DetailFault::Memory,
    }
}

fn ports_stand(
    alloc: Global,
    times: &EndTimes,
    number: usize,
    actor: &Name,
    names: &[Name],
) -> Result<(), DetailFault<Name>>
    ensures { Answers (of_each (λ p name. port_wires (λ a p. times_at times.now (Some a, p)) number actor.now p name) names.now) result }
{
    for (port, name) in names.iter().enumerate() {
        if !stands_once(times, Some(number), port) {
            return Err(fault_at_port(alloc, actor, name));
        }
    }
    Ok(())
}

fn actor_stands(
    alloc: Global,
    times: &EndTimes,
    graphs: &[Graph],
    number: usize,
    actor: &Actor,
) -> Result<(), DetailFault<Name>>
    ensures { Answers (actor_wires (λ a p. times_at times.now (Some a, p)) graphs.now number actor.now) result }
{
    let names = actor_port_names(alloc, graphs, actor)?;
    ports_stand(alloc, times, number, &actor.name, names.as_slice())
}

fn actors_stand(
    alloc: Global,
    times: &EndTimes,
    graphs: &[Graph],
    actors: &[Actor],
) -> Result<(), DetailFault<Name>>
    ensures { Answers (of_each (λ a actor. actor_wires (λ a p. times_at times.now (Some a, p)) graphs.now a actor) actors.now) result }
{
    for (number, actor) in actors.iter().enumerate() {
        actor_stands(alloc, times, graphs, number, actor)?;
    }
    Ok(())
}

fn graph_wires(alloc: Global, graphs: &[Graph], graph: &Graph) -> Result<(), DetailFault<Name>>
    ensures { Answers (graph_wires graphs.now graph.now) result }
{
    fifos_run(alloc, graphs, graph)?;
    let ends = ends_of(alloc, graph.fifos.items())?;
    let times = times_of_ends(alloc, ends.as_slice())?;
    let names = names_of_interfaces(alloc, graph)?;
    interfaces_stand(&times, names.as_slice())?;
    actors_stand(alloc, &times, graphs, graph.actors.items())
}

/// Whether each FIFO leads from an input interface or an output port to an output interface or an input port, and each
/// interface and port stands at one end of a FIFO.
///
/// # Errors
///
/// - `Fault`: graph by graph, the text of the first end that doesn't, as a file writes it. The FIFOs come first, each
///   with its tail before its head; then the inputs, the outputs, and actor by actor its inputs and outputs.
/// - `Memory`: want of memory.
pub fn wire(alloc: Global, graphs: &Graphs) -> Result<(), DetailFault<Name>>
    ensures { Answers (wire_faults graphs.now) result }
{
    let all = graphs.graphs.items();
    for graph in all {
        graph_wires(alloc, all, graph)?;
    }
    Ok(())
}
