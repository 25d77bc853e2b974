// The names of the parts of a level.
ghost use Rattle.std.specs.Prelude.{◌≡◌, ◌++◌, ◌&&◌, [], ◌∷◌, map, slice_get, if◌then◌else◌, IfOk, OnOk};
ghost use Rattle.param_resolver.specs.Numbering.{feeds_configuration};
ghost use Rattle.pisdf_model.specs.InterfaceWires.{is_at_configuration as is_at_configuration_in};
ghost use Rattle.pisdf_model.specs.Parts.{interface_names, outputs_of};
ghost use Rattle.pisdf_model.specs.Wires.{is_interface, port_text};
ghost use Rattle.job_report.specs.Names.{actor_name, actor_names, input_source, input_sources, names_of, output_sources, source_names};

use param_expr::Name;
use pisdf_model::{
    Actor, Body, End, Fifo, Graph, Interface, Named, is_at_configuration, is_configuration,
    port_text,
};
use sdf_level::List;
use std::alloc::{AllocError, Global};

/// The names of the parts of a graph's level, each by its number there.
#[derive(Drop)]
pub(crate) struct JobNames {
    /// The actors that are no configuration actors.
    pub(crate) actors: List<Name>,
    /// The inputs that feed no configuration actor, then the outputs of the configuration actors, as `c.o`.
    pub(crate) sources: List<Name>,
    /// The outputs.
    pub(crate) sinks: List<Name>,
}

/// Puts the name of an actor behind others, unless it is a configuration actor.
fn push_actor(names: &mut Vec<Name>, actor: &Actor) -> Result<(), AllocError>
    ensures { OnOk result (names.new.items ≡ names.old.items ++ actor_name actor.now) }
{
    if !is_configuration(&actor.body) {
        names.push(actor.name.clone()?)?;
    }
    Ok(())
}

fn actor_names(alloc: Global, graph: &Graph) -> Result<Vec<Name>, AllocError>
    ensures { IfOk result (λ names. names.items ≡ actor_names graph.now) }
{
    let mut names = Vec::new(alloc);
    for actor in graph.actors.items() {
        push_actor(&mut names, actor)?;
    }
    Ok(names)
}

fn is_input(end: End, input: usize) -> bool
    ensures { result ≡ is_interface input end }
{
    match end {
        End::Interface(place) => place as usize == input,
        End::Port { .. } => false,
    }
}

/// Whether a FIFO leads from the input into a configuration actor.
fn leads_on(graph: &Graph, input: usize, fifo: &Fifo) -> bool
    ensures { result ≡ (is_interface input fifo.now.tail && is_at_configuration_in graph.now fifo.now.head) }
{
    is_input(fifo.tail, input) && is_at_configuration(graph, &fifo.head)
}

fn feeds_configuration(graph: &Graph, input: usize) -> bool
    ensures { result ≡ feeds_configuration graph.now input }
{
    graph
        .fifos
        .items()
        .iter()
        .any(|fifo| leads_on(graph, input, fifo))
}

/// Puts the name of an input behind others, unless it feeds a configuration actor.
fn push_input(
    names: &mut Vec<Name>,
    graph: &Graph,
    number: usize,
    input: &Interface,
) -> Result<(), AllocError>
    ensures { OnOk result (names.new.items ≡ names.old.items ++ input_source graph.now number input.now) }
{
    if !feeds_configuration(graph, number) {
        names.push(input.name.clone()?)?;
    }
    Ok(())
}

fn push_inputs(names: &mut Vec<Name>, graph: &Graph) -> Result<(), AllocError>
    ensures { OnOk result (names.new.items ≡ names.old.items ++ input_sources graph.now) }
{
    for (number, input) in graph.inputs.items().iter().enumerate() {
        push_input(names, graph, number, input)?;
    }
    Ok(())
}

/// Puts the names of an actor's ports, with its own before them, behind others.
fn push_ports<T: Named>(
    alloc: Global,
    names: &mut Vec<Name>,
    actor: &Name,
    ports: &[T],
) -> Result<(), AllocError>
    ensures { OnOk result (names.new.items ≡ names.old.items ++ map (port_text actor.now) (map T.named ports.now)) }
{
    for port in ports {
        names.push(port_text(alloc, actor, port.name())?)?;
    }
    Ok(())
}

/// The outputs of the graph at a place, none where there is no graph.
fn outputs_at(graphs: &[Graph], place: u32) -> &[Interface]
    ensures { result.now ≡ outputs_of (slice_get graphs.now place) }
{
    match graphs.get(place as usize) {
        Some(graph) => graph.outputs.items(),
        None => &[],
    }
}

/// Puts the names of the outputs of a configuration actor behind others.
fn push_outputs(
    alloc: Global,
    names: &mut Vec<Name>,
    graphs: &[Graph],
    actor: &Actor,
) -> Result<(), AllocError>
    ensures { OnOk result (names.new.items ≡ names.old.items ++ output_sources graphs.now actor.now) }
{
    match &actor.body {
        Body::Kernel { .. } | Body::Child { .. } => Ok(()),
        Body::Config { outs, .. } => push_ports(alloc, names, &actor.name, outs.items()),
        Body::ConfigChild { graph, .. } => {
            push_ports(alloc, names, &actor.name, outputs_at(graphs, *graph))
        }
    }
}

fn source_names(alloc: Global, graphs: &[Graph], graph: &Graph) -> Result<Vec<Name>, AllocError>
    ensures { IfOk result (λ names. names.items ≡ source_names graphs.now graph.now) }
{
    let mut names = Vec::new(alloc);
    push_inputs(&mut names, graph)?;
    for actor in graph.actors.items() {
        push_outputs(alloc, &mut names, graphs, actor)?;
    }
    Ok(names)
}

fn sink_names(alloc: Global, outputs: &[Interface]) -> Result<Vec<Name>, AllocError>
    ensures { IfOk result (λ names. names.items ≡ interface_names outputs.now) }
{
    let mut names = Vec::with_capacity(alloc, outputs.len())?;
    for output in outputs {
        names.push(output.name.clone()?)?;
    }
    Ok(names)
}

/// The names of the parts of a graph's level, where these are all graphs of its file. The only error is want of memory.
pub(crate) fn job_names(
    alloc: Global,
    graphs: &[Graph],
    graph: &Graph,
) -> Result<JobNames, AllocError>
    ensures { IfOk result (λ names. names ≡ names_of graphs.now graph.now) }
{
    Ok(JobNames {
        actors: List::new(actor_names(alloc, graph)?),
        sources: List::new(source_names(alloc, graphs, graph)?),
        sinks: List::new(sink_names(alloc, graph.outputs.items())?),
    })
}
