ghost use Rattle.std.specs.Prelude.{◌≡◌, ◌++◌, IfOk, map, string_bytes};
ghost use Rattle.kernel_gate.specs.Signed.{signature_view};
ghost use Rattle.graph_format.specs.Kernels.{kernel_names};
ghost use Rattle.graph_format.specs.Named.{name_at_place, named_end, names_of_actors, names_of_graphs, names_of_interfaces, names_of_ports, names_of_ports_at};
ghost use Rattle.graph_format.specs.Values.{end_text};
ghost use Rattle.pisdf_model.specs.Parts.{port_names};
ghost use Rattle.graph_writer.specs.ChildPorts.{child_port};

use kernel_gate::Signature;
use param_expr::Name;
use pisdf_model::{Body, End, Graph, Graphs, Param, Port};
use std::alloc::{AllocError, Global};

/// The names of parameters, in their order.
pub(crate) fn param_names(alloc: Global, params: &[Param]) -> Result<Vec<Name>, AllocError>
    ensures { IfOk result (λ names. names.items ≡ map (λ p. p.name) params.now) }
{
    let mut names = Vec::new(alloc);
    for param in params {
        let name = param.name.clone()?;
        names.push(name)?;
    }
    Ok(names)
}

/// The name at a place, and no text past the end.
pub(crate) fn name_at(names: &[Name], place: u32) -> &str
    ensures { result.now ≡ name_at_place names.now place }
{
    let place = place as usize;
    if place < names.len() {
        names[place].text()
    } else {
        ""
    }
}

/// The name of the kernel at a place.
pub(crate) fn kernel_name(signatures: &[Signature], place: u32) -> &str
    ensures { result.now ≡ name_at_place (kernel_names (map signature_view signatures.now)) place }
{
    let place = place as usize;
    if place < signatures.len() {
        signatures[place].name
    } else {
        ""
    }
}

/// The name of the graph at a place.
pub(crate) fn graph_name(graphs: &Graphs, place: u32) -> &str
    ensures { result.now ≡ name_at_place (names_of_graphs graphs.now) place }
{
    let place = place as usize;
    let graphs = graphs.graphs.items();
    if place < graphs.len() {
        graphs[place].name.text()
    } else {
        ""
    }
}

/// The name of the interface at a place: the inputs are counted first, then the outputs.
fn interface_name(graph: &Graph, place: u32) -> &str
    ensures { result.now ≡ name_at_place (names_of_interfaces graph.now) place }
{
    let place = place as usize;
    let inputs = graph.inputs.items();
    let outputs = graph.outputs.items();
    if place < inputs.len() {
        inputs[place].name.text()
    } else if place - inputs.len() < outputs.len() {
        outputs[place - inputs.len()].name.text()
    } else {
        ""
    }
}

/// The name of a port of a kernel actor: the inputs are counted first, then the outputs.
fn kernel_port_name<'a>(ins: &'a [Port], outs: &'a [Port], place: u32) -> &'a str
    ensures { result.now ≡ name_at_place (port_names ins.now ++ port_names outs.now) place }
{
    let place = place as usize;
    if place < ins.len() {
        ins[place].name.text()
    } else if place - ins.len() < outs.len() {
        outs[place - ins.len()].name.text()
    } else {
        ""
    }
}

/// The name of a port of a configuration actor: the inputs are counted first, then the outputs.
fn config_port_name<'a>(ins: &'a [Name], outs: &'a [Port], place: u32) -> &'a str
    ensures { result.now ≡ name_at_place (ins.now ++ port_names outs.now) place }
{
    let place = place as usize;
    if place < ins.len() {
        ins[place].text()
    } else if place - ins.len() < outs.len() {
        outs[place - ins.len()].name.text()
    } else {
        ""
    }
}

/// The name of a port of a hierarchical actor, which is its child's interface.
fn child_port_name(graphs: &[Graph], child: u32, place: u32) -> &str
    ensures { result.now ≡ child_port graphs.now child place }
{
    let child = child as usize;
    if child < graphs.len() {
        interface_name(&graphs[child], place)
    } else {
        ""
    }
}

/// The name of the port of an actor at a place.
fn port_name<'a>(graphs: &'a Graphs, body: &'a Body, place: u32) -> &'a str
    ensures { result.now ≡ name_at_place (names_of_ports graphs.now body.now) place }
{
    match body {
        Body::Kernel { ins, outs, .. } => kernel_port_name(ins.items(), outs.items(), place),
        Body::Config { ins, outs, .. } => config_port_name(ins.items(), outs.items(), place),
        Body::Child { graph, .. } | Body::ConfigChild { graph, .. } => {
            child_port_name(graphs.graphs.items(), *graph, place)
        }
    }
}

/// The names of an actor and of its port.
fn actor_and_port<'a>(
    graphs: &'a Graphs,
    graph: &'a Graph,
    actor: u32,
    port: u32,
) -> (&'a str, &'a str)
    ensures actor { result.0.now ≡ name_at_place (names_of_actors graph.now) actor }
    ensures port { result.1.now ≡ name_at_place (names_of_ports_at graphs.now graph.now actor) port }
{
    let actor = actor as usize;
    let actors = graph.actors.items();
    if actor < actors.len() {
        let actor = &actors[actor];
        (actor.name.text(), port_name(graphs, &actor.body, port))
    } else {
        ("", "")
    }
}

/// The text of an end: an interface's name, or an actor's and a port's, joined by `.`.
pub(crate) fn end_text(
    alloc: Global,
    graphs: &Graphs,
    graph: &Graph,
    end: End,
) -> Result<String, AllocError>
    ensures { IfOk result (λ text. string_bytes text ≡ end_text (named_end graphs.now graph.now end)) }
{
    match end {
        End::Interface(place) => String::from_str(alloc, interface_name(graph, place)),
        End::Port { actor, port } => {
            let (actor, port) = actor_and_port(graphs, graph, actor, port);
            let mut text = String::from_str(alloc, actor)?;
            text.push_str(".")?;
            text.push_str(port)?;
            Ok(text)
        }
    }
}
