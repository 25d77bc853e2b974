ghost use Rattle.std.specs.Prelude.{◌≡◌, [], ◌∷◌};
ghost use Rattle.std.specs.Option.{option_copied};
ghost use Rattle.pisdf_model.specs.Details.{Answers, Refuses};
ghost use Rattle.pisdf_model.specs.InterfaceWires.{graph_misplaced, has_delay, interface_wire_faults, is_at_configuration, is_at_input, is_at_interface, is_at_output, is_configuration, is_configuration_actor, is_misplaced};

use crate::actor::{Actor, Body};
use crate::detail_fault::DetailFault;
use crate::fifo::{End, Fifo};
use crate::graph::{Graph, Graphs};
use param_expr::Name;

/// A FIFO of a file.
#[derive(Debug, Drop)]
pub struct FifoPlace {
    /// Its graph's name.
    pub graph: Name,
    /// Its number in that graph, from 0.
    pub fifo: u32,
}

/// Whether an actor is a configuration actor, of either kind.
pub fn is_configuration(body: &Body) -> bool
    ensures { result ≡ is_configuration body.now }
{
    matches!(body, Body::Config { .. } | Body::ConfigChild { .. })
}

fn is_configuration_actor(actor: Option<&Actor>) -> bool
    ensures { result ≡ is_configuration_actor (option_copied actor.entry) }
{
    match actor {
        Some(actor) => is_configuration(&actor.body),
        None => false,
    }
}

/// Whether an end is a port of a configuration actor.
pub fn is_at_configuration(graph: &Graph, end: &End) -> bool
    ensures { result ≡ is_at_configuration graph.now end.now }
{
    match end {
        End::Interface(_) => false,
        End::Port { actor, .. } => {
            is_configuration_actor(graph.actors.items().get(*actor as usize))
        }
    }
}

fn is_at_interface(end: &End) -> bool
    ensures { result ≡ is_at_interface end.now }
{
    matches!(end, End::Interface(_))
}

fn is_at_input(graph: &Graph, end: &End) -> bool
    ensures { result ≡ is_at_input graph.now end.now }
{
    match end {
        End::Interface(place) => (*place as usize) < graph.inputs.items().len(),
        End::Port { .. } => false,
    }
}

fn is_at_output(graph: &Graph, end: &End) -> bool
    ensures { result ≡ is_at_output graph.now end.now }
{
    match end {
        End::Interface(place) => graph.inputs.items().len() <= *place as usize,
        End::Port { .. } => false,
    }
}

fn has_delay(fifo: &Fifo) -> bool
    ensures { result ≡ has_delay fifo.now }
{
    fifo.delay.items().len() > 0
}

fn is_misplaced(graph: &Graph, fifo: &Fifo) -> bool
    ensures { result ≡ is_misplaced graph.now fifo.now }
{
    let from_interface = is_at_interface(&fifo.tail);
    let to_interface = is_at_interface(&fifo.head);
    let delayed = has_delay(fifo);
    let misfed = is_at_configuration(graph, &fifo.head) && !is_at_input(graph, &fifo.tail);
    let misled = is_at_configuration(graph, &fifo.tail)
        && (delayed || is_at_output(graph, &fifo.head));
    (from_interface && to_interface)
        || (delayed && (from_interface || to_interface))
        || misfed
        || misled
}

/// The fault at a FIFO. A number past 32 bits, which no memory has room for, is want of memory.
fn fault_at_fifo(graph: &Name, number: usize) -> DetailFault<FifoPlace>
    ensures { Refuses (record { graph = graph.now; fifo = number } ∷ []) result }
{
    let Ok(fifo) = u32::try_from(number) else {
        return DetailFault::Memory;
    };
    match graph.clone() {
        Ok(graph) => DetailFault::Fault(FifoPlace { graph, fifo }),
        Err(_) => DetailFault::Memory,
    }
}

fn graph_placed(graph: &Graph) -> Result<(), DetailFault<FifoPlace>>
    ensures { Answers (graph_misplaced graph.now) result }
{
    for (number, fifo) in graph.fifos.items().iter().enumerate() {
        if is_misplaced(graph, fifo) {
            return Err(fault_at_fifo(&graph.name, number));
        }
    }
    Ok(())
}

/// Whether FIFOs touch interfaces and configuration actors only as they may: none goes from interface to interface or
/// has a delay at an interface; one into a configuration actor comes from an input interface; one out of a
/// configuration actor has no delay and doesn't go to an output interface.
///
/// # Errors
///
/// - `Fault`: the first FIFO, graph by graph, for which that is not so.
/// - `Memory`: want of memory.
pub fn interface_wire(graphs: &Graphs) -> Result<(), DetailFault<FifoPlace>>
    ensures { Answers (interface_wire_faults graphs.now) result }
{
    for graph in graphs.graphs.items() {
        graph_placed(graph)?;
    }
    Ok(())
}
