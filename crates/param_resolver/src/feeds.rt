// The input interfaces that feed the inputs of hierarchical configuration actors.
ghost use Rattle.std.specs.Prelude.{◌≡◌, [], slice_index, IfErr, OnOk};
ghost use Rattle.pisdf_model.specs.Wires.{is_port};
ghost use Rattle.param_resolver.specs.EarlyCheck.{feeding, interface_number, unfed, unfed_inputs};
ghost use Rattle.param_resolver.specs.Refusal.{StandsFirst, part_refusal_of};

use crate::fault::Why;
use crate::rates::PartFault;
use param_expr::Name;
use pisdf_model::{End, Fifo, Graph, Interface, port_text};
use std::alloc::Global;

/// The number at a place, or 0 past the end.
pub(crate) fn number_at(numbers: &[u32], place: usize) -> u32
    ensures { result ≡ slice_index numbers.now place }
{
    match numbers.get(place) {
        Some(number) => *number,
        None => 0,
    }
}

fn is_port(end: End, actor: usize, port: usize) -> bool
    ensures { result ≡ is_port actor port end }
{
    match end {
        End::Interface(_) => false,
        End::Port { actor: a, port: p } => a as usize == actor && p as usize == port,
    }
}

fn interface_number(end: End) -> usize
    ensures { result ≡ interface_number end }
{
    match end {
        End::Interface(i) => i as usize,
        End::Port { .. } => 0,
    }
}

/// The number of the input interface that feeds a port of a configuration actor, which is the tail of the first of these
/// FIFOs that leads to the port; 0 where none does. It is looked for among all FIFOs: well-formed graphs have few of them, and
/// no more such ports than FIFOs.
pub fn feeding(fifos: &[Fifo], actor: usize, port: usize) -> usize
    ensures { result ≡ feeding fifos.now actor port }
{
    for fifo in fifos {
        if is_port(fifo.head, actor, port) {
            return interface_number(fifo.tail);
        }
    }
    0
}

/// Whether a port takes as many tokens as the interface that feeds it has.
fn is_fed(alloc: Global, actor: &Name, port: &Name, given: u32, taken: u32) -> Result<(), PartFault>
    ensures sound { OnOk result (unfed actor.now port.now given taken ≡ []) }
    ensures fault { IfErr result (λ f. StandsFirst (unfed actor.now port.now given taken) (part_refusal_of f)) }
{
    if given == taken {
        Ok(())
    } else {
        Err(PartFault::Rate {
            name: port_text(alloc, actor, port)?,
            why: Why::Value(taken as i64),
        })
    }
}

/// Whether each input of the actor at a place, which is its child's, takes as many tokens as the interface that feeds it
/// has, where these are the rates of the interfaces and of the child's inputs.
pub(crate) fn inputs_fed(
    alloc: Global,
    graph: &Graph,
    rates: &[u32],
    number: usize,
    actor: &Name,
    inputs: &[Interface],
    taken: &[u32],
) -> Result<(), PartFault>
    ensures sound { OnOk result (unfed_inputs graph.now rates.now number actor.now inputs.now taken.now ≡ []) }
    ensures fault { IfErr result (λ f. StandsFirst (unfed_inputs graph.now rates.now number actor.now inputs.now taken.now) (part_refusal_of f)) }
{
    for (port, input) in inputs.iter().enumerate() {
        let given = number_at(rates, feeding(graph.fifos.items(), number, port));
        is_fed(alloc, actor, &input.name, given, number_at(taken, port))?;
    }
    Ok(())
}
