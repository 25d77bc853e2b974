// The tokens of the sources of a level.
ghost use Rattle.std.specs.Prelude.{ℕ, ℤ, ◌≡◌, ◌++◌, ◌&&◌, List as Seq, IfOk, OnOk};
ghost use Rattle.std.specs.List.{flat_map};
ghost use Rattle.pisdf_model.specs.InterfaceWires.{is_at_configuration};
ghost use Rattle.pisdf_model.specs.Wires.{is_interface};
ghost use Rattle.param_resolver.specs.Numbering.{feeds_configuration, is_kept};
ghost use Rattle.pisdf_meaning.specs.Running.{source_tokens};
ghost use Rattle.pisdf_meaning.specs.declared.firing.Configured.{Configured};

use crate::firing::{Configured, Firing};
use crate::lists::{copy_tokens, tokens_at};
use pisdf_model::{End, Fifo, Graph, is_at_configuration};
use sdf_level::List;
use std::alloc::{AllocError, Global};

/// Whether a FIFO becomes a link of the level: it doesn't lead into a configuration actor.
pub(crate) fn is_kept(graph: &Graph, fifo: &Fifo) -> bool
    ensures { result ≡ is_kept graph.now fifo.now }
{
    !is_at_configuration(graph, &fifo.head)
}

// ---- sources

/// Whether an end is this interface.
fn is_interface(end: End, interface: usize) -> bool
    ensures { result ≡ is_interface interface end }
{
    match end {
        End::Interface(place) => place as usize == interface,
        End::Port { .. } => false,
    }
}

/// Whether a FIFO leads from this interface into a configuration actor.
fn leads_to_configuration(graph: &Graph, fifo: &Fifo, interface: usize) -> bool
    ensures { result ≡ (is_interface interface fifo.now.tail && is_at_configuration graph.now fifo.now.head) }
{
    is_interface(fifo.tail, interface) && is_at_configuration(graph, &fifo.head)
}

/// Whether an input interface feeds a configuration actor.
fn feeds_configuration(graph: &Graph, interface: usize) -> bool
    ensures { result ≡ feeds_configuration graph.now interface }
{
    let fifos = graph.fifos.items();
    fifos
        .iter()
        .any(|fifo| leads_to_configuration(graph, fifo, interface))
}

/// Adds copies of what configuration actors left on their outputs.
fn push_outputs(
    alloc: Global,
    configured: &[Configured],
    sources: &mut Vec<List<i64>>,
) -> Result<(), AllocError>
    ensures { OnOk result (sources.new.items ≡ sources.old.items ++ flat_map (λ (one : Configured). one.outs) configured.now) }
{
    for one in configured {
        push_copies(alloc, one.outs.items(), sources)?;
    }
    Ok(())
}

/// Adds copies of lists.
fn push_copies(
    alloc: Global,
    lists: &[List<i64>],
    sources: &mut Vec<List<i64>>,
) -> Result<(), AllocError>
    ensures { OnOk result (sources.new.items ≡ sources.old.items ++ lists.now) }
{
    for list in lists {
        sources.push(copy_tokens(alloc, list.items())?)?;
    }
    Ok(())
}

/// The tokens of each source of a graph's level: those of the inputs that feed no configuration actor, then what the
/// configuration actors left on their outputs.
pub fn source_tokens(
    alloc: Global,
    graph: &Graph,
    firing: &Firing,
    configured: &[Configured],
) -> Result<List<List<i64>>, AllocError>
    ensures { IfOk result (λ lists. lists ≡ source_tokens graph.now firing.now configured.now) }
{
    let mut sources = Vec::new(alloc);
    for interface in 0..graph.inputs.items().len() {
        if !feeds_configuration(graph, interface) {
            let tokens = tokens_at(firing.inputs.items(), interface);
            sources.push(copy_tokens(alloc, tokens)?)?;
        }
    }
    push_outputs(alloc, configured, &mut sources)?;
    Ok(List::new(sources))
}
