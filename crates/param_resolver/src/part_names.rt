// The names of parts at which the early check of a graph fails.
ghost use Rattle.std.specs.Prelude.{◌≡◌, [], Some, slice_get, IfOk, IfSome};
ghost use Rattle.std.specs.Option.{option_copied};
ghost use Rattle.param_resolver.specs.Refusal.{actor_name, child_graph, named_by, part_name, refusal_of};
ghost use Rattle.pisdf_model.specs.ParamOrder.{param_name};

use crate::fault::EarlyFault;
use param_expr::Name;
use pisdf_model::{Body, Graph, port_text};
use std::alloc::{AllocError, Global};

fn no_name(alloc: Global) -> Name
    ensures { result ≡ [] }
{
    Name::new(String::new(alloc))
}

/// The name of the parameter at a place, or one without letters where there is none. The error is want of memory.
pub fn param_name(alloc: Global, graph: &Graph, place: u32) -> Result<Name, AllocError>
    ensures { IfOk result (λ name. name ≡ param_name graph.now place) }
{
    match graph.params.items().get(place as usize) {
        Some(param) => param.name.clone(),
        None => Ok(no_name(alloc)),
    }
}

/// The name of the actor at a place, or none.
fn actor_name(alloc: Global, graph: &Graph, place: u32) -> Result<Name, AllocError>
    ensures { IfOk result (λ name. name ≡ actor_name graph.now place) }
{
    match graph.actors.items().get(place as usize) {
        Some(actor) => actor.name.clone(),
        None => Ok(no_name(alloc)),
    }
}

/// The place of the graph that an actor names.
fn named_by(graph: &Graph, actor: u32) -> Option<u32>
    ensures { result ≡ named_by (slice_get graph.now.actors actor) }
{
    match graph.actors.items().get(actor as usize) {
        Some(actor) => match &actor.body {
            Body::Child { graph, .. } | Body::ConfigChild { graph, .. } => Some(*graph),
            Body::Kernel { .. } | Body::Config { .. } => None,
        },
        None => None,
    }
}

/// The graph that the actor at a place names, if it names one that is there.
pub fn child_at<'a>(graphs: &'a [Graph], graph: &Graph, actor: u32) -> Option<&'a Graph>
    ensures { option_copied result ≡ child_graph graphs.now graph.now actor }
{
    match named_by(graph, actor) {
        Some(place) => graphs.get(place as usize),
        None => None,
    }
}

/// The name of the part of a graph at which its early check fails: that of a parameter, a rate or an argument, with the
/// names of the actors before it that lead to its graph, as `a.b.n`. The error is want of memory.
pub fn part_name(
    alloc: Global,
    graphs: &[Graph],
    graph: &Graph,
    fault: &EarlyFault,
) -> Result<Name, AllocError>
    ensures { IfSome (refusal_of fault.now) (λ refusal. IfOk result (λ name. name ≡ part_name graphs.now (Some graph.now) refusal)) }
{
    match fault {
        EarlyFault::Param { param, .. } => param_name(alloc, graph, *param),
        EarlyFault::Rate { name, .. } => name.clone(),
        EarlyFault::Child { actor, fault } => {
            let before = actor_name(alloc, graph, *actor)?;
            match child_at(graphs, graph, *actor) {
                Some(child) => {
                    let behind = part_name(alloc, graphs, child, fault)?;
                    port_text(alloc, &before, &behind)
                }
                None => port_text(alloc, &before, &no_name(alloc)),
            }
        }
        EarlyFault::Memory => Ok(no_name(alloc)),
    }
}
