ghost use Rattle.std.specs.Prelude.{◌≡◌, ◌++◌, IfOk, OnOk};
ghost use Rattle.pisdf_model.specs.Details.{Answers, of_each};
ghost use Rattle.pisdf_model.specs.Names.{actor_walk, duplicate_faults, graph_walk, names_of, own_port_names, scoped};

use crate::actor::{Actor, Body};
use crate::detail_fault::DetailFault;
use crate::graph::{Graph, Graphs};
use crate::names::{Scope, ScopedName, push_name, push_names, repeat};
use param_expr::Name;
use std::alloc::{AllocError, Global};

fn push_ports(names: &mut Vec<ScopedName>, scope: Scope, body: &Body) -> Result<(), AllocError>
    ensures { OnOk result (names.new.items ≡ names.old.items ++ scoped scope (own_port_names body.now)) }
{
    match body {
        Body::Kernel { ins, outs, .. } => {
            push_names(names, scope, ins.items())?;
            push_names(names, scope, outs.items())
        }
        Body::Config { ins, outs, .. } => {
            push_names(names, scope, ins.items())?;
            push_names(names, scope, outs.items())
        }
        Body::Child { .. } | Body::ConfigChild { .. } => Ok(()),
    }
}

fn push_actor(
    names: &mut Vec<ScopedName>,
    graph: usize,
    number: usize,
    actor: &Actor,
) -> Result<(), AllocError>
    ensures { OnOk result (names.new.items ≡ names.old.items ++ actor_walk graph number actor.now) }
{
    push_name(names, Scope::Parts { graph }, &actor.name)?;
    let scope = Scope::Ports {
        graph,
        actor: number,
    };
    push_ports(names, scope, &actor.body)
}

fn push_actors(
    names: &mut Vec<ScopedName>,
    graph: usize,
    actors: &[Actor],
) -> Result<(), AllocError>
    ensures { OnOk result (names.new.items ≡ names.old.items ++ of_each (λ a actor. actor_walk graph a actor) actors.now) }
{
    for (number, actor) in actors.iter().enumerate() {
        push_actor(names, graph, number, actor)?;
    }
    Ok(())
}

fn push_graph(names: &mut Vec<ScopedName>, number: usize, graph: &Graph) -> Result<(), AllocError>
    ensures { OnOk result (names.new.items ≡ names.old.items ++ graph_walk number graph.now) }
{
    push_name(names, Scope::Graphs, &graph.name)?;
    let scope = Scope::Parts { graph: number };
    push_names(names, scope, graph.params.items())?;
    push_names(names, scope, graph.inputs.items())?;
    push_names(names, scope, graph.outputs.items())?;
    push_actors(names, number, graph.actors.items())
}

/// The names of a file, in its order: a graph's name stands before its parameters, inputs, outputs and actors, and an
/// actor's name before its ports.
fn names(alloc: Global, graphs: &Graphs) -> Result<Vec<ScopedName>, AllocError>
    ensures { IfOk result (λ names. names.items ≡ names_of graphs.now) }
{
    let mut names = Vec::new(alloc);
    for (number, graph) in graphs.graphs.items().iter().enumerate() {
        push_graph(&mut names, number, graph)?;
    }
    Ok(names)
}

/// Whether no name stands twice in its scope. The scopes are the graph names; the parameters, inputs, outputs and
/// actors of one graph together; the ports of one actor.
///
/// # Errors
///
/// - `Fault`: the first name, in the order of the file, that is equal to an earlier one of its scope. In that order a
///   graph's name stands before its parameters, inputs, outputs and actors, and an actor's name before its ports.
/// - `Memory`: want of memory.
pub fn duplicate(alloc: Global, graphs: &Graphs) -> Result<(), DetailFault<Name>>
    ensures { Answers (duplicate_faults graphs.now) result }
{
    let names = names(alloc, graphs)?;
    repeat(alloc, names.as_slice())
}
