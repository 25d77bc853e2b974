// The names of a file, in its order.
ghost use Rattle.std.specs.Prelude.{◌≡◌, ◌++◌, IfOk, OnOk};
ghost use Rattle.pisdf_model.specs.Details.{of_each};
ghost use Rattle.pisdf_model.specs.Names.{scoped};
ghost use Rattle.graph_format.specs.FileNames.{actor_walk, graph_walk, names_of_file, own_port_names};

use graph_format::{File, FileActor, FileBody, FileGraph};
use pisdf_model::{Scope, ScopedName, push_name, push_names};
use std::alloc::{AllocError, Global};

fn push_ports(names: &mut Vec<ScopedName>, scope: Scope, body: &FileBody) -> Result<(), AllocError>
    ensures { OnOk result (names.new.items ≡ names.old.items ++ scoped scope (own_port_names body.now)) }
{
    match body {
        FileBody::Kernel { ins, outs, .. } => {
            push_names(names, scope, ins.items())?;
            push_names(names, scope, outs.items())
        }
        FileBody::Config { ins, outs, .. } => {
            push_names(names, scope, ins.items())?;
            push_names(names, scope, outs.items())
        }
        FileBody::Child { .. } | FileBody::ConfigChild { .. } => Ok(()),
    }
}

fn push_actor(
    names: &mut Vec<ScopedName>,
    graph: usize,
    number: usize,
    actor: &FileActor,
) -> Result<(), AllocError>
    ensures { OnOk result (names.new.items ≡ names.old.items ++ actor_walk graph number actor.now) }
{
    push_name(names, Scope::Parts { graph }, &actor.name)?;
    let scope = Scope::Ports {
        graph,
        actor: number,
    };
    push_ports(names, scope, &actor.body)
}

fn push_actors(
    names: &mut Vec<ScopedName>,
    graph: usize,
    actors: &[FileActor],
) -> Result<(), AllocError>
    ensures { OnOk result (names.new.items ≡ names.old.items ++ of_each (λ a actor. actor_walk graph a actor) actors.now) }
{
    for (number, actor) in actors.iter().enumerate() {
        push_actor(names, graph, number, actor)?;
    }
    Ok(())
}

fn push_graph(
    names: &mut Vec<ScopedName>,
    number: usize,
    graph: &FileGraph,
) -> Result<(), AllocError>
    ensures { OnOk result (names.new.items ≡ names.old.items ++ graph_walk number graph.now) }
{
    push_name(names, Scope::Graphs, &graph.name)?;
    let scope = Scope::Parts { graph: number };
    push_names(names, scope, graph.params.items())?;
    push_names(names, scope, graph.inputs.items())?;
    push_names(names, scope, graph.outputs.items())?;
    push_actors(names, number, graph.actors.items())
}

/// The names of a file, in its order: a graph's name stands before its parameters, inputs, outputs and actors, and an
/// actor's name before its ports.
pub(crate) fn names_of_file(alloc: Global, file: &File) -> Result<Vec<ScopedName>, AllocError>
    ensures { IfOk result (λ names. names.items ≡ names_of_file file.now) }
{
    let mut names = Vec::new(alloc);
    for (number, graph) in file.graphs.items().iter().enumerate() {
        push_graph(&mut names, number, graph)?;
    }
    Ok(names)
}
