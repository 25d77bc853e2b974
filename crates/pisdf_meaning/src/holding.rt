// Which graphs' states hold tokens.
ghost use Rattle.std.specs.Prelude.{◌≡◌, ◌<◌, nat_lt, List as Seq, slice_index, IfOk};
ghost use Rattle.std.specs.List.{list_any};
ghost use Rattle.pisdf_model.specs.declared.graph.Graph.{Graph as GraphView};
ghost use Rattle.param_resolver.specs.Numbering.{has_state};
ghost use Rattle.pisdf_meaning.specs.Held.{TellHoldsTo, TellHoldsToAll, names_graph};

use pisdf_model::{Actor, Body, Graph, graph_holds};
use std::alloc::{AllocError, Global};

/// Whether an actor names a graph.
fn names_graph(body: &Body) -> bool
    ensures { result ≡ names_graph body.now }
{
    match body {
        Body::Kernel { .. } | Body::Config { .. } => false,
        Body::Child { .. } | Body::ConfigChild { .. } => true,
    }
}

fn name_graphs(actors: &[Actor]) -> bool
    ensures { result ≡ list_any (λ a. names_graph a.body) actors.now }
{
    actors.iter().any(|actor| names_graph(&actor.body))
}

/// How many tokens the state of each graph begins with, counted to one more than `MAX_HOLD`. They aren't counted where none
/// of these actors names a graph. The time taken goes with the sizes of the graphs.
pub fn holds_for(
    alloc: Global,
    graphs: &[Graph],
    actors: &[Actor],
) -> Result<Vec<usize>, AllocError>
    ensures { IfOk result (λ holds. TellHoldsToAll graphs.now holds.items actors.now) }
{
    if name_graphs(actors) {
        let holds = graph_holds(alloc, graphs)?;
        return Ok(holds);
    }
    Ok(Vec::new(alloc))
}

/// Whether the state of the graph at a place holds tokens, where this many stand in each.
pub(crate) fn holds_tokens(holds: &[usize], place: usize) -> bool
    ensures { result ≡ nat_lt 0 (slice_index holds.now place) }
{
    match holds.get(place) {
        Some(hold) => *hold > 0,
        None => false,
    }
}

/// Whether tokens go on from one firing of an actor of the level to the next, where this many stand in each graph.
pub fn has_state(holds: &[usize], actor: &Actor) -> bool
    ensures { (graphs : Seq GraphView) → TellHoldsTo graphs holds.now actor.now.body → result ≡ has_state graphs actor.now }
{
    match &actor.body {
        Body::Kernel { .. } | Body::Config { .. } | Body::ConfigChild { .. } => false,
        Body::Child { graph, .. } => holds_tokens(holds, *graph as usize),
    }
}
