// The actors of a graph's level, by their places among all its actors.
ghost use Rattle.std.specs.Prelude.{◌≡◌, ◌<◌, Some, IfOk, length, map, slice_get};
ghost use Rattle.param_resolver.specs.Numbering.{acting, acting_places, has_state};

use param_resolver::level_by_actor;
use pisdf_meaning::{has_state, holds_for};
use pisdf_model::{Actor, Graph};
use std::alloc::{AllocError, Global};

/// The actor with this number in the level of a graph, whose actors stand at these places.
pub fn acting_at<'a>(graph: &'a Graph, places: &[u32], number: usize) -> &'a Actor
    requires places { places.now ≡ acting_places graph.now }
    requires there { number < length places.now }
    ensures { slice_get (acting graph.now) number ≡ Some result.now }
{
    level_by_actor();
    &graph.actors.items()[places[number] as usize]
}

/// Whether the state of each of the actors at these places goes on.
///
/// # Errors
///
/// Want of memory.
pub fn keeps_at(
    alloc: Global,
    graphs: &[Graph],
    graph: &Graph,
    places: &[u32],
) -> Result<Vec<bool>, AllocError>
    requires { places.now ≡ acting_places graph.now }
    ensures { IfOk result (λ keeps. keeps.items ≡ map (has_state graphs.now) (acting graph.now)) }
{
    level_by_actor();
    let holds = holds_for(alloc, graphs, graph.actors.items())?;
    let mut keeps = Vec::with_capacity(alloc, places.len())?;
    for n in 0..places.len() {
        keeps.push(has_state(&holds, acting_at(graph, places, n)))?;
    }
    Ok(keeps)
}
