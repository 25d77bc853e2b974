ghost use Rattle.std.specs.Prelude.{ℕ, ◌≡◌, ◌<◌, [], List as Seq, length, map, slice_index_or, false, All, IfOk, IfSome, ◌&&◌};
ghost use Rattle.std.specs.List.{filter, list_any, range_with_len};
ghost use Rattle.pisdf_model.specs.Arrows.{LeadsInside, on_cycles};
ghost use Rattle.pisdf_model.specs.Details.{first, Answers};
ghost use Rattle.pisdf_model.specs.ParamOrder.{references as references_of, is_chosen, is_late, misplaced, param_name, order_faults, param_order_faults, RefersToParams};

use crate::arrows::{first_on_cycle, reached};
use crate::detail_fault::DetailFault;
use crate::graph::{Graph, Graphs};
use crate::named_params::{early_places, references};
use crate::param::ParamKind;
use param_expr::Name;
use sdf_level::List;
use std::alloc::{AllocError, Global};

/// Whether a parameter is chosen and marked.
fn is_marked_choice(graph: &Graph, marks: &[bool], place: usize) -> bool
    requires long { length marks.now ≡ length graph.now.params }
    requires place { place < length graph.now.params }
    ensures { result ≡ (is_chosen graph.now place && slice_index_or marks.now place false) }
{
    match graph.params.items()[place].kind {
        ParamKind::Chosen => marks[place],
        _ => false,
    }
}

/// Whether a chosen parameter is marked.
fn any_chosen(graph: &Graph, marks: &[bool]) -> bool
    requires { length marks.now ≡ length graph.now.params }
    ensures { result ≡ list_any (λ q. is_chosen graph.now q && slice_index_or marks.now q false) (range_with_len 0 (length graph.now.params)) }
{
    for place in 0..marks.len() {
        if is_marked_choice(graph, marks, place) {
            return true;
        }
    }
    false
}

/// Whether one of these parameters is late, in a graph none of whose parameters depends on itself.
fn any_late(
    alloc: Global,
    graph: &Graph,
    references: &[List<u32>],
    places: &[u32],
) -> Result<bool, AllocError>
    requires refers { references.now ≡ references_of graph.now }
    requires inside { LeadsInside references.now }
    requires no_cycle { on_cycles references.now ≡ [] }
    requires places { All (λ w. w < length references.now) places.now }
    ensures { IfOk result (λ found. found ≡ list_any (is_late graph.now) places.now) }
{
    let marks = reached(alloc, references, places)?;
    Ok(any_chosen(graph, &marks))
}

/// The first of these parameters that is late, in a graph none of whose parameters depends on itself.
fn first_late(
    alloc: Global,
    graph: &Graph,
    references: &[List<u32>],
    places: &[u32],
) -> Result<Option<usize>, AllocError>
    requires refers { references.now ≡ references_of graph.now }
    requires inside { LeadsInside references.now }
    requires no_cycle { on_cycles references.now ≡ [] }
    requires places { All (λ w. w < length references.now) places.now }
    ensures first { IfOk result (λ place. place ≡ first (filter (is_late graph.now) places.now)) }
    ensures inside { IfOk result (λ place. IfSome place (λ v. v < length references.now)) }
{
    if !any_late(alloc, graph, references, places)? {
        return Ok(None);
    }
    // None of the first `before` is late, and one of the first `behind`.
    let mut before = 0;
    let mut behind = places.len();
    while before + 1 < behind {
        let middle = before + (behind - before) / 2;
        if any_late(alloc, graph, references, &places[..middle])? {
            behind = middle;
        } else {
            before = middle;
        }
    }
    Ok(Some(places[before] as usize))
}

/// The first parameter that depends on itself, else the first that is late and must be early.
fn first_misplaced(alloc: Global, graph: &Graph) -> Result<Option<usize>, AllocError>
    requires { RefersToParams graph.now }
    ensures first { IfOk result (λ place. place ≡ first (misplaced graph.now)) }
    ensures inside { IfOk result (λ place. IfSome place (λ v. v < length graph.now.params)) }
{
    let references = references(alloc, graph.params.items())?;
    let cyclic = first_on_cycle(alloc, &references)?;
    if cyclic.is_some() {
        return Ok(cyclic);
    }
    let places = early_places(alloc, graph)?;
    first_late(alloc, graph, &references, &places)
}

/// The fault that stands first at the parameter at this place, if there is one.
fn at_param(graph: &Graph, place: Option<usize>) -> Result<(), DetailFault<Name>>
    requires { IfSome place (λ v. v < length graph.now.params) }
    ensures { (places : Seq ℕ) → first places ≡ place → Answers (map (param_name graph.now) places) result }
{
    match place {
        None => Ok(()),
        Some(place) => {
            let name = graph.params.items()[place].name.clone()?;
            Err(DetailFault::Fault(name))
        }
    }
}

fn graph_order(alloc: Global, graph: &Graph) -> Result<(), DetailFault<Name>>
    requires { RefersToParams graph.now }
    ensures { Answers (order_faults graph.now) result }
{
    let place = first_misplaced(alloc, graph)?;
    at_param(graph, place)
}

/// Whether in each graph no parameter depends on itself, over one or more references, and whatever must be known before
/// the configuration actors fire (the rates of interfaces, and the arguments and output rates of configuration actors)
/// names early parameters alone: those that are inherited, or derived from early ones alone.
///
/// # Errors
///
/// - `Fault`: the name of the first parameter that depends on itself, else of the first late one that is named where an
///   early one must be, in the first graph that has either.
/// - `Memory`: want of memory.
pub fn param_order(alloc: Global, graphs: &Graphs) -> Result<(), DetailFault<Name>>
    requires { All (λ g. RefersToParams g) graphs.now.graphs }
    ensures answer { Answers (param_order_faults graphs.now) result }
{
    for graph in graphs.graphs.items() {
        graph_order(alloc, graph)?;
    }
    Ok(())
}
