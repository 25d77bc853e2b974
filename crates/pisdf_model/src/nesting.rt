ghost use Rattle.std.specs.Prelude.{ℕ, ◌≡◌, ◌+◌, ◌++◌, ◌<◌, nat_lt, length, map, slice_index_or, false, List as Seq, All, IfOk, IfSome, OnOk};
ghost use Rattle.std.specs.List.{filter, list_any, range_with_len};
ghost use Rattle.pisdf_model.specs.Arrows.{LeadsInside, IsMarked};
ghost use Rattle.pisdf_model.specs.Details.{first, Answers};
ghost use Rattle.pisdf_model.specs.Nesting.{children_of, children, nesting_to, nested_over, RefersToGraphs, graph_name, graph_cycle_faults, depth_faults};

use crate::actor::Body;
use crate::arrows::{first_marked, first_on_cycle};
use crate::detail_fault::DetailFault;
use crate::graph::{Graph, Graphs};
use crate::limits::MAX_NESTING;
use param_expr::Name;
use sdf_level::List;
use std::alloc::{AllocError, Global};

/// Adds the graph that an actor names, if it names one.
fn add_children(body: &Body, children: &mut Vec<u32>) -> Result<(), AllocError>
    ensures { OnOk result (children.new.items ≡ children.old.items ++ children_of body.now) }
{
    match body {
        Body::Child { graph, .. } | Body::ConfigChild { graph, .. } => {
            children.push(*graph)?;
            Ok(())
        }
        _ => Ok(()),
    }
}

/// The graphs that a graph's actors name, in their order.
fn children(alloc: Global, graph: &Graph) -> Result<Vec<u32>, AllocError>
    ensures { IfOk result (λ v. v.items ≡ children graph.now) }
{
    let mut children = Vec::new(alloc);
    for actor in graph.actors.items() {
        add_children(&actor.body, &mut children)?;
    }
    Ok(children)
}

/// The graphs that each graph holds over one actor.
pub(crate) fn child_lists(alloc: Global, graphs: &[Graph]) -> Result<Vec<List<u32>>, AllocError>
    ensures { IfOk result (λ v. v.items ≡ map children graphs.now) }
{
    let mut child_lists = Vec::with_capacity(alloc, graphs.len())?;
    for graph in graphs {
        child_lists.push(List::new(children(alloc, graph)?))?;
    }
    Ok(child_lists)
}

/// The fault that stands first at the graph at this place, if there is one.
fn at_graph(graphs: &Graphs, place: Option<usize>) -> Result<(), DetailFault<Name>>
    requires { IfSome place (λ v. v < length graphs.now.graphs) }
    ensures { (places : Seq ℕ) → first places ≡ place → Answers (map (graph_name graphs.now) places) result }
{
    match place {
        None => Ok(()),
        Some(place) => {
            let name = graphs.graphs.items()[place].name.clone()?;
            Err(DetailFault::Fault(name))
        }
    }
}

/// Whether no graph holds itself, over one or more hierarchical actors.
///
/// # Errors
///
/// - `Fault`: the name of the first graph, in the order of the file, that holds itself.
/// - `Memory`: want of memory.
pub fn graph_cycle(alloc: Global, graphs: &Graphs) -> Result<(), DetailFault<Name>>
    requires { RefersToGraphs graphs.now }
    ensures answer { Answers (graph_cycle_faults graphs.now) result }
{
    let child_lists = child_lists(alloc, graphs.graphs.items())?;
    let place = first_on_cycle(alloc, &child_lists)?;
    at_graph(graphs, place)
}

/// Whether one of the places is marked.
fn any_marked(places: &[u32], marks: &[bool]) -> bool
    requires { All (λ w. w < length marks.now) places.now }
    ensures { result ≡ list_any (λ w. slice_index_or marks.now w false) places.now }
{
    places.iter().any(|place| marks[*place as usize])
}

/// Marks of the graphs that have a marked child.
fn with_marked_child(
    alloc: Global,
    child_lists: &[List<u32>],
    marks: &[bool],
) -> Result<Vec<bool>, AllocError>
    requires inside { LeadsInside child_lists.now }
    requires long { length marks.now ≡ length child_lists.now }
    ensures { IfOk result (λ v. v.items ≡ map (λ to. list_any (λ w. slice_index_or marks.now w false) to) child_lists.now) }
{
    let mut parents = Vec::with_capacity(alloc, child_lists.len())?;
    for children in child_lists {
        parents.push(any_marked(children.items(), marks))?;
    }
    Ok(parents)
}

/// Marks of the graphs whose nesting is over a number.
fn nested_over(
    alloc: Global,
    child_lists: &[List<u32>],
    most: usize,
) -> Result<Vec<bool>, AllocError>
    requires { LeadsInside child_lists.now }
    ensures { IfOk result (λ v. v.items ≡ map (λ place. nat_lt most (nesting_to child_lists.now (most + 1) place)) (range_with_len 0 (length child_lists.now))) }
{
    let mut marks = vec![in alloc; true; child_lists.len()]?;
    for _level in 0..most {
        marks = with_marked_child(alloc, child_lists, &marks)?;
    }
    Ok(marks)
}

/// Whether no graph's nesting is over `MAX_NESTING`: it is 1 with no hierarchical actor, else one more than the greatest
/// of its children. That of a graph that leads to one which holds itself has no end, and is over the limit.
///
/// # Errors
///
/// - `Fault`: the name of the first graph, in the order of the file, whose nesting is over the limit.
/// - `Memory`: want of memory.
pub fn depth(alloc: Global, graphs: &Graphs) -> Result<(), DetailFault<Name>>
    requires { RefersToGraphs graphs.now }
    ensures answer { Answers (depth_faults graphs.now) result }
{
    let child_lists = child_lists(alloc, graphs.graphs.items())?;
    let marks = nested_over(alloc, &child_lists, MAX_NESTING)?;
    at_graph(graphs, first_marked(&marks))
}
