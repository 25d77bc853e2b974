// Where the Sinks, the Ends and the firings of a graph stand.
ghost use Rattle.std.specs.Prelude.{◌≡◌, ◌<◌, ℕ, false, IfOk, MatchOption, length, slice_index};
ghost use Rattle.single_rate.specs.Expanded.{place_of};
ghost use Rattle.single_rate.specs.Nodes.{same};
ghost use Rattle.sdf_level.specs.Lists.{lists_of};
ghost use Rattle.audit_job.specs.Outlets.{AreFilled, HavePlaces, noted, noted_firing, outlet_node};

use sdf_level::Node;
use std::alloc::{AllocError, Global};

/// The nodes through which tokens leave a graph.
#[derive(Debug, Clone, Copy, PartialEq, Eq, Drop)]
pub(crate) enum Outlet {
    /// The Sinks, by sink.
    Sink,
    /// The Ends, by link.
    End,
}

/// The sink of a Sink.
fn sink_of(node: Node) -> Option<u32>
    ensures { MatchOption result ((i : ℕ) → same (Node.Sink i) node ≡ false) (λ i. node ≡ Node.Sink i) }
{
    match node {
        Node::Sink(sink) => Some(sink),
        Node::Source(_) => None,
        Node::Init(_) => None,
        Node::Firing { actor: _, turn: _ } => None,
        Node::End(_) => None,
        Node::Broadcast(_) => None,
        Node::Fork { link: _, turn: _ } => None,
        Node::Join { link: _, turn: _ } => None,
        Node::Round(_) => None,
    }
}

/// The link of an End.
fn link_of(node: Node) -> Option<u32>
    ensures { MatchOption result ((i : ℕ) → same (Node.End i) node ≡ false) (λ i. node ≡ Node.End i) }
{
    match node {
        Node::End(link) => Some(link),
        Node::Source(_) => None,
        Node::Init(_) => None,
        Node::Firing { actor: _, turn: _ } => None,
        Node::Sink(_) => None,
        Node::Broadcast(_) => None,
        Node::Fork { link: _, turn: _ } => None,
        Node::Join { link: _, turn: _ } => None,
        Node::Round(_) => None,
    }
}

/// The number of its sink or its link, if a node is such an outlet.
fn number_of(node: Node, outlet: Outlet) -> Option<u32>
    ensures { MatchOption result ((i : ℕ) → same (outlet_node outlet i) node ≡ false) (λ i. node ≡ outlet_node outlet i) }
{
    match outlet {
        Outlet::Sink => sink_of(node),
        Outlet::End => link_of(node),
    }
}

/// Notes where a node stands, by its number.
fn note(places: &mut Vec<usize>, number: Option<u32>, place: usize)
    ensures { places.new.items ≡ noted places.old.items number place }
{
    if let Some(number) = number {
        if (number as usize) < places.len() {
            places[number as usize] = place;
        }
    }
}

/// For each of the first so many numbers where the first outlet with this number stands, or how many nodes there are where none
/// does.
pub(crate) fn outlet_places(
    alloc: Global,
    nodes: &[Node],
    outlet: Outlet,
    count: usize,
) -> Result<Vec<usize>, AllocError>
    ensures many { IfOk result (λ places. length places.items ≡ count) }
    ensures each { IfOk result (λ places. (i : ℕ) → i < count → slice_index places.items i ≡ place_of nodes.now (outlet_node outlet i)) }
{
    let mut places = vec![in alloc; nodes.len(); count]?;
    for back in 0..nodes.len() {
        let place = nodes.len() - 1 - back;
        note(&mut places, number_of(nodes[place], outlet), place);
    }
    Ok(places)
}

/// A list for each actor, as long as how often it fires, that has nothing but this number.
fn filled_places(
    alloc: Global,
    counts: &[u32],
    number: usize,
) -> Result<Vec<Vec<usize>>, AllocError>
    ensures { IfOk result (λ lists. AreFilled counts.now number (lists_of lists.items)) }
{
    let mut lists = Vec::with_capacity(alloc, counts.len())?;
    for count in counts {
        lists.push(vec![in alloc; number; *count as usize]?)?;
    }
    Ok(lists)
}

/// Notes where a node stands, if it is a firing, by its actor and its turn.
fn note_firing(lists: &mut Vec<Vec<usize>>, node: Node, place: usize)
    ensures { lists_of lists.new.items ≡ noted_firing (lists_of lists.old.items) node place }
{
    match node {
        Node::Firing { actor, turn } => {
            if (actor as usize) < lists.len() {
                note(&mut lists[actor as usize], Some(turn), place);
            }
        }
        Node::Source(_) => {}
        Node::Init(_) => {}
        Node::End(_) => {}
        Node::Sink(_) => {}
        Node::Broadcast(_) => {}
        Node::Fork { link: _, turn: _ } => {}
        Node::Join { link: _, turn: _ } => {}
        Node::Round(_) => {}
    }
}

/// A list for each actor: where each of its firings stands first, or how many nodes there are where it stands nowhere.
pub(crate) fn firing_places(
    alloc: Global,
    nodes: &[Node],
    counts: &[u32],
) -> Result<Vec<Vec<usize>>, AllocError>
    ensures { IfOk result (λ lists. HavePlaces nodes.now counts.now (lists_of lists.items)) }
{
    let mut lists = filled_places(alloc, counts, nodes.len())?;
    for back in 0..nodes.len() {
        let place = nodes.len() - 1 - back;
        note_firing(&mut lists, nodes[place], place);
    }
    Ok(lists)
}
