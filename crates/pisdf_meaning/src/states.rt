// The state of a graph: the tokens that go on from one of its firings to the next, a list for each FIFO and then one for
// each actor. And with what the links of its level begin.
ghost use Rattle.std.specs.Prelude.{ℕ, ℤ, ◌≡◌, ◌+◌, ◌<◌, ◌≤◌, ◌++◌, List as Seq, length, map, IfOk, OnOk};
ghost use Rattle.pisdf_model.specs.Hold.{actor_state, in_line, initial, initial_to, kept_in};
ghost use Rattle.pisdf_model.specs.declared.actor.Actor.{Actor};
ghost use Rattle.pisdf_model.specs.declared.graph.Graph.{Graph as GraphView};
ghost use Rattle.sdf_level.specs.Lists.{lists_of};
ghost use Rattle.pisdf_meaning.specs.Held.{TellHolds, TellHoldsTo, TellHoldsToAll};
ghost use Rattle.pisdf_meaning.specs.Running.{actor_starts, fifo_starts, link_starts};
ghost use Rattle.pisdf_meaning.specs.States.{begins_with, cut, state_in, tokens_at};

use crate::firing::Firing;
use crate::holding::{has_state, holds_for, holds_tokens};
use crate::lists::{copy_tokens, tokens_at};
use crate::sources::is_kept;
use pisdf_model::{Actor, Body, Fifo, Graph, Life, MAX_NESTING};
use sdf_level::List;
use std::alloc::{AllocError, Global};

/// A state in one line.
///
/// # Errors
///
/// Want of memory.
pub fn in_line(alloc: Global, state: &[List<i64>]) -> Result<List<i64>, AllocError>
    ensures { IfOk result (λ line. line ≡ in_line state.now) }
{
    let mut line = Vec::new(alloc);
    for tokens in state {
        line.extend_from_slice(tokens.items())?;
    }
    Ok(List::new(line))
}

// ---- the state with which a graph begins

/// The tokens of a FIFO's delay that go on over the firings of its graph.
fn kept_in(fifo: &Fifo) -> &[i64]
    ensures { result.now ≡ kept_in fifo.now }
{
    match fifo.life {
        Life::Firing => &[],
        Life::Permanent => fifo.delay.items(),
    }
}

/// Puts the tokens of these FIFOs that go on at the end of a line.
fn push_kept(fifos: &[Fifo], line: &mut Vec<i64>) -> Result<(), AllocError>
    ensures { OnOk result (line.new.items ≡ line.old.items ++ in_line (map kept_in fifos.now)) }
{
    for fifo in fifos {
        line.extend_from_slice(kept_in(fifo))?;
    }
    Ok(())
}

/// Puts the state with which the graph at a place begins at the end of a line, over `levels` graphs nested in each other.
#[cycle(beginning)]
fn push_state(
    graphs: &[Graph],
    holds: &[usize],
    place: usize,
    levels: usize,
    line: &mut Vec<i64>,
) -> Result<(), AllocError>
    requires holds { TellHolds graphs.now holds.now }
    requires few { levels ≤ 8 }
    ensures { OnOk result (line.new.items ≡ line.old.items ++ in_line (initial_to graphs.now levels place)) }
{
    if levels == 0 {
        return Ok(());
    }
    if !holds_tokens(holds, place) {
        return Ok(());
    }
    match graphs.get(place) {
        None => Ok(()),
        Some(graph) => {
            push_kept(graph.fifos.items(), line)?;
            push_actor_states(graphs, holds, graph.actors.items(), levels - 1, line)
        }
    }
}

/// Puts the states of these actors at the end of a line.
#[cycle(beginning)]
fn push_actor_states(
    graphs: &[Graph],
    holds: &[usize],
    actors: &[Actor],
    levels: usize,
    line: &mut Vec<i64>,
) -> Result<(), AllocError>
    requires holds { TellHolds graphs.now holds.now }
    requires few { levels ≤ 8 }
    ensures { OnOk result (line.new.items ≡ line.old.items ++ in_line (map (λ (a : Actor). actor_state (initial_to graphs.now levels) a.body) actors.now)) }
{
    for actor in actors {
        push_actor_state(graphs, holds, &actor.body, levels, line)?;
    }
    Ok(())
}

/// Puts the state of an actor at the end of a line: that with which the graph that it names begins, if it names one.
#[cycle(beginning)]
fn push_actor_state(
    graphs: &[Graph],
    holds: &[usize],
    body: &Body,
    levels: usize,
    line: &mut Vec<i64>,
) -> Result<(), AllocError>
    requires holds { TellHoldsTo graphs.now holds.now body.now }
    requires few { levels ≤ 8 }
    ensures { OnOk result (line.new.items ≡ line.old.items ++ actor_state (initial_to graphs.now levels) body.now) }
{
    match body {
        Body::Kernel { .. } | Body::Config { .. } => Ok(()),
        Body::Child { graph, .. } | Body::ConfigChild { graph, .. } => {
            push_state(graphs, holds, *graph as usize, levels, line)
        }
    }
}

/// Adds a list for each FIFO.
fn push_fifo_lists(
    alloc: Global,
    fifos: &[Fifo],
    lists: &mut Vec<List<i64>>,
) -> Result<(), AllocError>
    ensures { OnOk result (lists.new.items ≡ lists.old.items ++ map kept_in fifos.now) }
{
    for fifo in fifos {
        lists.push(copy_tokens(alloc, kept_in(fifo))?)?;
    }
    Ok(())
}

/// Adds a list for each actor.
fn push_actor_lists(
    alloc: Global,
    graphs: &[Graph],
    holds: &[usize],
    actors: &[Actor],
    levels: usize,
    lists: &mut Vec<List<i64>>,
) -> Result<(), AllocError>
    requires holds { TellHoldsToAll graphs.now holds.now actors.now }
    requires few { levels ≤ 8 }
    ensures { OnOk result (lists.new.items ≡ lists.old.items ++ map (λ (a : Actor). actor_state (initial_to graphs.now levels) a.body) actors.now) }
{
    for actor in actors {
        let mut line = Vec::new(alloc);
        push_actor_state(graphs, holds, &actor.body, levels, &mut line)?;
        lists.push(List::new(line))?;
    }
    Ok(())
}

/// The state with which the graph at a place begins. The time taken goes with the sizes of the graphs, and with the number of
/// its tokens times the sizes of the graphs in whose states they stand: graphs without tokens in their states aren't entered.
pub(crate) fn begin(
    alloc: Global,
    graphs: &[Graph],
    place: u32,
) -> Result<List<List<i64>>, AllocError>
    ensures { IfOk result (λ state. state ≡ initial graphs.now place) }
{
    let mut lists = Vec::new(alloc);
    match graphs.get(place as usize) {
        None => Ok(List::new(lists)),
        Some(graph) => {
            push_fifo_lists(alloc, graph.fifos.items(), &mut lists)?;
            let actors = graph.actors.items();
            let holds = holds_for(alloc, graphs, actors)?;
            push_actor_lists(alloc, graphs, &holds, actors, MAX_NESTING - 1, &mut lists)?;
            Ok(List::new(lists))
        }
    }
}

/// A line cut into lists as long as these.
fn cut(alloc: Global, lists: &[List<i64>], line: &[i64]) -> Result<List<List<i64>>, AllocError>
    ensures { IfOk result (λ state. state ≡ cut (map (λ (tokens : Seq ℤ). length tokens) lists.now) line.now) }
{
    let mut state = Vec::with_capacity(alloc, lists.len())?;
    let mut rest = line;
    for list in lists {
        let (tokens, more) = rest.split_at(list.items().len().min(rest.len()));
        state.push(copy_tokens(alloc, tokens)?)?;
        rest = more;
    }
    Ok(List::new(state))
}

/// The state of the graph at a place, which stands in one line.
pub(crate) fn begin_within(
    alloc: Global,
    graphs: &[Graph],
    place: u32,
    line: &[i64],
) -> Result<List<List<i64>>, AllocError>
    ensures { IfOk result (λ state. state ≡ state_in graphs.now place line.now) }
{
    let initial = begin(alloc, graphs, place)?;
    cut(alloc, initial.items(), line)
}

// ---- links

/// With what a FIFO begins a firing of its graph, where these are the tokens that go on.
fn begins_with<'a>(fifo: &'a Fifo, kept: &'a [i64]) -> &'a [i64]
    ensures { result.now ≡ begins_with fifo.now.life fifo.now.delay kept.now }
{
    match fifo.life {
        Life::Firing => fifo.delay.items(),
        Life::Permanent => kept,
    }
}

/// Adds the line with which the link of each FIFO begins that becomes one.
fn push_fifo_starts(
    alloc: Global,
    graph: &Graph,
    state: &[List<i64>],
    lines: &mut Vec<Vec<i64>>,
) -> Result<(), AllocError>
    ensures { OnOk result (lists_of lines.new.items ≡ lists_of lines.old.items ++ fifo_starts graph.now state.now 0 graph.now.fifos) }
{
    for (place, fifo) in graph.fifos.items().iter().enumerate() {
        if is_kept(graph, fifo) {
            let tokens = begins_with(fifo, tokens_at(state, place));
            lines.push(Vec::from_slice(alloc, tokens)?)?;
        }
    }
    Ok(())
}

/// Adds the line with which the link of each actor to itself begins that has one, where this many tokens stand in the state
/// of each graph.
fn push_actor_starts(
    alloc: Global,
    holds: &[usize],
    graph: &Graph,
    state: &[List<i64>],
    lines: &mut Vec<Vec<i64>>,
) -> Result<(), AllocError>
    ensures { (graphs : Seq GraphView) → TellHoldsToAll graphs holds.now graph.now.actors → OnOk result (lists_of lines.new.items ≡ lists_of lines.old.items ++ actor_starts graphs graph.now state.now 0 graph.now.actors) }
{
    let fifos = graph.fifos.items().len();
    for (place, actor) in graph.actors.items().iter().enumerate() {
        if has_state(holds, actor) {
            lines.push(Vec::from_slice(alloc, tokens_at(state, fifos + place))?)?;
        }
    }
    Ok(())
}

/// With what the links of a graph's level begin: those of FIFOs, then those of actors to themselves.
pub fn link_starts(
    alloc: Global,
    graphs: &[Graph],
    graph: &Graph,
    firing: &Firing,
) -> Result<Vec<Vec<i64>>, AllocError>
    ensures { IfOk result (λ lines. lists_of lines.items ≡ link_starts graphs.now graph.now firing.now) }
{
    let state = firing.state.items();
    let mut lines = Vec::new(alloc);
    push_fifo_starts(alloc, graph, state, &mut lines)?;
    let holds = holds_for(alloc, graphs, graph.actors.items())?;
    push_actor_starts(alloc, &holds, graph, state, &mut lines)?;
    Ok(lines)
}
