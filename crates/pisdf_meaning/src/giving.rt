// What a firing of a graph gives, once its level was run.
ghost use Rattle.std.specs.Prelude.{◌≡◌, ◌≤◌, ℕ, ◌+◌, ◌++◌, List as Seq, [], drop, length, map, slice_index_or, vec_capacity, vec_len, IfOk, OnOk};
ghost use Rattle.std.specs.List.{filter};
ghost use Rattle.param_resolver.specs.Numbering.{is_kept};
ghost use Rattle.pisdf_model.specs.declared.graph.Graph.{Graph as GraphView};
ghost use Rattle.sdf_level.specs.Lists.{lists_of};
ghost use Rattle.pisdf_meaning.specs.Held.{TellHoldsToAll};
ghost use Rattle.pisdf_meaning.specs.Running.{HaveRows, Traces, actor_states, child_rows, chosen_row, chosen_rows, fifo_states, given_by, state_after, state_of_first, trace_of_first, value_at};
ghost use Rattle.pisdf_meaning.specs.States.{goes_on, tokens_at};

use crate::firing::{Configured, Firing, Given};
use crate::holding::{has_state, holds_for};
use crate::lists::copy_tokens;
use crate::naming::copy_name;
use crate::outcome::TraceRow;
use crate::path::Path;
use crate::rows::append_rows;
use crate::sources::is_kept;
use pisdf_model::{Actor, Graph, Life, Param, ParamKind, is_configuration};
use sdf_level::List;
use std::alloc::{AllocError, Global};
use std::collections::VecDeque;

/// What the run of a level leaves.
#[derive(Drop)]
pub struct LevelEnd {
    /// What each sink keeps.
    pub outs: List<List<i64>>,
    /// What is left on each link.
    pub left: List<List<i64>>,
    /// The traces of each actor's firings, by the actor's number in the level.
    pub rows: Vec<Vec<TraceRow>>,
}

// ---- the state

/// Takes the first of these lists, which is empty where there is none.
pub fn next_list(alloc: Global, lists: &mut VecDeque<List<i64>>) -> List<i64>
    ensures taken { result ≡ tokens_at lists.old.items 0 }
    ensures rest { lists.new.items ≡ drop 1 lists.old.items }
{
    match lists.pop_front() {
        Some(list) => list,
        None => List::new(Vec::new(alloc)),
    }
}

/// What goes on of the tokens that are left on the link of a FIFO.
fn goes_on(alloc: Global, life: Life, left: List<i64>) -> List<i64>
    ensures { result ≡ goes_on life left }
{
    match life {
        Life::Firing => List::new(Vec::new(alloc)),
        Life::Permanent => left,
    }
}

/// Adds what goes on of each FIFO, and takes from what is left on the links that of the FIFOs that become links. It takes no
/// memory: `state` has room for a list of each FIFO.
pub fn push_fifo_states(
    alloc: Global,
    graph: &Graph,
    left: &mut VecDeque<List<i64>>,
    state: &mut Vec<List<i64>>,
)
    requires room { vec_len state.old + length graph.now.fifos ≤ vec_capacity state.old }
    ensures state { state.new.items ≡ state.old.items ++ fifo_states graph.now graph.now.fifos left.old.items }
    ensures left { left.new.items ≡ drop (length (filter (is_kept graph.now) graph.now.fifos)) left.old.items }
    ensures len { vec_len state.new ≡ vec_len state.old + length graph.now.fifos }
    ensures capacity { vec_capacity state.new ≡ vec_capacity state.old }
{
    for fifo in graph.fifos.items() {
        if is_kept(graph, fifo) {
            let tokens = next_list(alloc, left);
            state.push_reserved(goes_on(alloc, fifo.life, tokens));
        } else {
            state.push_reserved(List::new(Vec::new(alloc)));
        }
    }
}

/// The state that the configuration actor of this number left.
fn state_left(configured: &[Configured], number: usize) -> &[i64]
    ensures { result.now ≡ state_of_first (drop number configured.now) }
{
    match configured.get(number) {
        Some(one) => one.state.items(),
        None => &[],
    }
}

/// Adds the list of each actor: of a configuration actor the state that it left, of another with a state what is left on
/// its link to itself. This many tokens stand in the state of each graph at first.
fn push_actor_states(
    alloc: Global,
    holds: &[usize],
    actors: &[Actor],
    configured: &[Configured],
    left: &mut VecDeque<List<i64>>,
    state: &mut Vec<List<i64>>,
) -> Result<(), AllocError>
    ensures { (graphs : Seq GraphView) → TellHoldsToAll graphs holds.now actors.now → OnOk result (state.new.items ≡ state.old.items ++ actor_states graphs actors.now configured.now left.old.items) }
{
    let mut number = 0;
    for actor in actors {
        if is_configuration(&actor.body) {
            state.push(copy_tokens(alloc, state_left(configured, number))?)?;
            number += 1;
        } else if has_state(holds, actor) {
            state.push(next_list(alloc, left))?;
        } else {
            state.push(List::new(Vec::new(alloc)))?;
        }
    }
    Ok(())
}

/// The state that a firing of the graph leaves, where this is left on the links of its level.
fn state_after(
    alloc: Global,
    graphs: &[Graph],
    graph: &Graph,
    configured: &[Configured],
    left: List<List<i64>>,
) -> Result<List<List<i64>>, AllocError>
    ensures { IfOk result (λ state. state ≡ state_after graphs.now graph.now configured.now left) }
{
    let mut left = VecDeque::from_vec(left.into_items());
    let mut state = Vec::with_capacity(alloc, graph.fifos.items().len())?;
    push_fifo_states(alloc, graph, &mut left, &mut state);
    let actors = graph.actors.items();
    let holds = holds_for(alloc, graphs, actors)?;
    push_actor_states(alloc, &holds, actors, configured, &mut left, &mut state)?;
    Ok(List::new(state))
}

// ---- the values of parameters

/// The value at a place, or 0 past the end.
pub fn value_at(values: &[i64], place: usize) -> i64
    ensures { result ≡ value_at values.now place }
{
    match values.get(place) {
        Some(value) => *value,
        None => 0,
    }
}

/// The values of the graph's exports, where these are those of its parameters.
///
/// # Errors
///
/// Want of memory.
pub fn exports_of(alloc: Global, graph: &Graph, values: &[i64]) -> Result<List<i64>, AllocError>
    ensures { IfOk result (λ exports. exports ≡ map (value_at values.now) graph.now.exports) }
{
    let mut exports = Vec::new(alloc);
    for place in graph.exports.items() {
        exports.push(value_at(values, *place as usize))?;
    }
    Ok(List::new(exports))
}

/// Adds the row of a parameter with this value, if it is a chosen one.
fn push_chosen(
    alloc: Global,
    path: &Path,
    param: &Param,
    value: i64,
    rows: &mut Vec<TraceRow>,
) -> Result<(), AllocError>
    ensures { OnOk result (rows.new.items ≡ rows.old.items ++ chosen_row path.now param.now.name value param.now.kind) }
{
    match param.kind {
        ParamKind::Inherited | ParamKind::Derived(_) => Ok(()),
        ParamKind::Chosen => {
            let path = path.copy()?;
            let name = copy_name(alloc, &param.name)?;
            rows.push(TraceRow { path, name, value })?;
            Ok(())
        }
    }
}

/// Adds the rows of the chosen ones among these parameters.
fn push_chosen_rows(
    alloc: Global,
    path: &Path,
    params: &[Param],
    values: &[i64],
    rows: &mut Vec<TraceRow>,
) -> Result<(), AllocError>
    ensures { OnOk result (rows.new.items ≡ rows.old.items ++ chosen_rows path.now values.now 0 params.now) }
{
    for (place, param) in params.iter().enumerate() {
        push_chosen(alloc, path, param, value_at(values, place), rows)?;
    }
    Ok(())
}

// ---- the traces of the children

/// Takes the first of these lists of rows, which is empty where there is none.
fn next_rows(alloc: Global, lists: &mut VecDeque<Vec<TraceRow>>) -> Vec<TraceRow>
    ensures taken { result.items ≡ slice_index_or (lists_of lists.old.items) 0 [] }
    ensures rest { lists.new.items ≡ drop 1 lists.old.items }
{
    match lists.pop_front() {
        Some(rows) => rows,
        None => Vec::new(alloc),
    }
}

/// The trace that the configuration actor of this number left.
fn trace_left(configured: &[Configured], number: usize) -> &[TraceRow]
    ensures { result.now ≡ trace_of_first (drop number configured.now) }
{
    match configured.get(number) {
        Some(one) => one.trace.items(),
        None => &[],
    }
}

/// Adds the traces of the children of these actors, where these are the rows of those that fire in the level.
fn push_child_rows(
    alloc: Global,
    actors: &[Actor],
    configured: &[Configured],
    own: Vec<Vec<TraceRow>>,
    rows: &mut Vec<TraceRow>,
) -> Result<(), AllocError>
    ensures { (counts : Seq ℕ) (traces : Traces) → HaveRows counts traces (lists_of own.items) → OnOk result (rows.new.items ≡ rows.old.items ++ child_rows counts traces 0 actors.now configured.now) }
{
    let mut own = VecDeque::from_vec(own);
    let mut number = 0;
    for actor in actors {
        if is_configuration(&actor.body) {
            append_rows(alloc, rows, trace_left(configured, number))?;
            number += 1;
        } else {
            let mut traces = next_rows(alloc, &mut own);
            rows.append(&mut traces)?;
        }
    }
    Ok(())
}

/// What a firing of a graph gives, whose configuration actors left this, whose parameters have these values, and the run
/// of whose level left that.
///
/// # Errors
///
/// Want of memory.
pub fn given_by(
    alloc: Global,
    graphs: &[Graph],
    graph: &Graph,
    firing: &Firing,
    configured: &[Configured],
    values: &[i64],
    end: LevelEnd,
) -> Result<Given, AllocError>
    ensures { (counts : Seq ℕ) (traces : Traces) → HaveRows counts traces (lists_of end.rows.items) → IfOk result (λ given. given ≡ given_by graphs.now graph.now firing.now configured.now values.now counts traces (record { outs = end.outs; left = end.left })) }
{
    let LevelEnd { outs, left, rows } = end;
    let mut trace = Vec::new(alloc);
    push_chosen_rows(
        alloc,
        &firing.path,
        graph.params.items(),
        values,
        &mut trace,
    )?;
    push_child_rows(alloc, graph.actors.items(), configured, rows, &mut trace)?;
    Ok(Given {
        outs,
        state: state_after(alloc, graphs, graph, configured, left)?,
        trace: List::new(trace),
        exports: exports_of(alloc, graph, values)?,
    })
}
