// How a firing ends.
ghost use Rattle.std.specs.Prelude.{ℕ, ◌≡◌, ◌+◌, ◌<◌, ◌≤◌, ◌++◌, List as Seq, [], drop, length, map, vec_capacity, vec_len, slice_index_or, unwrap_or, if◌then◌else◌};
ghost use Rattle.pisdf_meaning.specs.Running.{Traces, actor_states, child_rows, state_after, state_of_first};
ghost use Rattle.pisdf_meaning.specs.States.{tokens_at};
ghost use Rattle.param_resolver.specs.Numbering.{acting, has_state};
ghost use Rattle.pisdf_model.specs.declared.graph.Graph.{Graph as GraphView};
ghost use Rattle.job_preparing.specs.Handing.{with_traces};
ghost use Rattle.graph_firing.specs.Nodes.Parts.{HaveTraces};
ghost use Rattle.graph_firing.specs.Nodes.Stages.{refusal_at, spot_of};
ghost use Rattle.one_job.specs.View.{IsFiring};
ghost use Rattle.pisdf_model.specs.declared.actor.Actor.{Actor as ActorView};

use crate::nodes::tracing::append_traces;
use job_preparing::{ConfiguredFiring, JobGiven, Trace};
use param_expr::Name;
use pisdf_meaning::{Cause, Configured, Path, Refusal, next_list, push_fifo_states};
use pisdf_model::{Graph, is_configuration};
use sdf_level::{List, Node};
use std::alloc::Global;
use std::collections::VecDeque;

// ---- the state

/// Takes the state of the first of these configuration actors.
fn next_state(alloc: Global, left: &mut VecDeque<Configured>) -> List<i64>
    ensures taken { result ≡ state_of_first left.old.items }
    ensures rest { left.new.items ≡ drop 1 left.old.items }
{
    match left.pop_front() {
        Some(one) => one.state,
        None => List::new(Vec::new(alloc)),
    }
}

/// Takes the first of these lists for an actor whose state goes on, else an empty one.
fn kept_list(alloc: Global, keeps: bool, left: &mut VecDeque<List<i64>>) -> List<i64>
    ensures taken { result ≡ (if keeps then tokens_at left.old.items 0 else []) }
    ensures rest { left.new.items ≡ (if keeps then drop 1 left.old.items else left.old.items) }
{
    if keeps {
        next_list(alloc, left)
    } else {
        List::new(Vec::new(alloc))
    }
}

/// Adds the list of each actor: of a configuration actor the state that it left, of another with a state what is left on
/// its link to itself.
fn push_actor_states(
    alloc: Global,
    graph: &Graph,
    keeps: &[bool],
    configured: &mut VecDeque<Configured>,
    left: &mut VecDeque<List<i64>>,
    state: &mut Vec<List<i64>>,
)
    requires room { vec_len state.old + length graph.now.actors ≤ vec_capacity state.old }
    requires many { length keeps.now ≡ length (acting graph.now) }
    ensures { (graphs : Seq GraphView) → keeps.now ≡ map (has_state graphs) (acting graph.now) → state.new.items ≡ state.old.items ++ actor_states graphs graph.now.actors configured.old.items left.old.items }
{
    let mut number = 0;
    for actor in graph.actors.items() {
        if is_configuration(&actor.body) {
            state.push_reserved(next_state(alloc, configured));
        } else {
            state.push_reserved(kept_list(alloc, keeps[number], left));
            number += 1;
        }
    }
}

/// The state that the firing leaves, where this is left on the links of its level. There is room for its lists.
pub(crate) fn state_left(
    alloc: Global,
    graph: &Graph,
    keeps: &[bool],
    configured: List<Configured>,
    left: List<List<i64>>,
    mut state: Vec<List<i64>>,
) -> List<List<i64>>
    requires room { vec_len state + length graph.now.fifos + length graph.now.actors ≤ vec_capacity state }
    requires empty { state.items ≡ [] }
    requires many { length keeps.now ≡ length (acting graph.now) }
    ensures { (graphs : Seq GraphView) → keeps.now ≡ map (has_state graphs) (acting graph.now) → result ≡ state_after graphs graph.now configured left }
{
    let mut configured = VecDeque::from_vec(configured.into_items());
    let mut left = VecDeque::from_vec(left.into_items());
    push_fifo_states(alloc, graph, &mut left, &mut state);
    push_actor_states(alloc, graph, keeps, &mut configured, &mut left, &mut state);
    List::new(state)
}

// ---- what is given

/// What a running firing has for its end: of each actor of the level whether its state goes on, the rows of its own
/// parameters, the values of its exports, room for the state that it leaves, and the traces of what it called.
#[derive(Drop)]
pub(crate) struct Ending {
    pub keeps: Vec<bool>,
    pub rows: Trace,
    pub exports: List<i64>,
    pub state: Vec<List<i64>>,
    pub traces: Vec<Vec<Trace>>,
}

/// What a firing of a graph gives, whose configuration actors left this, and whose level gave this on its sinks and left
/// this on its links.
pub(crate) fn job_given(
    alloc: Global,
    graph: &Graph,
    own: Ending,
    left: ConfiguredFiring,
    outs: List<List<i64>>,
    stored: List<List<i64>>,
) -> JobGiven
    requires room { vec_len own.state + length graph.now.fifos + length graph.now.actors ≤ vec_capacity own.state }
    requires empty { own.state.items ≡ [] }
    requires many { length own.keeps.items ≡ length (acting graph.now) }
    ensures same { (result.outs ≡ outs) × (result.exports ≡ own.exports) }
    ensures state { (graphs : Seq GraphView) → own.keeps.items ≡ map (has_state graphs) (acting graph.now) → result.state ≡ state_after graphs graph.now left.configured stored }
    ensures trace { (counts : Seq ℕ) (traces : Traces) → length left.traces ≡ length left.configured → HaveTraces counts traces own.traces.items → result.trace ≡ own.rows ++ child_rows counts traces 0 graph.now.actors (with_traces left.configured left.traces) }
{
    let Ending {
        keeps,
        mut rows,
        exports,
        state,
        traces: own_traces,
    } = own;
    let ConfiguredFiring {
        firing: _,
        configured,
        traces,
    } = left;
    append_traces(
        alloc,
        graph.actors.items(),
        traces.into_items(),
        own_traces,
        &mut rows,
    );
    let state = state_left(alloc, graph, &keeps, configured, stored, state);
    JobGiven {
        outs,
        state,
        trace: rows,
        exports,
    }
}

// ---- the refusal

/// The name at a place of a list, which is moved out; an empty one where there is none.
fn take_name(alloc: Global, mut names: Vec<Name>, place: u32) -> Name
    ensures { result ≡ slice_index_or names.items place [] }
{
    let place = place as usize;
    if place < names.len() {
        names.swap_remove(place)
    } else {
        Name::new(String::new(alloc))
    }
}

/// The refusal of a node whose kernel refused with this code.
fn kernel_refusal(alloc: Global, path: Path, names: Vec<Name>, which: Node, code: u8) -> Refusal
    requires { IsFiring which }
    ensures { (own : Seq ActorView) → names.items ≡ map (λ a. a.name) own → result ≡ refusal_at (spot_of path own which) code }
{
    match which {
        Node::Firing { actor, turn } => Refusal {
            path,
            cause: Cause::Kernel {
                actor: take_name(alloc, names, actor),
                firing: turn,
                code,
            },
        },
        _ => unreachable!(),
    }
}

/// The refusal of a node, for which the job of leases has this code: that of what it called, where that was refused.
pub(crate) fn refusal_of(
    alloc: Global,
    path: Path,
    names: Vec<Name>,
    which: Node,
    called: Option<Refusal>,
    code: u8,
) -> Refusal
    requires { IsFiring which }
    ensures { (own : Seq ActorView) → names.items ≡ map (λ a. a.name) own → result ≡ unwrap_or called (refusal_at (spot_of path own which) code) }
{
    match called {
        Some(refusal) => refusal,
        None => kernel_refusal(alloc, path, names, which, code),
    }
}
