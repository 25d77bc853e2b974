// Firings of the graphs that actors name: what they are given, and what becomes of what they give.
ghost use Rattle.std.specs.Prelude.{◌≡◌, ◌<◌, ◌+◌, ◌^◌, Ok, length, slice_get, IfOk, IfErr};
ghost use Rattle.param_resolver.specs.Numbering.{has_state, level_inputs};
ghost use Rattle.pisdf_meaning.specs.Configuring.{child_leaves, config_firing, early_in};
ghost use Rattle.pisdf_meaning.specs.Endings.{IfRefused};
ghost use Rattle.pisdf_meaning.specs.Nested.{configuration_at};
ghost use Rattle.pisdf_meaning.specs.Running.{child_firing, child_fires, child_state};
ghost use Rattle.pisdf_meaning.specs.Sound.{actor_at};
ghost use Rattle.pisdf_model.specs.Parts.{input_count, inputs_of};

use crate::feeding::fed_to;
use crate::firing::{Configured, Firing, Given, Made};
use crate::lists::{copy_tokens, tokens_at};
use crate::path;
use crate::refusal::PlainFault;
use crate::states::{begin, begin_within, in_line};
use param_expr::Name;
use param_resolver::Early;
use pisdf_model::{Actor, Graph, Graphs};
use sdf_level::List;
use std::alloc::{AllocError, Global};

/// The state with which a child begins that reads these tokens: of an actor that keeps it, what it reads after the
/// child's inputs.
fn child_state(
    alloc: Global,
    graphs: &[Graph],
    keeps: bool,
    place: u32,
    inputs: usize,
    read: &[List<i64>],
) -> Result<List<List<i64>>, AllocError>
    ensures { IfOk result (λ state. state ≡ child_state graphs.now keeps place inputs read.now) }
{
    if keeps {
        begin_within(alloc, graphs, place, tokens_at(read, inputs))
    } else {
        begin(alloc, graphs, place)
    }
}

/// A firing of a hierarchical actor, whose arguments are worked out.
#[derive(Drop)]
pub struct ChildCall<'a> {
    /// The actor.
    pub actor: &'a Actor,
    /// The place of the graph that the actor names.
    pub place: u32,
    /// The number of the actor's firing.
    pub turn: u32,
    /// The values of the graph's inherited parameters.
    pub args: &'a [i64],
    /// What is known of the graph then.
    pub early: &'a Early,
}

/// The firing of the graph that a hierarchical actor names, whose child has so many inputs, and which keeps its child's state
/// or does not.
pub fn child_firing(
    alloc: Global,
    graphs: &[Graph],
    firing: &Firing,
    call: &ChildCall<'_>,
    keeps: bool,
    inputs: usize,
    read: List<List<i64>>,
) -> Result<Firing, AllocError>
    ensures { IfOk result (λ inner. inner ≡ child_firing graphs.now firing.now call.now.actor.now.name call.now.turn call.now.args.now keeps call.now.place inputs read) }
{
    let state = child_state(alloc, graphs, keeps, call.place, inputs, read.items())?;
    let mut given = read.into_items();
    given.truncate(inputs);
    Ok(Firing {
        path: path::child(alloc, &firing.path, &call.actor.name, call.turn)?,
        graph: call.place,
        inherited: copy_tokens(alloc, call.args)?,
        inputs: List::new(given),
        state,
    })
}

/// How many inputs the graph at a place has.
fn inputs_at(graphs: &[Graph], place: u32) -> usize
    requires { place < length graphs.now }
    ensures { result ≡ length (inputs_of (slice_get graphs.now place)) }
{
    graphs[place as usize].inputs.items().len()
}

/// A firing of a hierarchical actor, whose child is still to be fired.
#[derive(Drop)]
pub(crate) struct ChildBegun {
    /// Whether the actor keeps its child's state.
    pub(crate) keeps: bool,
    /// The firing of the child.
    pub(crate) inner: Firing,
}

/// Begins a firing of a hierarchical actor, which reads these tokens.
///
/// # Errors
///
/// Want of memory.
pub(crate) fn begin_child(
    alloc: Global,
    graphs: &Graphs,
    firing: &Firing,
    call: &ChildCall<'_>,
    read: List<List<i64>>,
) -> Result<ChildBegun, AllocError>
    requires there { call.now.place < length graphs.now.graphs }
    requires child { input_count graphs.now.graphs call.now.actor.now.body ≡ length (inputs_of (slice_get graphs.now.graphs call.now.place)) }
    requires read { length read ≡ level_inputs graphs.now.graphs call.now.actor.now }
    ensures keeps { IfOk result (λ begun. begun.keeps ≡ has_state graphs.now.graphs call.now.actor.now) }
    ensures inner { IfOk result (λ begun. begun.inner ≡ child_firing graphs.now.graphs firing.now call.now.actor.now.name call.now.turn call.now.args.now (has_state graphs.now.graphs call.now.actor.now) call.now.place (input_count graphs.now.graphs call.now.actor.now.body) read) }
{
    let all = graphs.graphs.items();
    let inputs = inputs_at(all, call.place);
    let keeps = read.items().len() > inputs;
    let inner = child_firing(alloc, all, firing, call, keeps, inputs, read)?;
    Ok(ChildBegun { keeps, inner })
}

/// What the actor's firing gives, whose child gave this. An actor that keeps the state of its child has it in one line after
/// the child's outputs.
///
/// # Errors
///
/// Want of memory.
pub(crate) fn child_made(alloc: Global, keeps: bool, given: Given) -> Result<Made, PlainFault>
    ensures outs { IfOk result (λ made. Ok made.outs ≡ child_fires keeps (Ok given)) }
    ensures trace { IfOk result (λ made. made.trace ≡ given.trace) }
    ensures never_refused { IfErr result (IfRefused (λ refusal. ⊥)) }
{
    let mut outs = given.outs.into_items();
    if keeps {
        outs.push(in_line(alloc, given.state.items())?)?;
    }
    Ok(Made {
        outs: List::new(outs),
        trace: given.trace,
    })
}

/// The firing of the graph at a place by the hierarchical configuration actor of this number, which stands at a place of
/// its graph and has so many inputs.
pub fn config_firing(
    alloc: Global,
    graphs: &[Graph],
    graph: &Graph,
    early: &Early,
    firing: &Firing,
    number: usize,
    actor: usize,
    name: &Name,
    place: u32,
    inputs: usize,
) -> Result<Firing, AllocError>
    requires actor { name.now ≡ (actor_at graph.now actor).name }
    requires early { early.now ≡ early_in graphs.now firing.now }
    requires inputs { inputs ≡ input_count graphs.now (actor_at graph.now actor).body }
    requires few { length graph.now.fifos + actor < 2 ^ 64 }
    ensures { IfOk result (λ inner. inner ≡ config_firing graphs.now graph.now firing.now (configuration_at graph.now number actor) place) }
{
    let line = tokens_at(firing.state.items(), graph.fifos.items().len() + actor);
    Ok(Firing {
        path: path::child(alloc, &firing.path, name, 0)?,
        graph: place,
        inherited: copy_tokens(alloc, tokens_at(early.args.items(), number))?,
        inputs: fed_to(alloc, graph, firing.inputs.items(), actor, inputs)?,
        state: begin_within(alloc, graphs, place, line)?,
    })
}

/// Begins the firing of a hierarchical configuration actor, which names the graph at a place: the firing of that graph.
///
/// # Errors
///
/// Want of memory.
pub(crate) fn begin_config(
    alloc: Global,
    graphs: &Graphs,
    graph: &Graph,
    early: &Early,
    firing: &Firing,
    number: usize,
    actor: usize,
    name: &Name,
    place: u32,
) -> Result<Firing, AllocError>
    requires actor { name.now ≡ (actor_at graph.now actor).name }
    requires early { early.now ≡ early_in graphs.now.graphs firing.now }
    requires there { place < length graphs.now.graphs }
    requires inputs { input_count graphs.now.graphs (actor_at graph.now actor).body ≡ length (inputs_of (slice_get graphs.now.graphs place)) }
    requires few { length graph.now.fifos + actor < 2 ^ 64 }
    ensures { IfOk result (λ inner. inner ≡ config_firing graphs.now.graphs graph.now firing.now (configuration_at graph.now number actor) place) }
{
    let all = graphs.graphs.items();
    let inputs = inputs_at(all, place);
    config_firing(
        alloc, all, graph, early, firing, number, actor, name, place, inputs,
    )
}

/// What a hierarchical configuration actor leaves, whose child gave this.
///
/// # Errors
///
/// Want of memory.
pub(crate) fn child_left(alloc: Global, given: Given) -> Result<Configured, PlainFault>
    ensures leaves { IfOk result (λ one. Ok one ≡ child_leaves (Ok given)) }
    ensures outs { IfOk result (λ one. one.outs ≡ given.outs) }
    ensures never_refused { IfErr result (IfRefused (λ refusal. ⊥)) }
{
    let state = in_line(alloc, given.state.items())?;
    Ok(Configured {
        outs: given.outs,
        sets: given.exports,
        state,
        trace: given.trace,
    })
}
