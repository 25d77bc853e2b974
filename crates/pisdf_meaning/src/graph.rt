// One firing of a graph, and of those that it holds.
ghost use Rattle.std.specs.Prelude.{◌≡◌, ◌<◌, ◌+◌, [], length, slice_get, slice_index_or, Ok, Err, List as Seq, IfOk, IfErr, OnOk};
ghost use Rattle.std.specs.List.{All};
ghost use Rattle.kernel_gate.specs.Signed.{unnamed};
ghost use Rattle.param_resolver.specs.EarlyCheck.{early_faults, early_of};
ghost use Rattle.param_resolver.specs.Numbering.{level_inputs};
ghost use Rattle.pisdf_model.specs.InterfaceWires.{is_configuration};
ghost use Rattle.pisdf_model.specs.Parts.{input_count, inputs_of};
ghost use Rattle.sdf_level.specs.Firings.{actors_of, turns_of};
ghost use Rattle.sdf_level.specs.Invariants.{how_many};
ghost use Rattle.sdf_level.specs.Lists.{lists_of};
ghost use Rattle.sdf_level.specs.Run.{inputs, is_into_actor};
ghost use Rattle.sdf_level.specs.declared.turn.Turn.{Turn as SeqTurn};
ghost use Rattle.pisdf_meaning.specs.Configuring.{Configures, Leaves, early_in};
ghost use Rattle.pisdf_meaning.specs.Endings.{Answers, IfRefused};
ghost use Rattle.pisdf_meaning.specs.Meaning.{FiresGraph, MeansWithin};
ghost use Rattle.pisdf_meaning.specs.Nested.{CanRun, HaveLeft, Holds, IsUnderway, actor_fires, configuration_at, outs_count, rates_count};
ghost use Rattle.pisdf_meaning.specs.Planned.{IsPlanned};
ghost use Rattle.pisdf_meaning.specs.Prepared.{IsPrepared};
ghost use Rattle.pisdf_meaning.specs.Running.{FiresChild, link_starts};
ghost use Rattle.pisdf_meaning.specs.Sound.{IsConfiguration, NestsWithin, actor_at};
ghost use Rattle.pisdf_meaning.specs.States.{tokens_at};
ghost use Rattle.pisdf_meaning.specs.Turns.{HasRun, MeetsRefusal, TurnFires, TurnRefused};
ghost use Rattle.pisdf_meaning.specs.declared.outcome.TraceRow.{TraceRow as Row};

use crate::children::{ChildCall, begin_child, begin_config, child_left, child_made};
use crate::firing::{Configured, Firing, Given, Made};
use crate::firing_kernels::{ConfigCall, fire_kernel_actor, leave_config};
use crate::lists::tokens_at;
use crate::parts::Prepared;
use crate::planning::{Planned, finished, plan_level};
use crate::preparing::{child_known, rates_at};
use crate::refusal::PlainFault;
use crate::running::{RunState, end_turn, starting};
use kernel_gate::Gate;
use level_lines::read;
use param_resolver::Early;
use pisdf_model::{Actor, Body, Graph, Graphs, is_configuration};
use sdf_level::{List, Turn};
use std::alloc::Global;

/// What the configuration actor at a place leaves, which has this number among them. From the graph that it names on at
/// most `levels` are nested in each other.
#[cycle(firing)]
fn leave<K: Gate>(
    alloc: Global,
    graphs: &Graphs,
    gate: &K,
    graph: &Graph,
    early: &Early,
    firing: &Firing,
    number: usize,
    place: usize,
    actor: &Actor,
    levels: usize,
) -> Result<Configured, PlainFault>
    requires underway { IsUnderway (unnamed (K.kernels gate.now)) levels graphs.now graph.now firing.now early.now }
    requires actor { actor.now ≡ actor_at graph.now place }
    requires is { IsConfiguration graph.now number place }
    ensures leaves { Answers (Leaves graphs.now.graphs (MeansWithin levels graphs.now.graphs) graph.now firing.now (configuration_at graph.now number place) actor.now.body) result }
    ensures outs { IfOk result (λ one. length one.outs ≡ length (slice_index_or early.now.outs number [])) }
{
    match &actor.body {
        Body::Config {
            kernel,
            ins,
            sets,
            ..
        } => {
            let call = ConfigCall {
                actor: &actor.name,
                number,
                place,
                kernel: *kernel,
                inputs: ins.items().len(),
                sets: sets.items().len() as u32,
            };
            leave_config(alloc, gate, graph, early, firing, &call)
        }
        Body::ConfigChild { graph: child, .. } => {
            let inner = begin_config(
                alloc,
                graphs,
                graph,
                early,
                firing,
                number,
                place,
                &actor.name,
                *child,
            )?;
            let known = child_known(&early.children, number);
            let given = fire_graph(alloc, graphs, gate, known, &inner, levels)?;
            child_left(alloc, given)
        }
        Body::Kernel { .. } | Body::Child { .. } => unreachable!(),
    }
}

/// Adds what the actor at a place leaves, if it is a configuration actor, to what those before it left.
#[cycle(firing)]
fn leave_next<K: Gate>(
    alloc: Global,
    graphs: &Graphs,
    gate: &K,
    graph: &Graph,
    early: &Early,
    firing: &Firing,
    place: usize,
    configured: &mut Vec<Configured>,
    levels: usize,
) -> Result<(), PlainFault>
    requires underway { IsUnderway (unnamed (K.kernels gate.now)) levels graphs.now graph.now firing.now early.now }
    requires there { place < length graph.now.actors }
    requires before { HaveLeft graphs.now.graphs (MeansWithin levels graphs.now.graphs) graph.now firing.now early.now place configured.old.items }
    ensures left { OnOk result (HaveLeft graphs.now.graphs (MeansWithin levels graphs.now.graphs) graph.now firing.now early.now (place + 1) configured.new.items) }
    ensures refused { IfErr result (IfRefused (λ refusal. Configures graphs.now.graphs (MeansWithin levels graphs.now.graphs) graph.now firing.now (Err refusal))) }
{
    let actor = &graph.actors.items()[place];
    if !is_configuration(&actor.body) {
        return Ok(());
    }
    let number = configured.len();
    let one = leave(
        alloc, graphs, gate, graph, early, firing, number, place, actor, levels,
    )?;
    configured.push(one)?;
    Ok(())
}

/// What the configuration actors of a graph leave, each of which fires once, in file order. From the graphs that they name
/// on at most `levels` are nested in each other.
#[cycle(firing)]
pub(crate) fn configure<K: Gate>(
    alloc: Global,
    graphs: &Graphs,
    gate: &K,
    graph: &Graph,
    early: &Early,
    firing: &Firing,
    levels: usize,
) -> Result<Vec<Configured>, PlainFault>
    requires { IsUnderway (unnamed (K.kernels gate.now)) levels graphs.now graph.now firing.now early.now }
    ensures configures { IfOk result (λ configured. Configures graphs.now.graphs (MeansWithin levels graphs.now.graphs) graph.now firing.now (Ok configured.items)) }
    ensures outs { IfOk result (λ configured. outs_count configured.items ≡ rates_count early.now.outs) }
    ensures refused { IfErr result (IfRefused (λ refusal. Configures graphs.now.graphs (MeansWithin levels graphs.now.graphs) graph.now firing.now (Err refusal))) }
{
    let mut configured = Vec::new(alloc);
    for place in 0..graph.actors.items().len() {
        leave_next(
            alloc,
            graphs,
            gate,
            graph,
            early,
            firing,
            place,
            &mut configured,
            levels,
        )?;
    }
    Ok(configured)
}

/// A firing of a hierarchical actor, which reads these tokens.
#[cycle(firing)]
fn fire_child<K: Gate>(
    alloc: Global,
    graphs: &Graphs,
    gate: &K,
    firing: &Firing,
    call: &ChildCall<'_>,
    read: List<List<i64>>,
    levels: usize,
) -> Result<Made, PlainFault>
    requires can { CanRun (unnamed (K.kernels gate.now)) graphs.now }
    requires nested { NestsWithin levels graphs.now.graphs call.now.place }
    requires child { input_count graphs.now.graphs call.now.actor.now.body ≡ length (inputs_of (slice_get graphs.now.graphs call.now.place)) }
    requires early { call.now.early.now ≡ early_of graphs.now.graphs call.now.place call.now.args.now }
    requires sound { early_faults graphs.now.graphs call.now.place call.now.args.now ≡ [] }
    requires read { length read ≡ level_inputs graphs.now.graphs call.now.actor.now }
    ensures fires { IfOk result (λ made. FiresChild graphs.now.graphs (MeansWithin levels graphs.now.graphs) firing.now call.now.args.now call.now.actor.now call.now.place call.now.turn made.trace read (Ok made.outs)) }
    ensures refused { IfErr result (IfRefused (λ refusal. (trace : Seq Row) → FiresChild graphs.now.graphs (MeansWithin levels graphs.now.graphs) firing.now call.now.args.now call.now.actor.now call.now.place call.now.turn trace read (Err refusal))) }
{
    let begun = begin_child(alloc, graphs, firing, call, read)?;
    let given = fire_graph(alloc, graphs, gate, call.early, &begun.inner, levels)?;
    child_made(alloc, begun.keeps, given)
}

/// A firing of an actor of a level, which reads these tokens.
#[cycle(firing)]
fn fire_actor<K: Gate>(
    alloc: Global,
    graphs: &Graphs,
    gate: &K,
    graph: &Graph,
    firing: &Firing,
    prepared: &Prepared,
    turn: Turn,
    read: List<List<i64>>,
    levels: usize,
) -> Result<Made, PlainFault>
    requires holds { Holds (unnamed (K.kernels gate.now)) levels graphs.now graph.now }
    requires prepared { IsPrepared graphs.now.graphs graph.now firing.now prepared.now }
    requires actor { turn.actor < prepared.now.parts.level.actors }
    requires read { length read ≡ how_many (is_into_actor turn.actor) prepared.now.parts.level.links }
    ensures fires { IfOk result (λ made. actor_fires graphs.now.graphs (MeansWithin levels graphs.now.graphs) graph.now firing.now prepared.now.values turn.actor turn.turn made.trace read (Ok made.outs)) }
    ensures refused { IfErr result (IfRefused (λ refusal. (trace : Seq Row) → actor_fires graphs.now.graphs (MeansWithin levels graphs.now.graphs) graph.now firing.now prepared.now.values turn.actor turn.turn trace read (Err refusal))) }
{
    let number = turn.actor as usize;
    let parts = &prepared.parts;
    let actor = &graph.actors.items()[parts.places.items()[number] as usize];
    let args = tokens_at(parts.args.items(), number);
    match &actor.body {
        Body::Kernel { kernel, .. } => fire_kernel_actor(
            alloc,
            gate,
            &firing.path,
            &actor.name,
            turn.turn,
            *kernel,
            args,
            read,
            rates_at(parts.outs.items(), number),
        ),
        Body::Child { graph: child, .. } => {
            let early = child_known(parts.children.items(), number);
            let call = ChildCall {
                actor,
                place: *child,
                turn: turn.turn,
                args,
                early,
            };
            fire_child(alloc, graphs, gate, firing, &call, read, levels)
        }
        Body::Config { .. } | Body::ConfigChild { .. } => unreachable!(),
    }
}

/// Makes a firing of a level's actor: it reads its inputs off the lines, and puts its outputs at their ends.
#[cycle(firing)]
fn take_turn<K: Gate>(
    alloc: Global,
    graphs: &Graphs,
    gate: &K,
    graph: &Graph,
    firing: &Firing,
    prepared: &Prepared,
    turn: Turn,
    state: &mut RunState,
    levels: usize,
) -> Result<(), PlainFault>
    requires holds { Holds (unnamed (K.kernels gate.now)) levels graphs.now graph.now }
    requires prepared { IsPrepared graphs.now.graphs graph.now firing.now prepared.now }
    requires actor { turn.actor < prepared.now.parts.level.actors }
    requires lines { length state.old.lines.items ≡ length prepared.now.parts.level.links }
    requires rows { length state.old.rows.items ≡ prepared.now.parts.level.actors }
    ensures fires { OnOk result (TurnFires (actor_fires graphs.now.graphs (MeansWithin levels graphs.now.graphs) graph.now firing.now prepared.now.values) prepared.now.sources prepared.now.parts.level.links turn.actor turn.turn (lists_of state.old.lines.items) (lists_of state.new.lines.items) (lists_of state.old.rows.items) (lists_of state.new.rows.items)) }
    ensures lines { OnOk result (length state.new.lines.items ≡ length state.old.lines.items) }
    ensures rows { OnOk result (length state.new.rows.items ≡ length state.old.rows.items) }
    ensures refused { IfErr result (IfRefused (TurnRefused (actor_fires graphs.now.graphs (MeansWithin levels graphs.now.graphs) graph.now firing.now prepared.now.values) prepared.now.sources prepared.now.parts.level.links turn.actor turn.turn (lists_of state.old.lines.items))) }
{
    let tokens = read(
        alloc,
        &prepared.parts.level,
        &prepared.ports,
        prepared.sources.items(),
        &state.lines,
        turn.actor,
        turn.turn,
    )?;
    let made = fire_actor(
        alloc, graphs, gate, graph, firing, prepared, turn, tokens, levels,
    )?;
    end_turn(alloc, prepared, turn, made, state)
}

/// Makes the firings of a level in this order, from the lines with which its links begin.
#[cycle(firing)]
fn run_turns<K: Gate>(
    alloc: Global,
    graphs: &Graphs,
    gate: &K,
    graph: &Graph,
    firing: &Firing,
    prepared: &Prepared,
    order: &[Turn],
    levels: usize,
) -> Result<RunState, PlainFault>
    requires holds { Holds (unnamed (K.kernels gate.now)) levels graphs.now graph.now }
    requires prepared { IsPrepared graphs.now.graphs graph.now firing.now prepared.now }
    requires numbered { order.now ≡ turns_of (actors_of order.now) }
    requires inside { All (λ (t : SeqTurn). t.actor < prepared.now.parts.level.actors) order.now }
    ensures run { IfOk result (λ s. HasRun prepared.now.parts.level (actor_fires graphs.now.graphs (MeansWithin levels graphs.now.graphs) graph.now firing.now prepared.now.values) prepared.now.sources (link_starts graphs.now.graphs graph.now firing.now) (actors_of order.now) (lists_of s.lines.items) (lists_of s.rows.items)) }
    ensures lines { IfOk result (λ s. length s.lines.items ≡ length prepared.now.parts.level.links) }
    ensures refused { IfErr result (IfRefused (MeetsRefusal prepared.now.parts.level (actor_fires graphs.now.graphs (MeansWithin levels graphs.now.graphs) graph.now firing.now prepared.now.values) prepared.now.sources (link_starts graphs.now.graphs graph.now firing.now) (actors_of order.now))) }
{
    let mut state = starting(
        alloc,
        graphs.graphs.items(),
        graph,
        firing,
        prepared.parts.level.actors,
    )?;
    for turn in order {
        take_turn(
            alloc, graphs, gate, graph, firing, prepared, *turn, &mut state, levels,
        )?;
    }
    Ok(state)
}

/// Runs the level of a graph as it was planned, and so ends the graph's firing.
#[cycle(firing)]
fn run<K: Gate>(
    alloc: Global,
    graphs: &Graphs,
    gate: &K,
    graph: &Graph,
    firing: &Firing,
    configured: &[Configured],
    plan: &Planned,
    levels: usize,
) -> Result<Given, PlainFault>
    requires holds { Holds (unnamed (K.kernels gate.now)) levels graphs.now graph.now }
    requires configures { Configures graphs.now.graphs (MeansWithin levels graphs.now.graphs) graph.now firing.now (Ok configured.now) }
    requires plan { IsPlanned graphs.now.graphs graph.now firing.now configured.now plan.now }
    ensures fires { Answers (FiresGraph graphs.now.graphs (MeansWithin levels graphs.now.graphs) graph.now firing.now) result }
    ensures outs { IfOk result (λ given. length given.outs ≡ length plan.now.prepared.parts.level.sinks) }
{
    let order = plan.schedule.order.items();
    let prepared = &plan.prepared;
    let state = run_turns(alloc, graphs, gate, graph, firing, prepared, order, levels)?;
    finished(alloc, graphs, graph, firing, configured, plan, state)
}

/// One firing of a graph, from whose actors on at most `levels` graphs are nested in each other.
#[cycle(firing)]
fn fire_here<K: Gate>(
    alloc: Global,
    graphs: &Graphs,
    gate: &K,
    graph: &Graph,
    early: &Early,
    firing: &Firing,
    levels: usize,
) -> Result<Given, PlainFault>
    requires { IsUnderway (unnamed (K.kernels gate.now)) levels graphs.now graph.now firing.now early.now }
    ensures fires { Answers (FiresGraph graphs.now.graphs (MeansWithin levels graphs.now.graphs) graph.now firing.now) result }
    ensures outs { IfOk result (λ given. length given.outs ≡ length early.now.outputs) }
{
    let configured = configure(alloc, graphs, gate, graph, early, firing, levels)?;
    let left = configured.as_slice();
    let plan = plan_level(alloc, graphs, graph, early, firing, left)?;
    let given = run(alloc, graphs, gate, graph, firing, left, &plan, levels);
    drop(plan);
    given
}

/// One firing of a graph, from which on at most `levels` graphs are nested in each other, and of which this is known
/// before it.
#[cycle(firing)]
pub(crate) fn fire_graph<K: Gate>(
    alloc: Global,
    graphs: &Graphs,
    gate: &K,
    early: &Early,
    firing: &Firing,
    levels: usize,
) -> Result<Given, PlainFault>
    requires can { CanRun (unnamed (K.kernels gate.now)) graphs.now }
    requires nested { NestsWithin levels graphs.now.graphs firing.now.graph }
    requires early { early.now ≡ early_in graphs.now.graphs firing.now }
    requires sound { early_faults graphs.now.graphs firing.now.graph firing.now.inherited ≡ [] }
    ensures means { Answers (MeansWithin levels graphs.now.graphs firing.now) result }
    ensures outs { IfOk result (λ given. length given.outs ≡ length early.now.outputs) }
{
    let graph = &graphs.graphs.items()[firing.graph as usize];
    fire_here(alloc, graphs, gate, graph, early, firing, levels - 1)
}
