// The early check of a graph, and of those that its configuration actors name.
ghost use Rattle.std.specs.Prelude.{◌≡◌, ◌<◌, ◌≤◌, ◌^◌, ◌++◌, ◌∷◌, [], None, Some, length, map, slice_get, All, IfOk, IfErr, OnOk};
ghost use Rattle.std.specs.Prelude.{List as Seq};
ghost use Rattle.std.specs.List.{flat_map};
ghost use Rattle.pisdf_model.specs.Details.{of_each};
ghost use Rattle.pisdf_model.specs.Parts.{inputs_of};
ghost use Rattle.pisdf_model.specs.declared.actor.Actor.{Actor};
ghost use Rattle.param_resolver.specs.EarlyCheck.{check_by, check_to, child_config_faults, config_args, config_children, config_faults, config_outs, early_numbers, early_values, rated_faults, unfed_inputs};
ghost use Rattle.param_resolver.specs.EarlyView.{whole};
ghost use Rattle.param_resolver.specs.Rates.{arg_faults, arg_values, interface_rates as input_rates, port_faults, port_rates};
ghost use Rattle.param_expr.specs.Eval.{RefersBelow};
ghost use Rattle.param_resolver.specs.Settled.{AreOrdered};
ghost use Rattle.param_resolver.specs.Refusal.{Refusal, StandsFirst, TellsMemory, child, part_refusal_of, refusal_of};
ghost use Rattle.param_resolver.specs.Resolvable.{AreArgsBelow, AreNestedWithin, ArePortsBelow, AreResolvable, IsBodyResolvable, IsNestedWithin, IsResolvable};

use crate::assignment::assign;
use crate::fault::EarlyFault;
use crate::feeds::inputs_fed;
use crate::known::Early;
use crate::rates::{PartFault, arg_values, interface_rates, port_rates};
use crate::supplied::supplied_to;
use param_expr::{Expr, Name};
use pisdf_model::{Actor, Body, Graph, Port};
use sdf_level::List;
use std::alloc::{AllocError, Global};

/// What is known of the configuration actors of a graph, in file order.
#[derive(Drop)]
pub(crate) struct Configured {
    /// Their arguments.
    args: Vec<List<i64>>,
    /// Their output rates.
    outs: Vec<List<u32>>,
    /// What is known of the graphs that they name.
    children: Vec<Option<Early>>,
}

/// Adds what is known of one more configuration actor.
fn add(
    configured: &mut Configured,
    args: Vec<i64>,
    outs: Vec<u32>,
    child: Option<Early>,
) -> Result<(), AllocError>
    ensures args { OnOk result (configured.new.args.items ≡ configured.old.args.items ++ args.items ∷ []) }
    ensures outs { OnOk result (configured.new.outs.items ≡ configured.old.outs.items ++ outs.items ∷ []) }
    ensures children { OnOk result (configured.new.children.items ≡ configured.old.children.items ++ child ∷ []) }
{
    configured.args.push(List::new(args))?;
    configured.outs.push(List::new(outs))?;
    configured.children.push(child)?;
    Ok(())
}

/// Adds a kernel configuration actor.
fn add_kernel(
    alloc: Global,
    actor: &Name,
    args: &[Expr],
    outs: &[Port],
    numbers: &[i64],
    configured: &mut Configured,
) -> Result<(), PartFault>
    requires args { AreArgsBelow (length numbers.now) args.now }
    requires outs { ArePortsBelow (length numbers.now) outs.now }
    ensures args { OnOk result (configured.new.args.items ≡ configured.old.args.items ++ arg_values numbers.now args.now ∷ []) }
    ensures outs { OnOk result (configured.new.outs.items ≡ configured.old.outs.items ++ port_rates numbers.now outs.now ∷ []) }
    ensures children { OnOk result (configured.new.children.items ≡ configured.old.children.items ++ None ∷ []) }
    ensures sound { OnOk result (arg_faults numbers.now actor.now args.now ++ port_faults numbers.now actor.now outs.now ≡ []) }
    ensures fault { IfErr result (λ f. StandsFirst (arg_faults numbers.now actor.now args.now ++ port_faults numbers.now actor.now outs.now) (part_refusal_of f)) }
{
    let values = arg_values(alloc, actor, args, numbers)?;
    let rates = port_rates(alloc, actor, outs, numbers)?;
    add(configured, values, rates, None)?;
    Ok(())
}

/// The fault of the graph that the actor at a place names, as one of the graph above.
fn above(alloc: Global, actor: usize, fault: EarlyFault) -> EarlyFault
    requires { actor < 2 ^ 32 }
    ensures stands { (r : Seq Refusal) → StandsFirst r (refusal_of fault) → StandsFirst (map (child actor) r) (refusal_of result) }
    ensures memory { TellsMemory fault → TellsMemory result }
{
    match fault {
        EarlyFault::Memory => EarlyFault::Memory,
        fault => match Box::new(alloc, fault) {
            Ok(fault) => EarlyFault::Child {
                actor: actor as u32,
                fault,
            },
            Err(_) => EarlyFault::Memory,
        },
    }
}

/// What is known of a graph before its configuration actors are looked at.
#[derive(Drop)]
struct Rated {
    /// The values of the early parameters.
    values: Vec<Option<i64>>,
    /// The same with 0 in place of those that aren't there.
    numbers: Vec<i64>,
    /// The rates of the inputs.
    inputs: Vec<u32>,
    /// The rates of the outputs.
    outputs: Vec<u32>,
}

/// The early parameters, then the rates of the inputs, then those of the outputs.
fn check_rates(alloc: Global, graph: &Graph, inherited: &[i64]) -> Result<Rated, EarlyFault>
    requires ordered { AreOrdered graph.now.params }
    requires few { length graph.now.params < 2 ^ 32 }
    requires inputs { All (λ x. RefersBelow (length graph.now.params) x.rate) graph.now.inputs }
    requires outputs { All (λ x. RefersBelow (length graph.now.params) x.rate) graph.now.outputs }
    ensures values { IfOk result (λ r. r.values.items ≡ early_values graph.now.params inherited.now) }
    ensures numbers { IfOk result (λ r. r.numbers.items ≡ early_numbers graph.now inherited.now) }
    ensures inputs { IfOk result (λ r. r.inputs.items ≡ input_rates (early_numbers graph.now inherited.now) graph.now.inputs) }
    ensures outputs { IfOk result (λ r. r.outputs.items ≡ input_rates (early_numbers graph.now inherited.now) graph.now.outputs) }
    ensures sound { OnOk result (rated_faults graph.now inherited.now ≡ []) }
    ensures fault { IfErr result (λ f. StandsFirst (rated_faults graph.now inherited.now) (refusal_of f)) }
    ensures memory { IfErr result TellsMemory }
{
    let supplied = supplied_to(alloc, graph.params.items(), inherited, &[])?;
    let assigned = assign(alloc, graph.params.items(), &supplied)?;
    let inputs = interface_rates(alloc, graph.inputs.items(), &assigned.numbers)?;
    let outputs = interface_rates(alloc, graph.outputs.items(), &assigned.numbers)?;
    Ok(Rated {
        values: assigned.values,
        numbers: assigned.numbers,
        inputs,
        outputs,
    })
}

/// All that is known.
fn whole(rated: Rated, configured: Configured) -> Early
    ensures { result ≡ whole rated.values.items rated.inputs.items rated.outputs.items configured.args.items configured.outs.items configured.children.items }
{
    Early {
        values: List::new(rated.values),
        inputs: List::new(rated.inputs),
        outputs: List::new(rated.outputs),
        args: List::new(configured.args),
        outs: List::new(configured.outs),
        children: configured.children,
    }
}

/// Adds a hierarchical configuration actor, whose place in the graph is `number`. The graphs nested in each other from its
/// child on are at most `levels`.
#[cycle(checking)]
fn add_child(
    alloc: Global,
    graphs: &[Graph],
    graph: &Graph,
    inputs: &[u32],
    number: usize,
    actor: &Name,
    place: usize,
    args: &[Expr],
    numbers: &[i64],
    levels: usize,
    configured: &mut Configured,
) -> Result<(), EarlyFault>
    requires resolvable { AreResolvable graphs.now }
    requires few { number < 2 ^ 32 }
    requires there { place < length graphs.now }
    requires nested { IsNestedWithin graphs.now levels place }
    requires args { AreArgsBelow (length numbers.now) args.now }
    ensures args { OnOk result (configured.new.args.items ≡ configured.old.args.items ++ arg_values numbers.now args.now ∷ []) }
    ensures outs { OnOk result (configured.new.outs.items ≡ configured.old.outs.items ++ (check_to levels graphs.now place (arg_values numbers.now args.now)).early.outputs ∷ []) }
    ensures children { OnOk result (configured.new.children.items ≡ configured.old.children.items ++ Some (check_to levels graphs.now place (arg_values numbers.now args.now)).early ∷ []) }
    ensures sound { OnOk result (child_config_faults (check_to levels graphs.now) graphs.now graph.now numbers.now inputs.now number actor.now place args.now ≡ []) }
    ensures fault { IfErr result (λ f. StandsFirst (child_config_faults (check_to levels graphs.now) graphs.now graph.now numbers.now inputs.now number actor.now place args.now) (refusal_of f)) }
    ensures memory { IfErr result TellsMemory }
{
    let values = arg_values(alloc, actor, args, numbers)?;
    let early = match early_within(alloc, graphs, place, &values, levels) {
        Ok(early) => early,
        Err(fault) => return Err(above(alloc, number, fault)),
    };
    let child = &graphs[place];
    inputs_fed(
        alloc,
        graph,
        inputs,
        number,
        actor,
        child.inputs.items(),
        early.inputs.items(),
    )?;
    let outs = Vec::from_slice(alloc, early.outputs.items())?;
    add(configured, values, outs, Some(early))?;
    Ok(())
}

/// Adds the actor at the place `number`, if it is a configuration actor.
#[cycle(checking)]
fn add_actor(
    alloc: Global,
    graphs: &[Graph],
    graph: &Graph,
    inputs: &[u32],
    number: usize,
    actor: &Actor,
    numbers: &[i64],
    levels: usize,
    configured: &mut Configured,
) -> Result<(), EarlyFault>
    requires resolvable { AreResolvable graphs.now }
    requires few { number < 2 ^ 32 }
    requires actor { IsBodyResolvable (length graphs.now) (length numbers.now) actor.now.body }
    requires nested { AreNestedWithin graphs.now levels actor.now.body }
    ensures args { OnOk result (configured.new.args.items ≡ configured.old.args.items ++ config_args numbers.now actor.now.body) }
    ensures outs { OnOk result (configured.new.outs.items ≡ configured.old.outs.items ++ config_outs (check_to levels graphs.now) numbers.now actor.now.body) }
    ensures children { OnOk result (configured.new.children.items ≡ configured.old.children.items ++ config_children (check_to levels graphs.now) numbers.now actor.now.body) }
    ensures sound { OnOk result (config_faults (check_to levels graphs.now) graphs.now graph.now numbers.now inputs.now number actor.now.name actor.now.body ≡ []) }
    ensures fault { IfErr result (λ f. StandsFirst (config_faults (check_to levels graphs.now) graphs.now graph.now numbers.now inputs.now number actor.now.name actor.now.body) (refusal_of f)) }
    ensures memory { IfErr result TellsMemory }
{
    match &actor.body {
        Body::Kernel { .. } | Body::Child { .. } => Ok(()),
        Body::Config { args, outs, .. } => {
            add_kernel(
                alloc,
                &actor.name,
                args.items(),
                outs.items(),
                numbers,
                configured,
            )?;
            Ok(())
        }
        Body::ConfigChild {
            graph: child,
            args,
            ..
        } => add_child(
            alloc,
            graphs,
            graph,
            inputs,
            number,
            &actor.name,
            *child as usize,
            args.items(),
            numbers,
            levels,
            configured,
        ),
    }
}

/// What is known of the configuration actors of a graph, where these are the rates of its inputs.
#[cycle(checking)]
fn add_actors(
    alloc: Global,
    graphs: &[Graph],
    graph: &Graph,
    inputs: &[u32],
    numbers: &[i64],
    levels: usize,
) -> Result<Configured, EarlyFault>
    requires resolvable { AreResolvable graphs.now }
    requires few { length graph.now.actors < 2 ^ 32 }
    requires actors { All (λ a. IsBodyResolvable (length graphs.now) (length numbers.now) a.body) graph.now.actors }
    requires nested { All (λ a. AreNestedWithin graphs.now levels a.body) graph.now.actors }
    ensures args { IfOk result (λ c. c.args.items ≡ flat_map (λ a. config_args numbers.now a.body) graph.now.actors) }
    ensures outs { IfOk result (λ c. c.outs.items ≡ flat_map (λ a. config_outs (check_to levels graphs.now) numbers.now a.body) graph.now.actors) }
    ensures children { IfOk result (λ c. c.children.items ≡ flat_map (λ a. config_children (check_to levels graphs.now) numbers.now a.body) graph.now.actors) }
    ensures sound { OnOk result (of_each (λ n a. config_faults (check_to levels graphs.now) graphs.now graph.now numbers.now inputs.now n a.name a.body) graph.now.actors ≡ []) }
    ensures fault { IfErr result (λ f. StandsFirst (of_each (λ n a. config_faults (check_to levels graphs.now) graphs.now graph.now numbers.now inputs.now n a.name a.body) graph.now.actors) (refusal_of f)) }
    ensures memory { IfErr result TellsMemory }
{
    let mut configured = Configured {
        args: Vec::new(alloc),
        outs: Vec::new(alloc),
        children: Vec::new(alloc),
    };
    for (number, actor) in graph.actors.items().iter().enumerate() {
        add_actor(
            alloc,
            graphs,
            graph,
            inputs,
            number,
            actor,
            numbers,
            levels,
            &mut configured,
        )?;
    }
    Ok(configured)
}

/// The early check of a graph, from whose hierarchical configuration actors on at most `levels` graphs are nested in each
/// other.
#[cycle(checking)]
fn check_graph(
    alloc: Global,
    graphs: &[Graph],
    graph: &Graph,
    inherited: &[i64],
    levels: usize,
) -> Result<Early, EarlyFault>
    requires resolvable { AreResolvable graphs.now }
    requires graph { IsResolvable (length graphs.now) graph.now }
    requires nested { All (λ a. AreNestedWithin graphs.now levels a.body) graph.now.actors }
    ensures known { IfOk result (λ e. e ≡ (check_by (check_to levels graphs.now) graphs.now (Some graph.now) inherited.now).early) }
    ensures sound { OnOk result ((check_by (check_to levels graphs.now) graphs.now (Some graph.now) inherited.now).faults ≡ []) }
    ensures fault { IfErr result (λ f. StandsFirst (check_by (check_to levels graphs.now) graphs.now (Some graph.now) inherited.now).faults (refusal_of f)) }
    ensures memory { IfErr result TellsMemory }
{
    let rated = check_rates(alloc, graph, inherited)?;
    let configured = add_actors(alloc, graphs, graph, &rated.inputs, &rated.numbers, levels)?;
    Ok(whole(rated, configured))
}

/// The early check of the graph at a place, from which on at most `levels` graphs are nested in each other.
#[cycle(checking)]
pub(crate) fn early_within(
    alloc: Global,
    graphs: &[Graph],
    place: usize,
    inherited: &[i64],
    levels: usize,
) -> Result<Early, EarlyFault>
    requires resolvable { AreResolvable graphs.now }
    requires there { place < length graphs.now }
    requires nested { IsNestedWithin graphs.now levels place }
    ensures known { IfOk result (λ e. e ≡ (check_to levels graphs.now place inherited.now).early) }
    ensures sound { OnOk result ((check_to levels graphs.now place inherited.now).faults ≡ []) }
    ensures fault { IfErr result (λ f. StandsFirst (check_to levels graphs.now place inherited.now).faults (refusal_of f)) }
    ensures memory { IfErr result TellsMemory }
{
    check_graph(alloc, graphs, &graphs[place], inherited, levels - 1)
}
