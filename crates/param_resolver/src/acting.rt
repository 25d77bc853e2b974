// The actors that fire in a level: their arguments, the rates of their ports, and what is known of the graphs that they name.
ghost use Rattle.std.specs.Prelude.{◌≡◌, ◌<◌, ◌≤◌, ◌^◌, ◌++◌, ◌∷◌, ℕ, [], None, Some, length, map, All, IfOk, IfErr, OnOk};
ghost use Rattle.std.specs.Prelude.{List as Seq};
ghost use Rattle.pisdf_model.specs.Details.{of_each};
ghost use Rattle.param_resolver.specs.EarlyCheck.{early_faults, early_of};
ghost use Rattle.param_resolver.specs.LevelOf.{acting_args, acting_children, acting_faults, acting_outs, level_args, level_children, level_faults, level_outs};
ghost use Rattle.param_resolver.specs.Numbering.{acting_places};
ghost use Rattle.param_resolver.specs.Rates.{arg_faults, arg_values as values_of_args, port_faults, port_rates as rates_of_ports};
ghost use Rattle.param_resolver.specs.Refusal.{Refusal, StandsFirst, TellsLevelMemory, TellsMemory, child, level_refusal_of, part_refusal_of, refusal_of};
ghost use Rattle.param_resolver.specs.Resolvable.{AreArgsBelow, ArePortsBelow, AreResolvable, IsBodyResolvable, IsNestedWithin};
ghost use Rattle.param_resolver.specs.Tables.{acting_ins, acting_place, level_ins};

use crate::configuration::early_within;
use crate::fault::{EarlyFault, LevelFault};
use crate::known::Early;
use crate::rates::{PartFault, arg_values, port_rates};
use param_expr::{Expr, Name};
use pisdf_model::{Body, Graph, MAX_NESTING, Port};
use sdf_level::List;
use std::alloc::{AllocError, Global};

/// What is known of the actors that fire in a level, in file order.
#[derive(Drop)]
pub(crate) struct Acting {
    /// Their places among all actors of the graph.
    pub(crate) places: Vec<u32>,
    /// Their arguments.
    pub(crate) args: Vec<List<i64>>,
    /// The rates of their inputs.
    pub(crate) ins: Vec<List<u32>>,
    /// The rates of their outputs.
    pub(crate) outs: Vec<List<u32>>,
    /// What is known of the graphs that they name.
    pub(crate) children: Vec<Option<Early>>,
}

/// Adds what is known of one more actor, which stands at the place `number` of the graph.
fn add(
    acting: &mut Acting,
    number: usize,
    args: Vec<i64>,
    ins: Vec<u32>,
    outs: Vec<u32>,
    child: Option<Early>,
) -> Result<(), AllocError>
    requires { number < 2 ^ 32 }
    ensures places { OnOk result (acting.new.places.items ≡ acting.old.places.items ++ number ∷ []) }
    ensures args { OnOk result (acting.new.args.items ≡ acting.old.args.items ++ args.items ∷ []) }
    ensures ins { OnOk result (acting.new.ins.items ≡ acting.old.ins.items ++ ins.items ∷ []) }
    ensures outs { OnOk result (acting.new.outs.items ≡ acting.old.outs.items ++ outs.items ∷ []) }
    ensures children { OnOk result (acting.new.children.items ≡ acting.old.children.items ++ child ∷ []) }
{
    acting.places.push(number as u32)?;
    acting.args.push(List::new(args))?;
    acting.ins.push(List::new(ins))?;
    acting.outs.push(List::new(outs))?;
    acting.children.push(child)?;
    Ok(())
}

/// Adds a kernel actor.
fn add_kernel(
    alloc: Global,
    number: usize,
    actor: &Name,
    args: &[Expr],
    ins: &[Port],
    outs: &[Port],
    values: &[i64],
    acting: &mut Acting,
) -> Result<(), PartFault>
    requires few { number < 2 ^ 32 }
    requires args { AreArgsBelow (length values.now) args.now }
    requires ins { ArePortsBelow (length values.now) ins.now }
    requires outs { ArePortsBelow (length values.now) outs.now }
    ensures places { OnOk result (acting.new.places.items ≡ acting.old.places.items ++ number ∷ []) }
    ensures args { OnOk result (acting.new.args.items ≡ acting.old.args.items ++ values_of_args values.now args.now ∷ []) }
    ensures ins { OnOk result (acting.new.ins.items ≡ acting.old.ins.items ++ rates_of_ports values.now ins.now ∷ []) }
    ensures outs { OnOk result (acting.new.outs.items ≡ acting.old.outs.items ++ rates_of_ports values.now outs.now ∷ []) }
    ensures children { OnOk result (acting.new.children.items ≡ acting.old.children.items ++ None ∷ []) }
    ensures sound { OnOk result (arg_faults values.now actor.now args.now ++ (port_faults values.now actor.now ins.now ++ port_faults values.now actor.now outs.now) ≡ []) }
    ensures fault { IfErr result (λ f. StandsFirst (arg_faults values.now actor.now args.now ++ (port_faults values.now actor.now ins.now ++ port_faults values.now actor.now outs.now)) (part_refusal_of f)) }
{
    let own = arg_values(alloc, actor, args, values)?;
    let taken = port_rates(alloc, actor, ins, values)?;
    let given = port_rates(alloc, actor, outs, values)?;
    add(acting, number, own, taken, given, None)?;
    Ok(())
}

/// The fault of the graph that the actor at a place names, as one of the level.
fn below(actor: usize, fault: EarlyFault) -> LevelFault
    requires { actor < 2 ^ 32 }
    ensures stands { (r : Seq Refusal) → StandsFirst r (refusal_of fault) → StandsFirst (map (child actor) r) (level_refusal_of result) }
    ensures memory { TellsMemory fault → TellsLevelMemory result }
{
    match fault {
        EarlyFault::Memory => LevelFault::Memory,
        fault => LevelFault::Child {
            actor: actor as u32,
            fault,
        },
    }
}

/// Adds a hierarchical actor.
fn add_child(
    alloc: Global,
    graphs: &[Graph],
    number: usize,
    actor: &Name,
    place: usize,
    args: &[Expr],
    values: &[i64],
    acting: &mut Acting,
) -> Result<(), LevelFault>
    requires resolvable { AreResolvable graphs.now }
    requires few { number < 2 ^ 32 }
    requires there { place < length graphs.now }
    requires nested { IsNestedWithin graphs.now 8 place }
    requires args { AreArgsBelow (length values.now) args.now }
    ensures places { OnOk result (acting.new.places.items ≡ acting.old.places.items ++ number ∷ []) }
    ensures args { OnOk result (acting.new.args.items ≡ acting.old.args.items ++ values_of_args values.now args.now ∷ []) }
    ensures ins { OnOk result (acting.new.ins.items ≡ acting.old.ins.items ++ (early_of graphs.now place (values_of_args values.now args.now)).inputs ∷ []) }
    ensures outs { OnOk result (acting.new.outs.items ≡ acting.old.outs.items ++ (early_of graphs.now place (values_of_args values.now args.now)).outputs ∷ []) }
    ensures children { OnOk result (acting.new.children.items ≡ acting.old.children.items ++ Some (early_of graphs.now place (values_of_args values.now args.now)) ∷ []) }
    ensures sound { OnOk result (arg_faults values.now actor.now args.now ++ map (child number) (early_faults graphs.now place (values_of_args values.now args.now)) ≡ []) }
    ensures fault { IfErr result (λ f. StandsFirst (arg_faults values.now actor.now args.now ++ map (child number) (early_faults graphs.now place (values_of_args values.now args.now))) (level_refusal_of f)) }
    ensures memory { IfErr result TellsLevelMemory }
{
    let own = arg_values(alloc, actor, args, values)?;
    let early = match early_within(alloc, graphs, place, &own, MAX_NESTING) {
        Ok(early) => early,
        Err(fault) => return Err(below(number, fault)),
    };
    let taken = Vec::from_slice(alloc, early.inputs.items())?;
    let given = Vec::from_slice(alloc, early.outputs.items())?;
    add(acting, number, own, taken, given, Some(early))?;
    Ok(())
}

/// Adds the actor at the place `number`, if it fires in the level.
fn add_actor(
    alloc: Global,
    graphs: &[Graph],
    number: usize,
    actor: &Name,
    body: &Body,
    values: &[i64],
    acting: &mut Acting,
) -> Result<(), LevelFault>
    requires resolvable { AreResolvable graphs.now }
    requires few { number < 2 ^ 32 }
    requires body { IsBodyResolvable (length graphs.now) (length values.now) body.now }
    requires nested { (k : ℕ) → k < length graphs.now → IsNestedWithin graphs.now 8 k }
    ensures places { OnOk result (acting.new.places.items ≡ acting.old.places.items ++ acting_place number body.now) }
    ensures args { OnOk result (acting.new.args.items ≡ acting.old.args.items ++ acting_args values.now body.now) }
    ensures ins { OnOk result (acting.new.ins.items ≡ acting.old.ins.items ++ acting_ins graphs.now values.now body.now) }
    ensures outs { OnOk result (acting.new.outs.items ≡ acting.old.outs.items ++ acting_outs graphs.now values.now body.now) }
    ensures children { OnOk result (acting.new.children.items ≡ acting.old.children.items ++ acting_children graphs.now values.now body.now) }
    ensures sound { OnOk result (acting_faults graphs.now values.now number actor.now body.now ≡ []) }
    ensures fault { IfErr result (λ f. StandsFirst (acting_faults graphs.now values.now number actor.now body.now) (level_refusal_of f)) }
    ensures memory { IfErr result TellsLevelMemory }
{
    match body {
        Body::Config { .. } | Body::ConfigChild { .. } => Ok(()),
        Body::Kernel {
            args,
            ins,
            outs,
            ..
        } => {
            add_kernel(
                alloc,
                number,
                actor,
                args.items(),
                ins.items(),
                outs.items(),
                values,
                acting,
            )?;
            Ok(())
        }
        Body::Child { graph, args } => add_child(
            alloc,
            graphs,
            number,
            actor,
            *graph as usize,
            args.items(),
            values,
            acting,
        ),
    }
}

/// What is known of the actors that fire in the level of a graph whose parameters have these values.
pub(crate) fn acting_of(
    alloc: Global,
    graphs: &[Graph],
    graph: &Graph,
    values: &[i64],
) -> Result<Acting, LevelFault>
    requires resolvable { AreResolvable graphs.now }
    requires few { length graph.now.actors < 2 ^ 32 }
    requires actors { All (λ a. IsBodyResolvable (length graphs.now) (length values.now) a.body) graph.now.actors }
    requires nested { (k : ℕ) → k < length graphs.now → IsNestedWithin graphs.now 8 k }
    ensures places { IfOk result (λ acting. acting.places.items ≡ acting_places graph.now) }
    ensures args { IfOk result (λ acting. acting.args.items ≡ level_args graph.now values.now) }
    ensures ins { IfOk result (λ acting. acting.ins.items ≡ level_ins graphs.now graph.now values.now) }
    ensures outs { IfOk result (λ acting. acting.outs.items ≡ level_outs graphs.now graph.now values.now) }
    ensures children { IfOk result (λ acting. acting.children.items ≡ level_children graphs.now graph.now values.now) }
    ensures sound { OnOk result (level_faults graphs.now graph.now values.now ≡ []) }
    ensures fault { IfErr result (λ f. StandsFirst (level_faults graphs.now graph.now values.now) (level_refusal_of f)) }
    ensures memory { IfErr result TellsLevelMemory }
{
    let mut acting = Acting {
        places: Vec::new(alloc),
        args: Vec::new(alloc),
        ins: Vec::new(alloc),
        outs: Vec::new(alloc),
        children: Vec::new(alloc),
    };
    for (number, actor) in graph.actors.items().iter().enumerate() {
        add_actor(
            alloc,
            graphs,
            number,
            &actor.name,
            &actor.body,
            values,
            &mut acting,
        )?;
    }
    Ok(acting)
}
