// Refusals of firings for what is found of parameters, rates and arguments.
ghost use Rattle.std.specs.Prelude.{◌≡◌, ℕ, ℤ, [], None, Some, List as Seq, map, slice_get, IfOk, IsSome, OnErr, OnOk, Err};
ghost use Rattle.std.specs.Option.{option_map};
ghost use Rattle.param_resolver.specs.Assignment.{StandsAt};
ghost use Rattle.param_resolver.specs.EarlyCheck.{as_refusal};
ghost use Rattle.param_resolver.specs.Refusal.{Refusal as PartRefusal, StandsFirst, actor_name, child, level_refusal_of, refusal_of};
ghost use Rattle.param_resolver.specs.declared.fault.Why.{Why};
ghost use Rattle.pisdf_meaning.specs.Causes.{high_of, low_of, param_cause, part_cause, under, unless_refused};
ghost use Rattle.pisdf_meaning.specs.Endings.{IfRefused};
ghost use Rattle.pisdf_meaning.specs.declared.refusal.PlainFault.TheVariants.{Memory};

use crate::naming::{copy_name, refused};
use crate::path::Path;
use crate::refusal::{Cause, PlainFault};
use param_expr::Name;
use param_resolver::{EarlyFault, LevelFault, ResolveFault, Why, child_at, param_name};
use pisdf_model::{Graph, port_text};
use std::alloc::{AllocError, Global};

fn no_name(alloc: Global) -> Name
    ensures { result ≡ [] }
{
    Name::new(String::new(alloc))
}

/// The range of the parameter at a place, or zeros.
fn param_range(graph: &Graph, place: u32) -> (i64, i64)
    ensures low { result.0 ≡ low_of (slice_get graph.now.params place) }
    ensures high { result.1 ≡ high_of (slice_get graph.now.params place) }
{
    match graph.params.items().get(place as usize) {
        Some(param) => (param.low, param.high),
        None => (0, 0),
    }
}

/// The cause at the parameter at a place.
fn param_cause(alloc: Global, graph: &Graph, place: u32, why: Why) -> Result<Cause, AllocError>
    ensures { IfOk result (λ cause. cause ≡ param_cause graph.now place why) }
{
    let name = param_name(alloc, graph, place)?;
    let (low, high) = param_range(graph, place);
    Ok(Cause::Param {
        name,
        why,
        low,
        high,
    })
}

/// A cause at a part of the graph that the actor with this name names, as one of the graph above.
fn under(alloc: Global, actor: &Name, cause: Cause) -> Result<Cause, AllocError>
    ensures { IfOk result (λ above. above ≡ under actor.now cause) }
{
    match cause {
        Cause::Param {
            name,
            why,
            low,
            high,
        } => Ok(Cause::Param {
            name: port_text(alloc, actor, &name)?,
            why,
            low,
            high,
        }),
        Cause::Rate { name, why } => Ok(Cause::Rate {
            name: port_text(alloc, actor, &name)?,
            why,
        }),
        other => Ok(other),
    }
}

/// The same, where the actor stands at this place.
fn under_actor(alloc: Global, graph: &Graph, actor: u32, cause: Cause) -> Result<Cause, AllocError>
    ensures { IfOk result (λ above. above ≡ under (actor_name graph.now actor) cause) }
{
    match graph.actors.items().get(actor as usize) {
        Some(actor) => under(alloc, &actor.name, cause),
        None => under(alloc, &no_name(alloc), cause),
    }
}

/// The error is that the fault is want of memory.
fn told(fault: &EarlyFault) -> Result<(), AllocError>
    ensures { OnOk result (IsSome (refusal_of fault.now)) }
{
    match fault {
        EarlyFault::Param { .. } | EarlyFault::Rate { .. } => Ok(()),
        EarlyFault::Child { fault, .. } => told(fault),
        EarlyFault::Memory => Err(AllocError),
    }
}

/// The cause at a fault of the early check of the graph that the actor at a place names. The error is want of memory,
/// which may be the fault.
#[cycle(naming)]
fn child_cause(
    alloc: Global,
    graphs: &[Graph],
    graph: &Graph,
    actor: u32,
    fault: &EarlyFault,
) -> Result<Cause, AllocError>
    ensures { IfOk result (λ cause. option_map (part_cause graphs.now (Some graph.now)) (option_map (child actor) (refusal_of fault.now)) ≡ Some cause) }
{
    match child_at(graphs, graph, actor) {
        Some(child) => {
            let below = early_cause(alloc, graphs, child, fault)?;
            under_actor(alloc, graph, actor, below)
        }
        None => {
            told(fault)?;
            Ok(Cause::Rates)
        }
    }
}

/// The cause at a fault of the early check of a graph. The error is want of memory, which may be the fault.
#[cycle(naming)]
fn early_cause(
    alloc: Global,
    graphs: &[Graph],
    graph: &Graph,
    fault: &EarlyFault,
) -> Result<Cause, AllocError>
    ensures { IfOk result (λ cause. option_map (part_cause graphs.now (Some graph.now)) (refusal_of fault.now) ≡ Some cause) }
{
    match fault {
        EarlyFault::Param { param, why } => param_cause(alloc, graph, *param, *why),
        EarlyFault::Rate { name, why } => Ok(Cause::Rate {
            name: copy_name(alloc, name)?,
            why: *why,
        }),
        EarlyFault::Child { actor, fault } => child_cause(alloc, graphs, graph, *actor, fault),
        EarlyFault::Memory => Err(AllocError),
    }
}

/// The cause at a fault of the making of a graph's level. The error is want of memory, which may be the fault.
fn level_cause(
    alloc: Global,
    graphs: &[Graph],
    graph: &Graph,
    fault: &LevelFault,
) -> Result<Cause, AllocError>
    ensures { IfOk result (λ cause. option_map (part_cause graphs.now (Some graph.now)) (level_refusal_of fault.now) ≡ Some cause) }
{
    match fault {
        LevelFault::Rate { name, why } => Ok(Cause::Rate {
            name: copy_name(alloc, name)?,
            why: *why,
        }),
        LevelFault::Child { actor, fault } => child_cause(alloc, graphs, graph, *actor, fault),
        LevelFault::Memory => Err(AllocError),
    }
}

/// The refusal of the job with this path, if its cause is known.
fn refused_for(path: &Path, cause: Result<Cause, AllocError>) -> PlainFault
    ensures refused { IfRefused (λ refusal. IfOk cause (λ known. refusal ≡ record { path = path.now; cause = known })) result }
    ensures known { OnErr cause (result ≡ Memory) }
{
    match cause {
        Ok(cause) => refused(path, cause),
        Err(_) => PlainFault::Memory,
    }
}

/// The refusal of the firing of a graph with this path, where its parameters have this fault.
pub(crate) fn param_refused(
    alloc: Global,
    graph: &Graph,
    path: &Path,
    fault: ResolveFault,
) -> PlainFault
    ensures { (graphs : Seq Graph) (faults : Seq (ℕ × Why)) (values : Seq ℤ) → StandsAt faults fault → IfRefused (λ refusal. unless_refused graphs graph.now path.now (map as_refusal faults) values ≡ Err refusal) result }
{
    match fault {
        ResolveFault::Param { param, why } => {
            refused_for(path, param_cause(alloc, graph, param, why))
        }
        ResolveFault::Memory => PlainFault::Memory,
    }
}

/// The refusal of the firing of a graph with this path, whose early check has this fault.
pub(crate) fn early_refused(
    alloc: Global,
    graphs: &[Graph],
    graph: &Graph,
    path: &Path,
    fault: EarlyFault,
) -> PlainFault
    ensures { (faults : Seq PartRefusal) (values : Seq ℤ) → StandsFirst faults (refusal_of fault) → IfRefused (λ refusal. unless_refused graphs.now graph.now path.now faults values ≡ Err refusal) result }
{
    let cause = early_cause(alloc, graphs, graph, &fault);
    refused_for(path, cause)
}

/// The refusal of the firing of a graph with this path, the making of whose level has this fault.
pub(crate) fn level_refused(
    alloc: Global,
    graphs: &[Graph],
    graph: &Graph,
    path: &Path,
    fault: LevelFault,
) -> PlainFault
    ensures { (faults : Seq PartRefusal) (values : Seq ℤ) → StandsFirst faults (level_refusal_of fault) → IfRefused (λ refusal. unless_refused graphs.now graph.now path.now faults values ≡ Err refusal) result }
{
    let cause = level_cause(alloc, graphs, graph, &fault);
    refused_for(path, cause)
}
