// Whether iterations of graphs can be fired as one.
ghost use Rattle.std.specs.Prelude.{ℕ, ◌≡◌, ◌≤◌, ◌*◌, ◌↔◌, [], IsTrue, false as no, IfOk, IfErr, OnOk, Some, IsSome, slice_get};
ghost use Rattle.std.specs.List.{All};
ghost use Rattle.level_schedule.specs.declared.scheduling.LevelSchedule.{LevelSchedule as OneSchedule};
ghost use Rattle.param_resolver.specs.Assignment.{numbers as as_numbers};
ghost use Rattle.param_resolver.specs.EarlyCheck.{early_faults, early_of};
ghost use Rattle.param_resolver.specs.LevelOf.{level_faults};
ghost use Rattle.param_resolver.specs.Refusal.{TellsLevelMemory, level_refusal_of};
ghost use Rattle.pisdf_model.specs.InterfaceWires.{is_configuration as configures};
ghost use Rattle.pisdf_model.specs.Valid.{AreValid};
ghost use Rattle.pisdf_model.specs.declared.actor.Actor.{Actor as OneActor};
ghost use Rattle.pisdf_model.specs.declared.graph.Graph.{Graph as OneGraph};
ghost use Rattle.sdf_level.specs.Invariants.{rate_limit};
ghost use Rattle.unfold_rates.specs.Exact.{BeginsOnce, IsExact, IsExactSchedule, own_values, top_level};

use crate::counting::is_within_limits;
use crate::fault::UnfoldFault;
use crate::serving::{are_met, are_served};
use level_schedule::{LevelSchedule, Unscheduled, schedule};
use param_resolver::{
    Early, EarlyFault, LevelFault, LevelSet, early, early_unfolds, graphs_resolvable, level_of,
};
use pisdf_model::{Actor, Body, Fifo, Graphs, Life, is_configuration};
use sdf_level::{Level, RATE_LIMIT};
use std::alloc::{AllocError, Global};

/// Whether an actor's body isn't that of a configuration actor.
fn acts(body: &Body) -> bool
    ensures { IsTrue result ↔ (configures body.now ≡ no) }
{
    !is_configuration(body)
}

/// Whether no actor is a configuration actor.
fn configures_nothing(actors: &[Actor]) -> bool
    ensures { IsTrue result ↔ All (λ (a : OneActor). configures a.body ≡ no) actors.now }
{
    actors.iter().all(|actor| acts(&actor.body))
}

/// Whether no tokens stand in a FIFO anew at each firing of its graph.
fn begins_once(fifo: &Fifo) -> bool
    ensures { IsTrue result ↔ BeginsOnce fifo.now }
{
    match fifo.life {
        Life::Permanent => true,
        Life::Firing => fifo.delay.items().is_empty(),
    }
}

/// Whether so it is of each.
fn all_begin_once(fifos: &[Fifo]) -> bool
    ensures { IsTrue result ↔ All BeginsOnce fifos.now }
{
    fifos.iter().all(|fifo| begins_once(fifo))
}

/// Whether so many times a rate is a rate.
fn is_rate(rate: u32, times: u32) -> bool
    ensures { IsTrue result ↔ times * rate ≤ rate_limit }
{
    times as u64 * rate as u64 <= RATE_LIMIT as u64
}

/// Whether so it is of each.
fn are_rates(rates: &[u32], times: u32) -> bool
    ensures { IsTrue result ↔ All (λ r. times * r ≤ rate_limit) rates.now }
{
    rates.iter().all(|rate| is_rate(*rate, times))
}

/// The values, with 0 in place of those that aren't known.
fn numbers(alloc: Global, values: &[Option<i64>]) -> Result<Vec<i64>, AllocError>
    ensures { IfOk result (λ v. v.items ≡ as_numbers values.now) }
{
    let mut known = Vec::with_capacity(alloc, values.len())?;
    for value in values {
        known.push(value.unwrap_or(0))?;
    }
    Ok(known)
}

/// What is known of the top graph, whose early check finds nothing.
fn known_early(alloc: Global, graphs: &Graphs) -> Result<Early, UnfoldFault>
    requires { AreValid graphs.now }
    ensures early { IfOk result (λ e. e ≡ early_of graphs.now.graphs graphs.now.top []) }
    ensures sound { OnOk result (early_faults graphs.now.graphs graphs.now.top [] ≡ []) }
    ensures refused { IfErr result (λ fault. fault ≡ UnfoldFault.NotExact → early_faults graphs.now.graphs graphs.now.top [] ≡ [] → ⊥) }
{
    match early(alloc, graphs, graphs.top, &[]) {
        Ok(known) => Ok(known),
        Err(EarlyFault::Memory) => Err(UnfoldFault::Memory),
        Err(_) => Err(UnfoldFault::NotExact),
    }
}

/// What a fault of the making of the top graph's level says of the graphs.
fn refused(fault: LevelFault) -> UnfoldFault
    requires { TellsLevelMemory fault }
    ensures { result ≡ UnfoldFault.NotExact → IsSome (level_refusal_of fault) }
{
    match fault {
        LevelFault::Memory => UnfoldFault::Memory,
        _ => UnfoldFault::NotExact,
    }
}

/// The level of the top graph, which has no configuration actor.
fn level_of_top(alloc: Global, graphs: &Graphs, known: &Early) -> Result<LevelSet, UnfoldFault>
    requires valid { AreValid graphs.now }
    requires early { known.now ≡ early_of graphs.now.graphs graphs.now.top [] }
    ensures level { IfOk result (λ set. (top : OneGraph) → slice_get graphs.now.graphs graphs.now.top ≡ Some top → set.level ≡ top_level graphs.now top) }
    ensures sound { OnOk result ((top : OneGraph) → slice_get graphs.now.graphs graphs.now.top ≡ Some top → level_faults graphs.now.graphs top (own_values top) ≡ []) }
    ensures refused { IfErr result (λ fault. fault ≡ UnfoldFault.NotExact → (top : OneGraph) → slice_get graphs.now.graphs graphs.now.top ≡ Some top → level_faults graphs.now.graphs top (own_values top) ≡ [] → ⊥) }
{
    early_unfolds();
    graphs_resolvable();
    let values = numbers(alloc, known.values.items())?;
    match level_of(alloc, graphs, graphs.top, known, &values) {
        Ok(set) => Ok(set),
        Err(fault) => Err(refused(fault)),
    }
}

/// The schedule of a level, so many times which is one of the level with so many times the rates of its sources and sinks.
fn exact_schedule(alloc: Global, level: &Level, times: u32) -> Result<LevelSchedule, UnfoldFault>
    requires { times ≤ 64 }
    ensures exact { IfOk result (IsExactSchedule level.now times) }
    ensures refused { IfErr result (λ fault. fault ≡ UnfoldFault.NotExact → (schedule : OneSchedule) → IsExactSchedule level.now times schedule → ⊥) }
{
    // The proof below takes what holds of every level from this reading of one.
    let _actors = level.actors;
    let schedule = match schedule(alloc, level) {
        Ok(schedule) => schedule,
        Err(Unscheduled::Memory) => return Err(UnfoldFault::Memory),
        Err(_) => return Err(UnfoldFault::NotExact),
    };
    if !are_met(level, schedule.counts.items()) {
        return Err(UnfoldFault::NotExact);
    }
    if !are_served(alloc, level)? {
        return Err(UnfoldFault::NotExact);
    }
    if !is_within_limits(alloc, level, schedule.counts.items(), times)? {
        return Err(UnfoldFault::NotExact);
    }
    Ok(schedule)
}

/// The schedule of the top graph's level, where so many iterations of the graphs can be fired as one.
pub(crate) fn exact(
    alloc: Global,
    graphs: &Graphs,
    times: u32,
) -> Result<LevelSchedule, UnfoldFault>
    requires valid { AreValid graphs.now }
    requires few { times ≤ 64 }
    ensures exact { IfOk result (λ schedule. (exact : IsExact graphs.now times) × (exact.schedule ≡ schedule)) }
    ensures refused { IfErr result (λ fault. fault ≡ UnfoldFault.NotExact → IsExact graphs.now times → ⊥) }
{
    let top = &graphs.graphs.items()[graphs.top as usize];
    if !configures_nothing(top.actors.items()) {
        return Err(UnfoldFault::NotExact);
    }
    if !all_begin_once(top.fifos.items()) {
        return Err(UnfoldFault::NotExact);
    }
    let known = known_early(alloc, graphs)?;
    if !are_rates(known.inputs.items(), times) {
        return Err(UnfoldFault::NotExact);
    }
    if !are_rates(known.outputs.items(), times) {
        return Err(UnfoldFault::NotExact);
    }
    let set = level_of_top(alloc, graphs, &known)?;
    exact_schedule(alloc, &set.level, times)
}
