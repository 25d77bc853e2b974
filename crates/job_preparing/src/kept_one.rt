// The compilation of a level: the one that is kept, if it is of this level and these workers, else a new one; and what it is
// kept by.
ghost use Rattle.std.specs.Prelude.{◌≡◌, ◌≤◌, ◌↔◌, IfOk, IfErr, IsTrue};
ghost use Rattle.std.specs.Arc.{arc_value};
ghost use Rattle.job_compiler.specs.Compilation.{IsCompiled};
ghost use Rattle.level_schedule.specs.Schedules.{IsUnscheduled};
ghost use Rattle.pisdf_meaning.specs.Endings.{IfRefused};
ghost use Rattle.job_preparing.specs.Unscheduled.{IsUnscheduledAs};
ghost use Rattle.job_preparing.specs.View.{key_of};

use job_compiler::{Compiled, Key, compile};
use level_schedule::Unscheduled;
use pisdf_meaning::{
    Configured, Firing, PlainFault, chosen_values, copy_tokens, refused, schedule_cause,
};
use pisdf_model::Graph;
use sdf_level::{Level, Link, List};
use std::alloc::{AllocError, Global};
use std::sync::Arc;

/// What the compilation of a firing for so many workers is kept by, whose configuration actors left this.
///
/// # Errors
///
/// Want of memory.
pub fn key_for(
    alloc: Global,
    graph: &Graph,
    firing: &Firing,
    left: &[Configured],
    workers: u32,
) -> Result<Key, AllocError>
    ensures { IfOk result (λ key. key ≡ key_of graph.now workers firing.now left.now) }
{
    let mut values = copy_tokens(alloc, firing.inherited.items())?.into_items();
    let chosen = chosen_values(alloc, graph, left)?;
    values.extend_from_slice(&chosen)?;
    Ok(Key {
        graph: firing.graph,
        workers,
        values: List::new(values),
    })
}

fn same_rates(rates: &[u32], other: &[u32]) -> bool
    ensures { IsTrue result ↔ (rates.now ≡ other.now) }
{
    rates == other
}

fn same_link(link: &Link, other: &Link) -> bool
    ensures { IsTrue result ↔ (link.now ≡ other.now) }
{
    link == other
}

fn same_links(links: &[Link], other: &[Link]) -> bool
    ensures { IsTrue result ↔ (links.now ≡ other.now) }
{
    if links.len() != other.len() {
        return false;
    }
    for n in 0..links.len() {
        if !same_link(&links[n], &other[n]) {
            return false;
        }
    }
    true
}

/// Whether two levels are the same.
fn is_level(level: &Level, other: &Level) -> bool
    ensures { IsTrue result ↔ (level.now ≡ other.now) }
{
    if level.actors != other.actors {
        return false;
    }
    if !same_rates(level.sources.items(), other.sources.items()) {
        return false;
    }
    if !same_rates(level.sinks.items(), other.sinks.items()) {
        return false;
    }
    same_links(level.links.items(), other.links.items())
}

/// The refusal of the graph's firing whose level can't be compiled.
fn compile_refused(
    alloc: Global,
    graph: &Graph,
    firing: &Firing,
    level: &Level,
    fault: Unscheduled,
) -> PlainFault
    requires { IsUnscheduled level.now fault }
    ensures { IfRefused (IsUnscheduledAs graph.now firing.now level.now) result }
{
    match schedule_cause(alloc, graph, fault) {
        Ok(cause) => refused(&firing.path, cause),
        Err(_) => PlainFault::Memory,
    }
}

/// A new compilation of the level.
fn compiled_anew(
    alloc: Global,
    graph: &Graph,
    firing: &Firing,
    level: &Level,
    workers: u32,
) -> Result<Arc<Compiled>, PlainFault>
    requires { 1 ≤ workers }
    ensures level { IfOk result (λ c. (arc_value c).level ≡ level.now) }
    ensures workers { IfOk result (λ c. (arc_value c).workers ≡ workers) }
    ensures compiled { IfOk result (λ c. IsCompiled (arc_value c)) }
    ensures refused { IfErr result (IfRefused (IsUnscheduledAs graph.now firing.now level.now)) }
{
    match compile(alloc, level, workers) {
        Ok(compiled) => Ok(Arc::new(alloc, compiled)?),
        Err(Unscheduled::Memory) => Err(PlainFault::Memory),
        Err(fault) => Err(compile_refused(alloc, graph, firing, level, fault)),
    }
}

/// Whether a compilation is of this level and these workers.
fn serves(kept: &Compiled, level: &Level, workers: u32) -> bool
    ensures serves { IsTrue result ↔ ((kept.now.level ≡ level.now) × (kept.now.workers ≡ workers)) }
    ensures kept { IsCompiled kept.now }
{
    let own = kept.level();
    if kept.workers() != workers {
        return false;
    }
    is_level(own, level)
}

/// The compilation of the level of a graph in its firing.
pub(crate) fn compiled_for(
    alloc: Global,
    graph: &Graph,
    firing: &Firing,
    level: &Level,
    workers: u32,
    kept: &Option<Arc<Compiled>>,
) -> Result<Arc<Compiled>, PlainFault>
    requires { 1 ≤ workers }
    ensures level { IfOk result (λ c. (arc_value c).level ≡ level.now) }
    ensures workers { IfOk result (λ c. (arc_value c).workers ≡ workers) }
    ensures compiled { IfOk result (λ c. IsCompiled (arc_value c)) }
    ensures refused { IfErr result (IfRefused (IsUnscheduledAs graph.now firing.now level.now)) }
{
    if let Some(one) = kept {
        if serves(one, level, workers) {
            return Ok(Arc::try_clone(one)?);
        }
    }
    compiled_anew(alloc, graph, firing, level, workers)
}
