// The values of a graph's parameters, once its configuration actors fired.
ghost use Rattle.std.specs.Prelude.{◌≡◌, ◌++◌, [], drop, length, slice_get, zip, Some, Ok, Err, IfOk, IfErr, OnOk};
ghost use Rattle.param_resolver.specs.EarlyCheck.{early_faults};
ghost use Rattle.pisdf_model.specs.Ports.{sets_of};
ghost use Rattle.pisdf_model.specs.Valid.{AreValid};
ghost use Rattle.pisdf_meaning.specs.Configuring.{configurations, configurations_from, early_in};
ghost use Rattle.pisdf_meaning.specs.Endings.{IfRefused};
ghost use Rattle.pisdf_meaning.specs.Preparing.{chosen_next, chosen_values, first_sets, resolved, value_set, values_set};

use crate::causes::param_refused;
use crate::firing::{Configured, Firing};
use crate::refusal::PlainFault;
use param_resolver::{Early, early_unfolds, graphs_resolvable, resolve};
use pisdf_model::{Actor, Body, Graph, Graphs, ParamKind, is_configuration};
use sdf_level::List;
use std::alloc::{AllocError, Global};

/// The places of the parameters that an actor sets.
fn sets_of(body: &Body) -> &[u32]
    ensures { result.now ≡ sets_of body.now }
{
    match body {
        Body::Config { sets, .. } | Body::ConfigChild { sets, .. } => sets.items(),
        Body::Kernel { .. } | Body::Child { .. } => &[],
    }
}

/// Adds these places with these values, as many as there are of both.
fn add_sets(sets: &mut Vec<(u32, i64)>, places: &[u32], values: &[i64]) -> Result<(), AllocError>
    ensures { OnOk result (sets.new.items ≡ sets.old.items ++ zip places.now values.now) }
{
    let count = places.len().min(values.len());
    for i in 0..count {
        sets.push((places[i], values[i]))?;
    }
    Ok(())
}

/// The values that the configuration actor of this number sets.
fn sets_left(configured: &[Configured], number: usize) -> &[i64]
    ensures { result.now ≡ first_sets (drop number configured.now) }
{
    match configured.get(number) {
        Some(one) => one.sets.items(),
        None => &[],
    }
}

/// The parameters that configuration actors set, by their places, each with its value.
fn values_set(
    alloc: Global,
    actors: &[Actor],
    configured: &[Configured],
) -> Result<Vec<(u32, i64)>, AllocError>
    ensures { IfOk result (λ sets. sets.items ≡ values_set (configurations_from 0 0 actors.now) configured.now) }
{
    let mut sets = Vec::new(alloc);
    let mut number = 0;
    for actor in actors {
        if !is_configuration(&actor.body) {
            continue;
        }
        add_sets(
            &mut sets,
            sets_of(&actor.body),
            sets_left(configured, number),
        )?;
        number += 1;
    }
    Ok(sets)
}

/// The value that the parameter at a place is set to.
fn value_set(sets: &[(u32, i64)], place: usize) -> i64
    ensures { result ≡ value_set sets.now place }
{
    for (set, value) in sets {
        if *set as usize == place {
            return *value;
        }
    }
    0
}

/// Adds the value of a parameter, if it is a chosen one.
fn add_chosen(
    values: &mut Vec<i64>,
    sets: &[(u32, i64)],
    place: usize,
    kind: &ParamKind,
) -> Result<(), AllocError>
    ensures { OnOk result (values.new.items ≡ values.old.items ++ chosen_next sets.now place kind.now) }
{
    match kind {
        ParamKind::Inherited | ParamKind::Derived(_) => {}
        ParamKind::Chosen => values.push(value_set(sets, place))?,
    }
    Ok(())
}

/// The values of the chosen parameters, in file order, which the configuration actors set.
pub fn chosen_values(
    alloc: Global,
    graph: &Graph,
    configured: &[Configured],
) -> Result<Vec<i64>, AllocError>
    ensures { IfOk result (λ values. values.items ≡ chosen_values graph.now configured.now) }
{
    let sets = values_set(alloc, graph.actors.items(), configured)?;
    let mut values = Vec::new(alloc);
    for (place, param) in graph.params.items().iter().enumerate() {
        add_chosen(&mut values, sets.as_slice(), place, &param.kind)?;
    }
    Ok(values)
}

/// The values of all parameters of a graph, or the refusal of its firing for the first that has none within its range.
pub fn resolved(
    alloc: Global,
    graphs: &Graphs,
    graph: &Graph,
    early: &Early,
    firing: &Firing,
    configured: &[Configured],
) -> Result<List<i64>, PlainFault>
    requires valid { AreValid graphs.now }
    requires here { slice_get graphs.now.graphs firing.now.graph ≡ Some graph.now }
    requires early { early.now ≡ early_in graphs.now.graphs firing.now }
    requires sound { early_faults graphs.now.graphs firing.now.graph firing.now.inherited ≡ [] }
    ensures values { IfOk result (λ values. Ok values ≡ resolved graphs.now.graphs graph.now firing.now configured.now) }
    ensures each { IfOk result (λ values. length values ≡ length graph.now.params) }
    ensures refused { IfErr result (IfRefused (λ refusal. Err refusal ≡ resolved graphs.now.graphs graph.now firing.now configured.now)) }
{
    early_unfolds();
    graphs_resolvable();
    let chosen = chosen_values(alloc, graph, configured)?;
    match resolve(alloc, graph, early, &chosen) {
        Ok(values) => Ok(values),
        Err(fault) => Err(param_refused(alloc, graph, &firing.path, fault)),
    }
}
