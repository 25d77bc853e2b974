// The numbers that the parts of a graph have in its level, by the places of the parts.
ghost use Rattle.std.specs.Prelude.{◌≡◌, ◌+◌, ◌<◌, ◌^◌, ◌&&◌, ◌||◌, ◌++◌, ◌∷◌, [], ℕ, not, false, length, map, slice_index, slice_index_or, sum_by, if◌then◌else◌, IfOk, OnOk};
ghost use Rattle.std.specs.List.{filter, flat_map, range_with_len};
ghost use Rattle.pisdf_model.specs.InterfaceWires.{is_at_configuration as is_at_configuration_in};
ghost use Rattle.pisdf_model.specs.Wires.{is_interface};
ghost use Rattle.param_resolver.specs.Assignment.{one_if};
ghost use Rattle.param_resolver.specs.LevelOf.{sources_of};
ghost use Rattle.param_resolver.specs.Numbering.{feeds_configuration, fires, source_inputs};
ghost use Rattle.param_resolver.specs.Tables.{actor_numbers as numbers_of_actors, config_outputs as outputs_of, fed_inputs as inputs_fed, input_numbers as numbers_of_inputs, output_numbers as numbers_of_outputs};

use crate::feeds::number_at;
use crate::known::Early;
use pisdf_model::{
    Actor, Body, End, Fifo, Graph, is_at_configuration, is_configuration, output_count,
};
use std::alloc::{AllocError, Global};

/// The numbers of parts of a graph in its level.
#[derive(Drop)]
pub(crate) struct Numbers {
    /// Of each actor, if it fires in the level.
    pub(crate) actors: Vec<u32>,
    /// Of each input as a source, if it feeds no configuration actor.
    pub(crate) inputs: Vec<u32>,
    /// Of each actor's first output as a source, if it is a configuration actor.
    pub(crate) outputs: Vec<u32>,
}

/// Marks the input interface from which a FIFO comes, if it leads into a configuration actor.
fn mark(graph: &Graph, fifo: &Fifo, fed: &mut [bool])
    ensures { (i : ℕ) → i < length fed.old → slice_index_or fed.new i false ≡ (slice_index_or fed.old i false || (is_interface i fifo.now.tail && is_at_configuration_in graph.now fifo.now.head)) }
{
    if let End::Interface(place) = fifo.tail {
        if (place as usize) < fed.len() {
            if is_at_configuration(graph, &fifo.head) {
                fed[place as usize] = true;
            }
        }
    }
}

/// For each input interface, whether it feeds a configuration actor.
pub(crate) fn fed_inputs(alloc: Global, graph: &Graph) -> Result<Vec<bool>, AllocError>
    ensures { IfOk result (λ fed. fed.items ≡ inputs_fed graph.now) }
{
    let mut fed = vec![in alloc; false; graph.inputs.items().len()]?;
    for fifo in graph.fifos.items() {
        mark(graph, fifo, &mut fed);
    }
    Ok(fed)
}

/// How many sources an input is.
fn sources_at(fed: bool) -> u32
    ensures { result ≡ one_if (not fed) }
{
    if fed { 0 } else { 1 }
}

fn input_numbers(alloc: Global, graph: &Graph, fed: &[bool]) -> Result<Vec<u32>, AllocError>
    requires few { length fed.now < 2 ^ 32 }
    requires fed { fed.now ≡ inputs_fed graph.now }
    ensures { IfOk result (λ numbers. numbers.items ≡ numbers_of_inputs graph.now) }
{
    let mut numbers = Vec::with_capacity(alloc, fed.len())?;
    let mut next = 0;
    for place in 0..fed.len() {
        numbers.push(next)?;
        next += sources_at(fed[place]);
    }
    Ok(numbers)
}

/// How many actors of the level an actor is.
fn actors_at(body: &Body) -> u32
    ensures { (actor : Actor) → actor.body ≡ body.now → result ≡ one_if (fires actor) }
{
    if is_configuration(body) { 0 } else { 1 }
}

fn actor_numbers(alloc: Global, graph: &Graph) -> Result<Vec<u32>, AllocError>
    requires { length graph.now.actors < 2 ^ 32 }
    ensures { IfOk result (λ numbers. numbers.items ≡ numbers_of_actors graph.now) }
{
    let actors = graph.actors.items();
    let mut numbers = Vec::with_capacity(alloc, actors.len())?;
    let mut next = 0;
    for actor in actors {
        numbers.push(next)?;
        next += actors_at(&actor.body);
    }
    Ok(numbers)
}

/// How many sources are outputs of an actor.
fn config_outputs(graphs: &[Graph], actor: &Actor) -> usize
    ensures { result ≡ outputs_of graphs.now actor.now }
{
    if is_configuration(&actor.body) {
        output_count(graphs, &actor.body)
    } else {
        0
    }
}

/// The numbers of the outputs of configuration actors as sources, of which so many come before.
fn output_numbers(
    alloc: Global,
    graphs: &[Graph],
    graph: &Graph,
    before: usize,
) -> Result<Vec<u32>, AllocError>
    requires before { before ≡ length (source_inputs graph.now) }
    requires few { before + sum_by (λ x. outputs_of graphs.now x) graph.now.actors < 2 ^ 32 }
    ensures { IfOk result (λ numbers. numbers.items ≡ numbers_of_outputs graphs.now graph.now) }
{
    let actors = graph.actors.items();
    let mut numbers = Vec::with_capacity(alloc, actors.len())?;
    let mut next = before;
    for actor in actors {
        numbers.push(next as u32)?;
        next += config_outputs(graphs, actor);
    }
    Ok(numbers)
}

/// The numbers in the level, where these inputs feed configuration actors, and so many feed none.
pub(crate) fn numbers_of(
    alloc: Global,
    graphs: &[Graph],
    graph: &Graph,
    fed: &[bool],
    unfed: usize,
) -> Result<Numbers, AllocError>
    requires few_actors { length graph.now.actors < 2 ^ 32 }
    requires few_inputs { length fed.now < 2 ^ 32 }
    requires fed { fed.now ≡ inputs_fed graph.now }
    requires unfed { unfed ≡ length (source_inputs graph.now) }
    requires few_sources { unfed + sum_by (λ x. outputs_of graphs.now x) graph.now.actors < 2 ^ 32 }
    ensures actors { IfOk result (λ numbers. numbers.actors.items ≡ numbers_of_actors graph.now) }
    ensures inputs { IfOk result (λ numbers. numbers.inputs.items ≡ numbers_of_inputs graph.now) }
    ensures outputs { IfOk result (λ numbers. numbers.outputs.items ≡ numbers_of_outputs graphs.now graph.now) }
{
    Ok(Numbers {
        actors: actor_numbers(alloc, graph)?,
        inputs: input_numbers(alloc, graph, fed)?,
        outputs: output_numbers(alloc, graphs, graph, unfed)?,
    })
}

/// Adds the rate of an input, if it feeds no configuration actor.
fn add_input(rates: &mut Vec<u32>, fed: bool, rate: u32) -> Result<(), AllocError>
    ensures { OnOk result (rates.new.items ≡ rates.old.items ++ (if fed then [] else rate ∷ [])) }
{
    if !fed {
        rates.push(rate)?;
    }
    Ok(())
}

/// The rates of the inputs that feed no configuration actor, where these are the rates of all inputs.
pub(crate) fn input_sources(
    alloc: Global,
    graph: &Graph,
    fed: &[bool],
    taken: &[u32],
) -> Result<Vec<u32>, AllocError>
    requires { fed.now ≡ inputs_fed graph.now }
    ensures { IfOk result (λ rates. rates.items ≡ map (λ i. slice_index taken.now i) (source_inputs graph.now)) }
{
    let mut rates = Vec::new(alloc);
    for place in 0..fed.len() {
        add_input(&mut rates, fed[place], number_at(taken, place))?;
    }
    Ok(rates)
}

/// Adds the rates of what the configuration actors give.
pub(crate) fn add_outputs(early: &Early, rates: &mut Vec<u32>) -> Result<(), AllocError>
    ensures { OnOk result (rates.new.items ≡ rates.old.items ++ flat_map (λ outs. outs) early.now.outs) }
{
    for outs in early.outs.items() {
        rates.extend_from_slice(outs.items())?;
    }
    Ok(())
}
