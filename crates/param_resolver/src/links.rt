// The links of a level.
ghost use Rattle.std.specs.Prelude.{◌≡◌, ◌≤◌, ◌<◌, ◌^◌, ◌++◌, [], ℕ, ℤ, true, false, length, slice_index, slice_index_or, All, IfOk, OnOk};
ghost use Rattle.std.specs.Prelude.{List as Seq};
ghost use Rattle.std.specs.List.{AllByRecursion, list_any};
ghost use Rattle.pisdf_model.specs.Details.{of_each};
ghost use Rattle.pisdf_model.specs.Parts.{input_count as inputs_in};
ghost use Rattle.pisdf_model.specs.declared.graph.Graph.{Graph};
ghost use Rattle.pisdf_model.specs.InterfaceWires.{is_at_configuration as is_at_configuration_in};
ghost use Rattle.pisdf_model.specs.Wires.{gives_tokens, is_interface, takes_tokens};
ghost use Rattle.pisdf_model.specs.declared.actor.Actor.{Actor};
ghost use Rattle.param_resolver.specs.LevelOf.{fifo_links as links_of_fifo, head_of as head_at, level_outs, link_of as link_at, links_of as links_in, state_link as link_of_state, state_links as links_of_state, tail_of as tail_at};
ghost use Rattle.param_resolver.specs.Numbering.{actor_number, feeds_configuration, link_origins, output_count as outputs_in, source_ends, state_size};
ghost use Rattle.param_resolver.specs.Resolvable.{IsBodyResolvable};
ghost use Rattle.param_resolver.specs.Tables.{AreHeld, IsLinkable, IsSound, IsStateFew, actor_numbers, fifo_origins, held_by as held_in, input_numbers, is_child as is_child_body, level_ins, output_numbers, state_origins};

use crate::acting::Acting;
use crate::feeds::number_at;
use crate::numbering::Numbers;
use crate::origin::Origin;
use pisdf_model::{
    Actor, Body, End, Fifo, Graph, graph_holds, input_count, is_at_configuration, is_configuration,
    output_count,
};
use sdf_level::{Head, Link, List, Tail};
use std::alloc::{AllocError, Global};

/// The rate of a port of an actor of the level, or 0 where there is none.
fn rate_at(rates: &[List<u32>], actor: u32, port: u32) -> u32
    ensures { result ≡ slice_index (slice_index_or rates.now actor []) port }
{
    match rates.get(actor as usize) {
        Some(rates) => number_at(rates.items(), port as usize),
        None => 0,
    }
}

/// Where the tokens of a link come from whose FIFO comes from this end, where the outputs of the actors have these rates.
fn tail_of(graphs: &[Graph], graph: &Graph, numbers: &Numbers, outs: &[List<u32>], end: End) -> Tail
    requires gives { gives_tokens graphs.now graph.now end ≡ true }
    requires unfed { (i : ℕ) → is_interface i end ≡ true → feeds_configuration graph.now i ≡ false }
    requires actors { numbers.now.actors.items ≡ actor_numbers graph.now }
    requires inputs { numbers.now.inputs.items ≡ input_numbers graph.now }
    requires outputs { numbers.now.outputs.items ≡ output_numbers graphs.now graph.now }
    requires few { length (source_ends graphs.now graph.now) < 2 ^ 32 }
    ensures { (values : Seq ℤ) → outs.now ≡ level_outs graphs.now graph.now values → result ≡ tail_at graphs.now graph.now values end }
{
    match end {
        End::Interface(place) => Tail::Source(number_at(&numbers.inputs, place as usize)),
        End::Port { actor, port } => {
            let place = actor as usize;
            let body = &graph.actors.items()[place].body;
            let port = port - input_count(graphs, body) as u32;
            if is_configuration(body) {
                Tail::Source(number_at(&numbers.outputs, place) + port)
            } else {
                let number = number_at(&numbers.actors, place);
                Tail::Port {
                    actor: number,
                    port,
                    rate: rate_at(outs, number, port),
                }
            }
        }
    }
}

/// Where the tokens of a link go whose FIFO goes to this end, where the inputs of the actors have these rates.
fn head_of(graphs: &[Graph], graph: &Graph, numbers: &Numbers, ins: &[List<u32>], end: End) -> Head
    requires takes { takes_tokens graphs.now graph.now end ≡ true }
    requires kept { is_at_configuration_in graph.now end ≡ false }
    requires actors { numbers.now.actors.items ≡ actor_numbers graph.now }
    ensures { (values : Seq ℤ) → ins.now ≡ level_ins graphs.now graph.now values → result ≡ head_at graphs.now graph.now values end }
{
    match end {
        End::Interface(place) => Head::Sink(place - graph.inputs.items().len() as u32),
        End::Port { actor, port } => {
            let number = number_at(&numbers.actors, actor as usize);
            Head::Port {
                actor: number,
                port,
                rate: rate_at(ins, number, port),
            }
        }
    }
}

/// The link of a FIFO that doesn't lead into a configuration actor.
fn link_of(graphs: &[Graph], graph: &Graph, numbers: &Numbers, acting: &Acting, fifo: &Fifo) -> Link
    requires sound { IsSound graphs.now graph.now fifo.now }
    requires kept { is_at_configuration_in graph.now fifo.now.head ≡ false }
    requires actors { numbers.now.actors.items ≡ actor_numbers graph.now }
    requires inputs { numbers.now.inputs.items ≡ input_numbers graph.now }
    requires outputs { numbers.now.outputs.items ≡ output_numbers graphs.now graph.now }
    requires few { length (source_ends graphs.now graph.now) < 2 ^ 32 }
    ensures { (values : Seq ℤ) → acting.now.ins.items ≡ level_ins graphs.now graph.now values → acting.now.outs.items ≡ level_outs graphs.now graph.now values → result ≡ link_at graphs.now graph.now values fifo.now }
{
    Link {
        tail: tail_of(graphs, graph, numbers, &acting.outs, fifo.tail),
        head: head_of(graphs, graph, numbers, &acting.ins, fifo.head),
        delay: fifo.delay.items().len() as u32,
    }
}

/// Links, and what each of them comes from.
#[derive(Drop)]
pub(crate) struct Links {
    pub(crate) links: Vec<Link>,
    pub(crate) origins: Vec<Origin>,
}

/// Adds the link of the FIFO at the place `number`, unless it leads into a configuration actor.
fn add_fifo(
    graphs: &[Graph],
    graph: &Graph,
    numbers: &Numbers,
    acting: &Acting,
    number: usize,
    fifo: &Fifo,
    links: &mut Links,
) -> Result<(), AllocError>
    requires place { number < 2 ^ 32 }
    requires sound { IsSound graphs.now graph.now fifo.now }
    requires actors { numbers.now.actors.items ≡ actor_numbers graph.now }
    requires inputs { numbers.now.inputs.items ≡ input_numbers graph.now }
    requires outputs { numbers.now.outputs.items ≡ output_numbers graphs.now graph.now }
    requires few { length (source_ends graphs.now graph.now) < 2 ^ 32 }
    ensures links { (values : Seq ℤ) → acting.now.ins.items ≡ level_ins graphs.now graph.now values → acting.now.outs.items ≡ level_outs graphs.now graph.now values → OnOk result (links.new.links.items ≡ links.old.links.items ++ links_of_fifo graphs.now graph.now values fifo.now) }
    ensures origins { OnOk result (links.new.origins.items ≡ links.old.origins.items ++ fifo_origins graph.now number fifo.now) }
{
    if is_at_configuration(graph, &fifo.head) {
        return Ok(());
    }
    links
        .links
        .push(link_of(graphs, graph, numbers, acting, fifo))?;
    links.origins.push(Origin::Fifo(number as u32))?;
    Ok(())
}

/// How many tokens go on from one firing of an actor to the next, where this many do in each graph.
fn held_by(holds: &[usize], body: &Body) -> usize
    ensures { result ≡ held_in holds.now body.now }
{
    match body {
        Body::Child { graph, .. } => match holds.get(*graph as usize) {
            Some(hold) => *hold,
            None => 0,
        },
        _ => 0,
    }
}

/// The link from the actor with this number to itself that carries so many tokens.
fn state_link(graphs: &[Graph], number: u32, body: &Body, state: u32) -> Link
    requires ins { inputs_in graphs.now body.now < 2 ^ 32 }
    requires outs { outputs_in graphs.now body.now < 2 ^ 32 }
    ensures { (g : Graph) (a : ℕ) → number ≡ actor_number g a → state ≡ state_size graphs.now body.now → result ≡ link_of_state graphs.now g a body.now }
{
    Link {
        tail: Tail::Port {
            actor: number,
            port: output_count(graphs, body) as u32,
            rate: state,
        },
        head: Head::Port {
            actor: number,
            port: input_count(graphs, body) as u32,
            rate: state,
        },
        delay: state,
    }
}

/// Adds the link of the state of the actor at the place `number`, if it has one.
fn add_state(
    graphs: &[Graph],
    graph: &Graph,
    numbers: &Numbers,
    holds: &[usize],
    number: usize,
    actor: &Actor,
    links: &mut Links,
) -> Result<(), AllocError>
    requires place { number < 2 ^ 32 }
    requires there { number < length graph.now.actors }
    requires few { IsStateFew graphs.now actor.now }
    requires held { held_in holds.now actor.now.body ≡ state_size graphs.now actor.now.body }
    requires actors { numbers.now.actors.items ≡ actor_numbers graph.now }
    ensures links { OnOk result (links.new.links.items ≡ links.old.links.items ++ links_of_state graphs.now graph.now number actor.now) }
    ensures origins { OnOk result (links.new.origins.items ≡ links.old.origins.items ++ state_origins graphs.now number actor.now) }
{
    let state = held_by(holds, &actor.body);
    if state == 0 {
        return Ok(());
    }
    let own = number_at(&numbers.actors, number);
    links
        .links
        .push(state_link(graphs, own, &actor.body, state as u32))?;
    links.origins.push(Origin::State(number as u32))?;
    Ok(())
}

fn is_child(body: &Body) -> bool
    ensures { result ≡ is_child_body body.now }
{
    matches!(body, Body::Child { .. })
}

fn has_children(actors: &[Actor]) -> bool
    ensures { result ≡ list_any (λ a. is_child_body a.body) actors.now }
{
    actors.iter().any(|actor| is_child(&actor.body))
}

/// How many tokens the state of each graph begins with. They aren't counted where no actor of the level names a graph.
fn holds_for(alloc: Global, graphs: &[Graph], graph: &Graph) -> Result<Vec<usize>, AllocError>
    requires there { All (λ a. IsBodyResolvable (length graphs.now) (length graph.now.params) a.body) graph.now.actors }
    requires few { All (IsStateFew graphs.now) graph.now.actors }
    ensures { IfOk result (λ holds. AreHeld graphs.now holds.items graph.now.actors) }
{
    if has_children(graph.actors.items()) {
        let holds = graph_holds(alloc, graphs)?;
        return Ok(holds);
    }
    Ok(Vec::new(alloc))
}

/// Adds the links of FIFOs.
fn add_fifos(
    graphs: &[Graph],
    graph: &Graph,
    numbers: &Numbers,
    acting: &Acting,
    links: &mut Links,
) -> Result<(), AllocError>
    requires place { length graph.now.fifos < 2 ^ 32 }
    requires sound { AllByRecursion (IsSound graphs.now graph.now) graph.now.fifos }
    requires actors { numbers.now.actors.items ≡ actor_numbers graph.now }
    requires inputs { numbers.now.inputs.items ≡ input_numbers graph.now }
    requires outputs { numbers.now.outputs.items ≡ output_numbers graphs.now graph.now }
    requires few { length (source_ends graphs.now graph.now) < 2 ^ 32 }
    ensures links { (values : Seq ℤ) → acting.now.ins.items ≡ level_ins graphs.now graph.now values → acting.now.outs.items ≡ level_outs graphs.now graph.now values → OnOk result (links.new.links.items ≡ links.old.links.items ++ of_each (λ i f. links_of_fifo graphs.now graph.now values f) graph.now.fifos) }
    ensures origins { OnOk result (links.new.origins.items ≡ links.old.origins.items ++ of_each (λ i f. fifo_origins graph.now i f) graph.now.fifos) }
{
    for (number, fifo) in graph.fifos.items().iter().enumerate() {
        add_fifo(graphs, graph, numbers, acting, number, fifo, links)?;
    }
    Ok(())
}

/// Adds the links of states.
fn add_states(
    graphs: &[Graph],
    graph: &Graph,
    numbers: &Numbers,
    holds: &[usize],
    links: &mut Links,
) -> Result<(), AllocError>
    requires place { length graph.now.actors < 2 ^ 32 }
    requires few { All (IsStateFew graphs.now) graph.now.actors }
    requires held { AreHeld graphs.now holds.now graph.now.actors }
    requires actors { numbers.now.actors.items ≡ actor_numbers graph.now }
    ensures links { OnOk result (links.new.links.items ≡ links.old.links.items ++ of_each (λ a x. links_of_state graphs.now graph.now a x) graph.now.actors) }
    ensures origins { OnOk result (links.new.origins.items ≡ links.old.origins.items ++ of_each (λ a x. state_origins graphs.now a x) graph.now.actors) }
{
    for (number, actor) in graph.actors.items().iter().enumerate() {
        add_state(graphs, graph, numbers, holds, number, actor, links)?;
    }
    Ok(())
}

/// The links of a level: those of FIFOs, then those of states.
pub(crate) fn links_of(
    alloc: Global,
    graphs: &[Graph],
    graph: &Graph,
    numbers: &Numbers,
    acting: &Acting,
) -> Result<Links, AllocError>
    requires linkable { IsLinkable graphs.now graph.now }
    requires actors { numbers.now.actors.items ≡ actor_numbers graph.now }
    requires inputs { numbers.now.inputs.items ≡ input_numbers graph.now }
    requires outputs { numbers.now.outputs.items ≡ output_numbers graphs.now graph.now }
    ensures links { (values : Seq ℤ) → acting.now.ins.items ≡ level_ins graphs.now graph.now values → acting.now.outs.items ≡ level_outs graphs.now graph.now values → IfOk result (λ l. l.links.items ≡ links_in graphs.now graph.now values) }
    ensures origins { IfOk result (λ l. l.origins.items ≡ link_origins graphs.now graph.now) }
{
    let holds = holds_for(alloc, graphs, graph)?;
    let mut links = Links {
        links: Vec::new(alloc),
        origins: Vec::new(alloc),
    };
    add_fifos(graphs, graph, numbers, acting, &mut links)?;
    add_states(graphs, graph, numbers, &holds, &mut links)?;
    Ok(links)
}
