// The level of a graph, and with what its actors fire.
ghost use Rattle.std.specs.Prelude.{◌≡◌, ◌<◌, ℕ, ℤ, List as Seq, [], Some, length, slice_get, IfErr, IfOk, IfSome, OnOk};
ghost use Rattle.pisdf_model.specs.Valid.{AreValid};
ghost use Rattle.pisdf_model.specs.declared.actor.Actor.{Actor};
ghost use Rattle.sdf_level.specs.Invariants.{IsLevel, how_many};
ghost use Rattle.sdf_level.specs.Run.{is_into_actor};
ghost use Rattle.param_resolver.specs.EarlyCheck.{early_of};
ghost use Rattle.param_resolver.specs.LevelOf.{level_args, level_at, level_children, level_faults, level_outs, links_of as links_in, sources_of};
ghost use Rattle.param_resolver.specs.Numbering.{acting, acting_places, level_inputs, link_origins};
ghost use Rattle.param_resolver.specs.Refusal.{StandsFirst, TellsLevelMemory, level_refusal_of};
ghost use Rattle.param_resolver.specs.Resolvable.{AreResolvable, IsNestedWithin};
ghost use Rattle.param_resolver.specs.Tables.{IsLinkable, level_ins};

use crate::acting::{Acting, acting_of};
use crate::fault::LevelFault;
use crate::known::Early;
use crate::links::{Links, links_of};
use crate::numbering::{add_outputs, fed_inputs, input_sources, numbers_of};
use crate::origin::Origin;
use pisdf_model::{Graph, Graphs};
use sdf_level::{Level, Link, List};
use std::alloc::{AllocError, Global};

/// The level of a graph in one of its firings, what its links come from, and with what its actors fire. There is one entry
/// for each actor of the level, which is an actor of the graph that is no configuration actor, in file order.
#[derive(Debug, Drop)]
pub struct LevelSet {
    pub level: Level,
    /// What each link comes from.
    pub origins: List<Origin>,
    /// The place of each actor among all actors of the graph.
    pub places: List<u32>,
    /// The arguments of each actor.
    pub args: List<List<i64>>,
    /// The rates of each actor's outputs, without that of its state.
    pub outs: List<List<u32>>,
    /// What is known of the graph that each actor names, if it names one.
    pub children: List<Option<Early>>,
}

/// The level with these parts.
fn level(actors: u32, sources: Vec<u32>, sinks: Vec<u32>, links: Vec<Link>) -> Level
    requires { IsLevel record { actors = actors; sources = sources.items; sinks = sinks.items; links = links.items } }
    ensures { result ≡ record { actors = actors; sources = sources.items; sinks = sinks.items; links = links.items } }
{
    Level {
        actors,
        sources: List::new(sources),
        sinks: List::new(sinks),
        links: List::new(links),
    }
}

/// A level, and with what its actors fire.
fn level_set(level: Level, origins: Vec<Origin>, acting: Acting) -> LevelSet
    ensures level { result.level ≡ level }
    ensures origins { result.origins ≡ origins.items }
    ensures places { result.places ≡ acting.places.items }
    ensures args { result.args ≡ acting.args.items }
    ensures outs { result.outs ≡ acting.outs.items }
    ensures children { result.children ≡ acting.children.items }
{
    LevelSet {
        level,
        origins: List::new(origins),
        places: List::new(acting.places),
        args: List::new(acting.args),
        outs: List::new(acting.outs),
        children: List::new(acting.children),
    }
}

/// The rates of the sources of a level, and its links.
#[derive(Drop)]
struct Wiring {
    sources: Vec<u32>,
    links: Links,
}

fn wiring_of(
    alloc: Global,
    graphs: &[Graph],
    graph: &Graph,
    early: &Early,
    acting: &Acting,
) -> Result<Wiring, AllocError>
    requires { IsLinkable graphs.now graph.now }
    ensures sources { IfOk result (λ w. w.sources.items ≡ sources_of graph.now early.now) }
    ensures links { (values : Seq ℤ) → acting.now.ins.items ≡ level_ins graphs.now graph.now values → acting.now.outs.items ≡ level_outs graphs.now graph.now values → IfOk result (λ w. w.links.links.items ≡ links_in graphs.now graph.now values) }
    ensures origins { IfOk result (λ w. w.links.origins.items ≡ link_origins graphs.now graph.now) }
{
    let fed = fed_inputs(alloc, graph)?;
    let mut sources = input_sources(alloc, graph, &fed, early.inputs.items())?;
    let numbers = numbers_of(alloc, graphs, graph, &fed, sources.len())?;
    add_outputs(early, &mut sources)?;
    let links = links_of(alloc, graphs, graph, &numbers, acting)?;
    Ok(Wiring { sources, links })
}

/// The level of a graph whose links can be made.
fn level_in(
    alloc: Global,
    graphs: &[Graph],
    graph: &Graph,
    early: &Early,
    values: &[i64],
) -> Result<LevelSet, LevelFault>
    requires resolvable { AreResolvable graphs.now }
    requires nested { (k : ℕ) → k < length graphs.now → IsNestedWithin graphs.now 8 k }
    requires linkable { IsLinkable graphs.now graph.now }
    requires values { length values.now ≡ length graph.now.params }
    requires kept { IsLevel (level_at graphs.now graph.now early.now values.now) }
    ensures level { IfOk result (λ set. set.level ≡ level_at graphs.now graph.now early.now values.now) }
    ensures origins { IfOk result (λ set. set.origins ≡ link_origins graphs.now graph.now) }
    ensures places { IfOk result (λ set. set.places ≡ acting_places graph.now) }
    ensures args { IfOk result (λ set. set.args ≡ level_args graph.now values.now) }
    ensures outs { IfOk result (λ set. set.outs ≡ level_outs graphs.now graph.now values.now) }
    ensures children { IfOk result (λ set. set.children ≡ level_children graphs.now graph.now values.now) }
    ensures sound { OnOk result (level_faults graphs.now graph.now values.now ≡ []) }
    ensures fault { IfErr result (λ fault. StandsFirst (level_faults graphs.now graph.now values.now) (level_refusal_of fault)) }
    ensures memory { IfErr result TellsLevelMemory }
{
    let acting = acting_of(alloc, graphs, graph, values)?;
    let wiring = wiring_of(alloc, graphs, graph, early, &acting)?;
    let sinks = Vec::from_slice(alloc, early.outputs.items())?;
    let actors = acting.places.len() as u32;
    let level = level(actors, wiring.sources, sinks, wiring.links.links);
    Ok(level_set(level, wiring.links.origins, acting))
}

/// The level of the graph at a place (Lee and Messerschmitt 1987), whose parameters have these values, where `early` is what
/// was known of it before its configuration actors fired.
///
/// Its actors are those that are no configuration actors. Its sources are the inputs that feed no configuration actor, then
/// the outputs of the configuration actors, and its sinks are the outputs. Its links are the FIFOs that don't lead into
/// configuration actors, then for each hierarchical actor whose child has tokens that go on from one firing to the next a
/// link from the actor to itself, whose ports stand after the child's and whose rates and delay are the number of these
/// tokens. The rates of a hierarchical actor's other ports are those of its child's interfaces.
///
/// # Errors
///
/// The first in this order, actor by actor:
///
/// - `Rate`: an argument that has no value; of a kernel actor the rate of an input, then of an output, that has no value or
///   none in 0 to `RATE_LIMIT`.
/// - `Child`: the first fault of the early check of the graph that the actor names, whose inherited parameters have the
///   values of the arguments.
///
/// And `Memory`: want of memory, also where it is met in the check of a graph that an actor names.
pub fn level_of(
    alloc: Global,
    graphs: &Graphs,
    graph: u32,
    early: &Early,
    values: &[i64],
) -> Result<LevelSet, LevelFault>
    requires valid { AreValid graphs.now }
    requires there { graph < length graphs.now.graphs }
    requires early { (inherited : Seq ℤ) × (early.now ≡ early_of graphs.now.graphs graph inherited) }
    requires values { IfSome (slice_get graphs.now.graphs graph) (λ g. length values.now ≡ length g.params) }
    ensures level { IfSome (slice_get graphs.now.graphs graph) (λ g. IfOk result (λ set. set.level ≡ level_at graphs.now.graphs g early.now values.now)) }
    ensures origins { IfSome (slice_get graphs.now.graphs graph) (λ g. IfOk result (λ set. set.origins ≡ link_origins graphs.now.graphs g)) }
    ensures places { IfSome (slice_get graphs.now.graphs graph) (λ g. IfOk result (λ set. set.places ≡ acting_places g)) }
    ensures args { IfSome (slice_get graphs.now.graphs graph) (λ g. IfOk result (λ set. set.args ≡ level_args g values.now)) }
    ensures outs { IfSome (slice_get graphs.now.graphs graph) (λ g. IfOk result (λ set. set.outs ≡ level_outs graphs.now.graphs g values.now)) }
    ensures children { IfSome (slice_get graphs.now.graphs graph) (λ g. IfOk result (λ set. set.children ≡ level_children graphs.now.graphs g values.now)) }
    ensures inputs { IfSome (slice_get graphs.now.graphs graph) (λ g. IfOk result (λ set. (b : ℕ) (actor : Actor) → slice_get (acting g) b ≡ Some actor → how_many (is_into_actor b) set.level.links ≡ level_inputs graphs.now.graphs actor)) }
    ensures sound { IfSome (slice_get graphs.now.graphs graph) (λ g. OnOk result (level_faults graphs.now.graphs g values.now ≡ [])) }
    ensures first_fault { IfSome (slice_get graphs.now.graphs graph) (λ g. IfErr result (λ fault. StandsFirst (level_faults graphs.now.graphs g values.now) (level_refusal_of fault))) }
    ensures memory { IfErr result TellsLevelMemory }
{
    let all = graphs.graphs.items();
    level_in(alloc, all, &all[graph as usize], early, values)
}
