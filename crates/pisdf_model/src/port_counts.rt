ghost use Rattle.std.specs.Prelude.{◌≡◌, ◌==◌, ◌++◌, IfOk, OnOk, List as Seq, length, slice_get, count_by};
ghost use Rattle.pisdf_model.specs.declared.graph.Graph.{Graph};
ghost use Rattle.pisdf_model.specs.Details.{Answers, of_each};
ghost use Rattle.pisdf_model.specs.Ports.{actor_ports, all_sets, body_fits, export_count, graph_ports, inherited_count, inherited_counts, is_inherited, is_set_as_due, param_ports, ports_faults, sets_of};

use crate::actor::{Actor, Body};
use crate::detail_fault::DetailFault;
use crate::graph::{Graph, Graphs};
use crate::names::fault_at;
use crate::param::{Param, ParamKind};
use crate::tally::times_of;
use param_expr::{Expr, Name};
use std::alloc::{AllocError, Global};

/// What tells whether an actor fits its kernel.
pub trait Counts {
    ghost use Rattle.std.specs.Prelude.{Bool};
    ghost use Rattle.pisdf_model.specs.declared.actor.Body.{Body};

    ghost fits: { Self → Body → Bool };

    /// Whether the numbers of arguments, inputs, outputs and sets of a kernel actor or configuration actor fit its
    /// kernel.
    fn fit(&self, body: &Body) -> bool
        ensures { result ≡ fits self.now body.now };
}

/// Where nothing is known of kernels, every actor fits its kernel.
pub struct AnyCounts;

impl Counts for AnyCounts {
    ghost use Rattle.std.specs.Prelude.{true};

    ghost fits = { λ _ _. true };

    fn fit(&self, _body: &Body) -> bool {
        true
    }
}

fn is_inherited(param: &Param) -> bool
    ensures { result ≡ is_inherited param.now.kind }
{
    matches!(param.kind, ParamKind::Inherited)
}

fn inherited_count(params: &[Param]) -> usize
    ensures { result ≡ count_by (λ p. is_inherited p.kind) params.now }
{
    params.iter().filter(|param| is_inherited(*param)).count()
}

/// How many parameters of each graph are inherited.
fn inherited_counts(alloc: Global, graphs: &[Graph]) -> Result<Vec<usize>, AllocError>
    ensures { IfOk result (λ inherited. inherited.items ≡ inherited_counts graphs.now) }
{
    let mut inherited = Vec::with_capacity(alloc, graphs.len())?;
    for graph in graphs {
        inherited.push(inherited_count(graph.params.items()))?;
    }
    Ok(inherited)
}

/// How many exports the graph at this place has.
fn export_count(graphs: &[Graph], place: u32) -> usize
    ensures { result ≡ export_count (slice_get graphs.now place) }
{
    match graphs.get(place as usize) {
        Some(graph) => graph.exports.items().len(),
        None => 0,
    }
}

/// Whether there are as many arguments as inherited parameters of the graph at this place.
fn args_fit(inherited: &[usize], place: u32, args: &[Expr]) -> bool
    ensures { (graphs : Seq Graph) → inherited.now ≡ inherited_counts graphs → result ≡ (length args.now == inherited_count (slice_get graphs place)) }
{
    match inherited.get(place as usize) {
        Some(count) => args.len() == *count,
        None => args.is_empty(),
    }
}

/// Whether an actor fits, where so many parameters of each graph are inherited.
fn body_fits<C: Counts>(counts: &C, graphs: &[Graph], inherited: &[usize], body: &Body) -> bool
    ensures { inherited.now ≡ inherited_counts graphs.now → result ≡ body_fits (C.fits counts.now) graphs.now body.now }
{
    match body {
        Body::Kernel { .. } | Body::Config { .. } => counts.fit(body),
        Body::Child { graph, args } => args_fit(inherited, *graph, args.items()),
        Body::ConfigChild { graph, args, sets } => {
            args_fit(inherited, *graph, args.items())
                && sets.items().len() == export_count(graphs, *graph)
        }
    }
}

fn actors_fit<C: Counts>(
    counts: &C,
    graphs: &[Graph],
    inherited: &[usize],
    actors: &[Actor],
) -> Result<(), DetailFault<Name>>
    ensures { inherited.now ≡ inherited_counts graphs.now → Answers (of_each (λ a actor. actor_ports (C.fits counts.now) graphs.now actor) actors.now) result }
{
    for actor in actors {
        if !body_fits(counts, graphs, inherited, &actor.body) {
            return Err(fault_at(&actor.name));
        }
    }
    Ok(())
}

fn push_sets(sets: &mut Vec<u32>, body: &Body) -> Result<(), AllocError>
    ensures { OnOk result (sets.new.items ≡ sets.old.items ++ sets_of body.now) }
{
    match body {
        Body::Config { sets: own, .. } | Body::ConfigChild { sets: own, .. } => {
            sets.extend_from_slice(own.items())?;
            Ok(())
        }
        _ => Ok(()),
    }
}

/// The places of the parameters that the actors set, actor by actor.
fn all_sets(alloc: Global, actors: &[Actor]) -> Result<Vec<u32>, AllocError>
    ensures { IfOk result (λ sets. sets.items ≡ all_sets actors.now) }
{
    let mut sets = Vec::new(alloc);
    for actor in actors {
        push_sets(&mut sets, &actor.body)?;
    }
    Ok(sets)
}

fn is_set_as_due(is_top: bool, kind: &ParamKind, times: usize) -> bool
    ensures { result ≡ is_set_as_due is_top kind.now times }
{
    match kind {
        ParamKind::Inherited => !is_top && times == 0,
        ParamKind::Derived(_) => times == 0,
        ParamKind::Chosen => times == 1,
    }
}

fn params_set(
    alloc: Global,
    is_top: bool,
    sets: &[u32],
    params: &[Param],
) -> Result<(), DetailFault<Name>>
    ensures { Answers (of_each (λ i p. param_ports is_top sets.now i p) params.now) result }
{
    let times = times_of(alloc, sets, params.len())?;
    for (place, param) in params.iter().enumerate() {
        if !is_set_as_due(is_top, &param.kind, times[place]) {
            return Err(fault_at(&param.name));
        }
    }
    Ok(())
}

fn graph_ports<C: Counts>(
    alloc: Global,
    counts: &C,
    graphs: &[Graph],
    inherited: &[usize],
    is_top: bool,
    graph: &Graph,
) -> Result<(), DetailFault<Name>>
    ensures { inherited.now ≡ inherited_counts graphs.now → Answers (graph_ports (C.fits counts.now) graphs.now is_top graph.now) result }
{
    actors_fit(counts, graphs, inherited, graph.actors.items())?;
    let sets = all_sets(alloc, graph.actors.items())?;
    params_set(alloc, is_top, sets.as_slice(), graph.params.items())
}

/// Whether each actor has as many arguments, ports and sets as it should, and each parameter is set as its kind says.
///
/// # Errors
///
/// - `Fault`: graph by graph, first the name of the first actor that doesn't fit its kernel, or, where it is
///   hierarchical, whose arguments aren't as many as its child's inherited parameters, or which as a configuration actor
///   doesn't set as many parameters as its child has exports; then that of the first parameter that is inherited though
///   its graph is the top one, chosen though not set exactly once, or of another kind though set.
/// - `Memory`: want of memory.
pub fn ports<C: Counts>(alloc: Global, counts: &C, graphs: &Graphs) -> Result<(), DetailFault<Name>>
    ensures { Answers (ports_faults (C.fits counts.now) graphs.now) result }
{
    let all = graphs.graphs.items();
    let inherited = inherited_counts(alloc, all)?;
    for (number, graph) in all.iter().enumerate() {
        graph_ports(
            alloc,
            counts,
            all,
            &inherited,
            number == graphs.top as usize,
            graph,
        )?;
    }
    Ok(())
}
