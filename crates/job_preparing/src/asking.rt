// What is asked of the configuration actors of a firing.
ghost use Rattle.std.specs.Prelude.{◌≡◌, [], length, vec_capacity, slice_get, None, Some, IfOk, ℕ, List as Seq};
ghost use Rattle.nested_jobs.specs.Marks.{Free};
ghost use Rattle.nested_jobs.specs.Rules.{Call, Work};
ghost use Rattle.kernel_gate.specs.Value.{lengths};
ghost use Rattle.param_resolver.specs.EarlyCheck.{early_of};
ghost use Rattle.pisdf_model.specs.Hold.{in_line, initial};
ghost use Rattle.pisdf_model.specs.Ports.{inherited_count};
ghost use Rattle.pisdf_model.specs.Valid.{AreValid};
ghost use Rattle.pisdf_meaning.specs.Configuring.{configurations, config_rates, early_in};
ghost use Rattle.pisdf_meaning.specs.Nested.{configuration_at};
ghost use Rattle.pisdf_meaning.specs.Sound.{IsConfiguration};
ghost use Rattle.pisdf_meaning.specs.States.{tokens_at};
ghost use Rattle.job_rules.specs.Meant.{IsFit};
ghost use Rattle.pisdf_meaning.specs.declared.firing.Configured.{Configured};
ghost use Rattle.pisdf_meaning.specs.declared.outcome.TraceRow.{TraceRow};
ghost use Rattle.job_preparing.specs.Stages.{lent_of, mark_of};
ghost use Rattle.job_preparing.specs.Standing.{ArePlaces, IsCall, IsOwn, StandsRight};
ghost use Rattle.job_preparing.specs.Unclaimed.{kernel_work};
ghost use Rattle.job_preparing.specs.View.{HasInherited, task_of};

use crate::stage::{Spare, Stage};
use kernel_gate::Frame;
use param_expr::Name;
use param_resolver::{Early, early, early_unfolds};
use pisdf_meaning::{Firing, config_firing, copy_name, copy_tokens, fed_to, rates_at, tokens_at};
use pisdf_model::{Body, Graph, Graphs, is_configuration};
use sdf_level::List;
use std::alloc::{AllocError, Global};

/// The early check of the graph of a firing: what is known of it before its configuration actors fire.
///
/// # Errors
///
/// Want of memory.
pub fn early_for(alloc: Global, graphs: &Graphs, firing: &Firing) -> Result<Early, AllocError>
    requires valid { AreValid graphs.now }
    requires fit { IsFit graphs.now.graphs firing.now }
    requires inherited { length firing.now.inherited ≡ inherited_count (slice_get graphs.now.graphs firing.now.graph) }
    ensures { IfOk result (λ e. e ≡ early_in graphs.now.graphs firing.now) }
{
    // The early check has no fault, so that only memory can be wanting.
    match early(alloc, graphs, firing.graph, firing.inherited.items()) {
        Ok(early) => Ok(early),
        Err(_) => Err(AllocError),
    }
}

/// The places of the configuration actors of a graph among all its actors.
///
/// # Errors
///
/// Want of memory.
pub fn config_places(alloc: Global, graph: &Graph) -> Result<Vec<usize>, AllocError>
    ensures { IfOk result (λ v. ArePlaces graph.now v.items) }
{
    let mut places = Vec::new(alloc);
    let actors = graph.actors.items();
    for place in 0..actors.len() {
        if is_configuration(&actors[place].body) {
            places.push(place)?;
        }
    }
    Ok(places)
}

/// A configuration actor that nobody claimed, with the frame of its kernel, if it fires one.
pub(crate) struct Unclaimed {
    pub(crate) stage: Stage,
    pub(crate) frame: Option<Frame>,
}

/// A kernel configuration actor with its number, which stands at a place of its graph.
fn unclaimed_kernel(
    alloc: Global,
    graphs: &[Graph],
    graph: &Graph,
    early: &Early,
    firing: &Firing,
    number: usize,
    place: usize,
    name: &Name,
    kernel: u32,
    ins: usize,
    sets: u32,
) -> Result<Unclaimed, AllocError>
    requires { early.now ≡ early_in graphs.now firing.now }
    ensures own { IfOk result (λ s. IsOwn s.frame) }
    ensures free { IfOk result (λ s. mark_of s.stage ≡ Free) }
    ensures lent { IfOk result (λ s. lent_of s.stage ≡ None) }
    ensures waits { IfOk result (λ s. (rates : Seq ℕ) (one : Configured) (trace : Seq TraceRow) → StandsRight graphs.now (Some (Work (kernel_work graphs.now graph.now firing.now number place name.now kernel ins sets))) rates s.stage s.frame one trace) }
{
    let rates = rates_at(early.outs.items(), number);
    let spare = Spare {
        path: firing.path.copy()?,
        name: copy_name(alloc, name)?,
        lists: Vec::with_capacity(alloc, rates.len())?,
    };
    let args = copy_tokens(alloc, tokens_at(early.args.items(), number))?;
    let inputs = fed_to(alloc, graph, firing.inputs.items(), place, ins)?;
    let frame = Frame::start(alloc, kernel, args, inputs, rates, sets)?;
    frame.outputs_fill_leases();
    Ok(Unclaimed {
        stage: Stage::Fires(spare),
        frame: Some(frame),
    })
}

/// The configuration actor with this number, which stands at a place of its graph.
pub(crate) fn unclaimed_actor(
    alloc: Global,
    graphs: &Graphs,
    graph: &Graph,
    early: &Early,
    firing: &Firing,
    number: usize,
    place: usize,
) -> Result<Unclaimed, AllocError>
    requires valid { AreValid graphs.now }
    requires here { slice_get graphs.now.graphs firing.now.graph ≡ Some graph.now }
    requires early { early.now ≡ early_in graphs.now.graphs firing.now }
    requires configuration { slice_get (configurations graph.now) number ≡ Some (configuration_at graph.now number place) }
    requires is { IsConfiguration graph.now number place }
    ensures own { IfOk result (λ s. IsOwn s.frame) }
    ensures free { IfOk result (λ s. mark_of s.stage ≡ Free) }
    ensures lent { IfOk result (λ s. lent_of s.stage ≡ None) }
    ensures stands { IfOk result (λ s. (one : Configured) (trace : Seq TraceRow) → StandsRight graphs.now.graphs (task_of graphs.now.graphs graph.now firing.now (slice_get (configurations graph.now) number)) (config_rates graphs.now.graphs firing.now number) s.stage s.frame one trace) }
{
    let actor = &graph.actors.items()[place];
    match &actor.body {
        Body::Config {
            kernel,
            ins,
            sets,
            ..
        } => unclaimed_kernel(
            alloc,
            graphs.graphs.items(),
            graph,
            early,
            firing,
            number,
            place,
            &actor.name,
            *kernel,
            ins.items().len(),
            sets.items().len() as u32,
        ),
        Body::ConfigChild { .. } => Ok(Unclaimed {
            stage: Stage::Calls,
            frame: None,
        }),
        Body::Kernel { .. } | Body::Child { .. } => unreachable!(),
    }
}

/// The firing of the graph that the configuration actor with this number names, which stands at a place of its graph.
///
/// # Errors
///
/// Want of memory.
pub fn config_call(
    alloc: Global,
    graphs: &Graphs,
    graph: &Graph,
    early: &Early,
    firing: &Firing,
    number: usize,
    place: usize,
) -> Result<Firing, AllocError>
    requires valid { AreValid graphs.now }
    requires here { slice_get graphs.now.graphs firing.now.graph ≡ Some graph.now }
    requires early { early.now ≡ early_in graphs.now.graphs firing.now }
    requires is { IsConfiguration graph.now number place }
    requires call { IsCall (task_of graphs.now.graphs graph.now firing.now (Some (configuration_at graph.now number place))) }
    requires fit { IsFit graphs.now.graphs firing.now }
    ensures rates { IfOk result (λ d. (early_of graphs.now.graphs d.graph d.inherited).outputs ≡ config_rates graphs.now.graphs firing.now number) }
    ensures state { IfOk result (λ d. lengths d.state ≡ lengths (initial graphs.now.graphs d.graph)) }
    ensures inherited { IfOk result (HasInherited graphs.now.graphs) }
    ensures task { IfOk result (λ d. task_of graphs.now.graphs graph.now firing.now (Some (configuration_at graph.now number place)) ≡ Some (Call d)) }
{
    early_unfolds();
    let actor = &graph.actors.items()[place];
    match &actor.body {
        Body::ConfigChild { graph: child, .. } => {
            let inputs = graphs.graphs.items()[*child as usize].inputs.items().len();
            config_firing(
                alloc,
                graphs.graphs.items(),
                graph,
                early,
                firing,
                number,
                place,
                &actor.name,
                *child,
                inputs,
            )
        }
        Body::Config { .. } => unreachable!(),
        Body::Kernel { .. } => unreachable!(),
        Body::Child { .. } => unreachable!(),
    }
}

/// How many tokens the lists have.
///
/// # Errors
///
/// More than any list can have.
fn token_count(lists: &[List<i64>]) -> Result<usize, AllocError>
    ensures { IfOk result (λ count. count ≡ length (in_line lists.now)) }
{
    let mut count: usize = 0;
    for list in lists {
        match count.checked_add(list.items().len()) {
            Some(more) => count = more,
            None => return Err(AllocError),
        }
    }
    Ok(count)
}

/// An empty list with room for these lists in one line.
pub(crate) fn line_for(alloc: Global, lists: &[List<i64>]) -> Result<Vec<i64>, AllocError>
    ensures empty { IfOk result (λ line. line.items ≡ []) }
    ensures room { IfOk result (λ line. vec_capacity line ≡ length (in_line lists.now)) }
{
    Vec::with_capacity(alloc, token_count(lists)?)
}
