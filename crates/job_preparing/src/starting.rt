// The configuration actors of a firing at its start.
ghost use Rattle.std.specs.Prelude.{◌≡◌, ◌<◌, [], length, replicate, slice_get, Some, None, IfOk, IfSome, All};
ghost use Rattle.std.specs.Arc.{arc_value};
ghost use Rattle.nested_jobs.specs.Marks.{Free};
ghost use Rattle.pisdf_model.specs.Valid.{AreValid};
ghost use Rattle.pisdf_meaning.specs.Configuring.{early_in};
ghost use Rattle.job_rules.specs.Items.{compile_number, graph_of};
ghost use Rattle.job_rules.specs.Meant.{IsFit};
ghost use Rattle.job_preparing.specs.Unclaimed.{AreUnclaimed};
ghost use Rattle.job_preparing.specs.Standing.{ArePlaces, IsOwn, nothing};
ghost use Rattle.job_preparing.specs.View.{HasInherited};

use crate::asking::{Unclaimed, config_places, early_for, unclaimed_actor};
use crate::configuring::Configuring;
use crate::known::KnownEarly;
use crate::stage::Stage;
use crate::trace::Trace;
use kernel_gate::Frame;
use param_resolver::{Early, early_unfolds};
use pisdf_meaning::{Configured, Firing};
use pisdf_model::{Graph, Graphs};
use sdf_level::List;
use std::alloc::{AllocError, Global};
use std::sync::Arc;

/// Gives up the frames that wait.
pub(crate) fn spend_frames(mut frames: Vec<Option<Frame>>)
    requires { All IsOwn frames.items }
{
    while let Some(waiting) = frames.pop() {
        match waiting {
            Some(frame) => frame.end(),
            None => {}
        }
    }
    frames.destroy_empty();
}

/// Nothing, for so many configuration actors.
fn nothing_left(alloc: Global, count: usize) -> Result<Vec<Configured>, AllocError>
    ensures { IfOk result (λ v. v.items ≡ replicate count nothing) }
{
    let mut left = Vec::with_capacity(alloc, count)?;
    for number in 0..count {
        left.push(Configured {
            outs: List::new(Vec::new(alloc)),
            sets: List::new(Vec::new(alloc)),
            state: List::new(Vec::new(alloc)),
            trace: List::new(Vec::new(alloc)),
        })?;
    }
    Ok(left)
}

/// So many empty traces.
///
/// # Errors
///
/// Want of memory.
pub fn no_traces(alloc: Global, count: usize) -> Result<Vec<Trace>, AllocError>
    ensures { IfOk result (λ v. v.items ≡ replicate count []) }
{
    let mut traces = Vec::with_capacity(alloc, count)?;
    for number in 0..count {
        traces.push(Trace::new(alloc))?;
    }
    Ok(traces)
}

/// The configuration actors of a firing, which nobody claimed.
struct UnclaimedActors {
    stages: Vec<Stage>,
    frames: Vec<Option<Frame>>,
}

/// The configuration actors at these places.
fn unclaimed_actors(
    alloc: Global,
    graphs: &Graphs,
    graph: &Graph,
    early: &Early,
    firing: &Firing,
    places: &[usize],
) -> Result<UnclaimedActors, AllocError>
    requires valid { AreValid graphs.now }
    requires here { slice_get graphs.now.graphs firing.now.graph ≡ Some graph.now }
    requires early { early.now ≡ early_in graphs.now.graphs firing.now }
    requires places { ArePlaces graph.now places.now }
    ensures { IfOk result (λ s. AreUnclaimed graphs.now.graphs graph.now firing.now (length places.now) s.stages.items s.frames.items) }
{
    let mut stages = Vec::with_capacity(alloc, places.len())?;
    // Frames must be spent: from here on no `?` stands.
    let mut frames = Vec::with_capacity(alloc, places.len())?;
    for number in 0..places.len() {
        match unclaimed_actor(alloc, graphs, graph, early, firing, number, places[number]) {
            Ok(Unclaimed { stage, frame }) => {
                stages.push_reserved(stage);
                frames.push_reserved(frame);
            }
            Err(error) => {
                spend_frames(frames);
                return Err(error);
            }
        }
    }
    Ok(UnclaimedActors { stages, frames })
}

/// What is known of the graph of a firing: what its caller knows, or else what the early check finds.
///
/// # Errors
///
/// Want of memory.
fn known_for(
    alloc: Global,
    graphs: &Graphs,
    firing: &Firing,
    known: Option<KnownEarly>,
) -> Result<KnownEarly, AllocError>
    requires valid { AreValid graphs.now }
    requires fit { IsFit graphs.now.graphs firing.now }
    requires inherited { HasInherited graphs.now.graphs firing.now }
    requires known { IfSome known (λ early. early ≡ early_in graphs.now.graphs firing.now) }
    ensures { IfOk result (λ early. early ≡ early_in graphs.now.graphs firing.now) }
{
    match known {
        Some(early) => Ok(early),
        None => KnownEarly::alone(alloc, early_for(alloc, graphs, firing)?),
    }
}

/// The configuration actors of a firing of a graph, none of which is claimed. `known` is what the firing's caller knows of the
/// graph, if it does. All memory that their kernels need beside the kernels' own is taken here.
///
/// # Errors
///
/// Want of memory.
pub fn configure(
    alloc: Global,
    graphs: Arc<Graphs>,
    firing: Firing,
    known: Option<KnownEarly>,
) -> Result<Configuring, AllocError>
    requires valid { AreValid (arc_value graphs) }
    requires fit { IsFit (arc_value graphs).graphs firing }
    requires inherited { HasInherited (arc_value graphs).graphs firing }
    requires known { IfSome known (λ early. early ≡ early_in (arc_value graphs).graphs firing) }
    ensures made_of { IfOk result (λ v. (v.graphs ≡ arc_value graphs) × (v.firing ≡ firing)) }
    ensures free { IfOk result (λ v. v.marks ≡ replicate (compile_number (graph_of (arc_value graphs).graphs firing)) Free) }
    ensures lent { IfOk result (λ v. v.lent ≡ replicate (compile_number (graph_of (arc_value graphs).graphs firing)) None) }
{
    early_unfolds();
    let early = known_for(alloc, &graphs, &firing, known)?;
    let graph = &graphs.graphs.items()[firing.graph as usize];
    let places = config_places(alloc, graph)?;
    let left = nothing_left(alloc, places.len())?;
    let traces = no_traces(alloc, places.len())?;
    let UnclaimedActors { stages, frames } = unclaimed_actors(
        alloc,
        &graphs,
        graph,
        early.get(),
        &firing,
        &places,
    )?;
    Ok(Configuring {
        graphs,
        firing,
        early,
        places,
        stages,
        frames,
        left,
        traces,
        alloc,
    })
}
