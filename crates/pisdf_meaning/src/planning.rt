// What is worked out of a graph's level before its run, and what the firing gives after it.
ghost use Rattle.std.specs.Prelude.{◌≡◌, ℕ, [], length, slice_get, Some, List as Seq, IfOk, IfErr};
ghost use Rattle.param_resolver.specs.EarlyCheck.{early_faults};
ghost use Rattle.pisdf_model.specs.Valid.{AreValid};
ghost use Rattle.sdf_level.specs.LevelRun.{end_of};
ghost use Rattle.sdf_level.specs.Lists.{lists_of};
ghost use Rattle.pisdf_meaning.specs.Configuring.{early_in};
ghost use Rattle.pisdf_meaning.specs.Endings.{IfRefused};
ghost use Rattle.pisdf_meaning.specs.Nested.{outs_count, rates_count};
ghost use Rattle.pisdf_meaning.specs.Planned.{IsPlanned, PlanRefused};
ghost use Rattle.pisdf_meaning.specs.Running.{HaveRows, Traces, given_by};

use crate::firing::{Configured, Firing, Given};
use crate::giving::given_by;
use crate::parts::{Prepared, parts_of};
use crate::preparing::prepared;
use crate::refusal::PlainFault;
use crate::resolving::resolved;
use crate::running::{RunState, ended};
use crate::scheduling::scheduled;
use level_schedule::LevelSchedule;
use param_resolver::Early;
use pisdf_model::{Graph, Graphs};
use std::alloc::Global;

/// A graph's level before its run.
#[derive(Drop)]
pub(crate) struct Planned {
    /// What the firings of its actors are made of.
    pub(crate) prepared: Prepared,
    /// Its schedule.
    pub(crate) schedule: LevelSchedule,
}

/// A graph's level before its run, in a firing whose configuration actors left this: first the parameters get their
/// values, then the level its rates and arguments, and then it is scheduled.
///
/// # Errors
///
/// - `Refused`: the first of these steps that fails refuses the firing.
/// - `Memory`: want of memory.
pub(crate) fn plan_level(
    alloc: Global,
    graphs: &Graphs,
    graph: &Graph,
    early: &Early,
    firing: &Firing,
    configured: &[Configured],
) -> Result<Planned, PlainFault>
    requires valid { AreValid graphs.now }
    requires here { slice_get graphs.now.graphs firing.now.graph ≡ Some graph.now }
    requires early { early.now ≡ early_in graphs.now.graphs firing.now }
    requires sound { early_faults graphs.now.graphs firing.now.graph firing.now.inherited ≡ [] }
    requires outs { outs_count configured.now ≡ rates_count early.now.outs }
    ensures plan { IfOk result (IsPlanned graphs.now.graphs graph.now firing.now configured.now) }
    ensures sinks { IfOk result (λ plan. length plan.prepared.parts.level.sinks ≡ length early.now.outputs) }
    ensures refused { IfErr result (IfRefused (PlanRefused graphs.now.graphs graph.now firing.now configured.now)) }
{
    let values = resolved(alloc, graphs, graph, early, firing, configured)?;
    let parts = parts_of(alloc, graphs, graph, early, firing, values.items())?;
    let schedule = scheduled(alloc, graph, firing, &parts.level)?;
    let prepared = prepared(
        alloc,
        graphs.graphs.items(),
        graph,
        firing,
        configured,
        parts,
        values,
    )?;
    Ok(Planned { prepared, schedule })
}

/// What a firing of a graph gives, whose configuration actors left this, and whose level was run to this state.
///
/// # Errors
///
/// Want of memory.
pub(crate) fn finished(
    alloc: Global,
    graphs: &Graphs,
    graph: &Graph,
    firing: &Firing,
    configured: &[Configured],
    plan: &Planned,
    state: RunState,
) -> Result<Given, PlainFault>
    requires counts { length plan.now.schedule.counts ≡ plan.now.prepared.parts.level.actors }
    requires lines { length state.lines.items ≡ length plan.now.prepared.parts.level.links }
    ensures gives { (counts : Seq ℕ) (traces : Traces) → HaveRows counts traces (lists_of state.rows.items) → IfOk result (λ given. given ≡ given_by graphs.now.graphs graph.now firing.now configured.now plan.now.prepared.values counts traces (end_of plan.now.prepared.parts.level plan.now.schedule.counts (lists_of state.lines.items))) }
    ensures never_refused { IfErr result (IfRefused (λ refusal. ⊥)) }
{
    let prepared = &plan.prepared;
    let counts = plan.schedule.counts.items();
    let end = ended(alloc, &prepared.parts.level, counts, state)?;
    let values = prepared.values.items();
    Ok(given_by(
        alloc,
        graphs.graphs.items(),
        graph,
        firing,
        configured,
        values,
        end,
    )?)
}
