// The configuration actors of a job.
ghost use Rattle.std.specs.Prelude.{◌≡◌, ◌<◌, ◌≤◌, ◌↔◌, ℕ, List as Seq, [], Some, IfOk, IsTrue, length, slice_get, slice_index_or, take};
ghost use Rattle.kernel_gate.specs.Signed.{unnamed};
ghost use Rattle.kernel_gate.specs.Table.{the_value};
ghost use Rattle.job_preparing.specs.View.{task_of};
ghost use Rattle.job_rules.specs.Fitting.{FitsAsked};
ghost use Rattle.job_rules.specs.Items.{config_task, left_from};
ghost use Rattle.job_rules.specs.Words as words;
ghost use Rattle.nested_jobs.specs.Rules.{Call, Work};
ghost use Rattle.pisdf_meaning.specs.Configuring.{Configuration, early_in, fed_to};
ghost use Rattle.pisdf_meaning.specs.Kernels.{FitsKernel};
ghost use Rattle.pisdf_meaning.specs.Nested.{configuration_at};
ghost use Rattle.pisdf_meaning.specs.Sound.{IsConfiguration};
ghost use Rattle.pisdf_meaning.specs.States.{tokens_at};
ghost use Rattle.pisdf_meaning.specs.declared.firing.Firing.{Firing as FiringView};
ghost use Rattle.pisdf_model.specs.Valid.{AreValid};
ghost use Rattle.pisdf_model.specs.declared.graph.Graph.{Graph as GraphView};
ghost use Rattle.audit_job.specs.Answering.{IsAnswer};
ghost use Rattle.audit_job.specs.Giving.{HasGiven, HaveGiven, Leaves};
ghost use Rattle.audit_job.specs.Kinds.{IsKind};
ghost use Rattle.audit_job.specs.Marks.{answer_of, answers};

use crate::answer::{Answer, Kind, Mark};
use crate::copying::left_of;
use crate::firing::fired;
use kernel_gate::Gate;
use param_expr::Name;
use param_resolver::Early;
use pisdf_meaning::{Configured, Firing, fed_to, fire_kernel, rates_at, tokens_at};
use pisdf_model::{Body, Graph, Graphs};
use std::alloc::{AllocError, Global};

/// What a configuration actor is to do.
pub(crate) fn config_kind(body: &Body) -> Option<Kind>
    ensures { (graphs : Seq GraphView) (g : GraphView) (firing : FiringView) (c : Configuration) → IsKind (config_task graphs g firing c body.now) result }
{
    match body {
        Body::Config { .. } => Some(Kind::Work),
        Body::ConfigChild { .. } => Some(Kind::Call),
        Body::Kernel { .. } => None,
        Body::Child { .. } => None,
    }
}

/// Fires the kernel of the configuration actor with this number, which stands at a place of its graph.
fn fire_config<K: Gate>(
    alloc: Global,
    gate: &K,
    graph: &Graph,
    early: &Early,
    firing: &Firing,
    number: usize,
    place: usize,
    name: &Name,
    kernel: u32,
    ins: usize,
    sets: u32,
) -> Result<Answer, AllocError>
    requires { FitsKernel (unnamed (K.kernels gate.now)) kernel (length (tokens_at early.now.args number)) ins (length (slice_index_or early.now.outs number [])) sets }
    ensures { IfOk result (λ a. answer_of a ≡ words.fired record { path = firing.now.path; name = name.now; turn = 0 } (the_value kernel (tokens_at early.now.args number) (fed_to graph.now firing.now.inputs place ins) (slice_index_or early.now.outs number []) sets)) }
{
    let read = fed_to(alloc, graph, firing.inputs.items(), place, ins)?;
    let args = tokens_at(early.args.items(), number);
    let rates = rates_at(early.outs.items(), number);
    let end = fire_kernel(alloc, gate, kernel, args, read, rates, sets)?;
    fired(alloc, &firing.path, name, 0, end)
}

/// What the configuration actor with this number answers, which stands at a place of its graph and fires a kernel.
pub(crate) fn config_answer<K: Gate>(
    alloc: Global,
    gate: &K,
    graphs: &Graphs,
    graph: &Graph,
    early: &Early,
    firing: &Firing,
    number: usize,
    place: usize,
) -> Result<Answer, AllocError>
    requires valid { AreValid graphs.now }
    requires here { slice_get graphs.now.graphs firing.now.graph ≡ Some graph.now }
    requires early { early.now ≡ early_in graphs.now.graphs firing.now }
    requires is { IsConfiguration graph.now number place }
    requires work { (work : words.Work) × (task_of graphs.now.graphs graph.now firing.now (Some (configuration_at graph.now number place)) ≡ Some (Work work)) }
    requires fits { (spot : words.Spot) (asked : words.Asked) → task_of graphs.now.graphs graph.now firing.now (Some (configuration_at graph.now number place)) ≡ Some (Work (words.Fires spot asked)) → FitsAsked (unnamed (K.kernels gate.now)) asked }
    ensures { IfOk result (λ a. IsAnswer graphs.now.graphs (task_of graphs.now.graphs graph.now firing.now (Some (configuration_at graph.now number place))) (answer_of a)) }
{
    let actor = &graph.actors.items()[place];
    match &actor.body {
        Body::Config {
            kernel,
            ins,
            sets,
            ..
        } => fire_config(
            alloc,
            gate,
            graph,
            early,
            firing,
            number,
            place,
            &actor.name,
            *kernel,
            ins.items().len(),
            sets.items().len() as u32,
        ),
        Body::ConfigChild { .. } => unreachable!(),
        Body::Kernel { .. } => unreachable!(),
        Body::Child { .. } => unreachable!(),
    }
}

/// Whether an item has given something.
pub(crate) fn gave(mark: &Mark) -> bool
    ensures { IsTrue result ↔ HasGiven mark.now }
{
    match mark {
        Mark::Done(Answer::Gives(_)) => true,
        Mark::Done(Answer::Schedules(_)) => false,
        Mark::Done(Answer::Refuses(_)) => false,
        Mark::Free => false,
        Mark::Busy => false,
        Mark::Open(_) => false,
    }
}

/// Whether each of the first so many items has given something.
pub(crate) fn all_gave(marks: &[Mark], count: usize) -> bool
    requires { count ≤ length marks.now }
    ensures { IsTrue result ↔ HaveGiven marks.now count }
{
    for item in 0..count {
        if !gave(&marks[item]) {
            return false;
        }
    }
    true
}

/// What an item that has given something leaves as a configuration actor.
fn left_at(alloc: Global, mark: &Mark) -> Result<Configured, AllocError>
    requires { HasGiven mark.now }
    ensures { IfOk result (Leaves mark.now) }
{
    match mark {
        Mark::Done(Answer::Gives(given)) => left_of(alloc, given),
        Mark::Done(Answer::Schedules(_)) => unreachable!(),
        Mark::Done(Answer::Refuses(_)) => unreachable!(),
        Mark::Free => unreachable!(),
        Mark::Busy => unreachable!(),
        Mark::Open(_) => unreachable!(),
    }
}

/// What the first so many items leave, each of which has given something.
pub(crate) fn all_left(
    alloc: Global,
    marks: &[Mark],
    count: usize,
) -> Result<Vec<Configured>, AllocError>
    requires within { count ≤ length marks.now }
    requires given { HaveGiven marks.now count }
    ensures { (cs : Seq Configuration) → count ≤ length cs → IfOk result (λ left. left_from (answers marks.now) 0 (take count cs) ≡ Some left.items) }
{
    let mut left = Vec::with_capacity(alloc, count)?;
    for item in 0..count {
        let one = left_at(alloc, &marks[item])?;
        left.push(one)?;
    }
    Ok(left)
}
