// What the nodes of a job are to do, and what comes of it.
ghost use Rattle.std.specs.Prelude.{◌≡◌, ◌≢◌, ◌<◌, ◌≤◌, ◌^◌, ◌↔◌, ℕ, ℤ, false, List as Seq, [], Some, All, IfOk, IsTrue, MatchOption, length, map, slice_get, slice_index, slice_index_or};
ghost use Rattle.job_flow.specs.Frames.{lens, sizes_out as flow_sizes_out};
ghost use Rattle.job_flow.specs.Graphs.{node_at};
ghost use Rattle.job_rules.specs.Doing.{IsCopied};
ghost use Rattle.job_rules.specs.Items.{firing_task, graph_of, node_task, node_values, ready_task};
ghost use Rattle.job_rules.specs.Words as words;
ghost use Rattle.nested_jobs.specs.Rules.{Call, Values, Work};
ghost use Rattle.kernel_gate.specs.Signed.{unnamed};
ghost use Rattle.kernel_gate.specs.Table.{the_value};
ghost use Rattle.kernel_gate.specs.Value.{lengths};
ghost use Rattle.special_actors.specs.Fitting.{HasLengths};
ghost use Rattle.param_expr.specs.Tree.{Tree};
ghost use Rattle.param_resolver.specs.EarlyView.{EarlyView};
ghost use Rattle.param_resolver.specs.Numbering.{acting, acting_places, has_state};
ghost use Rattle.pisdf_meaning.specs.Kernels.{FitsKernel};
ghost use Rattle.pisdf_meaning.specs.Running.{child_firing as firing_at};
ghost use Rattle.pisdf_meaning.specs.States.{tokens_at};
ghost use Rattle.pisdf_meaning.specs.TopLevel.{IsLevelSet};
ghost use Rattle.pisdf_meaning.specs.declared.firing.Firing.{Firing as FiringView};
ghost use Rattle.pisdf_model.specs.Parts.{input_count};
ghost use Rattle.pisdf_model.specs.declared.actor.Actor.{Actor as ActorView};
ghost use Rattle.pisdf_model.specs.declared.actor.Body.TheVariants.{Child, Kernel};
ghost use Rattle.pisdf_model.specs.declared.actor.Port.{Port as PortView};
ghost use Rattle.pisdf_model.specs.declared.graph.Graph.{Graph as GraphView};
ghost use Rattle.sdf_level.specs.declared.single_rate.Edge.{Edge as EdgeView};
ghost use Rattle.single_rate.specs.Nodes.{kind};
ghost use Rattle.audit_job.specs.Answering.{FitsWork, IsAnswer};
ghost use Rattle.audit_job.specs.Flowing.{flow_of};
ghost use Rattle.audit_job.specs.Jobs.{AreNodes, prepared_of};
ghost use Rattle.audit_job.specs.Kinds.{IsKind};
ghost use Rattle.audit_job.specs.Marks.{answer_of, answers};
ghost use Rattle.audit_job.specs.Rows.{HasRows};
ghost use Rattle.audit_job.specs.Working.{IsEnd, IsKernelActor, task_at};

use crate::answer::{Answer, Kind, Mark};
use crate::firing::{copied, fired, passed};
use crate::job::Nodes;
use crate::reading::read_by;
use crate::wires::sizes_out;
use job_preparing::acting_at;
use kernel_gate::Gate;
use param_resolver::{Early, level_by_actor};
use pisdf_meaning::{ChildCall, Firing, Path, child_firing, fire_kernel, rates_at, tokens_at};
use pisdf_model::{Actor, Body, Graph, input_count};
use sdf_level::{List, Node};
use std::alloc::{AllocError, Global};

/// What a firing of an actor of the level is to do.
fn actor_kind(body: &Body) -> Option<Kind>
    ensures { (graphs : Seq GraphView) (g : GraphView) (firing : FiringView) (values : Seq ℤ) (a k : ℕ) (read : Seq (Seq ℤ)) (actor : ActorView) → IsKind (firing_task graphs g firing values a k read actor body.now) result }
{
    match body {
        Body::Kernel { .. } => Some(Kind::Work),
        Body::Child { .. } => Some(Kind::Call),
        Body::Config { .. } => None,
        Body::ConfigChild { .. } => None,
    }
}

/// What a node is to do, once the nodes before it have given something.
fn node_kind(graph: &Graph, places: &[u32], node: Node) -> Option<Kind>
    requires { places.now ≡ acting_places graph.now }
    ensures { (graphs : Seq GraphView) (firing : FiringView) (values : Seq ℤ) (read : Seq (Seq ℤ)) (written : Seq ℕ) → IsKind (node_task graphs graph.now firing values node read written) result }
{
    level_by_actor();
    match node {
        Node::Firing { actor, turn: _ } => {
            if (actor as usize) < places.len() {
                actor_kind(&acting_at(graph, places, actor as usize).body)
            } else {
                None
            }
        }
        Node::Source(_) => Some(Kind::Work),
        Node::Init(_) => Some(Kind::Work),
        Node::End(_) => Some(Kind::Work),
        Node::Sink(_) => Some(Kind::Work),
        Node::Broadcast(_) => Some(Kind::Work),
        Node::Fork { link: _, turn: _ } => Some(Kind::Work),
        Node::Join { link: _, turn: _ } => Some(Kind::Work),
        Node::Round(_) => Some(Kind::Work),
    }
}

/// Whether a node waits for no edge.
fn waits_for_none(waits: &[u32], node: usize) -> bool
    requires { node < length waits.now }
    ensures { IsTrue result ↔ (slice_index waits.now node ≡ 0) }
{
    waits[node] == 0
}

/// What node `node` of a job is to do; nothing while a node before it hasn't given anything.
pub(crate) fn kind_of_node(graph: &Graph, job: &Nodes, node: usize) -> Option<Kind>
    requires graph { (graphs : Seq GraphView) × (workers : ℕ) × (firing : FiringView) × (v : Values words.Answer) × (graph.now ≡ graph_of graphs firing) × AreNodes graphs workers firing v job.now }
    ensures { (graphs : Seq GraphView) (workers : ℕ) (firing : FiringView) (v : Values words.Answer) → graph.now ≡ graph_of graphs firing → AreNodes graphs workers firing v job.now → IsKind (ready_task graphs graph.now firing (prepared_of job.now) (node_values graphs graph.now firing (prepared_of job.now) v) node) result }
{
    if node >= job.waits.len() {
        return None;
    }
    if !waits_for_none(&job.waits, node) {
        return None;
    }
    let nodes = job.compiled.graph().nodes.items();
    node_kind(graph, job.set.places.items(), nodes[node])
}

/// What firing `turn` of an actor of the level answers, which fires a kernel and reads this.
fn fired_by<K: Gate>(
    alloc: Global,
    gate: &K,
    job: &Nodes,
    path: &Path,
    actor: &Actor,
    number: u32,
    turn: u32,
    read: List<List<i64>>,
) -> Result<Answer, AllocError>
    requires kernel { IsKernelActor actor.now.body }
    requires fits { (kernel : ℕ) (exprs : Seq Tree) (ins : Seq PortView) (outs : Seq PortView) → actor.now.body ≡ Kernel kernel exprs ins outs → FitsKernel (unnamed (K.kernels gate.now)) kernel (length (tokens_at job.now.set.args number)) (length read) (length (slice_index_or job.now.set.outs number [])) 0 }
    ensures { (kernel : ℕ) (exprs : Seq Tree) (ins : Seq PortView) (outs : Seq PortView) → actor.now.body ≡ Kernel kernel exprs ins outs → IfOk result (λ a. answer_of a ≡ words.fired record { path = path.now; name = actor.now.name; turn = turn } (the_value kernel (tokens_at job.now.set.args number) read (slice_index_or job.now.set.outs number []) 0)) }
{
    match &actor.body {
        Body::Kernel { kernel, .. } => {
            let args = tokens_at(job.set.args.items(), number as usize);
            let rates = rates_at(job.set.outs.items(), number as usize);
            let end = fire_kernel(alloc, gate, *kernel, args, read, rates, 0)?;
            fired(alloc, path, &actor.name, turn, end)
        }
        Body::Child { .. } => unreachable!(),
        Body::Config { .. } => unreachable!(),
        Body::ConfigChild { .. } => unreachable!(),
    }
}

/// The actor and the number of a firing.
fn firing_of(which: Node) -> Option<(u32, u32)>
    ensures { MatchOption result (kind which ≢ 2) (λ f. which ≡ Node.Firing f.0 f.1) }
{
    match which {
        Node::Firing { actor, turn } => Some((actor, turn)),
        Node::Source(_) => None,
        Node::Init(_) => None,
        Node::End(_) => None,
        Node::Sink(_) => None,
        Node::Broadcast(_) => None,
        Node::Fork { link: _, turn: _ } => None,
        Node::Join { link: _, turn: _ } => None,
        Node::Round(_) => None,
    }
}

/// Whether a node gives exactly what it reads.
fn passes_on(which: Node) -> bool
    ensures { IsTrue result ↔ IsEnd which }
{
    match which {
        Node::Source(_) => true,
        Node::Init(_) => true,
        Node::End(_) => true,
        Node::Sink(_) => true,
        Node::Firing { actor: _, turn: _ } => false,
        Node::Broadcast(_) => false,
        Node::Fork { link: _, turn: _ } => false,
        Node::Join { link: _, turn: _ } => false,
        Node::Round(_) => false,
    }
}

/// The sizes of the edges out of a node of a job.
fn written_by(alloc: Global, job: &Nodes, node: u32) -> Result<Vec<u32>, AllocError>
    requires there { node < length (flow_of job.now).nodes }
    requires rows { HasRows job.now }
    ensures { IfOk result (λ sizes. sizes.items ≡ flow_sizes_out (flow_of job.now).edges node) }
{
    sizes_out(alloc, &job.out_of[node as usize], node)
}

/// What a node of a job answers that is no firing, and reads this.
fn copy_answer(
    alloc: Global,
    job: &Nodes,
    which: Node,
    node: u32,
    read: List<List<i64>>,
) -> Result<Answer, AllocError>
    requires which { node_at (flow_of job.now).nodes node ≡ which }
    requires copies { kind which ≢ 2 }
    requires there { node < length (flow_of job.now).nodes }
    requires rows { HasRows job.now }
    requires fit { HasLengths which (lengths read) (lens (flow_of job.now) node) }
    requires few_inputs { length read < 2 ^ 32 }
    requires few_outputs { length (lens (flow_of job.now) node) < 2 ^ 32 }
    ensures { IfOk result (λ a. IsCopied which read (lens (flow_of job.now) node) (answer_of a)) }
{
    if passes_on(which) {
        return Ok(passed(alloc, read));
    }
    let written = written_by(alloc, job, node)?;
    copied(alloc, which, read, &written)
}

/// What node `node` of a job of this graph answers, whose nodes have these marks.
pub(crate) fn node_answer<K: Gate>(
    alloc: Global,
    gate: &K,
    graphs: &[Graph],
    graph: &Graph,
    job: &Nodes,
    firing: &Firing,
    marks: &[Mark],
    node: u32,
) -> Result<Answer, AllocError>
    requires set { IsLevelSet graphs.now graph.now firing.now job.now.values job.now.set }
    requires there { node < length (flow_of job.now).nodes }
    requires ends { All (λ (e : EdgeView). e.tail < length (flow_of job.now).nodes) (flow_of job.now).edges }
    requires rows { HasRows job.now }
    requires marks { length (flow_of job.now).nodes ≤ length marks.now }
    requires work { (work : words.Work) × (task_at graphs.now graph.now firing.now job.now (answers marks.now) node ≡ Some (Work work)) }
    requires fits { (work : words.Work) → task_at graphs.now graph.now firing.now job.now (answers marks.now) node ≡ Some (Work work) → FitsWork (unnamed (K.kernels gate.now)) work }
    ensures { IfOk result (λ a. IsAnswer graphs.now (task_at graphs.now graph.now firing.now job.now (answers marks.now) node) (answer_of a)) }
{
    level_by_actor();
    let read = read_by(alloc, job, marks, node)?;
    let which = job.compiled.graph().nodes.items()[node as usize];
    match firing_of(which) {
        Some((actor, turn)) => {
            let place = actor as usize;
            let actor_of = acting_at(graph, job.set.places.items(), place);
            fired_by(alloc, gate, job, &firing.path, actor_of, actor, turn, read)
        }
        None => copy_answer(alloc, job, which, node, read),
    }
}

/// What is known of the graph that an actor of the level names.
fn known_of(children: &[Option<Early>], number: usize) -> &Early
    requires { (e : EarlyView) × (slice_get children.now number ≡ Some (Some e)) }
    ensures { slice_get children.now number ≡ Some (Some result.now) }
{
    match &children[number] {
        Some(early) => early,
        None => unreachable!(),
    }
}

/// The firing of a graph that firing `turn` of an actor of the level calls, which reads this.
fn called_by(
    alloc: Global,
    graphs: &[Graph],
    job: &Nodes,
    firing: &Firing,
    actor: &Actor,
    number: u32,
    turn: u32,
    read: List<List<i64>>,
) -> Result<Firing, AllocError>
    requires child { (place : ℕ) × (exprs : Seq Tree) × (actor.now.body ≡ Child place exprs) }
    requires known { (e : EarlyView) × (slice_get job.now.set.children number ≡ Some (Some e)) }
    requires keeps { number < length job.now.keeps.items }
    ensures { (place : ℕ) (exprs : Seq Tree) → actor.now.body ≡ Child place exprs → IfOk result (λ d. d ≡ firing_at graphs.now firing.now actor.now.name turn (tokens_at job.now.set.args number) (slice_index_or job.now.keeps.items number false) place (input_count graphs.now actor.now.body) read) }
{
    let number = number as usize;
    match &actor.body {
        Body::Child { graph: place, .. } => {
            let call = ChildCall {
                actor,
                place: *place,
                turn,
                args: tokens_at(job.set.args.items(), number),
                early: known_of(job.set.children.items(), number),
            };
            let inputs = input_count(graphs, &actor.body);
            child_firing(
                alloc,
                graphs,
                firing,
                &call,
                job.keeps[number],
                inputs,
                read,
            )
        }
        Body::Kernel { .. } => unreachable!(),
        Body::Config { .. } => unreachable!(),
        Body::ConfigChild { .. } => unreachable!(),
    }
}

/// The firing of a graph that node `node` of a job calls, whose nodes have these marks.
pub(crate) fn node_call(
    alloc: Global,
    graphs: &[Graph],
    graph: &Graph,
    job: &Nodes,
    firing: &Firing,
    marks: &[Mark],
    node: u32,
) -> Result<Firing, AllocError>
    requires set { IsLevelSet graphs.now graph.now firing.now job.now.values job.now.set }
    requires keeps { job.now.keeps.items ≡ map (has_state graphs.now) (acting graph.now) }
    requires there { node < length (flow_of job.now).nodes }
    requires ends { All (λ (e : EdgeView). e.tail < length (flow_of job.now).nodes) (flow_of job.now).edges }
    requires rows { HasRows job.now }
    requires marks { length (flow_of job.now).nodes ≤ length marks.now }
    requires call { (d : FiringView) × (task_at graphs.now graph.now firing.now job.now (answers marks.now) node ≡ Some (Call d)) }
    ensures { IfOk result (λ d. task_at graphs.now graph.now firing.now job.now (answers marks.now) node ≡ Some (Call d)) }
{
    level_by_actor();
    let read = read_by(alloc, job, marks, node)?;
    match firing_of(job.compiled.graph().nodes.items()[node as usize]) {
        Some((actor, turn)) => {
            let actor_of = acting_at(graph, job.set.places.items(), actor as usize);
            called_by(alloc, graphs, job, firing, actor_of, actor, turn, read)
        }
        None => unreachable!(),
    }
}
