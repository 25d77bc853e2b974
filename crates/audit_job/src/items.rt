// The items of a job, by their numbers.
ghost use Rattle.std.specs.Prelude.{◌≡◌, ◌≢◌, ◌<◌, ◌≤◌, ◌↔◌, ◌++◌, ℕ, [], Some, IfOk, IsTrue, MatchOption, OnOk, length, replicate, slice_get};
ghost use Rattle.job_preparing.specs.View.{HasInherited};
ghost use Rattle.job_rules.specs.Items.{compile_number, graph_of, job_rules, rule};
ghost use Rattle.job_rules.specs.Meant.{IsFit};
ghost use Rattle.job_rules.specs.Words as words;
ghost use Rattle.kernel_gate.specs.Signed.{unnamed};
ghost use Rattle.nested_jobs.specs.Marks as stands;
ghost use Rattle.nested_jobs.specs.Rules.{Call, Work};
ghost use Rattle.nested_jobs.specs.Tables.{is_quiet_row};
ghost use Rattle.pisdf_model.specs.Valid.{AreValid};
ghost use Rattle.pisdf_meaning.specs.declared.firing.Firing.{Firing as FiringView};
ghost use Rattle.audit_job.specs.Answering.{FitsWork, IsAnswer};
ghost use Rattle.audit_job.specs.Giving.{HaveGiven};
ghost use Rattle.audit_job.specs.Jobs.{IsJob, graph_in, row_of};
ghost use Rattle.audit_job.specs.Kinds.{IsKind, settles};
ghost use Rattle.audit_job.specs.Marks.{answer_of as told, answers, mark_at, mark_of};

use crate::answer::{Answer, Kind, Mark};
use crate::candidates::add_first;
use crate::configuring::{all_gave, config_answer, config_kind};
use crate::job::Job;
use crate::working::{kind_of_node, node_answer, node_call};
use job_preparing::{config_call, config_places, early_for};
use kernel_gate::Gate;
use param_resolver::level_by_actor;
use pisdf_meaning::Firing;
use pisdf_model::{Graph, Graphs};
use std::alloc::{AllocError, Global};

/// Adds so many free items.
pub(crate) fn push_free(marks: &mut Vec<Mark>, count: usize) -> Result<(), AllocError>
    ensures { OnOk result (marks.new.items ≡ marks.old.items ++ replicate count Mark.Free) }
{
    for _item in 0..count {
        marks.push(Mark::Free)?;
    }
    Ok(())
}

/// The job of a firing, of which nothing is claimed.
pub fn open(alloc: Global, graphs: &Graphs, firing: Firing) -> Result<Job, AllocError>
    requires valid { AreValid graphs.now }
    requires fit { IsFit graphs.now.graphs firing }
    requires inherited { HasInherited graphs.now.graphs firing }
    ensures is { (workers : ℕ) → IfOk result (IsJob graphs.now.graphs workers) }
    ensures firing { IfOk result (λ job. job.firing ≡ firing) }
    ensures free { IfOk result (λ job. (i : ℕ) → mark_at job.marks.items i ≡ stands.Free) }
{
    let early = early_for(alloc, graphs, &firing)?;
    let graph = &graphs.graphs.items()[firing.graph as usize];
    let places = config_places(alloc, graph)?;
    let mut marks = Vec::new(alloc);
    push_free(&mut marks, places.len())?;
    push_free(&mut marks, 1)?;
    let mut candidates = Vec::new(alloc);
    add_first(&mut candidates, marks.len())?;
    Ok(Job {
        firing,
        early,
        places,
        marks,
        candidates,
        running: 0,
        nodes: None,
    })
}

/// The graph that is fired.
fn fired_graph<'a>(graphs: &'a Graphs, job: &Job) -> &'a Graph
    requires { (workers : ℕ) × IsJob graphs.now.graphs workers job.now }
    ensures same { result.now ≡ graph_of graphs.now.graphs job.now.firing }
    ensures here { slice_get graphs.now.graphs job.now.firing.graph ≡ Some result.now }
{
    &graphs.graphs.items()[job.firing.graph as usize]
}

/// What the compilation is to do, where there are so many configuration actors.
fn compile_kind(marks: &[Mark], count: usize) -> Option<Kind>
    requires { count ≤ length marks.now }
    ensures { MatchOption result (¬ (HaveGiven marks.now count)) (λ kind. (kind ≡ Kind.Work) × HaveGiven marks.now count) }
{
    if all_gave(marks, count) {
        Some(Kind::Work)
    } else {
        None
    }
}

/// What an item is to do, once all before it is there.
pub fn kind_of(graphs: &Graphs, job: &Job, item: usize) -> Option<Kind>
    requires { (workers : ℕ) × IsJob graphs.now.graphs workers job.now }
    ensures { IsKind (rule graphs.now.graphs job.now.firing (answers job.now.marks.items) item) result }
{
    let graph = fired_graph(graphs, job);
    let base = job.places.len();
    if item < base {
        return config_kind(&graph.actors.items()[job.places[item]].body);
    }
    if item == base {
        return compile_kind(&job.marks, base);
    }
    match &job.nodes {
        Some(nodes) => kind_of_node(graph, nodes, item - base - 1),
        None => None,
    }
}

/// Whether nobody has claimed an item.
pub(crate) fn is_free(mark: &Mark) -> bool
    ensures { IsTrue result ↔ (mark_of mark.now ≡ stands.Free) }
{
    match mark {
        Mark::Free => true,
        Mark::Busy => false,
        Mark::Open(_) => false,
        Mark::Done(_) => false,
    }
}

/// Whether nothing more will come of an item with this mark, if this is what it is to do.
fn is_settled(mark: &Mark, kind: Option<Kind>) -> bool
    ensures { result ≡ settles (mark_of mark.now) kind }
{
    match mark {
        Mark::Free => kind.is_none(),
        Mark::Busy => false,
        Mark::Open(_) => false,
        Mark::Done(_) => true,
    }
}

/// Whether nothing more will come of any item.
pub fn is_quiet(graphs: &Graphs, job: &Job) -> bool
    requires { (workers : ℕ) × IsJob graphs.now.graphs workers job.now }
    ensures { result ≡ is_quiet_row (job_rules graphs.now.graphs) (row_of [] job.now) }
{
    if job.running != 0 {
        return false;
    }
    for place in 0..job.candidates.len() {
        let item = job.candidates[place];
        if !is_settled(&job.marks[item], kind_of(graphs, job, item)) {
            return false;
        }
    }
    true
}

/// The firing of a graph that an item calls.
pub fn call_of(alloc: Global, graphs: &Graphs, job: &Job, item: usize) -> Result<Firing, AllocError>
    requires valid { AreValid graphs.now }
    requires is { (workers : ℕ) × IsJob graphs.now.graphs workers job.now }
    requires call { (d : FiringView) × (rule graphs.now.graphs job.now.firing (answers job.now.marks.items) item ≡ Some (Call d)) }
    ensures task { IfOk result (λ d. rule graphs.now.graphs job.now.firing (answers job.now.marks.items) item ≡ Some (Call d)) }
    ensures inherited { IfOk result (HasInherited graphs.now.graphs) }
{
    level_by_actor();
    let graph = fired_graph(graphs, job);
    let base = job.places.len();
    if item < base {
        let place = job.places[item];
        return config_call(alloc, graphs, graph, &job.early, &job.firing, item, place);
    }
    match &job.nodes {
        Some(nodes) => {
            let marks = &job.marks[base + 1..];
            let node = (item - base - 1) as u32;
            node_call(
                alloc,
                graphs.graphs.items(),
                graph,
                nodes,
                &job.firing,
                marks,
                node,
            )
        }
        None => unreachable!(),
    }
}

/// What an item answers that has work of its own, other than the compilation.
pub(crate) fn answer_of<K: Gate>(
    alloc: Global,
    graphs: &Graphs,
    job: &Job,
    item: usize,
    gate: &K,
) -> Result<Answer, AllocError>
    requires valid { AreValid graphs.now }
    requires is { (workers : ℕ) × IsJob graphs.now.graphs workers job.now }
    requires other { item ≢ compile_number (graph_in graphs.now.graphs job.now) }
    requires work { (work : words.Work) × (rule graphs.now.graphs job.now.firing (answers job.now.marks.items) item ≡ Some (Work work)) }
    requires fits { (work : words.Work) → rule graphs.now.graphs job.now.firing (answers job.now.marks.items) item ≡ Some (Work work) → FitsWork (unnamed (K.kernels gate.now)) work }
    ensures { IfOk result (λ a. IsAnswer graphs.now.graphs (rule graphs.now.graphs job.now.firing (answers job.now.marks.items) item) (told a)) }
{
    let graph = fired_graph(graphs, job);
    let base = job.places.len();
    if item < base {
        let place = job.places[item];
        return config_answer(
            alloc,
            gate,
            graphs,
            graph,
            &job.early,
            &job.firing,
            item,
            place,
        );
    }
    match &job.nodes {
        Some(nodes) => {
            let marks = &job.marks[base + 1..];
            let node = (item - base - 1) as u32;
            node_answer(
                alloc,
                gate,
                graphs.graphs.items(),
                graph,
                nodes,
                &job.firing,
                marks,
                node,
            )
        }
        None => unreachable!(),
    }
}
