// How the items of a job are claimed and finished.
ghost use Rattle.std.specs.Prelude.{◌≡◌, ◌≢◌, ◌<◌, ◌≤◌, ◌++◌, ◌+◌, ◌^◌, ℕ, List as Seq, Some, OnOk, length, replicate, true, vec_capacity};
ghost use Rattle.job_rules.specs.Items.{rule};
ghost use Rattle.job_rules.specs.Words as words;
ghost use Rattle.kernel_gate.specs.Signed.{unnamed};
ghost use Rattle.nested_jobs.specs.Marks as mark;
ghost use Rattle.nested_jobs.specs.Rules.{Call, Work};
ghost use Rattle.pisdf_model.specs.Valid.{AreValid};
ghost use Rattle.pisdf_model.specs.declared.graph.Graph.{Graph as GraphView};
ghost use Rattle.pisdf_meaning.specs.declared.firing.Firing.{Firing as FiringView};
ghost use Rattle.audit_job.specs.Answering.{FitsWork};
ghost use Rattle.audit_job.specs.Candidates.{Adds, IsReleased, is_running, waiting_in, waits_in};
ghost use Rattle.audit_job.specs.Giving.{gives};
ghost use Rattle.audit_job.specs.Jobs.{IsJob, IsUnscheduled};
ghost use Rattle.audit_job.specs.Marking.{Finishes, Marks, MayRelease, Releases, TakesEnd, nodes_by};
ghost use Rattle.audit_job.specs.Marks.{answer_of as told, answers, mark_at};

use crate::answer::{Answer, Mark};
use crate::candidates::{add_nodes, take_out};
use crate::compiling::{CompileEnd, compile};
use crate::configuring::all_left;
use crate::items::{answer_of, push_free};
use crate::job::{Job, Nodes};
use crate::wires::release;
use job_compiler::Kept;
use kernel_gate::Gate;
use pisdf_meaning::Firing;
use pisdf_model::Graphs;
use std::alloc::{AllocError, Global};
use std::snapshot::Snapshot;

/// Marks a free item as one that a worker runs.
pub fn claim(job: &mut Job, item: usize)
    requires inside { item < length job.old.marks.items }
    requires free { mark_at job.old.marks.items item ≡ mark.Free }
    ensures { Marks item mark.Busy job.old job.new }
{
    take_out(&mut job.candidates, item);
    // No job has so many items that this stops at the end of the type.
    job.running = job.running.saturating_add(1);
    job.marks[item] = Mark::Busy;
}

/// Marks a free item as one that has called this firing, whose job is open.
pub fn mark_open(job: &mut Job, item: usize, called: Snapshot<Firing>)
    requires inside { item < length job.old.marks.items }
    requires free { mark_at job.old.marks.items item ≡ mark.Free }
    requires call { (graphs : Seq GraphView) × (workers : ℕ) × IsJob graphs workers job.old × (rule graphs job.old.firing (answers job.old.marks.items) item ≡ Some (Call called.value)) }
    ensures { Marks item (mark.Open called.value) job.old job.new }
{
    take_out(&mut job.candidates, item);
    job.running = job.running.saturating_add(1);
    job.marks[item] = Mark::Open(called);
}

/// Whether an answer gives something.
fn gives(answer: &Answer) -> bool
    ensures { result ≡ gives (told answer.now) }
{
    match answer {
        Answer::Gives(_) => true,
        Answer::Schedules(_) => false,
        Answer::Refuses(_) => false,
    }
}

/// Where a node has given something, those after it wait for it no more, and those that wait for nothing then are candidates.
/// Node 0 has the number `first` among the items.
fn release_after(
    nodes: &mut Option<Nodes>,
    candidates: &mut Vec<usize>,
    first: usize,
    gives: bool,
    node: usize,
)
    requires may { MayRelease gives node nodes.old }
    requires numbers { first + length (waits_in nodes.old) < 2 ^ 64 }
    requires room { length candidates.old.items + waiting_in (waits_in nodes.old) ≤ vec_capacity candidates.old }
    ensures released { Releases gives node nodes.old nodes.new }
    ensures added { Adds first (length (waits_in nodes.old)) (IsReleased (waits_in nodes.old) (waits_in nodes.new)) candidates.old candidates.new }
    ensures room { length candidates.new.items + waiting_in (waits_in nodes.new) ≤ vec_capacity candidates.new }
{
    match nodes {
        Some(nodes) => {
            if gives {
                release(
                    &nodes.out_of[node],
                    node,
                    &mut nodes.waits,
                    candidates,
                    first,
                );
            }
        }
        None => {}
    }
}

/// Stores the answer of an item that runs, other than the compilation.
fn store(job: &mut Job, item: usize, answer: Answer)
    requires is { (graphs : Seq GraphView) × (workers : ℕ) × IsJob graphs workers job.old }
    requires runs { is_running (mark_at job.old.marks.items item) ≡ true }
    requires other { item ≢ length job.old.places.items }
    requires unscheduled { IsUnscheduled (told answer) }
    ensures { Marks item (mark.Done (told answer)) job.old job.new }
{
    let given = gives(&answer);
    job.marks[item] = Mark::Done(answer);
    job.running = job.running.saturating_sub(1);
    let base = job.places.len();
    let node = item.saturating_sub(base + 1);
    release_after(&mut job.nodes, &mut job.candidates, base + 1, given, node);
}

/// Finishes an item that has called a job, which ended with this answer.
pub fn end_call(job: &mut Job, item: usize, answer: Answer)
    requires is { (graphs : Seq GraphView) × (workers : ℕ) × IsJob graphs workers job.old }
    requires open { (called : FiringView) × (mark_at job.old.marks.items item ≡ mark.Open called) }
    requires unscheduled { IsUnscheduled (told answer) }
    ensures { Marks item (mark.Done (told answer)) job.old job.new }
{
    store(job, item, answer)
}

/// Adds a free item for each of these nodes.
fn push_nodes(marks: &mut Vec<Mark>, nodes: &Option<Nodes>) -> Result<(), AllocError>
    ensures { OnOk result (marks.new.items ≡ marks.old.items ++ replicate (nodes_by nodes.now) Mark.Free) }
{
    match nodes {
        Some(nodes) => push_free(marks, nodes.waits.len()),
        None => Ok(()),
    }
}

/// Takes over what the compilation of a job came to, whose configuration actors left this.
fn take_end(job: &mut Job, end: CompileEnd) -> Result<(), AllocError>
    requires there { length job.old.places.items < length job.old.marks.items }
    ensures { OnOk result (TakesEnd end job.old job.new) }
{
    let CompileEnd { nodes, answer } = end;
    push_nodes(&mut job.marks, &nodes)?;
    let base = job.places.len();
    add_nodes(&mut job.candidates, &nodes, base + 1)?;
    job.nodes = nodes;
    job.marks[base] = Mark::Done(answer);
    job.running = job.running.saturating_sub(1);
    Ok(())
}

/// Compiles a job for so many workers.
fn finish_compilation(
    alloc: Global,
    graphs: &Graphs,
    job: &mut Job,
    workers: u32,
    kept: &mut Kept,
) -> Result<(), AllocError>
    requires valid { AreValid graphs.now }
    requires some { 1 ≤ workers }
    requires is { IsJob graphs.now.graphs workers job.old }
    requires busy { mark_at job.old.marks.items (length job.old.places.items) ≡ mark.Busy }
    requires work { (work : words.Work) × (rule graphs.now.graphs job.old.firing (answers job.old.marks.items) (length job.old.places.items) ≡ Some (Work work)) }
    ensures { OnOk result (Finishes graphs.now.graphs workers (length job.old.places.items) job.old job.new) }
{
    let left = all_left(alloc, &job.marks, job.places.len())?;
    let end = compile(alloc, graphs, &job.early, &job.firing, left, workers, kept)?;
    take_end(job, end)
}

/// Finishes an item that a worker runs: works out what it answers, and stores that. A compilation is made for so many workers,
/// and may be one that is kept.
///
/// # Errors
///
/// Want of memory. The job is good for nothing then.
pub fn finish<K: Gate>(
    alloc: Global,
    graphs: &Graphs,
    job: &mut Job,
    item: usize,
    workers: u32,
    kept: &mut Kept,
    gate: &K,
) -> Result<(), AllocError>
    requires valid { AreValid graphs.now }
    requires some { 1 ≤ workers }
    requires is { IsJob graphs.now.graphs workers job.old }
    requires busy { mark_at job.old.marks.items item ≡ mark.Busy }
    requires work { (work : words.Work) × (rule graphs.now.graphs job.old.firing (answers job.old.marks.items) item ≡ Some (Work work)) }
    requires fits { (work : words.Work) → rule graphs.now.graphs job.old.firing (answers job.old.marks.items) item ≡ Some (Work work) → FitsWork (unnamed (K.kernels gate.now)) work }
    ensures { OnOk result (Finishes graphs.now.graphs workers item job.old job.new) }
{
    if item == job.places.len() {
        finish_compilation(alloc, graphs, job, workers, kept)
    } else {
        let given = answer_of(alloc, graphs, job, item, gate)?;
        store(job, item, given);
        Ok(())
    }
}
