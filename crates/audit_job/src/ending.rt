// How a job ends of which nothing more will come.
ghost use Rattle.std.specs.Prelude.{◌≡◌, ◌<◌, ◌++◌, ℕ, [], None, Some, IfOk, IsSome, MatchOption, OnOk, is_some, length, slice_index_or};
ghost use Rattle.std.specs.Arc.{arc_value};
ghost use Rattle.job_flow.specs.Frames.{given};
ghost use Rattle.job_flow.specs.Outcomes as flow;
ghost use Rattle.job_rules.specs.Items.{first_refusal, outcome, trace_of};
ghost use Rattle.pisdf_meaning.specs.Running.{HaveRows, traces_below};
ghost use Rattle.sdf_level.specs.Lists.{lists_of};
ghost use Rattle.audit_job.specs.Ending.{IsFirstRefused, IsSettledJob, refusal_in, traces_at, traces_of};
ghost use Rattle.audit_job.specs.Flowing.{flow_of, results_of};
ghost use Rattle.audit_job.specs.Marks.{answer_of, answers, mark_of};
ghost use Rattle.nested_jobs.specs.Marks.{answer_of as answer_in};

use crate::answer::{Answer, Mark};
use crate::job::{Job, Nodes};
use crate::outlets::{Outlet, firing_places, outlet_places};
use crate::reading::push_written;
use crate::wires::keeps_state;
use pisdf_meaning::{LevelEnd, Refusal, TraceRow, append_rows, given_by};
use pisdf_model::Graph;
use sdf_level::{Link, List, Node};
use std::alloc::{AllocError, Global};

/// What the node at a place has given at its first output; nothing past the end.
fn put_out(
    alloc: Global,
    nodes: &[Node],
    marks: &[Mark],
    keeps: &[bool],
    place: usize,
) -> Result<List<i64>, AllocError>
    requires { length marks.now ≡ length nodes.now }
    ensures { IfOk result (λ tokens. tokens ≡ slice_index_or (given (results_of nodes.now keeps.now (answers marks.now) place)) 0 []) }
{
    let mut line = Vec::new(alloc);
    if place < nodes.len() {
        push_written(
            &marks[place],
            keeps_state(keeps, nodes[place]),
            0,
            &mut line,
        )?;
    }
    Ok(List::new(line))
}

/// What so many Sinks have given.
fn sunk(
    alloc: Global,
    nodes: &[Node],
    marks: &[Mark],
    keeps: &[bool],
    rates: &[u32],
) -> Result<List<List<i64>>, AllocError>
    requires many { length marks.now ≡ length nodes.now }
    ensures { IfOk result (λ outs. outs ≡ flow.sunk nodes.now (results_of nodes.now keeps.now (answers marks.now)) 0 rates.now) }
{
    let places = outlet_places(alloc, nodes, Outlet::Sink, rates.len())?;
    let mut outs = Vec::with_capacity(alloc, rates.len())?;
    for sink in 0..rates.len() {
        outs.push(put_out(alloc, nodes, marks, keeps, places[sink])?)?;
    }
    Ok(List::new(outs))
}

/// What the Ends of these links have given.
fn left_over(
    alloc: Global,
    nodes: &[Node],
    marks: &[Mark],
    keeps: &[bool],
    links: &[Link],
) -> Result<List<List<i64>>, AllocError>
    requires many { length marks.now ≡ length nodes.now }
    ensures { IfOk result (λ left. left ≡ flow.left_over nodes.now (results_of nodes.now keeps.now (answers marks.now)) 0 links.now) }
{
    let places = outlet_places(alloc, nodes, Outlet::End, links.len())?;
    let mut left = Vec::with_capacity(alloc, links.len())?;
    for link in 0..links.len() {
        left.push(put_out(alloc, nodes, marks, keeps, places[link])?)?;
    }
    Ok(List::new(left))
}

/// Adds the trace of an item with this mark.
fn push_trace(alloc: Global, mark: &Mark, rows: &mut Vec<TraceRow>) -> Result<(), AllocError>
    ensures { OnOk result (rows.new.items ≡ rows.old.items ++ trace_of (answer_in (mark_of mark.now))) }
{
    match mark {
        Mark::Done(Answer::Gives(given)) => append_rows(alloc, rows, given.trace.items()),
        Mark::Done(Answer::Schedules(_)) => Ok(()),
        Mark::Done(Answer::Refuses(_)) => Ok(()),
        Mark::Free => Ok(()),
        Mark::Busy => Ok(()),
        Mark::Open(_) => Ok(()),
    }
}

/// Adds the trace of the node at a place; nothing past the end.
fn push_firing(
    alloc: Global,
    marks: &[Mark],
    place: usize,
    rows: &mut Vec<TraceRow>,
) -> Result<(), AllocError>
    ensures { OnOk result (rows.new.items ≡ rows.old.items ++ trace_of (answers marks.now place)) }
{
    if place < marks.len() {
        push_trace(alloc, &marks[place], rows)
    } else {
        Ok(())
    }
}

/// The traces of the firings of an actor, which stand at these places among the nodes.
fn actor_rows(alloc: Global, marks: &[Mark], places: &[usize]) -> Result<Vec<TraceRow>, AllocError>
    ensures { IfOk result (λ rows. rows.items ≡ traces_below (traces_of places.now (answers marks.now)) (length places.now)) }
{
    let mut rows = Vec::new(alloc);
    for turn in 0..places.len() {
        push_firing(alloc, marks, places[turn], &mut rows)?;
    }
    Ok(rows)
}

/// The traces of the firings of all actors of the level.
fn all_rows(
    alloc: Global,
    nodes: &[Node],
    marks: &[Mark],
    counts: &[u32],
) -> Result<Vec<Vec<TraceRow>>, AllocError>
    ensures { IfOk result (λ all. HaveRows counts.now (traces_at nodes.now (answers marks.now)) (lists_of all.items)) }
{
    let mut all = Vec::with_capacity(alloc, counts.len())?;
    let places = firing_places(alloc, nodes, counts)?;
    for actor in 0..places.len() {
        all.push(actor_rows(alloc, marks, &places[actor])?)?;
    }
    Ok(all)
}

/// What the level of a job left, whose nodes have these marks.
fn level_end(alloc: Global, job: &Nodes, marks: &[Mark]) -> Result<LevelEnd, AllocError>
    requires many { length marks.now ≡ length (flow_of job.now).nodes }
    ensures ended { IfOk result (λ end. record { outs = end.outs; left = end.left } ≡ flow.ended (flow_of job.now) (results_of (flow_of job.now).nodes job.now.keeps.items (answers marks.now))) }
    ensures rows { IfOk result (λ end. HaveRows (arc_value job.now.compiled).counts (traces_at (flow_of job.now).nodes (answers marks.now)) (lists_of end.rows.items)) }
{
    let nodes = job.compiled.graph().nodes.items();
    let level = &job.set.level;
    let counts = job.compiled.counts();
    Ok(LevelEnd {
        outs: sunk(alloc, nodes, marks, &job.keeps, level.sinks.items())?,
        left: left_over(alloc, nodes, marks, &job.keeps, level.links.items())?,
        rows: all_rows(alloc, nodes, marks, counts)?,
    })
}

/// Whether an item was refused.
fn is_refused(mark: &Mark) -> bool
    ensures { result ≡ is_some (refusal_in (answer_in (mark_of mark.now))) }
{
    match mark {
        Mark::Done(Answer::Refuses(_)) => true,
        Mark::Done(Answer::Gives(_)) => false,
        Mark::Done(Answer::Schedules(_)) => false,
        Mark::Free => false,
        Mark::Busy => false,
        Mark::Open(_) => false,
    }
}

/// The first item that was refused, if one was.
fn first_refused(marks: &[Mark]) -> Option<usize>
    ensures { MatchOption result (first_refusal (answers marks.now) 0 (length marks.now) ≡ None) (IsFirstRefused marks.now) }
{
    for item in 0..marks.len() {
        if is_refused(&marks[item]) {
            return Some(item);
        }
    }
    None
}

/// The refusal of an item.
fn refusal_of(mark: Mark) -> Refusal
    requires { IsSome (refusal_in (answer_in (mark_of mark))) }
    ensures { refusal_in (answer_in (mark_of mark)) ≡ Some result }
{
    match mark {
        Mark::Done(Answer::Refuses(refusal)) => refusal,
        Mark::Done(Answer::Gives(_)) => unreachable!(),
        Mark::Done(Answer::Schedules(_)) => unreachable!(),
        Mark::Free => unreachable!(),
        Mark::Busy => unreachable!(),
        Mark::Open(_) => unreachable!(),
    }
}

/// What a job gives of which nothing was refused.
fn job_given(alloc: Global, graphs: &[Graph], job: &Job) -> Result<Answer, AllocError>
    requires settled { (workers : ℕ) × IsSettledJob graphs.now workers job.now }
    requires sound { first_refusal (answers job.now.marks.items) 0 (length job.now.marks.items) ≡ None }
    ensures { IfOk result (λ a. answer_of a ≡ outcome graphs.now job.now.firing (answers job.now.marks.items)) }
{
    let graph = &graphs[job.firing.graph as usize];
    match &job.nodes {
        Some(nodes) => {
            let marks = &job.marks[job.places.len() + 1..];
            let end = level_end(alloc, nodes, marks)?;
            Ok(Answer::Gives(given_by(
                alloc,
                graphs,
                graph,
                &job.firing,
                &nodes.left,
                nodes.values.items(),
                end,
            )?))
        }
        None => unreachable!(),
    }
}

/// How a job ends of which nothing more will come: with the refusal of the item of the least number that was refused, else with
/// what its firing gives.
pub fn outcome(alloc: Global, graphs: &[Graph], job: Job) -> Result<Answer, AllocError>
    requires { (workers : ℕ) × IsSettledJob graphs.now workers job }
    ensures { IfOk result (λ a. answer_of a ≡ outcome graphs.now job.firing (answers job.marks.items)) }
{
    match first_refused(&job.marks) {
        None => job_given(alloc, graphs, &job),
        Some(item) => {
            let Job { mut marks, .. } = job;
            Ok(Answer::Refuses(refusal_of(marks.swap_remove(item))))
        }
    }
}
