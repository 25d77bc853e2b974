// The compilation of a job.
ghost use Rattle.std.specs.Prelude.{◌≡◌, ◌≤◌, [], Some, IfErr, IfOk, slice_get};
ghost use Rattle.std.specs.Arc.{arc_value};
ghost use Rattle.job_compiler.specs.Compilation.{IsCompiled};
ghost use Rattle.job_preparing.specs.CompileTasks.{IsReadyWith, schedule_of};
ghost use Rattle.job_preparing.specs.CompileTasks.{IsMadeAs};
ghost use Rattle.job_rules.specs.Doing as doing;
ghost use Rattle.job_rules.specs.Items.{graph_of};
ghost use Rattle.job_rules.specs.Words as words;
ghost use Rattle.param_resolver.specs.EarlyCheck.{early_faults};
ghost use Rattle.pisdf_meaning.specs.Configuring.{early_in};
ghost use Rattle.pisdf_meaning.specs.Endings.{IfRefused};
ghost use Rattle.pisdf_model.specs.Valid.{AreValid};
ghost use Rattle.audit_job.specs.Compiling.{EndsAs, IsNew};

use crate::answer::Answer;
use crate::job::Nodes;
use crate::rows::{Side, edges_by};
use crate::wires::edge_counts;
use job_compiler::{Compiled, Kept};
use job_preparing::{Made, keeps_at, key_for, make};
use level_schedule::LevelSchedule;
use param_resolver::{Early, LevelSet};
use pisdf_meaning::{Configured, Firing, PlainFault, link_starts, source_tokens};
use pisdf_model::{Graph, Graphs};
use sdf_level::{List, Turn};
use std::alloc::{AllocError, Global};
use std::sync::Arc;

/// The same turns.
fn copy_turns(alloc: Global, turns: &[Turn]) -> Result<List<Turn>, AllocError>
    ensures { IfOk result (λ copies. copies ≡ turns.now) }
{
    let mut copies = Vec::with_capacity(alloc, turns.len())?;
    for turn in turns {
        copies.push(*turn)?;
    }
    Ok(List::new(copies))
}

/// The schedule in a compilation.
fn schedule_in(alloc: Global, compiled: &Compiled) -> Result<LevelSchedule, AllocError>
    ensures { IfOk result (λ schedule. schedule ≡ schedule_of compiled.now) }
{
    Ok(LevelSchedule {
        counts: List::new(Vec::from_slice(alloc, compiled.counts())?),
        order: copy_turns(alloc, compiled.order())?,
    })
}

/// The nodes of a job that is compiled so, none of which has given anything.
fn nodes_of(
    alloc: Global,
    graphs: &[Graph],
    graph: &Graph,
    firing: &Firing,
    left: Vec<Configured>,
    compiled: Arc<Compiled>,
    set: LevelSet,
    values: List<i64>,
) -> Result<Nodes, AllocError>
    requires graph { graph.now ≡ graph_of graphs.now firing.now }
    requires ready { IsReadyWith graphs.now (arc_value compiled).workers firing.now left.items (arc_value compiled) set values }
    requires compiled { IsCompiled (arc_value compiled) }
    ensures { IfOk result (IsNew graphs.now (arc_value compiled).workers firing.now left.items (arc_value compiled)) }
{
    let sources = source_tokens(alloc, graph, firing, &left)?;
    let starts = link_starts(alloc, graphs, graph, firing)?;
    let keeps = keeps_at(alloc, graphs, graph, set.places.items())?;
    let single_rate = compiled.graph();
    let edges = single_rate.edges.items();
    let waits = edge_counts(alloc, single_rate.nodes.items().len(), edges)?;
    let count = waits.len();
    let into = edges_by(alloc, count, edges, Side::Head)?;
    let out_of = edges_by(alloc, count, edges, Side::Tail)?;
    Ok(Nodes {
        left,
        compiled,
        set,
        values,
        sources,
        starts,
        keeps,
        into,
        out_of,
        waits,
    })
}

/// Makes the compilation of a firing, with one that is kept, if it is of its level, and keeps it.
fn compiled_for(
    alloc: Global,
    graphs: &Graphs,
    early: &Early,
    firing: &Firing,
    left: &[Configured],
    workers: u32,
    kept: &mut Kept,
) -> Result<Made, PlainFault>
    requires valid { AreValid graphs.now }
    requires here { slice_get graphs.now.graphs firing.now.graph ≡ Some (graph_of graphs.now.graphs firing.now) }
    requires early { early.now ≡ early_in graphs.now.graphs firing.now }
    requires sound { early_faults graphs.now.graphs firing.now.graph firing.now.inherited ≡ [] }
    requires workers { 1 ≤ workers }
    ensures made { IfOk result (IsMadeAs graphs.now.graphs workers firing.now left.now) }
    ensures refused { IfErr result (IfRefused (λ refusal. doing.IsCompiled graphs.now.graphs firing.now left.now (words.Refuses refusal))) }
{
    let graph = &graphs.graphs.items()[firing.graph as usize];
    let key = key_for(alloc, graph, firing, left, workers)?;
    let found = kept.find(&key)?;
    let made = make(alloc, graphs, early, firing, left, workers, &found)?;
    let shared = Arc::try_clone(&made.compiled)?;
    kept.keep(key, shared)?;
    Ok(made)
}

/// What the compilation of a firing comes to: its nodes, where it isn't refused, and the answer.
#[derive(Drop)]
pub(crate) struct CompileEnd {
    pub(crate) nodes: Option<Nodes>,
    pub(crate) answer: Answer,
}

/// Compiles a firing for so many workers, whose configuration actors left this.
pub(crate) fn compile(
    alloc: Global,
    graphs: &Graphs,
    early: &Early,
    firing: &Firing,
    left: Vec<Configured>,
    workers: u32,
    kept: &mut Kept,
) -> Result<CompileEnd, AllocError>
    requires valid { AreValid graphs.now }
    requires here { slice_get graphs.now.graphs firing.now.graph ≡ Some (graph_of graphs.now.graphs firing.now) }
    requires early { early.now ≡ early_in graphs.now.graphs firing.now }
    requires sound { early_faults graphs.now.graphs firing.now.graph firing.now.inherited ≡ [] }
    requires workers { 1 ≤ workers }
    ensures { IfOk result (EndsAs graphs.now.graphs workers firing.now left.items) }
{
    let all = graphs.graphs.items();
    let graph = &all[firing.graph as usize];
    match compiled_for(alloc, graphs, early, firing, &left, workers, kept) {
        Ok(made) => {
            let Made {
                compiled,
                set,
                values,
            } = made;
            let schedule = schedule_in(alloc, &compiled)?;
            let nodes = nodes_of(alloc, all, graph, firing, left, compiled, set, values)?;
            Ok(CompileEnd {
                nodes: Some(nodes),
                answer: Answer::Schedules(schedule),
            })
        }
        Err(PlainFault::Refused(refusal)) => Ok(CompileEnd {
            nodes: None,
            answer: Answer::Refuses(refusal),
        }),
        Err(PlainFault::Memory) => Err(AllocError),
    }
}
