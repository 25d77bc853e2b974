// A running firing at its start.
ghost use Rattle.std.specs.Prelude.{ℕ, true, ◌≡◌, ◌+◌, ◌<◌, ◌≤◌, ◌^◌, ◌++◌, [], map, length, replicate, None, Ok, IfOk, OnOk, vec_capacity, vec_len};
ghost use Rattle.std.specs.Arc.{arc_value};
ghost use Rattle.sdf_level.specs.Lists.{lists_of};
ghost use Rattle.sdf_level.specs.LevelRun.{HaveDelays};
ghost use Rattle.nested_jobs.specs.Marks.{Free};
ghost use Rattle.one_job.specs.Marks.{Free as Unclaimed};
ghost use Rattle.one_job.specs.Pick.{is_child};
ghost use Rattle.param_resolver.specs.Numbering.{acting, acting_places, has_state};
ghost use Rattle.pisdf_model.specs.Valid.{AreValid};
ghost use Rattle.pisdf_model.specs.declared.actor.Actor.{Actor as ActorView};
ghost use Rattle.pisdf_meaning.specs.Running.{chosen_row, chosen_rows, link_starts, source_tokens, value_at};
ghost use Rattle.job_rules.specs.Meant.{IsFit};
ghost use Rattle.job_preparing.specs.CompileTasks.{IsMadeAs, IsReadyWith};
ghost use Rattle.job_preparing.specs.View.{IsReady, graph_in, left_by};
ghost use Rattle.graph_firing.specs.Nodes.Parts.{kernel_in, kind_of_actor, prepared_with};
ghost use Rattle.graph_firing.specs.Nodes.Starting.{AreJobLists, AreNoTraces, AreOwnParts, Starts, fixed_by};
ghost use Rattle.graph_firing.specs.Nodes.View.{nodes_of};
ghost use Rattle.graph_firing.specs.declared.nodes.stage.Stage.TheVariants.{Free as Waiting};

use crate::nodes::ending::Ending;
use crate::nodes::frames::{Held, nothing_held};
use crate::nodes::given::empty_rows;
use crate::nodes::running::Running;
use crate::nodes::stages::Stages;
use job_compiler::Compiled;
use job_preparing::{Configuring, Made, ReadyLevel, Trace, acting_at, keeps_at};
use one_job::{Job, start};
use param_expr::Name;
use param_resolver::{LevelSet, level_by_actor};
use pisdf_meaning::{
    Configured, Firing, Path, TraceRow, copy_lists, copy_name, exports_of, link_starts,
    source_tokens, value_at,
};
use pisdf_model::{Body, Graph, Param, ParamKind};
use sdf_level::List;
use std::alloc::{AllocError, Global};
use std::collections::LinkedList;
use std::snapshot::Snapshot;
use std::sync::Arc;

// ---- the actors of the level

/// For each actor at these places the place of its kernel, or none where it names a graph.
fn kinds_at(alloc: Global, graph: &Graph, places: &[u32]) -> Result<List<Option<u32>>, AllocError>
    requires { places.now ≡ acting_places graph.now }
    ensures { IfOk result (λ kinds. kinds ≡ map kind_of_actor (acting graph.now)) }
{
    level_by_actor();
    let mut kinds = Vec::with_capacity(alloc, places.len())?;
    for n in 0..places.len() {
        kinds.push(kind_of(&acting_at(graph, places, n).body))?;
    }
    Ok(List::new(kinds))
}

/// The place of an actor's kernel, or none where it names a graph or sets parameters.
fn kind_of(body: &Body) -> Option<u32>
    ensures { result ≡ kernel_in body.now }
{
    match body {
        Body::Kernel { kernel, .. } => Some(*kernel),
        Body::Config { .. } | Body::Child { .. } | Body::ConfigChild { .. } => None,
    }
}

/// The names of the actors at these places.
fn names_at(alloc: Global, graph: &Graph, places: &[u32]) -> Result<Vec<Name>, AllocError>
    requires { places.now ≡ acting_places graph.now }
    ensures { IfOk result (λ names. names.items ≡ map (λ (a : ActorView). a.name) (acting graph.now)) }
{
    level_by_actor();
    let mut names = Vec::with_capacity(alloc, places.len())?;
    for n in 0..places.len() {
        names.push(copy_name(alloc, &acting_at(graph, places, n).name)?)?;
    }
    Ok(names)
}

// ---- the values of parameters

/// Adds the row of a parameter with this value, if it is a chosen one.
fn push_chosen(
    alloc: Global,
    path: &Path,
    param: &Param,
    value: i64,
    rows: &mut LinkedList<TraceRow>,
) -> Result<(), AllocError>
    ensures { OnOk result (rows.new ≡ rows.old ++ chosen_row path.now param.now.name value param.now.kind) }
{
    match param.kind {
        ParamKind::Inherited | ParamKind::Derived(_) => Ok(()),
        ParamKind::Chosen => {
            let path = path.copy()?;
            let name = copy_name(alloc, &param.name)?;
            rows.push_back(TraceRow { path, name, value })?;
            Ok(())
        }
    }
}

/// The rows of the chosen ones among these parameters.
fn chosen_rows(
    alloc: Global,
    path: &Path,
    params: &[Param],
    values: &[i64],
) -> Result<LinkedList<TraceRow>, AllocError>
    ensures { IfOk result (λ rows. rows ≡ chosen_rows path.now values.now 0 params.now) }
{
    let mut rows = LinkedList::new(alloc);
    for (place, param) in params.iter().enumerate() {
        push_chosen(alloc, path, param, value_at(values, place), &mut rows)?;
    }
    Ok(rows)
}

// ---- lists

/// The same lists.
fn as_lists(alloc: Global, lines: Vec<Vec<i64>>) -> Result<List<List<i64>>, AllocError>
    ensures { IfOk result (λ lists. lists ≡ lists_of lines.items) }
{
    let mut lists = Vec::with_capacity(alloc, lines.len())?;
    for line in lines {
        lists.push(List::new(line))?;
    }
    Ok(List::new(lists))
}

// ---- what a firing is set up with

/// What the job of leases of a firing is started with, beside its compilation.
#[derive(Drop)]
struct JobLists {
    kinds: List<Option<u32>>,
    args: List<List<i64>>,
    sources: List<List<i64>>,
    stored: List<List<i64>>,
}

/// What the job of leases of a firing is started with, whose configuration actors left this.
fn job_lists(
    alloc: Global,
    all: &[Graph],
    graph: &Graph,
    firing: &Firing,
    left: &[Configured],
    set: &LevelSet,
) -> Result<JobLists, AllocError>
    requires { set.now.places ≡ acting_places graph.now }
    ensures kinds { IfOk result (λ lists. lists.kinds ≡ map kind_of_actor (acting graph.now)) }
    ensures args { IfOk result (λ lists. lists.args ≡ set.now.args) }
    ensures sources { IfOk result (λ lists. lists.sources ≡ source_tokens graph.now firing.now left.now) }
    ensures stored { IfOk result (λ lists. lists.stored ≡ link_starts all.now graph.now firing.now) }
{
    let kinds = kinds_at(alloc, graph, set.places.items())?;
    let args = copy_lists(alloc, set.args.items())?;
    let sources = source_tokens(alloc, graph, firing, left)?;
    let stored = as_lists(alloc, link_starts(alloc, all, graph, firing)?)?;
    Ok(JobLists {
        kinds,
        args,
        sources,
        stored,
    })
}

/// What the trace of a firing begins with, and the values that it exports.
#[derive(Drop)]
struct OwnRows {
    path: Path,
    rows: Trace,
    exports: List<i64>,
}

/// The rows of a firing's own parameters, its path, and the values that it exports.
fn own_rows(
    alloc: Global,
    graph: &Graph,
    path: &Path,
    values: &[i64],
) -> Result<OwnRows, AllocError>
    ensures path { IfOk result (λ own. own.path ≡ path.now) }
    ensures rows { IfOk result (λ own. own.rows ≡ chosen_rows path.now values.now 0 graph.now.params) }
    ensures exports { IfOk result (λ own. own.exports ≡ map (value_at values.now) graph.now.exports) }
{
    let rows = chosen_rows(alloc, path, graph.params.items(), values)?;
    let exports = exports_of(alloc, graph, values)?;
    let path = path.copy()?;
    Ok(OwnRows {
        path,
        rows: Trace::of(rows),
        exports,
    })
}

/// Of each actor of the level whether its state goes on, and its name; and room for the state that the firing leaves.
#[derive(Drop)]
struct LevelParts {
    keeps: Vec<bool>,
    names: Vec<Name>,
    state: Vec<List<i64>>,
}

/// These of the graph whose actors of the level stand at these places.
fn level_parts(
    alloc: Global,
    all: &[Graph],
    graph: &Graph,
    places: &[u32],
) -> Result<LevelParts, AllocError>
    requires { places.now ≡ acting_places graph.now }
    ensures keeps { IfOk result (λ parts. parts.keeps.items ≡ map (has_state all.now) (acting graph.now)) }
    ensures names { IfOk result (λ parts. parts.names.items ≡ map (λ (a : ActorView). a.name) (acting graph.now)) }
    ensures empty { IfOk result (λ parts. (parts.state.items ≡ []) × (vec_len parts.state ≡ 0)) }
    ensures room { IfOk result (λ parts. length graph.now.fifos + length graph.now.actors ≤ vec_capacity parts.state) }
{
    let names = names_at(alloc, graph, places)?;
    let keeps = keeps_at(alloc, all, graph, places)?;
    let lists = graph
        .fifos
        .items()
        .len()
        .saturating_add(graph.actors.items().len());
    let state = Vec::with_capacity(alloc, lists)?;
    Ok(LevelParts {
        keeps,
        names,
        state,
    })
}

/// What a firing keeps beside its job: its path, the names of the actors of its level, and what is moved at its end.
#[derive(Drop)]
struct OwnParts {
    path: Path,
    names: Vec<Name>,
    ending: Ending,
}

/// What a firing of this graph keeps beside its job, with these traces of what it calls.
fn own_parts(
    alloc: Global,
    all: &[Graph],
    graph: &Graph,
    path: &Path,
    places: &[u32],
    values: &[i64],
    traces: Vec<Vec<Trace>>,
) -> Result<OwnParts, AllocError>
    requires { places.now ≡ acting_places graph.now }
    ensures parts { IfOk result (AreOwnParts all.now graph.now path.now values.now) }
    ensures traces { IfOk result (λ own. own.ending.traces ≡ traces) }
{
    let own = own_rows(alloc, graph, path, values)?;
    let parts = level_parts(alloc, all, graph, places)?;
    Ok(OwnParts {
        path: own.path,
        names: parts.names,
        ending: Ending {
            keeps: parts.keeps,
            rows: own.rows,
            exports: own.exports,
            state: parts.state,
            traces,
        },
    })
}

/// What a firing is set up with before its job is started.
#[derive(Drop)]
struct SetUp {
    lists: JobLists,
    own: OwnParts,
}

/// What a firing is set up with whose configuration actors are ready, and which was compiled to this.
fn set_up(
    alloc: Global,
    preparing: &Configuring,
    compiled: &Compiled,
    set: &LevelSet,
    values: &[i64],
) -> Result<SetUp, AllocError>
    requires fit { IsFit preparing.now.graphs.graphs preparing.now.firing }
    requires ready { IsReady preparing.now }
    requires places { set.now.places ≡ acting_places (graph_in preparing.now) }
    ensures lists { IfOk result (λ s. AreJobLists preparing.now set.now s.lists) }
    ensures own { IfOk result (λ s. AreOwnParts preparing.now.graphs.graphs (graph_in preparing.now) preparing.now.firing.path values.now s.own) }
    ensures traces { IfOk result (λ s. AreNoTraces s.lists.kinds compiled.now.counts s.own.ending.traces.items) }
{
    let firing = preparing.firing();
    let all = preparing.graphs().graphs.items();
    let graph = &all[firing.graph as usize];
    let places = set.places.items();
    let lists = job_lists(alloc, all, graph, firing, preparing.left(), set)?;
    let traces = empty_rows(alloc, lists.kinds.items(), compiled.counts())?;
    let own = own_parts(alloc, all, graph, &firing.path, places, values, traces)?;
    Ok(SetUp { lists, own })
}

/// How long a list is that has an entry at the number of each node that fires a graph: empty where none does.
fn room_needed(job: &Job, nodes: usize) -> usize
    requires many { nodes ≡ length job.now.compilation.graph.nodes }
    requires small { nodes < 2 ^ 32 }
    ensures few { result ≤ nodes }
    ensures all { (n : ℕ) → n < nodes → is_child job.now n ≡ true → n < result }
{
    let mut needed = nodes;
    while needed > 0 && !job.is_child((needed - 1) as u32) {
        needed -= 1;
    }
    needed
}

/// A job of leases, what is held for its nodes that fire graphs, and how far its nodes are.
struct Started {
    job: Job,
    held: Vec<Held>,
    stages: Stages,
}

/// The job of leases of a firing at its start, in which each node is free and for which nothing is held.
fn start_job(alloc: Global, compiled: Arc<Compiled>, lists: JobLists) -> Result<Started, AllocError>
    requires kinds { length lists.kinds ≡ (arc_value compiled).level.actors }
    requires args { length lists.args ≡ (arc_value compiled).level.actors }
    requires sources { map length lists.sources ≡ (arc_value compiled).level.sources }
    requires stored { HaveDelays (arc_value compiled).level.links lists.stored }
    ensures compilation { IfOk result (λ s. s.job.compilation ≡ arc_value compiled) }
    ensures made_of { IfOk result (λ s. (s.job.kinds ≡ lists.kinds) × (s.job.args ≡ lists.args) × (s.job.sources ≡ lists.sources) × (s.job.stored ≡ lists.stored)) }
    ensures free { IfOk result (λ s. s.job.marks ≡ replicate (length (arc_value compiled).graph.nodes) Unclaimed) }
    ensures nothing { IfOk result (λ s. s.held.items ≡ replicate (length s.held.items) Held.Nothing) }
    ensures few { IfOk result (λ s. length s.held.items ≤ length s.job.compilation.graph.nodes) }
    ensures room { IfOk result (λ s. (n : ℕ) → n < length s.job.compilation.graph.nodes → is_child s.job n ≡ true → n < length s.held.items) }
    ensures stages { IfOk result (λ s. s.stages ≡ replicate (length (arc_value compiled).graph.nodes) Waiting) }
{
    let nodes = compiled.graph().nodes.items().len();
    let job = start(
        alloc,
        compiled,
        lists.kinds,
        lists.args,
        lists.sources,
        lists.stored,
    )?;
    let needed = room_needed(&job, nodes);
    match Vec::with_capacity(alloc, needed) {
        Ok(held) => Ok(Started {
            job,
            held: nothing_held(held, needed),
            stages: Stages::free(nodes),
        }),
        Err(error) => {
            job.end();
            Err(error)
        }
    }
}

/// The parts of a firing at its start, but for those that it is handed.
struct StartParts {
    own: OwnParts,
    started: Started,
}

/// These of a firing whose configuration actors are ready, and which was compiled to this.
fn start_parts(
    alloc: Global,
    preparing: &Configuring,
    compiled: &Arc<Compiled>,
    set: &LevelSet,
    values: &[i64],
) -> Result<StartParts, AllocError>
    requires valid { AreValid preparing.now.graphs }
    requires fit { IsFit preparing.now.graphs.graphs preparing.now.firing }
    requires ready { IsReady preparing.now }
    requires compiled { IsReadyWith preparing.now.graphs.graphs (arc_value compiled.now).workers preparing.now.firing (left_by preparing.now) (arc_value compiled.now) set.now values.now }
    ensures { IfOk result (λ parts. Starts (fixed_by preparing.now (arc_value compiled.now) set.now parts) parts) }
{
    level_by_actor();
    let _left = preparing.left();
    let shared = Arc::try_clone(compiled)?;
    let SetUp { lists, own } = set_up(alloc, preparing, compiled, set, values)?;
    let started = start_job(alloc, shared, lists)?;
    Ok(StartParts { own, started })
}

/// The nodes of a firing, in which each is free: its configuration actors, which are ready, and what it was compiled to. All memory
/// of the firing but that of the calls is there from here on.
///
/// # Errors
///
/// Want of memory.
pub(crate) fn run(
    alloc: Global,
    preparing: &Configuring,
    level: Arc<ReadyLevel>,
) -> Result<Running, AllocError>
    requires valid { AreValid preparing.now.graphs }
    requires fit { IsFit preparing.now.graphs.graphs preparing.now.firing }
    requires ready { IsReady preparing.now }
    requires compiled { IsMadeAs preparing.now.graphs.graphs (arc_value (arc_value level).made.compiled).workers preparing.now.firing (left_by preparing.now) (arc_value level).made }
    ensures made_of { IfOk result (λ r. (r.graphs ≡ preparing.now.graphs) × (r.firing ≡ preparing.now.firing)) }
    ensures compilation { IfOk result (λ r. (r.prepared ≡ prepared_with (left_by preparing.now) (arc_value (arc_value level).made.compiled)) × (r.workers ≡ (arc_value (arc_value level).made.compiled).workers) × (r.mapping ≡ (arc_value (arc_value level).made.compiled).mapping)) }
    ensures cells { IfOk result (λ r. r.cells.compilation ≡ arc_value (arc_value level).made.compiled) }
    ensures free { IfOk result (λ r. r.marks ≡ replicate (length (nodes_of r)) Free) }
    ensures nothing { IfOk result (λ r. r.lent ≡ replicate (length (nodes_of r)) None) }
{
    let graphs = Arc::try_clone(preparing.graphs())?;
    let made: &Made = &level.made;
    let StartParts { own, started } = start_parts(
        alloc,
        preparing,
        &made.compiled,
        &made.set,
        made.values.items(),
    )?;
    let Started { job, held, stages } = started;
    let firing = preparing.firing();
    Ok(Running {
        graphs,
        level,
        firing: Snapshot::of(firing),
        left: preparing.told_left(),
        place: firing.graph,
        path: own.path,
        names: own.names,
        ending: own.ending,
        stages,
        held,
        job,
        alloc,
    })
}
