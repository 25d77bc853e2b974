// A job at its start.
ghost use Rattle.std.specs.Prelude.{◌≡◌, ◌≤◌, length, map, replicate, vec_capacity, IfOk, IsOk};
ghost use Rattle.std.specs.Arc.{arc_value};
ghost use Rattle.sdf_level.specs.LevelRun.{HaveDelays};
ghost use Rattle.job_compiler.specs.Ends.{AreEndCounts, head_of};
ghost use Rattle.job_compiler.specs.Wired.{entering};
ghost use Rattle.one_job.specs.Marks.{Free};
ghost use Rattle.one_job.specs.Opening.{AreFirstTokens, AreMade};
ghost use Rattle.one_job.specs.Ready.{AreFirstReady};
ghost use Rattle.one_job.specs.Rooms.{IsRoomOf};
ghost use Rattle.one_job.specs.Staged.{mark_of};

use crate::job::Job;
use crate::opening::{free_stages, no_tokens};
use crate::ready::{ReadyNodes, start_ready};
use crate::rooms::room_size;
use crate::stage::Stage;
use crate::stock::make_stock;
use cell_pool::Pool;
use job_compiler::{Compiled, JobMemory};
use job_flow::edges_have_ports;
use sdf_level::List;
use std::alloc::{AllocError, Global};
use std::snapshot::Snapshot;
use std::sync::Arc;

/// The tokens that lie ready for each node of a job of this compilation, whose sources give `sources` and whose links hold
/// `stored`.
fn first_stock(
    alloc: Global,
    stock: Vec<List<i64>>,
    compiled: &Compiled,
    sources: List<List<i64>>,
    stored: List<List<i64>>,
) -> Result<Vec<List<i64>>, AllocError>
    requires sources { map length sources ≡ compiled.now.level.sources }
    requires stored { HaveDelays compiled.now.level.links stored }
    ensures { IfOk result (λ stock. AreMade compiled.now.graph.nodes compiled.now.graph.edges (entering compiled.now.level compiled.now.graph) sources stored stock.items) }
{
    edges_have_ports::<i64>();
    // With its level a compilation tells that it is one of that level.
    let _level = compiled.level();
    let graph = compiled.graph();
    let mut sources = sources.into_items();
    let mut stored = stored.into_items();
    make_stock(
        alloc,
        stock,
        graph.nodes.items(),
        graph.edges.items(),
        &compiled.wiring().entering,
        &mut sources,
        &mut stored,
    )
}

/// The tokens of a job at its start: those that lie ready for its nodes, and none that its sinks keep or that are left on its
/// links.
#[derive(Drop)]
struct FirstTokens {
    stock: Vec<List<i64>>,
    outs: Vec<List<i64>>,
    left: Vec<List<i64>>,
}

/// The first tokens of a job of this compilation, whose sources give `sources` and whose links hold `stored`.
fn first_tokens(
    alloc: Global,
    stock: Vec<List<i64>>,
    compiled: &Compiled,
    sources: List<List<i64>>,
    stored: List<List<i64>>,
) -> Result<FirstTokens, AllocError>
    requires sources { map length sources ≡ compiled.now.level.sources }
    requires stored { HaveDelays compiled.now.level.links stored }
    ensures { IfOk result (AreFirstTokens compiled.now sources stored) }
{
    let level = compiled.level();
    let stock = first_stock(alloc, stock, compiled, sources, stored)?;
    let outs = no_tokens(alloc, level.sinks.items().len())?;
    let left = no_tokens(alloc, level.links.items().len())?;
    Ok(FirstTokens { stock, outs, left })
}

/// These counts, in memory that is there. More is taken only where that is too little.
///
/// # Errors
///
/// Want of memory, only where that is too little.
fn copied(mut counts: Vec<usize>, values: &[usize]) -> Result<Vec<usize>, AllocError>
    ensures same { IfOk result (λ v. v.items ≡ values.now) }
    ensures enough { length values.now ≤ vec_capacity counts → IsOk result }
{
    counts.clear();
    counts.extend_from_slice(values)?;
    Ok(counts)
}

/// The parts of a job at its start that take memory: how far its nodes are, how many edges each waits for, those that may be
/// claimed, the tokens, and memory for its cells.
#[derive(Drop)]
struct FirstParts {
    stages: Vec<Stage>,
    waiting: Vec<usize>,
    ready: ReadyNodes,
    tokens: FirstTokens,
    cells: Vec<i64>,
}

/// The first parts of a job of this compilation, whose actors have these kernels, whose sources give `sources` and whose links
/// hold `stored`. They are made in memory that is there, and more is taken only where that is too little.
fn first_parts(
    alloc: Global,
    memory: JobMemory,
    compiled: &Compiled,
    kinds: &[Option<u32>],
    sources: List<List<i64>>,
    stored: List<List<i64>>,
) -> Result<FirstParts, AllocError>
    requires sources { map length sources ≡ compiled.now.level.sources }
    requires stored { HaveDelays compiled.now.level.links stored }
    ensures free { IfOk result (λ nodes. map mark_of nodes.stages.items ≡ replicate (length compiled.now.graph.nodes) Free) }
    ensures waiting { IfOk result (λ nodes. AreEndCounts (length compiled.now.graph.nodes) (map head_of compiled.now.graph.edges) nodes.waiting.items) }
    ensures ready { IfOk result (λ nodes. AreFirstReady compiled.now kinds.now nodes.waiting.items nodes.ready) }
    ensures tokens { IfOk result (λ nodes. AreFirstTokens compiled.now sources stored nodes.tokens) }
{
    let JobMemory {
        cells,
        counts,
        stock,
        children,
        others,
    } = memory;
    let tokens = first_tokens(alloc, stock, compiled, sources, stored)?;
    let waiting = copied(counts, compiled.wiring().into.items())?;
    let stages = free_stages(alloc, compiled.graph().nodes.items().len())?;
    let ready = start_ready(children, others, compiled, kinds, &waiting)?;
    Ok(FirstParts {
        stages,
        waiting,
        ready,
        tokens,
        cells,
    })
}

/// A job of a compiled level, in which each node is free. `kinds` has for each actor the place of its kernel, or none where
/// its firings are jobs of their own; `args` has each actor's arguments, `sources` the tokens of each source, and `stored`
/// those that each link holds at the start. The memory that lies with the compilation is taken away, and what the job takes beside
/// it is taken here. Its room has the most ports of a node, but 1 at
/// least on each side, and the most arguments of an actor.
///
/// # Errors
///
/// Want of memory.
pub fn start(
    alloc: Global,
    compiled: Arc<Compiled>,
    kinds: List<Option<u32>>,
    args: List<List<i64>>,
    sources: List<List<i64>>,
    stored: List<List<i64>>,
) -> Result<Job, AllocError>
    requires kinds { length kinds ≡ (arc_value compiled).level.actors }
    requires args { length args ≡ (arc_value compiled).level.actors }
    requires sources { map length sources ≡ (arc_value compiled).level.sources }
    requires stored { HaveDelays (arc_value compiled).level.links stored }
    ensures compilation { IfOk result (λ j. j.compilation ≡ arc_value compiled) }
    ensures made_of { IfOk result (λ j. (j.kinds ≡ kinds) × (j.args ≡ args) × (j.sources ≡ sources) × (j.stored ≡ stored)) }
    ensures room { IfOk result (λ j. IsRoomOf (arc_value compiled).level (arc_value compiled).graph args j.room) }
    ensures free { IfOk result (λ j. j.marks ≡ replicate (length (arc_value compiled).graph.nodes) Free) }
{
    edges_have_ports::<i64>();
    // With its level a compilation tells that it is one of that level.
    let _level = compiled.level();
    let size = room_size(compiled.wiring(), args.items());
    let sources_told = Snapshot::of(&sources);
    let stored_told = Snapshot::of(&stored);
    let memory = compiled.take_memory(alloc);
    let nodes = first_parts(alloc, memory, &compiled, kinds.items(), sources, stored)?;
    let pool = Pool::over(alloc, nodes.cells, compiled.placement().height, u32::MAX)?;
    Ok(Job {
        compiled,
        kinds,
        args,
        sources: sources_told,
        stored: stored_told,
        stages: nodes.stages,
        waiting: nodes.waiting,
        ready: nodes.ready,
        claimed: 0,
        stock: nodes.tokens.stock,
        size,
        pool,
        outs: nodes.tokens.outs,
        left: nodes.tokens.left,
        alloc,
    })
}
