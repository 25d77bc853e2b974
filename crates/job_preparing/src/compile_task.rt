// The compilation of a firing, apart from its job.
ghost use Rattle.std.specs.Prelude.{◌≡◌, IfOk};
ghost use Rattle.std.specs.Arc.{arc_value};
ghost use Rattle.job_preparing.specs.Tasked.{EndsTask, IsKeptTask, IsTask, kept_view, task_view};

use crate::compiling::{CompileEnd, Made, ReadyLevel, make};
use crate::known::KnownEarly;
use crate::left_told::LeftTold;
use job_compiler::{Compiled, Key, one_compilation};
use pisdf_meaning::{Configured, Firing, PlainFault};
use pisdf_model::Graphs;
use std::alloc::{AllocError, Global};
use std::marker::Model;
use std::snapshot::Snapshot;
use std::sync::Arc;

/// The compilation of one firing of a graph, whose configuration actors all gave something. It owns what it needs, so that it
/// is made while others go on with the job.
#[derive(Drop)]
pub struct CompileTask {
    pub(crate) way: Way,
}

/// How a compilation comes to its level. What it needs lies in a box, so that a claim is small, of which the task is a part.
#[derive(Drop)]
pub(crate) enum Way {
    /// The level is kept.
    Kept(KeptTask),
    /// It is made.
    Make(Box<Parts>),
}

/// A level that is kept by the firing's key. All else is for contracts alone.
#[derive(Drop)]
pub(crate) struct KeptTask {
    pub(crate) level: Arc<ReadyLevel>,
    pub(crate) graphs: Snapshot<Arc<Graphs>>,
    pub(crate) workers: Snapshot<u32>,
    pub(crate) whole: Snapshot<Firing>,
    pub(crate) told: LeftTold,
}

/// What a compilation needs that is made.
#[derive(Drop)]
pub(crate) struct Parts {
    pub(crate) graphs: Arc<Graphs>,
    pub(crate) early: KnownEarly,
    pub(crate) workers: u32,
    pub(crate) firing: Firing,
    pub(crate) left: Vec<Configured>,
    pub(crate) key: Key,
    pub(crate) kept: Option<Arc<Compiled>>,
    // The firing itself and what its configuration actors left, of which the task has what it looks at.
    pub(crate) whole: Snapshot<Firing>,
    pub(crate) told: LeftTold,
}

impl Model for CompileTask {
    ghost use Rattle.job_preparing.specs.CompileTasks.{CompileView};

    ghost Value = { CompileView };

    ghost use Rattle.std.specs.Coded.{codes};
    ghost use Rattle.param_expr.specs.Tree.{tree_code};

    ghost coded = { Prim.hlevel (codes, tree_code) };

    ghost use Rattle.job_preparing.specs.Tasked.{IsWay, way_view};

    ghost view = { λ t. way_view t.way };

    ghost invariant = { λ t. IsWay t.way };
}

/// The level of a firing that was made, with its key.
fn keyed_level(alloc: Global, key: &Key, made: Made) -> Result<Arc<ReadyLevel>, AllocError>
    ensures { IfOk result (λ level. arc_value level ≡ record { key = key.now; made = made }) }
{
    let key = key.copy(alloc)?;
    Ok(Arc::new(alloc, ReadyLevel { key, made })?)
}

/// The compilation ends with this level. Memory for the firing is taken here, where none lies with the level's compilation, so that
/// the start of the firing takes less. Where none is found, the start looks for it again.
fn ready_with_memory(alloc: Global, level: Arc<ReadyLevel>) -> CompileEnd
    ensures { result ≡ CompileEnd.Ready level }
{
    let _refused = level.made.compiled.prepare_memory(alloc);
    CompileEnd::Ready(level)
}

/// Makes the level: the values of the parameters, then the level with its rates, then its schedule and all else. The compilation
/// that came with the task is taken where it is of this level and of as many workers, else a new one is made.
fn make_level(alloc: Global, parts: &Parts) -> CompileEnd
    requires { IsTask parts.now }
    ensures { EndsTask (task_view parts.now) result }
{
    let made = make(
        alloc,
        &parts.graphs,
        parts.early.get(),
        &parts.firing,
        &parts.left,
        parts.workers,
        &parts.kept,
    );
    match made {
        Ok(made) => match keyed_level(alloc, &parts.key, made) {
            Ok(level) => ready_with_memory(alloc, level),
            Err(AllocError) => CompileEnd::Memory,
        },
        Err(PlainFault::Refused(refusal)) => CompileEnd::Refused(refusal.cause),
        Err(PlainFault::Memory) => CompileEnd::Memory,
    }
}

/// The level that is kept.
fn kept_level(alloc: Global, task: &KeptTask) -> CompileEnd
    requires { IsKeptTask task.now }
    ensures { EndsTask (kept_view task.now) result }
{
    match Arc::try_clone(&task.level) {
        Ok(level) => ready_with_memory(alloc, level),
        Err(AllocError) => CompileEnd::Memory,
    }
}

impl CompileTask {
    ghost use Rattle.std.specs.Prelude.{◌⊎◌, ℤ, List as Seq, is_some};
    ghost use Rattle.job_compiler.specs.Compilation.{Compilation};
    ghost use Rattle.param_resolver.specs.declared.level_set.LevelSet.{LevelSet as SetOfLevel};
    ghost use Rattle.pisdf_meaning.specs.declared.refusal.Cause.{Cause};
    ghost use Rattle.job_rules.specs.Doing as doing;
    ghost use Rattle.job_rules.specs.Words as words;
    ghost use Rattle.job_preparing.specs.CompileTasks.{IsEndOf, IsReadyWith, IsReadyAs};

    /// Whether a compilation comes with it.
    pub fn has_kept(&self) -> bool
        ensures { result ≡ is_some self.now.kept }
    {
        match &self.way {
            Way::Kept(_) => true,
            Way::Make(parts) => parts.kept.is_some(),
        }
    }

    /// How the compilation ends: with the level that came with the task, else with the one that is made.
    pub fn run(&self, alloc: Global) -> CompileEnd
        ensures end { IsEndOf self.now.graphs.graphs self.now.workers self.now.firing self.now.left result }

        // Where there is such a compilation the end is that, and where the firing is refused that refusal, unless there was
        // no memory.
        ensures only_ready { (c : Compilation) (set : SetOfLevel) (values : Seq ℤ) → IsReadyWith self.now.graphs.graphs self.now.workers self.now.firing self.now.left c set values → IsReadyAs c set values result ⊎ (result ≡ CompileEnd.Memory) }
        ensures only_refused { (cause : Cause) → doing.IsCompiled self.now.graphs.graphs self.now.firing self.now.left (words.Refuses record { path = self.now.firing.path; cause = cause }) → (result ≡ CompileEnd.Refused cause) ⊎ (result ≡ CompileEnd.Memory) }
    {
        one_compilation();
        match &self.way {
            Way::Kept(task) => kept_level(alloc, task),
            Way::Make(parts) => make_level(alloc, parts),
        }
    }
}
