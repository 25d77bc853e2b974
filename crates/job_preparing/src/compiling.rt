// The compilation of a firing, step by step.
ghost use Rattle.std.specs.Prelude.{◌≡◌, ◌≤◌, [], slice_get, Some, IfErr, IfOk};
ghost use Rattle.param_resolver.specs.EarlyCheck.{early_faults};
ghost use Rattle.pisdf_model.specs.Valid.{AreValid};
ghost use Rattle.pisdf_meaning.specs.Configuring.{early_in};
ghost use Rattle.pisdf_meaning.specs.Endings.{IfRefused};
ghost use Rattle.job_rules.specs.Doing as doing;
ghost use Rattle.job_rules.specs.Items.{graph_of};
ghost use Rattle.job_rules.specs.Words as words;
ghost use Rattle.job_preparing.specs.CompileTasks.{IsMadeAs};

use crate::kept_one::compiled_for;
use job_compiler::{Compiled, Key};
use param_resolver::{Early, LevelSet};
use pisdf_meaning::{Cause, Configured, Firing, PlainFault, parts_of, resolved};
use pisdf_model::Graphs;
use sdf_level::List;
use std::alloc::Global;
use std::sync::Arc;

/// How the compilation of a firing ends.
#[derive(Drop)]
pub enum CompileEnd {
    /// What it makes.
    Ready(Arc<ReadyLevel>),
    /// The firing is refused for this.
    Refused(Cause),
    /// There was no memory.
    Memory,
}

/// What the compilation of a firing makes: the compilation of its level, the level with what its actors fire, and the values of
/// the graph's parameters.
#[derive(Drop)]
pub struct Made {
    pub compiled: Arc<Compiled>,
    pub set: LevelSet,
    pub values: List<i64>,
}

/// What a compilation made, with the key of its firing. It serves each firing with this key.
#[derive(Drop)]
pub struct ReadyLevel {
    pub key: Key,
    pub made: Made,
}

/// The values of the parameters, the level and its compilation for so many workers, in this order. The compilation that is kept
/// is taken where it is of this level and of as many workers, else a new one is made.
///
/// # Errors
///
/// - `Refused`: a parameter has no value within its range, a rate or an argument of the level has none, or the level has no
///   schedule.
/// - `Memory`: want of memory.
pub fn make(
    alloc: Global,
    graphs: &Graphs,
    early: &Early,
    firing: &Firing,
    left: &[Configured],
    workers: u32,
    kept: &Option<Arc<Compiled>>,
) -> Result<Made, PlainFault>
    requires valid { AreValid graphs.now }
    requires here { slice_get graphs.now.graphs firing.now.graph ≡ Some (graph_of graphs.now.graphs firing.now) }
    requires early { early.now ≡ early_in graphs.now.graphs firing.now }
    requires sound { early_faults graphs.now.graphs firing.now.graph firing.now.inherited ≡ [] }
    requires workers { 1 ≤ workers }
    ensures made { IfOk result (IsMadeAs graphs.now.graphs workers firing.now left.now) }
    ensures refused { IfErr result (IfRefused (λ refusal. doing.IsCompiled graphs.now.graphs firing.now left.now (words.Refuses refusal))) }
{
    let graph = &graphs.graphs.items()[firing.graph as usize];
    let values = resolved(alloc, graphs, graph, early, firing, left)?;
    let set = parts_of(alloc, graphs, graph, early, firing, values.items())?;
    let compiled = compiled_for(alloc, graph, firing, &set.level, workers, kept)?;
    Ok(Made {
        compiled,
        set,
        values,
    })
}
