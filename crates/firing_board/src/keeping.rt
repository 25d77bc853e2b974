// What is kept of compilations: some go from one board to the next.
ghost use Rattle.std.specs.Prelude.{◌≡◌, IfOk, IfSome, is_some};
ghost use Rattle.std.specs.Arc.{arc_value};
ghost use Rattle.graph_firing.specs.View.{IsOfferedCompilation, key_in};
ghost use Rattle.job_preparing.specs.Levels.{IsLevelBy, IsLevelOf, SuitsKey};
ghost use Rattle.firing_board.specs.Keeping.{AreKeptLevelsOf, IsOfLevels, KeepsAs};

use graph_firing::OpenJob;
use job_compiler::{Compiled, Kept, Key};
use job_preparing::{AtHand, CompileEnd, KeptLevels, ReadyLevel};
use pisdf_model::Graphs;
use std::alloc::{AllocError, Global};
use std::sync::Arc;

/// What is kept of compilations.
#[derive(Drop)]
pub(crate) struct Keeping {
    /// The compilations that are kept from one board to the next, by the keys of firings.
    pub(crate) kept: Option<Kept>,
    /// The levels that are kept from one board to the next, by the same keys, with those that this board's compilations made; none
    /// before the first.
    pub(crate) levels: Option<KeptLevels>,
}

/// The level that is kept by a key, if there is one, and memory for one more owner.
fn level_for(levels: &mut Option<KeptLevels>, key: &Key) -> Option<Arc<ReadyLevel>>
    ensures serves { IfSome result (λ level. (graphs : Graphs) → AreKeptLevelsOf graphs levels.old → IsLevelBy graphs.graphs key.now (arc_value level)) }
    ensures graphs { (graphs : Graphs) → AreKeptLevelsOf graphs levels.old → AreKeptLevelsOf graphs levels.new }
{
    match levels {
        Some(levels) => match levels.find(key) {
            Ok(found) => found,
            Err(AllocError) => None,
        },
        None => None,
    }
}

/// The compilation that is kept by a key, if there is one, and memory for one more owner.
fn kept_for(kept: &mut Option<Kept>, key: &Key) -> Option<Arc<Compiled>>
    ensures { is_some kept.new ≡ is_some kept.old }
{
    match kept {
        Some(kept) => match kept.find(key) {
            Ok(found) => found,
            Err(AllocError) => None,
        },
        None => None,
    }
}

/// What is at hand for the compilation of a job: its level, else its key with a compilation that may be kept by it.
///
/// # Errors
///
/// Want of memory.
pub(crate) fn at_hand(
    alloc: Global,
    keeping: &mut Keeping,
    job: &OpenJob,
) -> Result<AtHand, AllocError>
    requires offered { IsOfferedCompilation job.now }
    requires graphs { AreKeptLevelsOf job.now.graphs keeping.old.levels }
    ensures suits { IfOk result (SuitsKey job.now.graphs.graphs (key_in job.now)) }
    ensures keeps { KeepsAs keeping.old keeping.new }
{
    let key = job.compile_key(alloc)?;
    match level_for(&mut keeping.levels, &key) {
        Some(level) => Ok(AtHand::Level(level)),
        None => {
            let compiled = kept_for(&mut keeping.kept, &key);
            Ok(AtHand::Key(key, compiled))
        }
    }
}

/// Keeps a compilation by a key, where compilations are kept.
///
/// # Errors
///
/// Want of memory. It isn't kept.
fn keep_compiled(
    alloc: Global,
    kept: &mut Option<Kept>,
    level: &ReadyLevel,
) -> Result<(), AllocError>
    ensures { is_some kept.new ≡ is_some kept.old }
{
    match kept {
        Some(kept) => {
            let key = level.key.copy(alloc)?;
            let compiled = Arc::try_clone(&level.made.compiled)?;
            kept.keep(key, compiled)
        }
        None => Ok(()),
    }
}

/// Whether a level is kept that has this key.
fn has_level(levels: &Option<KeptLevels>, key: &Key) -> bool {
    match levels {
        Some(levels) => levels.has(key),
        None => false,
    }
}

/// Keeps a level of these graphs.
///
/// # Errors
///
/// Want of memory. It isn't kept.
fn keep_level(
    alloc: Global,
    graphs: &Graphs,
    levels: &mut Option<KeptLevels>,
    level: &Arc<ReadyLevel>,
) -> Result<(), AllocError>
    requires levels { AreKeptLevelsOf graphs.now levels.old }
    requires level { IsLevelOf graphs.now.graphs (arc_value level.now) }
    ensures { AreKeptLevelsOf graphs.now levels.new }
{
    match levels {
        Some(levels) => levels.keep(alloc, level),
        None => {
            let mut first = KeptLevels::new(alloc, graphs)?;
            first.keep(alloc, level)?;
            *levels = Some(first);
            Ok(())
        }
    }
}

/// Keeps a level of these graphs that isn't kept yet, and its compilation, where there is memory for them.
pub(crate) fn keep_ready(alloc: Global, graphs: &Graphs, keeping: &mut Keeping, end: &CompileEnd)
    requires levels { AreKeptLevelsOf graphs.now keeping.old.levels }
    requires end { IsOfLevels graphs.now end.now }
    ensures kept { is_some keeping.new.kept ≡ is_some keeping.old.kept }
    ensures levels { AreKeptLevelsOf graphs.now keeping.new.levels }
{
    if let CompileEnd::Ready(level) = end {
        if !has_level(&keeping.levels, &level.key) {
            let _refused = keep_compiled(alloc, &mut keeping.kept, level);
            let _refused = keep_level(alloc, graphs, &mut keeping.levels, level);
        }
    }
}
