// The levels that are ready, as they are kept by their keys.
ghost use Rattle.std.specs.Prelude.{◌≡◌, IfOk, IfSome};
ghost use Rattle.std.specs.Arc.{arc_value};
ghost use Rattle.job_preparing.specs.Levels.{IsLevelBy, IsLevelOf};

use crate::compiling::ReadyLevel;
use job_compiler::{Compiled, Key, LastUsed, none_used};
use pisdf_model::Graphs;
use std::alloc::{AllocError, Global};
use std::marker::Model;
use std::snapshot::Snapshot;
use std::sync::Arc;

/// What is at hand for the compilation of a firing.
#[derive(Drop)]
pub enum AtHand {
    /// The level that is kept by the firing's key.
    Level(Arc<ReadyLevel>),
    /// No level, but the firing's key, and the compilation that is kept by it, if one is.
    Key(Key, Option<Arc<Compiled>>),
}

/// The levels of some graphs that were used last, at most 64 of them, each by its key. Contracts see the graphs.
#[derive(Drop)]
pub struct KeptLevels {
    pub(crate) graphs: Snapshot<Graphs>,
    pub(crate) levels: LastUsed<ReadyLevel>,
}

impl Model for KeptLevels {
    ghost use Rattle.pisdf_model.specs.declared.graph.Graphs.{Graphs as GraphsView};
    ghost use Rattle.job_preparing.specs.Levels.{AreLevelsOf};

    ghost Value = { GraphsView };

    ghost use Rattle.std.specs.Coded.{codes};
    ghost use Rattle.param_expr.specs.Tree.{tree_code};

    ghost coded = { Prim.hlevel (codes, tree_code) };

    ghost view = { λ k. k.graphs.value };

    ghost invariant = { λ k. AreLevelsOf k.graphs.value.graphs k.levels };
}

impl KeptLevels {
    /// No levels of these graphs.
    ///
    /// # Errors
    ///
    /// Want of memory.
    pub fn new(alloc: Global, graphs: &Graphs) -> Result<KeptLevels, AllocError>
        ensures { IfOk result (λ k. k ≡ graphs.now) }
    {
        Ok(KeptLevels {
            graphs: Snapshot::of(graphs),
            levels: none_used(alloc)?,
        })
    }

    /// A level of these graphs that is kept with the key: it serves each firing with this key. It is then the one used last. Or
    /// `None`, where none is kept.
    ///
    /// # Errors
    ///
    /// Want of memory, for one more owner of the level.
    pub fn find(&mut self, key: &Key) -> Result<Option<Arc<ReadyLevel>>, AllocError>
        ensures serves { IfOk result (λ found. IfSome found (λ level. IsLevelBy self.old.graphs key.now (arc_value level))) }
        ensures graphs { self.new ≡ self.old }
    {
        self.levels.find(key)
    }

    /// Whether a level is kept with the key.
    pub fn has(&self, key: &Key) -> bool {
        self.levels.has(key)
    }

    /// Keeps a level of these graphs by its key, as the one used last. An older one with this key goes, and if there are then too
    /// many the one that was used longest ago.
    ///
    /// # Errors
    ///
    /// Want of memory. It isn't kept.
    pub fn keep(&mut self, alloc: Global, level: &Arc<ReadyLevel>) -> Result<(), AllocError>
        requires { IsLevelOf self.old.graphs (arc_value level.now) }
        ensures { self.new ≡ self.old }
    {
        let key = level.key.copy(alloc)?;
        let shared = Arc::try_clone(level)?;
        self.levels.keep(key, shared)
    }
}
