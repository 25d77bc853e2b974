use crate::memory::{JobMemory, MemorySlot};
use crate::wiring::Wiring;
use placement::Placement;
use ready_heap::Ranking;
use sdf_level::{Level, List, SingleRate, Turn};
use std::alloc::{AllocError, Global};
use std::marker::Model;
use std::sync::Arc;
use worker_mapping::Mapping;

/// A level, ready to be run as a job: how often each actor fires and in which order, its single-rate graph, where the buffers
/// of that graph lie in one run of cells, the priority and home of each of its nodes, the edges at their ports, and the orders
/// in which the nodes of each home and all nodes go.
///
/// The type keeps that all of these are those of the level, and the homes those for the number of workers, so that two
/// compilations of one level for as many workers are the same. The edges at the ports are told by the level and its graph, and
/// the orders by the priorities and homes. No clause speaks of the memory that lies with it.
#[derive(Drop)]
pub struct Compiled {
    pub(crate) level: Level,
    pub(crate) workers: u32,
    pub(crate) counts: List<u32>,
    pub(crate) order: List<Turn>,
    pub(crate) graph: SingleRate,
    pub(crate) placement: Placement,
    pub(crate) mapping: Mapping,
    pub(crate) wiring: Wiring,
    pub(crate) ranking: Arc<Ranking>,
    pub(crate) ranking_of_all: Arc<Ranking>,
    /// Memory for one job.
    pub(crate) memory: MemorySlot,
}

impl Model for Compiled {
    ghost use Rattle.job_compiler.specs.Compilation.{Compilation};

    ghost Value = { Compilation };

    ghost use Rattle.job_compiler.specs.Compilation.{IsCompiled};
    ghost use Rattle.std.specs.Arc.{arc_value};
    ghost use Rattle.job_compiler.specs.Ranked.{IsRankingOf, IsRankingOfAll};
    ghost use Rattle.job_compiler.specs.Wired.{IsWiring};

    ghost view = { λ c. record { level = c.level; workers = c.workers; counts = c.counts; order = c.order; graph = c.graph; placement = c.placement; mapping = c.mapping } };

    ghost invariant = { λ c. IsCompiled record { level = c.level; workers = c.workers; counts = c.counts; order = c.order; graph = c.graph; placement = c.placement; mapping = c.mapping } × IsWiring c.level c.graph c.wiring × IsRankingOf c.mapping (arc_value c.ranking) × IsRankingOfAll c.mapping (arc_value c.ranking_of_all) };
}

impl Compiled {
    ghost use Rattle.std.specs.Prelude.{◌≡◌, length, map};
    ghost use Rattle.std.specs.Arc.{arc_value};
    ghost use Rattle.sdf_level.specs.Repetition.{IsRepetition};
    ghost use Rattle.sdf_level.specs.Limits.{IsWithinLimits};
    ghost use Rattle.sdf_level.specs.Orders.{IsTurnOrder};
    ghost use Rattle.job_compiler.specs.Compilation.{IsCompiled, IsExpanded, IsPlaced, IsMapped};
    ghost use Rattle.job_compiler.specs.Ends.{head_of, AreEndCounts};
    ghost use Rattle.job_compiler.specs.Rows.{IsMost};
    ghost use Rattle.job_compiler.specs.Wired.{entering, leaving, WireJobs};
    ghost use Rattle.job_compiler.specs.Ranked.{IsRankingOf, IsRankingOfAll};

    /// The level that was compiled.
    pub fn level(&self) -> &Level
        ensures value { result.now ≡ self.now.level }
        ensures kept { IsCompiled self.now }
    {
        &self.level
    }

    /// The number of workers that it was compiled for.
    pub fn workers(&self) -> u32
        ensures { result ≡ self.now.workers }
    {
        self.workers
    }

    /// How often each actor fires: the repetition vector.
    pub fn counts(&self) -> &[u32]
        ensures value { result.now ≡ self.now.counts }
        ensures repetition { IsRepetition self.now.level result.now }
        ensures within { IsWithinLimits self.now.level result.now }
    {
        self.counts.items()
    }

    /// The firings in the order of one thread.
    pub fn order(&self) -> &[Turn]
        ensures value { result.now ≡ self.now.order }
        ensures order { IsTurnOrder self.now.level self.now.counts result.now }
    {
        self.order.items()
    }

    /// The single-rate graph.
    pub fn graph(&self) -> &SingleRate
        ensures value { result.now ≡ self.now.graph }
        ensures expanded { IsExpanded self.now.level self.now.counts self.now.order result.now }
    {
        &self.graph
    }

    /// Where the buffer of each edge of the graph lies.
    pub fn placement(&self) -> &Placement
        ensures value { result.now ≡ self.now.placement }
        ensures placed { IsPlaced self.now.graph.edges result.now }
    {
        &self.placement
    }

    /// The priority and the home of each node of the graph.
    pub fn mapping(&self) -> &Mapping
        ensures value { result.now ≡ self.now.mapping }
        ensures mapped { IsMapped self.now.graph self.now.workers result.now }
    {
        &self.mapping
    }

    /// For each node of the graph the edges at its ports. They are wired whatever a job's sources give and its links hold.
    pub fn wiring(&self) -> &Wiring
        ensures entering { result.now.entering ≡ entering self.now.level self.now.graph }
        ensures leaving { result.now.leaving ≡ leaving self.now.level self.now.graph }
        ensures into { AreEndCounts (length self.now.graph.nodes) (map head_of self.now.graph.edges) result.now.into }
        ensures inputs { IsMost result.now.entering result.now.inputs }
        ensures outputs { IsMost result.now.leaving result.now.outputs }
        ensures wired { WireJobs self.now.level self.now.graph result.now.entering result.now.leaving }
    {
        &self.wiring
    }

    /// The ranking of the nodes: each home is a group, in which the nodes of greater priority go first, then those of lesser
    /// number.
    pub fn ranking(&self) -> &Arc<Ranking>
        ensures { IsRankingOf self.now.mapping (arc_value result.now) }
    {
        &self.ranking
    }

    /// The ranking of all nodes as one group, in the same order.
    pub fn ranking_of_all(&self) -> &Arc<Ranking>
        ensures { IsRankingOfAll self.now.mapping (arc_value result.now) }
    {
        &self.ranking_of_all
    }

    /// Takes away the memory for a job of this compilation that lies here; no memory where none does, or another thread looks.
    pub fn take_memory(&self, alloc: Global) -> JobMemory {
        self.memory.take(alloc)
    }

    /// Leaves the memory of a job that has ended for the next one, in place of what lies here. It is given up where it is large, or
    /// another thread looks.
    pub fn leave_memory(&self, memory: JobMemory) {
        self.memory.leave(memory);
    }

    /// Takes memory for the next job of this compilation, where none lies here, so that the job starts sooner. A large job takes its
    /// memory at its start.
    ///
    /// # Errors
    ///
    /// Want of memory. Nothing is put here.
    pub fn prepare_memory(&self, alloc: Global) -> Result<(), AllocError> {
        self.memory.prepare(
            alloc,
            self.placement.height as usize,
            self.graph.nodes.items().len(),
            self.workers,
        )
    }
}
