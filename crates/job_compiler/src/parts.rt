// The parts of a compilation that are worked out from its graph.
ghost use Rattle.std.specs.Prelude.{◌≡◌, ◌≤◌, IfOk};
ghost use Rattle.std.specs.Arc.{arc_value};
ghost use Rattle.sdf_level.specs.View.{LevelView};
ghost use Rattle.worker_mapping.specs.Costs.{pairs_of};
ghost use Rattle.job_compiler.specs.Compilation.{sizes_of, IsSound, IsPlaced, IsMapped};
ghost use Rattle.job_compiler.specs.Ranked.{IsRankingOf, IsRankingOfAll};
ghost use Rattle.job_compiler.specs.Wired.{IsGraphOf, IsWiring};

use crate::ranking::rank;
use crate::wiring::{Wiring, wire};
use memory_exclusion::reach;
use placement::{Placement, place};
use ready_heap::Ranking;
use sdf_level::{Edge, Level, Link, List, SingleRate};
use std::alloc::{AllocError, Global};
use std::sync::Arc;
use worker_mapping::{Mapping, edge_pairs, map, node_costs};

/// The same level.
fn copy_level(alloc: Global, level: &Level) -> Result<Level, AllocError>
    ensures { IfOk result (λ copy. copy ≡ level.now) }
{
    Ok(Level {
        actors: level.actors,
        sources: List::new(level.sources.items().to_vec(alloc)?),
        sinks: List::new(level.sinks.items().to_vec(alloc)?),
        links: List::new(level.links.items().to_vec(alloc)?),
    })
}

/// The size of each buffer.
fn buffer_sizes(alloc: Global, edges: &[Edge]) -> Result<Vec<u32>, AllocError>
    ensures { IfOk result (λ sizes. sizes.items ≡ sizes_of edges.now) }
{
    edges.iter().map(|edge| edge.size).collect(alloc)
}

/// Where the buffers of the graph lie, whose edges as pairs are these.
fn place_buffers(
    alloc: Global,
    graph: &SingleRate,
    pairs: &[(u32, u32)],
) -> Result<Placement, AllocError>
    requires sound { IsSound graph.now }
    requires pairs { pairs.now ≡ pairs_of graph.now.edges }
    ensures { IfOk result (IsPlaced graph.now.edges) }
{
    let nodes = graph.nodes.items().len() as u32;
    let sizes = buffer_sizes(alloc, graph.edges.items())?;
    let exclusion = reach(alloc, nodes, pairs, graph.ranks.items())?;
    place(alloc, &sizes, &exclusion)
}

/// The priorities and homes of the nodes of the graph, whose edges as pairs are these.
fn map_nodes(
    alloc: Global,
    graph: &SingleRate,
    pairs: &[(u32, u32)],
    workers: u32,
) -> Result<Mapping, AllocError>
    requires sound { IsSound graph.now }
    requires pairs { pairs.now ≡ pairs_of graph.now.edges }
    requires workers { 1 ≤ workers }
    ensures { IfOk result (IsMapped graph.now workers) }
{
    let nodes = graph.nodes.items().len() as u32;
    let costs = node_costs(alloc, nodes, graph.edges.items())?;
    map(alloc, nodes, pairs, graph.ranks.items(), &costs, workers)
}

/// Where the buffers of a graph lie, and the priorities and homes of its nodes.
#[derive(Drop)]
struct Mapped {
    placement: Placement,
    mapping: Mapping,
}

/// These of the graph for this number of workers.
fn map_graph(alloc: Global, graph: &SingleRate, workers: u32) -> Result<Mapped, AllocError>
    requires sound { IsSound graph.now }
    requires workers { 1 ≤ workers }
    ensures placed { IfOk result (λ m. IsPlaced graph.now.edges m.placement) }
    ensures mapped { IfOk result (λ m. IsMapped graph.now workers m.mapping) }
{
    let pairs = edge_pairs(alloc, graph.edges.items())?;
    let placement = place_buffers(alloc, graph, &pairs)?;
    let mapping = map_nodes(alloc, graph, &pairs, workers)?;
    Ok(Mapped { placement, mapping })
}

/// What is worked out from the graph of a level, and a copy of that level.
#[derive(Drop)]
pub(crate) struct GraphParts {
    pub(crate) level: Level,
    pub(crate) placement: Placement,
    pub(crate) mapping: Mapping,
    pub(crate) wiring: Wiring,
    pub(crate) ranking: Arc<Ranking>,
    pub(crate) ranking_of_all: Arc<Ranking>,
}

/// These of the level's graph for this number of workers.
pub(crate) fn graph_parts(
    alloc: Global,
    level: &Level,
    graph: &SingleRate,
    workers: u32,
) -> Result<GraphParts, AllocError>
    requires graph { IsGraphOf level.now graph.now }
    requires workers { 1 ≤ workers }
    ensures level { IfOk result (λ parts. parts.level ≡ level.now) }
    ensures placed { IfOk result (λ parts. IsPlaced graph.now.edges parts.placement) }
    ensures mapped { IfOk result (λ parts. IsMapped graph.now workers parts.mapping) }
    ensures wired { IfOk result (λ parts. IsWiring level.now graph.now parts.wiring) }
    ensures ranked { IfOk result (λ parts. IsRankingOf parts.mapping (arc_value parts.ranking)) }
    ensures ranked_of_all { IfOk result (λ parts. IsRankingOfAll parts.mapping (arc_value parts.ranking_of_all)) }
{
    let level_copy = copy_level(alloc, level)?;
    let wiring = wire(alloc, level, graph)?;
    let mapped = map_graph(alloc, graph, workers)?;
    let ranks = rank(alloc, &mapped.mapping)?;
    Ok(GraphParts {
        level: level_copy,
        placement: mapped.placement,
        mapping: mapped.mapping,
        wiring,
        ranking: ranks.by_home,
        ranking_of_all: ranks.of_all,
    })
}
