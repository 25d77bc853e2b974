// The whole graph.
ghost use Rattle.std.specs.Prelude.{List, ◌≡◌, ◌+◌, ◌*◌, ◌<◌, ◌≤◌, ◌^◌, length, slice_index, IfOk};
ghost use Rattle.std.specs.List.{All};
ghost use Rattle.sdf_level.specs.Limits.{IsWithinLimits};
ghost use Rattle.sdf_level.specs.Orders.{IsTurnOrder};
ghost use Rattle.sdf_level.specs.Repetition.{IsRepetition};
ghost use Rattle.sdf_level.specs.Firings.{actors_of};
ghost use Rattle.sdf_level.specs.declared.token_name.TokenName.{TokenName};
ghost use Rattle.single_rate.specs.Expanded.{nodes, edges, by_nodes};
ghost use Rattle.single_rate.specs.Flow.{IsFlow};
ghost use Rattle.single_rate.specs.Sizes.{IsSmall};
ghost use Rattle.single_rate.specs.Names.{names};
ghost use Rattle.single_rate.specs.NamedLines.{named};
ghost use Rattle.single_rate.specs.Delivers.{Delivers};
ghost use Rattle.single_rate.specs.Ranks.{AreRanks};

use crate::expansion::expand_links;
use crate::nodes::{expand_nodes, number_edges};
use crate::ranks::longest;
use sdf_level::{Level, List, SingleRate, Turn, repetition_suffices};
use std::alloc::{AllocError, Global};

/// The single-rate graph of a level with its repetition vector and its one-thread order, after PREESM's forks, joins,
/// broadcasts and round buffers.
///
/// Nodes stand in this order: Sources; Inits by link; firings in the one-thread order; link by link its Broadcast, or its Forks
/// by writer and its Joins by reader, or its Round; Ends by link; Sinks. Edges stand link by link: those into its Forks or
/// Broadcast by writer; its pieces in the order of its line, or the edges out of its Broadcast or into its Round by firing;
/// those out of its Joins by reader or out of its Round. A firing's edge has the number of the actor's port; the ports of
/// other nodes are counted from 0 in the order of their edges. `docs/MEANING.md` has the rules in plain words.
///
/// Over the edges names of tokens flow in exactly one way, and what arrives at each firing, sink and end of a delay is what it
/// is fed in the run of one thread.
///
/// # Errors
///
/// [`AllocError`].
pub fn expand(
    alloc: Global,
    level: &Level,
    counts: &[u32],
    order: &[Turn],
) -> Result<SingleRate, AllocError>
    requires repetition { IsRepetition level.now counts.now }
    requires order { IsTurnOrder level.now counts.now order.now }
    requires limits { IsWithinLimits level.now counts.now }
    ensures nodes { IfOk result (λ g. g.nodes ≡ nodes level.now counts.now order.now) }
    ensures edges { IfOk result (λ g. g.edges ≡ edges level.now counts.now order.now) }
    ensures ranks { IfOk result (λ g. AreRanks (length g.nodes) g.edges g.ranks) }
    ensures rising { IfOk result (λ g. All (λ e. slice_index g.ranks e.tail < slice_index g.ranks e.head) g.edges) }
    ensures ends { IfOk result (λ g. All (λ e. (e.tail < length g.nodes) × (e.head < length g.nodes)) g.edges) }
    ensures small { IfOk result (λ g. IsSmall g.nodes g.edges) }
    ensures named { IfOk result (λ g. IsFlow (names level.now) (by_nodes g.nodes g.edges) (named level.now counts.now)) }
    ensures one_flow { IfOk result (λ g. (on : List (List TokenName)) → IsFlow (names level.now) (by_nodes g.nodes g.edges) on → on ≡ named level.now counts.now) }
    ensures delivers { IfOk result (λ g. Delivers level.now counts.now (names level.now) (by_nodes g.nodes g.edges) (named level.now counts.now) (actors_of order.now)) }
{
    let _actors = level.actors;
    repetition_suffices();
    let wires = expand_links(alloc, level, counts)?;
    let nodes = expand_nodes(alloc, level, order, &wires)?;
    let edges = number_edges(alloc, &nodes, &wires)?;
    let ranks = longest(alloc, nodes.len() as u32, &edges)?;
    Ok(SingleRate {
        nodes: List::new(nodes),
        edges: List::new(edges),
        ranks: List::new(ranks),
    })
}
