// What is known of the graphs that actors name, and of a level before its run.
ghost use Rattle.std.specs.Prelude.{◌≡◌, ◌<◌, [], length, slice_get, slice_index_or, Some, IfOk};
ghost use Rattle.param_resolver.specs.EarlyView.{EarlyView};
ghost use Rattle.pisdf_meaning.specs.Configuring.{early_in};
ghost use Rattle.pisdf_meaning.specs.Nested.{outs_count, rates_count};
ghost use Rattle.pisdf_meaning.specs.PartsOf.{ArePartsOf};
ghost use Rattle.pisdf_meaning.specs.Prepared.{IsPrepared};
ghost use Rattle.pisdf_meaning.specs.Running.{source_tokens};

use crate::firing::{Configured, Firing};
use crate::parts::Prepared;
use crate::sources::source_tokens;
use level_lines::ports_of;
use param_resolver::{Early, LevelSet};
use pisdf_model::Graph;
use sdf_level::List;
use std::alloc::{AllocError, Global};

/// The rates at a place, or none.
pub fn rates_at(lists: &[List<u32>], place: usize) -> &[u32]
    ensures { result.now ≡ slice_index_or lists.now place [] }
{
    match lists.get(place) {
        Some(rates) => rates.items(),
        None => &[],
    }
}

/// What is known of the graph that the actor of this number names.
pub(crate) fn child_known(children: &[Option<Early>], number: usize) -> &Early
    requires { (e : EarlyView) × (slice_get children.now number ≡ Some (Some e)) }
    ensures { slice_get children.now number ≡ Some (Some result.now) }
{
    match &children[number] {
        Some(early) => early,
        None => unreachable!(),
    }
}

/// What the firings of a level's actors are made of.
pub(crate) fn prepared(
    alloc: Global,
    graphs: &[Graph],
    graph: &Graph,
    firing: &Firing,
    configured: &[Configured],
    parts: LevelSet,
    values: List<i64>,
) -> Result<Prepared, AllocError>
    requires parts { ArePartsOf graphs.now graph.now (early_in graphs.now firing.now) values parts }
    requires outs { outs_count configured.now ≡ rates_count (early_in graphs.now firing.now).outs }
    ensures prepared { IfOk result (IsPrepared graphs.now graph.now firing.now) }
    ensures parts { IfOk result (λ p. p.parts ≡ parts) }
    ensures values { IfOk result (λ p. p.values ≡ values) }
    ensures sources { IfOk result (λ p. p.sources ≡ source_tokens graph.now firing.now configured.now) }
{
    let ports = ports_of(alloc, &parts.level)?;
    let sources = source_tokens(alloc, graph, firing, configured)?;
    Ok(Prepared {
        parts,
        ports,
        sources,
        values,
    })
}
