// The level of a graph in one of its firings.
ghost use Rattle.std.specs.Prelude.{◌≡◌, length, slice_get, Ok, Err, Some, IfOk, IfErr, OnOk};
ghost use Rattle.pisdf_model.specs.Valid.{AreValid};
ghost use Rattle.pisdf_meaning.specs.Configuring.{early_in};
ghost use Rattle.pisdf_meaning.specs.Endings.{IfRefused};
ghost use Rattle.pisdf_meaning.specs.PartsOf.{ArePartsOf};
ghost use Rattle.pisdf_meaning.specs.Preparing.{rated};
ghost use Rattle.pisdf_meaning.specs.TopLevel.{IsLevelSet};

use crate::causes::level_refused;
use crate::firing::Firing;
use crate::refusal::PlainFault;
use level_lines::Ports;
use param_resolver::{Early, LevelSet, level_by_actor, level_of};
use pisdf_model::{Graph, Graphs};
use sdf_level::List;
use std::alloc::Global;

/// What the firings of a level's actors are made of.
#[derive(Drop)]
pub(crate) struct Prepared {
    pub(crate) parts: LevelSet,
    /// The links at each actor of the level.
    pub(crate) ports: Ports,
    /// The tokens of each source.
    pub(crate) sources: List<List<i64>>,
    /// The values of the graph's parameters.
    pub(crate) values: List<i64>,
}

/// The level of a graph whose parameters have these values, or the refusal of its firing for the first rate or argument
/// that has none.
pub fn parts_of(
    alloc: Global,
    graphs: &Graphs,
    graph: &Graph,
    early: &Early,
    firing: &Firing,
    values: &[i64],
) -> Result<LevelSet, PlainFault>
    requires valid { AreValid graphs.now }
    requires here { slice_get graphs.now.graphs firing.now.graph ≡ Some graph.now }
    requires early { early.now ≡ early_in graphs.now.graphs firing.now }
    requires each { length values.now ≡ length graph.now.params }
    ensures set { IfOk result (IsLevelSet graphs.now.graphs graph.now firing.now values.now) }
    ensures parts { IfOk result (λ parts. ArePartsOf graphs.now.graphs graph.now early.now values.now parts) }
    ensures rated { OnOk result (rated graphs.now.graphs graph.now firing.now values.now ≡ Ok values.now) }
    ensures refused { IfErr result (IfRefused (λ refusal. rated graphs.now.graphs graph.now firing.now values.now ≡ Err refusal)) }
{
    level_by_actor();
    match level_of(alloc, graphs, firing.graph, early, values) {
        Ok(set) => Ok(set),
        Err(fault) => Err(level_refused(alloc, graphs.graphs.items(), graph, &firing.path, fault)),
    }
}
