// The edges of a graph by their nodes.
ghost use Rattle.std.specs.Prelude.{◌≡◌, ◌<◌, All, IfOk};
ghost use Rattle.sdf_level.specs.Lists.{lists_of};
ghost use Rattle.sdf_level.specs.declared.single_rate.Edge.{Edge as EdgeView};
ghost use Rattle.audit_job.specs.Rows.{AreRows, end_of};

use sdf_level::{Edge, empty_lists};
use std::alloc::{AllocError, Global};

/// An end of an edge.
#[derive(Debug, Clone, Copy, PartialEq, Eq, Drop)]
pub(crate) enum Side {
    Tail,
    Head,
}

/// The node at an end of an edge.
fn end_of(edge: &Edge, side: Side) -> u32
    ensures { result ≡ end_of side edge.now }
{
    match side {
        Side::Tail => edge.tail,
        Side::Head => edge.head,
    }
}

/// For each of so many nodes the edges that have it at this end, in their order.
pub(crate) fn edges_by(
    alloc: Global,
    nodes: usize,
    edges: &[Edge],
    side: Side,
) -> Result<Vec<Vec<Edge>>, AllocError>
    requires { All (λ (e : EdgeView). end_of side e < nodes) edges.now }
    ensures { IfOk result (λ rows. AreRows side nodes edges.now (lists_of rows.items)) }
{
    let mut rows = empty_lists(alloc, nodes)?;
    for edge in edges {
        rows[end_of(edge, side) as usize].push(*edge)?;
    }
    Ok(rows)
}
