// The edges at the ports of the nodes of a single-rate graph.
ghost use Rattle.std.specs.Prelude.{◌≡◌, length, IfOk};
ghost use Rattle.job_compiler.specs.Rows.{IsMost};
ghost use Rattle.job_compiler.specs.Wired.{IsGraphOf, IsWiring};

use crate::ends::{counts_in, counts_out, end_counts, enter, heads, tails};
use crate::rows::Rows;
use job_flow::edges_have_ports;
use sdf_level::{Level, List, SingleRate};
use single_rate::graphs_numbered;
use std::alloc::{AllocError, Global};

/// For each node of a single-rate graph the edges at its ports, in the order of the ports.
#[derive(Debug, Drop)]
pub struct Wiring {
    /// The edges that enter each node.
    pub entering: Rows,
    /// The edges that leave it.
    pub leaving: Rows,
    /// How many edges enter it.
    pub into: List<usize>,
    /// The most ports of a node in `entering`, but 1 at least.
    pub inputs: usize,
    /// The most in `leaving`, but 1 at least.
    pub outputs: usize,
}

/// The most ports of a row, but 1 at least.
fn most_ports(rows: &Rows, nodes: usize) -> usize
    requires { nodes ≡ length rows.now }
    ensures { IsMost rows.now result }
{
    let mut most = 1;
    for n in 0..nodes {
        most = most.max(rows.row(n).len());
    }
    most
}

/// The edges at the ports of the nodes of a level's graph.
pub(crate) fn wire(alloc: Global, level: &Level, graph: &SingleRate) -> Result<Wiring, AllocError>
    requires { IsGraphOf level.now graph.now }
    ensures { IfOk result (IsWiring level.now graph.now) }
{
    edges_have_ports::<i64>();
    graphs_numbered();
    let nodes = graph.nodes.items();
    let edges = graph.edges.items();
    let links = level.links.items();
    let actors = level.actors as usize;

    let heads = heads(alloc, edges)?;
    let tails = tails(alloc, edges)?;
    let into = end_counts(alloc, nodes.len(), &heads)?;
    let from = end_counts(alloc, nodes.len(), &tails)?;
    let ins = counts_in(alloc, nodes, links, actors, &into)?;
    let outs = counts_out(alloc, nodes, links, actors, &from)?;
    let entering = enter(alloc, &ins, &heads)?;
    let leaving = enter(alloc, &outs, &tails)?;
    let inputs = most_ports(&entering, nodes.len());
    let outputs = most_ports(&leaving, nodes.len());
    Ok(Wiring {
        entering,
        leaving,
        into: List::new(into),
        inputs,
        outputs,
    })
}
