// The nodes of a graph, and their numbers.
ghost use Rattle.std.specs.Prelude.{ℕ, ◌≡◌, ◌+◌, ◌<◌, ◌^◌, ◌++◌, [], ◌∷◌, ◌==◌, length, map, if◌then◌else◌, OnOk, IfOk};
ghost use Rattle.single_rate.specs.Expanded.{source_nodes, sink_nodes, init_nodes, end_nodes, firing_nodes, copies_from, started, ended, copied_nodes, nodes, edge_of};
ghost use Rattle.std.specs.List.{All};
ghost use Rattle.single_rate.specs.Numbers.{HasNumbers};
ghost use Rattle.single_rate.specs.Wires.{wires};

use crate::numbers::{number, number_all};
use crate::wire::Wire;
use sdf_level::{Edge, Level, Link, Node, Turn};
use std::alloc::{AllocError, Global};

/// Adds a Source for each source.
fn add_sources(rates: &[u32], nodes: &mut Vec<Node>) -> Result<(), AllocError>
    requires { length rates.now < 2 ^ 32 }
    ensures { OnOk result (nodes.new.items ≡ nodes.old.items ++ source_nodes 0 rates.now) }
{
    for i in 0..rates.len() {
        nodes.push(Node::Source(i as u32))?;
    }
    Ok(())
}

/// Adds a Sink for each sink.
fn add_sinks(rates: &[u32], nodes: &mut Vec<Node>) -> Result<(), AllocError>
    requires { length rates.now < 2 ^ 32 }
    ensures { OnOk result (nodes.new.items ≡ nodes.old.items ++ sink_nodes 0 rates.now) }
{
    for i in 0..rates.len() {
        nodes.push(Node::Sink(i as u32))?;
    }
    Ok(())
}

/// Adds a node that stands only where there is a delay.
fn add_if_delayed(delay: u32, node: Node, nodes: &mut Vec<Node>) -> Result<(), AllocError>
    ensures { OnOk result (nodes.new.items ≡ nodes.old.items ++ (if delay == 0 then [] else node ∷ [])) }
{
    if delay == 0 {
        Ok(())
    } else {
        nodes.push(node)?;
        Ok(())
    }
}

/// Adds an Init for each link with a delay.
fn add_inits(links: &[Link], nodes: &mut Vec<Node>) -> Result<(), AllocError>
    requires { length links.now < 2 ^ 32 }
    ensures { OnOk result (nodes.new.items ≡ nodes.old.items ++ init_nodes 0 links.now) }
{
    for i in 0..links.len() {
        add_if_delayed(links[i].delay, Node::Init(i as u32), nodes)?;
    }
    Ok(())
}

/// Adds an End for each link with a delay.
fn add_ends(links: &[Link], nodes: &mut Vec<Node>) -> Result<(), AllocError>
    requires { length links.now < 2 ^ 32 }
    ensures { OnOk result (nodes.new.items ≡ nodes.old.items ++ end_nodes 0 links.now) }
{
    for i in 0..links.len() {
        add_if_delayed(links[i].delay, Node::End(i as u32), nodes)?;
    }
    Ok(())
}

/// Adds the firings.
fn add_turns(turns: &[Turn], nodes: &mut Vec<Node>) -> Result<(), AllocError>
    ensures { OnOk result (nodes.new.items ≡ nodes.old.items ++ firing_nodes turns.now) }
{
    for i in 0..turns.len() {
        nodes.push(Node::Firing {
            actor: turns[i].actor,
            turn: turns[i].turn,
        })?;
    }
    Ok(())
}

/// Adds the node, if it is a Fork or Broadcast.
fn add_started(node: Node, nodes: &mut Vec<Node>) -> Result<(), AllocError>
    ensures { OnOk result (nodes.new.items ≡ nodes.old.items ++ started node) }
{
    match node {
        Node::Broadcast(_) | Node::Fork { .. } => {
            nodes.push(node)?;
            Ok(())
        }
        Node::Source(_) => Ok(()),
        Node::Init(_) => Ok(()),
        Node::Firing { .. } => Ok(()),
        Node::Join { .. } => Ok(()),
        Node::Round(_) => Ok(()),
        Node::End(_) => Ok(()),
        Node::Sink(_) => Ok(()),
    }
}

/// Adds the node, if it is a Join or Round.
fn add_ended(node: Node, nodes: &mut Vec<Node>) -> Result<(), AllocError>
    ensures { OnOk result (nodes.new.items ≡ nodes.old.items ++ ended node) }
{
    match node {
        Node::Round(_) | Node::Join { .. } => {
            nodes.push(node)?;
            Ok(())
        }
        Node::Source(_) => Ok(()),
        Node::Init(_) => Ok(()),
        Node::Firing { .. } => Ok(()),
        Node::Fork { .. } => Ok(()),
        Node::Broadcast(_) => Ok(()),
        Node::End(_) => Ok(()),
        Node::Sink(_) => Ok(()),
    }
}

/// Adds the nodes that copy, each at its first or last edge.
fn add_copies(wires: &[Wire], nodes: &mut Vec<Node>) -> Result<(), AllocError>
    ensures { OnOk result (nodes.new.items ≡ nodes.old.items ++ copied_nodes wires.now) }
{
    for i in 0..wires.len() {
        add_started(wires[i].head.node, nodes)?;
        add_ended(wires[i].tail.node, nodes)?;
    }
    Ok(())
}

/// The nodes of a graph in their order, of which these are the edges.
pub fn expand_nodes(
    alloc: Global,
    level: &Level,
    turns: &[Turn],
    wires: &[Wire],
) -> Result<Vec<Node>, AllocError>
    ensures { IfOk result (λ v. v.items ≡ source_nodes 0 level.now.sources ++ init_nodes 0 level.now.links ++ firing_nodes turns.now ++ copied_nodes wires.now ++ end_nodes 0 level.now.links ++ sink_nodes 0 level.now.sinks) }
{
    let mut nodes = Vec::new(alloc);
    let links = level.links.items();
    add_sources(level.sources.items(), &mut nodes)?;
    add_inits(links, &mut nodes)?;
    add_turns(turns, &mut nodes)?;
    add_copies(wires, &mut nodes)?;
    add_ends(links, &mut nodes)?;
    add_sinks(level.sinks.items(), &mut nodes)?;
    Ok(nodes)
}

/// The edges with the numbers of their nodes.
pub fn number_edges(alloc: Global, nodes: &[Node], wires: &[Wire]) -> Result<Vec<Edge>, AllocError>
    requires few { length nodes.now < 2 ^ 32 }
    requires there { All (HasNumbers nodes.now) wires.now }
    ensures { IfOk result (λ v. v.items ≡ map (edge_of nodes.now) wires.now) }
{
    let rows = number_all(alloc, nodes)?;
    let mut edges = Vec::new(alloc);
    for i in 0..wires.len() {
        let wire = wires[i];
        edges.push(Edge {
            tail: number(&rows, wire.tail.node),
            tail_port: wire.tail.port,
            head: number(&rows, wire.head.node),
            head_port: wire.head.port,
            size: wire.size,
        })?;
    }
    Ok(edges)
}
