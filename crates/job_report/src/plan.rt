// The text of a plan.
ghost use Rattle.std.specs.Prelude.{◌≡◌, ◌++◌, IfOk, OnOk, string_bytes};
ghost use Rattle.job_report.specs.Plan.{edge_row, edge_rows, height_row, kind_word, node_name, node_row, node_rows, order_row, order_rows, plan_text, repetition_row, repetition_rows};

use crate::names::JobNames;
use crate::values::{large_at, name_at, small_at};
use job_compiler::Compiled;
use sdf_level::{Edge, Node, Turn};
use std::alloc::{AllocError, Global};
use std::fmt::Write;

fn push_repetition(
    text: &mut String,
    names: &JobNames,
    actor: usize,
    count: u32,
) -> Result<(), AllocError>
    ensures { OnOk result (string_bytes text.new ≡ string_bytes text.old ++ repetition_row names.now actor count) }
{
    let name = name_at(names.actors.items(), actor);
    text.push_str("repetition,")?;
    write!(text, "{name},{count}\n")?;
    Ok(())
}

fn push_repetitions(text: &mut String, names: &JobNames, counts: &[u32]) -> Result<(), AllocError>
    ensures { OnOk result (string_bytes text.new ≡ string_bytes text.old ++ repetition_rows names.now counts.now) }
{
    for (actor, count) in counts.iter().enumerate() {
        push_repetition(text, names, actor, *count)?;
    }
    Ok(())
}

fn push_turn(text: &mut String, names: &JobNames, turn: Turn) -> Result<(), AllocError>
    ensures { OnOk result (string_bytes text.new ≡ string_bytes text.old ++ order_row names.now turn) }
{
    let name = name_at(names.actors.items(), turn.actor as usize);
    let number = turn.turn;
    write!(text, "order,{name},{number}\n")
}

fn push_order(text: &mut String, names: &JobNames, order: &[Turn]) -> Result<(), AllocError>
    ensures { OnOk result (string_bytes text.new ≡ string_bytes text.old ++ order_rows names.now order.now) }
{
    for turn in order {
        push_turn(text, names, *turn)?;
    }
    Ok(())
}

fn kind_word(node: Node) -> &'static str
    ensures { result.now ≡ kind_word node }
{
    match node {
        Node::Source(_) => "source",
        Node::Init(_) => "init",
        Node::Firing { .. } => "firing",
        Node::Broadcast(_) => "broadcast",
        Node::Fork { .. } => "fork",
        Node::Join { .. } => "join",
        Node::Round(_) => "round",
        Node::End(_) => "end",
        Node::Sink(_) => "sink",
    }
}

fn push_node_name(text: &mut String, names: &JobNames, node: Node) -> Result<(), AllocError>
    ensures { OnOk result (string_bytes text.new ≡ string_bytes text.old ++ node_name names.now node) }
{
    match node {
        Node::Source(source) => text.push_str(name_at(names.sources.items(), source as usize)),
        Node::Sink(sink) => text.push_str(name_at(names.sinks.items(), sink as usize)),
        Node::Firing { actor, turn } => {
            let name = name_at(names.actors.items(), actor as usize);
            write!(text, "{name}:{turn}")
        }
        Node::Init(link) => write!(text, "{link}"),
        Node::Broadcast(link) => write!(text, "{link}"),
        Node::Fork { link, .. } => write!(text, "{link}"),
        Node::Join { link, .. } => write!(text, "{link}"),
        Node::Round(link) => write!(text, "{link}"),
        Node::End(link) => write!(text, "{link}"),
    }
}

fn push_node(
    text: &mut String,
    names: &JobNames,
    home: u32,
    priority: u64,
    id: usize,
    node: Node,
) -> Result<(), AllocError>
    ensures { OnOk result (string_bytes text.new ≡ string_bytes text.old ++ node_row names.now home priority id node) }
{
    let kind = kind_word(node);
    write!(text, "node,{id},{kind},")?;
    push_node_name(text, names, node)?;
    write!(text, ",{home},{priority}\n")
}

fn push_nodes(
    text: &mut String,
    names: &JobNames,
    homes: &[u32],
    priorities: &[u64],
    nodes: &[Node],
) -> Result<(), AllocError>
    ensures { OnOk result (string_bytes text.new ≡ string_bytes text.old ++ node_rows names.now homes.now priorities.now nodes.now) }
{
    for (id, node) in nodes.iter().enumerate() {
        push_node(
            text,
            names,
            small_at(homes, id),
            large_at(priorities, id),
            id,
            *node,
        )?;
    }
    Ok(())
}

fn push_edge(text: &mut String, offset: u32, id: usize, edge: Edge) -> Result<(), AllocError>
    ensures { OnOk result (string_bytes text.new ≡ string_bytes text.old ++ edge_row offset id edge) }
{
    let Edge {
        tail,
        head,
        size,
        ..
    } = edge;
    write!(text, "edge,{id},{tail},{head},{size},{offset}\n")
}

fn push_edges(text: &mut String, offsets: &[u32], edges: &[Edge]) -> Result<(), AllocError>
    ensures { OnOk result (string_bytes text.new ≡ string_bytes text.old ++ edge_rows offsets.now edges.now) }
{
    for (id, edge) in edges.iter().enumerate() {
        push_edge(text, small_at(offsets, id), id, *edge)?;
    }
    Ok(())
}

pub(crate) fn push_height(text: &mut String, height: u32) -> Result<(), AllocError>
    ensures { OnOk result (string_bytes text.new ≡ string_bytes text.old ++ height_row height) }
{
    write!(text, "height,{height}\n")
}

/// The plan of a job: a row for each actor with how often it fires, for each firing in the order of one thread, for each
/// node of the single-rate graph with its home and priority, and for each edge with its offset, and the height of the cells.
pub(crate) fn plan_text(
    alloc: Global,
    names: &JobNames,
    job: &Compiled,
) -> Result<String, AllocError>
    ensures { IfOk result (λ text. string_bytes text ≡ plan_text names.now job.now) }
{
    let graph = job.graph();
    let mapping = job.mapping();
    let placement = job.placement();
    let mut text = String::new(alloc);
    push_repetitions(&mut text, names, job.counts())?;
    push_order(&mut text, names, job.order())?;
    push_nodes(
        &mut text,
        names,
        mapping.home.items(),
        mapping.priority.items(),
        graph.nodes.items(),
    )?;
    push_edges(&mut text, placement.offsets.items(), graph.edges.items())?;
    push_height(&mut text, placement.height)?;
    Ok(text)
}
