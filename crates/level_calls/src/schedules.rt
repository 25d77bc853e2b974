// Schedules of levels, and their single-rate graphs.
use crate::solving::text_of_turns;
use case_rows::{Trouble, answer_in, level_of};
use level_schedule::{LevelSchedule, Unscheduled, What, schedule};
use sdf_level::{Edge, Node, SingleRate};
use serde_json::Value;
use single_rate::expand;
use std::alloc::{AllocError, Global};
use std::fmt::Write;

/// What is over its limit, with its count.
fn limit_text(alloc: Global, what: What, value: u64) -> Result<String, AllocError> {
    let word = match what {
        What::Firings => "firings",
        What::Links => "links",
        What::Tokens => "tokens",
    };
    format!(in alloc; "\"{word} {value}\"")
}

/// Why a level has no schedule and no compilation: `rates`; or what is over its limit; or a deadlock, with the counts left.
pub fn fault_text(alloc: Global, fault: &Unscheduled) -> Result<String, AllocError> {
    match fault {
        Unscheduled::Rates => format!(in alloc; "\"rates\""),
        Unscheduled::Limit { what, value } => limit_text(alloc, *what, *value),
        Unscheduled::Deadlock { left } => {
            let left = left.items();
            format!(in alloc; "[\"deadlock\", {left:?}]")
        }
        Unscheduled::Memory => Err(AllocError),
    }
}

/// The one-thread order and the repetition vector.
fn schedule_text(alloc: Global, schedule: &LevelSchedule) -> Result<String, AllocError> {
    let order = text_of_turns(alloc, schedule.order.items())?;
    let counts = schedule.counts.items();
    format!(in alloc; "[{order:?}, {counts:?}]")
}

/// The one-thread order and the repetition vector of the row's level, or why it has none.
pub fn scheduled(alloc: Global, row: &Value) -> Result<Value, Trouble> {
    let level = level_of(alloc, row)?;
    let text = match schedule(alloc, &level) {
        Ok(schedule) => schedule_text(alloc, &schedule),
        Err(fault) => fault_text(alloc, &fault),
    };
    answer_in(alloc, text)
}

fn push_node(text: &mut String, node: Node) -> Result<(), AllocError> {
    match node {
        Node::Source(source) => write!(text, "source:{source} "),
        Node::Init(link) => write!(text, "init:{link} "),
        Node::Firing { actor, turn } => write!(text, "firing:{actor}.{turn} "),
        Node::Broadcast(link) => write!(text, "broadcast:{link} "),
        Node::Fork { link, turn } => write!(text, "fork:{link}.{turn} "),
        Node::Join { link, turn } => write!(text, "join:{link}.{turn} "),
        Node::Round(link) => write!(text, "round:{link} "),
        Node::End(link) => write!(text, "end:{link} "),
        Node::Sink(sink) => write!(text, "sink:{sink} "),
    }
}

/// The nodes in their order.
pub fn text_of_nodes(alloc: Global, nodes: &[Node]) -> Result<String, AllocError> {
    let mut text = String::new(alloc);
    for node in nodes {
        push_node(&mut text, *node)?;
    }
    Ok(text)
}

/// The edges: of each its tail and the port there, its head and the port there, and its size.
pub fn rows_of_edges(alloc: Global, edges: &[Edge]) -> Result<Vec<[u32; 5]>, AllocError> {
    let mut rows = Vec::new(alloc);
    for edge in edges {
        rows.push([
            edge.tail,
            edge.tail_port,
            edge.head,
            edge.head_port,
            edge.size,
        ])?;
    }
    Ok(rows)
}

/// The nodes, the edges and the ranks of a single-rate graph.
fn graph_text(alloc: Global, graph: &SingleRate) -> Result<String, AllocError> {
    let nodes = text_of_nodes(alloc, graph.nodes.items())?;
    let edges = rows_of_edges(alloc, graph.edges.items())?;
    let ranks = graph.ranks.items();
    format!(in alloc; "[{nodes:?}, {edges:?}, {ranks:?}]")
}

/// The single-rate graph of the row's level: its nodes, its edges and its ranks.
pub fn expanded(alloc: Global, row: &Value) -> Result<Value, Trouble> {
    let level = level_of(alloc, row)?;
    match schedule(alloc, &level) {
        Ok(schedule) => {
            let counts = schedule.counts.items();
            let graph = expand(alloc, &level, counts, schedule.order.items())?;
            answer_in(alloc, graph_text(alloc, &graph))
        }
        Err(fault) => answer_in(alloc, fault_text(alloc, &fault)),
    }
}
