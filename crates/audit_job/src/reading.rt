// What the nodes of a job read.
ghost use Rattle.std.specs.Prelude.{◌≡◌, ◌<◌, ◌≤◌, ◌++◌, ◌∷◌, ℕ, [], All, IfOk, MatchOption, None, OnOk, Some, length, slice_index_or, if◌then◌else◌};
ghost use Rattle.std.specs.Option.{option_map};
ghost use Rattle.job_flow.specs.Frames as flow;
ghost use Rattle.job_rules.specs.Items.{node_result};
ghost use Rattle.nested_jobs.specs.Marks.{answer_of as answer_in};
ghost use Rattle.pisdf_model.specs.Hold.{in_line};
ghost use Rattle.sdf_level.specs.Lists.{lists_of};
ghost use Rattle.sdf_level.specs.declared.single_rate.Edge.{Edge as EdgeView};
ghost use Rattle.audit_job.specs.Flowing.{Arrives, flow_of, results_of, stored_in};
ghost use Rattle.audit_job.specs.Marks.{answers, mark_of};
ghost use Rattle.audit_job.specs.Rows.{HasRows};

use crate::answer::{Answer, Mark};
use crate::job::Nodes;
use crate::wires::{edges_into, keeps_state, links_into};
use pisdf_meaning::{Given, copy_tokens, tokens_at};
use sdf_level::{Edge, List, Node, empty_lists};
use std::alloc::{AllocError, Global};

/// Adds the tokens of all these lists.
fn push_lists(lists: &[List<i64>], line: &mut Vec<i64>) -> Result<(), AllocError>
    ensures { OnOk result (line.new.items ≡ line.old.items ++ in_line lists.now) }
{
    for tokens in lists {
        line.extend_from_slice(tokens.items())?;
    }
    Ok(())
}

/// Adds what a node wrote at an output port that gives this, and whose state goes on or doesn't.
fn push_given(
    given: &Given,
    keeps: bool,
    port: usize,
    line: &mut Vec<i64>,
) -> Result<(), AllocError>
    ensures { OnOk result (line.new.items ≡ line.old.items ++ slice_index_or (given.now.outs ++ (if keeps then in_line given.now.state ∷ [] else [])) port []) }
{
    let outs = given.outs.items();
    if port < outs.len() {
        return line.extend_from_slice(outs[port].items());
    }
    if port == outs.len() && keeps {
        return push_lists(given.state.items(), line);
    }
    Ok(())
}

/// Adds what a node with this mark wrote at an output port, if it gave anything.
pub(crate) fn push_written(
    mark: &Mark,
    keeps: bool,
    port: usize,
    line: &mut Vec<i64>,
) -> Result<(), AllocError>
    ensures { OnOk result (line.new.items ≡ line.old.items ++ slice_index_or (flow.given (option_map (node_result keeps) (answer_in (mark_of mark.now)))) port []) }
{
    match mark {
        Mark::Done(Answer::Gives(given)) => push_given(given, keeps, port, line),
        Mark::Done(Answer::Schedules(_)) => Ok(()),
        Mark::Done(Answer::Refuses(_)) => Ok(()),
        Mark::Free => Ok(()),
        Mark::Busy => Ok(()),
        Mark::Open(_) => Ok(()),
    }
}

/// Adds what stands on an edge to the list of the port to which it leads, if it leads to this node.
fn arrive(
    nodes: &[Node],
    marks: &[Mark],
    keeps: &[bool],
    edge: &Edge,
    node: u32,
    lines: &mut Vec<Vec<i64>>,
) -> Result<(), AllocError>
    requires nodes { edge.now.tail < length nodes.now }
    requires marks { edge.now.tail < length marks.now }
    ensures { OnOk result (Arrives (results_of nodes.now keeps.now (answers marks.now)) edge.now node (lists_of lines.old.items) (lists_of lines.new.items)) }
{
    let port = edge.head_port as usize;
    if edge.head == node && port < lines.len() {
        let tail = edge.tail as usize;
        let keeps = keeps_state(keeps, nodes[tail]);
        return push_written(
            &marks[tail],
            keeps,
            edge.tail_port as usize,
            &mut lines[port],
        );
    }
    Ok(())
}

/// The same lists.
fn as_lists(alloc: Global, lines: Vec<Vec<i64>>) -> Result<List<List<i64>>, AllocError>
    ensures { IfOk result (λ lists. lists ≡ lists_of lines.items) }
{
    let mut lists = Vec::with_capacity(alloc, lines.len())?;
    for line in lines {
        lists.push(List::new(line))?;
    }
    Ok(List::new(lists))
}

/// What arrives at the first so many ports of a node over the edges, where the nodes have these marks.
fn arriving(
    alloc: Global,
    nodes: &[Node],
    edges: &[Edge],
    marks: &[Mark],
    keeps: &[bool],
    node: u32,
    ports: usize,
) -> Result<List<List<i64>>, AllocError>
    requires nodes { All (λ (e : EdgeView). e.tail < length nodes.now) edges.now }
    requires marks { length nodes.now ≤ length marks.now }
    ensures { IfOk result (λ lists. lists ≡ flow.arriving_below edges.now (flow.on (results_of nodes.now keeps.now (answers marks.now)) edges.now) node ports) }
{
    let mut lines = empty_lists(alloc, ports)?;
    for edge in edges {
        arrive(nodes, marks, keeps, edge, node, &mut lines)?;
    }
    as_lists(alloc, lines)
}

/// Stored tokens, in a list of their own.
fn stored(alloc: Global, tokens: &[i64]) -> Result<List<List<i64>>, AllocError>
    ensures { IfOk result (λ lists. lists ≡ tokens.now ∷ []) }
{
    let mut lists = Vec::with_capacity(alloc, 1)?;
    lists.push(copy_tokens(alloc, tokens)?)?;
    Ok(List::new(lists))
}

/// The tokens of a line; none where it isn't there.
fn line_at(lines: &[Vec<i64>], place: usize) -> &[i64]
    ensures { result.now ≡ slice_index_or (lists_of lines.now) place [] }
{
    match lines.get(place) {
        Some(line) => line.as_slice(),
        None => &[],
    }
}

/// The stored tokens that a node reads, if it is a Source or an Init.
fn stored_at(job: &Nodes, which: Node) -> Option<&[i64]>
    ensures { MatchOption result (stored_in (flow_of job.now) which ≡ None) (λ tokens. stored_in (flow_of job.now) which ≡ Some tokens.now) }
{
    match which {
        Node::Source(source) => Some(tokens_at(job.sources.items(), source as usize)),
        Node::Init(link) => Some(line_at(&job.starts, link as usize)),
        Node::Firing { actor: _, turn: _ } => None,
        Node::Join { link: _, turn: _ } => None,
        Node::Round(_) => None,
        Node::End(_) => None,
        Node::Sink(_) => None,
        Node::Broadcast(_) => None,
        Node::Fork { link: _, turn: _ } => None,
    }
}

/// How many edges lead into a node of a job.
fn count_into(job: &Nodes, node: u32) -> usize
    requires there { node < length (flow_of job.now).nodes }
    requires rows { HasRows job.now }
    ensures { result ≡ flow.edges_into (flow_of job.now).edges node }
{
    edges_into(&job.into[node as usize], node)
}

/// How many input ports a node has.
fn ports_of(job: &Nodes, which: Node, node: u32) -> usize
    requires there { node < length (flow_of job.now).nodes }
    requires rows { HasRows job.now }
    ensures { result ≡ flow.ports_in (flow_of job.now) which node }
{
    match which {
        Node::Source(_) => 1,
        Node::Init(_) => 1,
        Node::Firing { actor, turn: _ } => links_into(job.set.level.links.items(), actor),
        Node::Join { link: _, turn: _ } => count_into(job, node),
        Node::Round(_) => count_into(job, node),
        Node::End(_) => 1,
        Node::Sink(_) => 1,
        Node::Broadcast(_) => 1,
        Node::Fork { link: _, turn: _ } => 1,
    }
}

/// What a node reads: a list for each input port. The nodes have these marks.
pub(crate) fn read_by(
    alloc: Global,
    job: &Nodes,
    marks: &[Mark],
    node: u32,
) -> Result<List<List<i64>>, AllocError>
    requires there { node < length (flow_of job.now).nodes }
    requires ends { All (λ (e : EdgeView). e.tail < length (flow_of job.now).nodes) (flow_of job.now).edges }
    requires rows { HasRows job.now }
    requires marks { length (flow_of job.now).nodes ≤ length marks.now }
    ensures { IfOk result (λ read. read ≡ flow.inputs (flow_of job.now) (results_of (flow_of job.now).nodes job.now.keeps.items (answers marks.now)) node) }
{
    let nodes = job.compiled.graph().nodes.items();
    let which = nodes[node as usize];
    if let Some(tokens) = stored_at(job, which) {
        return stored(alloc, tokens);
    }
    let ports = ports_of(job, which, node);
    arriving(
        alloc,
        nodes,
        &job.into[node as usize],
        marks,
        &job.keeps,
        node,
        ports,
    )
}
