// What a job takes at its start.
ghost use Rattle.std.specs.Prelude.{ℤ, List as Seq, ◌≡◌, ◌≢◌, ◌<◌, [], Some, None, ℕ, length, map, replicate, slice_index_or, slice_set, IfOk};
ghost use Rattle.sdf_level.specs.declared.node.Node.{Node as NodeView};
ghost use Rattle.one_job.specs.Marks.{Free};
ghost use Rattle.one_job.specs.Ports.{port_size};
ghost use Rattle.one_job.specs.Staged.{mark_of};
ghost use Rattle.one_job.specs.Opening.{stored_in};

use crate::stage::Stage;
use job_compiler::Port;
use sdf_level::{Edge, List, Node};
use std::alloc::{AllocError, Global};
use std::mem;

/// The list at a place, which is empty then; an empty one where there is none.
fn take_list(alloc: Global, lists: &mut [List<i64>], at: u32) -> List<i64>
    ensures taken { result ≡ slice_index_or lists.old at [] }
    ensures left { lists.new ≡ slice_set lists.old at [] }
{
    let place = at as usize;
    let empty = List::new(Vec::new(alloc));
    if place < lists.len() {
        mem::replace(&mut lists[place], empty)
    } else {
        empty
    }
}

/// Takes the tokens that a Source or an Init reads out of those of all sources and links. Those of other nodes stay.
pub(crate) fn take_read(
    alloc: Global,
    node: Node,
    sources: &mut [List<i64>],
    stored: &mut [List<i64>],
) -> List<i64>
    ensures read { result ≡ stored_in sources.old stored.old node }
    ensures others { (other : NodeView) → other ≢ node → stored_in sources.new stored.new other ≡ stored_in sources.old stored.old other }
{
    match node {
        Node::Source(source) => take_list(alloc, sources, source),
        Node::Init(link) => take_list(alloc, stored, link),
        _ => List::new(Vec::new(alloc)),
    }
}

/// How many tokens the first port has.
fn first_size(edges: &[Edge], ports: &[Port]) -> u32
    requires { (e : ℕ) → slice_index_or ports.now 0 None ≡ Some e → e < length edges.now }
    ensures { result ≡ port_size edges.now (slice_index_or ports.now 0 None) }
{
    if ports.is_empty() {
        return 0;
    }
    match ports[0].edge() {
        Some(edge) => edges[edge as usize].size,
        None => 0,
    }
}

/// Cells for the tokens that an End or a Sink with these ports writes.
pub(crate) fn written_by(
    alloc: Global,
    edges: &[Edge],
    ports: &[Port],
) -> Result<Vec<i64>, AllocError>
    requires { (e : ℕ) → slice_index_or ports.now 0 None ≡ Some e → e < length edges.now }
    ensures { IfOk result (λ v. length v.items ≡ port_size edges.now (slice_index_or ports.now 0 None)) }
{
    vec![in alloc; 0i64; first_size(edges, ports) as usize]
}

/// So many free nodes.
pub(crate) fn free_stages(alloc: Global, count: usize) -> Result<Vec<Stage>, AllocError>
    ensures { IfOk result (λ v. map mark_of v.items ≡ replicate count Free) }
{
    let mut stages = Vec::with_capacity(alloc, count)?;
    for _n in 0..count {
        stages.push_reserved(Stage::Free);
    }
    Ok(stages)
}

/// So many empty lists of tokens.
pub(crate) fn no_tokens(alloc: Global, count: usize) -> Result<Vec<List<i64>>, AllocError>
    ensures { IfOk result (λ v. v.items ≡ replicate count []) }
{
    let mut lists = Vec::with_capacity(alloc, count)?;
    for _n in 0..count {
        lists.push(List::new(Vec::new(alloc)))?;
    }
    Ok(lists)
}
