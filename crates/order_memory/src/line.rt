// The line of a graph: the order in which every place holds the least node that may stand there.
ghost use Rattle.std.specs.Prelude.{◌≡◌, ℕ, ◌+◌, ◌<◌, ◌≤◌, ◌⊎◌, ◌↔◌, ◌^◌, List, length, slice_index, All, Contains, IfOk, OnOk};
ghost use Rattle.sdf_level.specs.Lists.{occurrences};
ghost use Rattle.worker_mapping.specs.Graph.{AreThere, Rise};
ghost use Rattle.worker_mapping.specs.Release.{ArePlacesOfZero};
ghost use Rattle.order_memory.specs.Line.{IsLine};

use crate::grouping::grouped;
use std::alloc::{AllocError, Global};
use std::collections::BTreeSet;
use worker_mapping::edges_before;

/// The nodes to which no edge leads.
fn first_open(alloc: Global, waiting: &[usize]) -> Result<BTreeSet<u32>, AllocError>
    requires { length waiting.now < 2 ^ 32 }
    ensures { IfOk result (λ open_nodes. ArePlacesOfZero waiting.now open_nodes.keys) }
{
    let mut open_nodes = BTreeSet::new(alloc);
    for (node, count) in waiting.iter().enumerate() {
        if *count == 0 {
            open_nodes.insert(node as u32)?;
        }
    }
    Ok(open_nodes)
}

/// A node more stands in the line: these, at the edges that leave it, wait for one node less each.
fn release(heads: &[u32], waiting: &mut [usize])
    requires there { All (λ n. n < length waiting.old) heads.now }
    requires enough { (n : ℕ) → occurrences n heads.now ≤ slice_index waiting.old n }
    ensures { (n : ℕ) → slice_index waiting.new n + occurrences n heads.now ≡ slice_index waiting.old n }
{
    for head in heads {
        waiting[*head as usize] -= 1;
    }
}

/// Those of these that wait for none may stand in the line.
fn enter(heads: &[u32], waiting: &[usize], open_nodes: &mut BTreeSet<u32>) -> Result<(), AllocError>
    requires { All (λ n. n < length waiting.now) heads.now }
    ensures { OnOk result ((n : ℕ) → Contains open_nodes.new.keys n
        ↔ (Contains open_nodes.old.keys n ⊎ (Contains heads.now n × (slice_index waiting.now n ≡ 0)))) }
{
    for head in heads {
        if waiting[*head as usize] == 0 {
            open_nodes.insert(*head)?;
        }
    }
    Ok(())
}

/// The line of a graph without a cycle. It takes time near linear in the edges and nodes.
pub(crate) fn line_of(
    alloc: Global,
    nodes: u32,
    edges: &[(u32, u32)],
) -> Result<Vec<u32>, AllocError>
    requires edges { AreThere nodes edges.now }
    requires acyclic { (ranks : List ℕ) × Rise ranks edges.now }
    ensures line { IfOk result (λ line. IsLine nodes edges.now line.items) }
    ensures long { IfOk result (λ line. length line.items ≡ nodes) }
{
    let after = grouped(alloc, nodes, edges)?;
    // for each node how many edges lead to it from nodes that aren't in the line
    let mut waiting = edges_before(alloc, nodes, edges)?;
    // the nodes that aren't in the line and wait for none
    let mut open_nodes = first_open(alloc, &waiting)?;
    let mut line = Vec::with_capacity(alloc, nodes as usize)?;
    while let Some(node) = open_nodes.pop_first() {
        line.push(node)?;
        let heads = &after[node as usize];
        release(heads, &mut waiting);
        enter(heads, &waiting, &mut open_nodes)?;
    }
    Ok(line)
}
