// The numbers of nodes, found without a search.
ghost use Rattle.std.specs.Prelude.{ℕ, ◌≡◌, ◌==◌, ◌+◌, ◌<◌, ◌≤◌, ◌^◌, [], length, set, slice_index, slice_index_or, if◌then◌else◌, OnOk, IfOk};
ghost use Rattle.sdf_level.specs.Lists.{lists_of};
ghost use Rattle.sdf_level.specs.declared.node.Node.{Node};
ghost use Rattle.single_rate.specs.Nodes.{same};
ghost use Rattle.single_rate.specs.Numbers.{row_of, column_of, number_in, AreNumbered};

use sdf_level::Node;
use std::alloc::{AllocError, Global};

/// The row that has a node's number.
fn row(node: Node) -> usize
    ensures { result ≡ row_of node }
{
    match node {
        Node::Source(_) => 0,
        Node::Init(_) => 1,
        Node::End(_) => 2,
        Node::Sink(_) => 3,
        Node::Broadcast(_) => 4,
        Node::Round(_) => 5,
        Node::Firing { actor, .. } => 3 * actor as usize + 6,
        Node::Fork { link, .. } => 3 * link as usize + 7,
        Node::Join { link, .. } => 3 * link as usize + 8,
    }
}

/// Its place in that row.
fn column(node: Node) -> usize
    ensures { result ≡ column_of node }
{
    match node {
        Node::Source(source) => source as usize,
        Node::Init(link) => link as usize,
        Node::End(link) => link as usize,
        Node::Sink(sink) => sink as usize,
        Node::Broadcast(link) => link as usize,
        Node::Round(link) => link as usize,
        Node::Firing { turn, .. } => turn as usize,
        Node::Fork { turn, .. } => turn as usize,
        Node::Join { turn, .. } => turn as usize,
    }
}

/// Makes a row at least as long as this.
fn lengthen(row: &mut Vec<u32>, count: usize) -> Result<(), AllocError>
    ensures same { OnOk result ((c : ℕ) → slice_index row.new.items c ≡ slice_index row.old.items c) }
    ensures long { OnOk result (count ≤ length row.new.items) }
{
    while row.len() < count {
        row.push(0)?;
    }
    Ok(())
}

/// Makes so many rows at least.
fn add_rows(alloc: Global, rows: &mut Vec<Vec<u32>>, count: usize) -> Result<(), AllocError>
    ensures same { OnOk result ((r : ℕ) → slice_index_or (lists_of rows.new.items) r [] ≡ slice_index_or (lists_of rows.old.items) r []) }
    ensures many { OnOk result (count ≤ length rows.new.items) }
{
    while rows.len() < count {
        rows.push(Vec::new(alloc))?;
    }
    Ok(())
}

/// Writes a number into a row, which is made long enough.
fn write(row: &mut Vec<u32>, column: usize, number: u32) -> Result<(), AllocError>
    requires { column + 1 < 2 ^ 64 }
    ensures { OnOk result ((c : ℕ) → slice_index row.new.items c ≡ (if c == column then number else slice_index row.old.items c)) }
{
    lengthen(row, column + 1)?;
    row[column] = number;
    Ok(())
}

/// Writes the number of a node.
fn put(alloc: Global, rows: &mut Vec<Vec<u32>>, node: Node, number: u32) -> Result<(), AllocError>
    ensures { OnOk result ((n : Node) → number_in (lists_of rows.new.items) n ≡ (if same n node then number else number_in (lists_of rows.old.items) n)) }
{
    let row = row(node);
    add_rows(alloc, rows, row + 1)?;
    write(&mut rows[row], column(node), number)?;
    Ok(())
}

/// The numbers of these nodes, by rows: a node's number is its first place in the list.
pub fn number_all(alloc: Global, nodes: &[Node]) -> Result<Vec<Vec<u32>>, AllocError>
    requires { length nodes.now < 2 ^ 32 }
    ensures { IfOk result (λ v. AreNumbered nodes.now (lists_of v.items)) }
{
    let mut rows = Vec::new(alloc);
    let mut left = nodes.len();
    while 0 < left {
        left -= 1;
        put(alloc, &mut rows, nodes[left], left as u32)?;
    }
    Ok(rows)
}

/// The number of a node, or 0 where it has none.
pub fn number(rows: &[Vec<u32>], node: Node) -> u32
    ensures { result ≡ number_in (lists_of rows.now) node }
{
    match rows.get(row(node)) {
        Some(row) => match row.get(column(node)) {
            Some(number) => *number,
            None => 0,
        },
        None => 0,
    }
}
