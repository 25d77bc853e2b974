// What lies ready for the frame of a node beside its ports: the tokens that it reads, or cells for those that it keeps.
ghost use Rattle.std.specs.Prelude.{ℕ, ◌≡◌, ◌+◌, ◌<◌, ◌≤◌, ◌≢◌, ◌++◌, [], None, Some, false, if◌then◌else◌, length, slice_index_or, vec_capacity, IfOk, OnOk};
ghost use Rattle.sdf_level.specs.declared.node.Node.{Node as NodeView};
ghost use Rattle.kernel_gate.specs.Rooms.{IsEmptied, size_of};
ghost use Rattle.one_job.specs.Opening.{stored_in, AreMade, StandOnce};
ghost use Rattle.one_job.specs.Ports.{reads_stored as is_read, writes_stored as is_written, port_size, row_of};
ghost use Rattle.one_job.specs.Stock.{IsStock};
ghost use Rattle.one_job.specs.Taking.{IsStored, own};
ghost use Rattle.one_job.specs.View.{args_at, kind_at};

use crate::nodes::{args_of, kind_of, reads_stored, writes_stored};
use crate::opening::{take_read, written_by};
use job_compiler::{Port, Rows};
use kernel_gate::Lent;
use sdf_level::{Edge, List, Node};
use split_block::Lease;
use std::alloc::{AllocError, Global};
use std::mem;

/// Puts tokens that lie ready as a lease into a list, if they are stored. The list has room for it.
fn put_stored(stored: bool, stock: &mut List<i64>, leases: &mut Vec<Lease>, alloc: Global)
    requires empty { leases.old.items ≡ [] }
    requires room { own stored ≤ vec_capacity leases.old }
    ensures stored { IsStored stored stock.old leases.new.items }
    ensures capacity { vec_capacity leases.new ≡ vec_capacity leases.old }
    ensures stock { stored ≡ false → stock.new ≡ stock.old }
{
    if stored {
        let tokens = mem::replace(stock, List::new(Vec::new(alloc)));
        leases.push_reserved(Lease::from_vec(tokens.into_items()));
    }
}

/// Adds values to a list that has room for them.
fn put_values(list: &mut Vec<i64>, values: &[i64])
    requires room { length list.old.items + length values.now ≤ vec_capacity list.old }
    ensures items { list.new.items ≡ list.old.items ++ values.now }
    ensures capacity { vec_capacity list.new ≡ vec_capacity list.old }
{
    for value in values {
        list.push_reserved(*value);
    }
}

/// Puts into the lists of an empty frame what a node has beside its ports: its kind, its arguments, and its stored tokens.
pub(crate) fn begin(
    lent: &mut Lent,
    node: Node,
    kinds: &[Option<u32>],
    args: &[List<i64>],
    stock: &mut List<i64>,
    alloc: Global,
)
    requires empty { IsEmptied lent.old }
    requires args { length (args_at args.now node) ≤ vec_capacity lent.old.args }
    requires inputs { own (is_read node) ≤ vec_capacity lent.old.inputs }
    requires outputs { own (is_written node) ≤ vec_capacity lent.old.outputs }
    ensures made_of { (lent.new.kind ≡ kind_at kinds.now node) × (lent.new.args.items ≡ args_at args.now node) × (lent.new.sets.items ≡ []) }
    ensures inputs { IsStored (is_read node) stock.old lent.new.inputs.items }
    ensures outputs { IsStored (is_written node) stock.old lent.new.outputs.items }
    ensures size { size_of lent.new ≡ size_of lent.old }
{
    lent.kind = kind_of(node, kinds);
    put_values(&mut lent.args, args_of(node, args));
    put_stored(reads_stored(node), stock, &mut lent.inputs, alloc);
    put_stored(writes_stored(node), stock, &mut lent.outputs, alloc);
}

/// What lies ready for a node that reads from these ports. The tokens that it reads are taken out of those of all sources and links.
fn stock_of(
    alloc: Global,
    node: Node,
    edges: &[Edge],
    ins: &[Port],
    sources: &mut [List<i64>],
    stored: &mut [List<i64>],
) -> Result<List<i64>, AllocError>
    requires { (e : ℕ) → slice_index_or ins.now 0 None ≡ Some e → e < length edges.now }
    ensures stock { IfOk result (λ tokens. IsStock node (stored_in sources.old stored.old node) (port_size edges.now (slice_index_or ins.now 0 None)) tokens) }
    ensures others { OnOk result ((other : NodeView) → other ≢ node → stored_in sources.new stored.new other ≡ stored_in sources.old stored.old other) }
{
    if writes_stored(node) {
        Ok(List::new(written_by(alloc, edges, ins)?))
    } else {
        Ok(take_read(alloc, node, sources, stored))
    }
}

/// For each node what lies ready for it, with the tokens of the sources and links moved into it. The list is made in memory that is
/// there, and more is taken only where that is too little.
pub(crate) fn make_stock(
    alloc: Global,
    mut stock: Vec<List<i64>>,
    nodes: &[Node],
    edges: &[Edge],
    entering: &Rows,
    sources: &mut [List<i64>],
    stored: &mut [List<i64>],
) -> Result<Vec<List<i64>>, AllocError>
    requires rows { length entering.now ≡ length nodes.now }
    requires there { (n e : ℕ) → slice_index_or (slice_index_or entering.now n []) 0 None ≡ Some e → e < length edges.now }
    requires once { StandOnce nodes.now }
    ensures { IfOk result (λ v. AreMade nodes.now edges.now entering.now sources.old stored.old v.items) }
{
    stock.clear();
    stock.reserve(nodes.len())?;
    for n in 0..nodes.len() {
        let ready = stock_of(alloc, nodes[n], edges, entering.row(n), sources, stored)?;
        stock.push(ready)?;
    }
    Ok(stock)
}
