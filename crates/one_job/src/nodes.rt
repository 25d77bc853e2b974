// What the kinds of nodes are.
ghost use Rattle.std.specs.Prelude.{◌≡◌, slice_set};
ghost use Rattle.one_job.specs.Ports.{reads_stored as is_read, writes_stored as is_written, with_left, with_out};
ghost use Rattle.one_job.specs.View.{args_at, kind_at};
ghost use Rattle.one_job.specs.Pick.{is_child_in};

use sdf_level::{List, Node};

/// Whether it reads tokens that are stored, and none that arrive.
pub(crate) fn reads_stored(node: Node) -> bool
    ensures { result ≡ is_read node }
{
    match node {
        Node::Source(_) => true,
        Node::Init(_) => true,
        _ => false,
    }
}

/// Whether the tokens that it writes are stored.
pub(crate) fn writes_stored(node: Node) -> bool
    ensures { result ≡ is_written node }
{
    match node {
        Node::End(_) => true,
        Node::Sink(_) => true,
        _ => false,
    }
}

/// The kind of its actor where it is a firing and the actor has one, else 0.
pub(crate) fn kind_of(node: Node, kinds: &[Option<u32>]) -> u32
    ensures { result ≡ kind_at kinds.now node }
{
    match node {
        Node::Firing { actor, turn: _ } => match kinds.get(actor as usize) {
            Some(Some(kind)) => *kind,
            _ => 0,
        },
        _ => 0,
    }
}

/// The arguments of its actor where it is a firing, else none.
pub(crate) fn args_of<'a>(node: Node, args: &'a [List<i64>]) -> &'a [i64]
    ensures { result.now ≡ args_at args.now node }
{
    match node {
        Node::Firing { actor, turn: _ } => match args.get(actor as usize) {
            Some(list) => list.items(),
            None => &[],
        },
        _ => &[],
    }
}

/// Whether it is a firing of an actor that has no kernel.
pub(crate) fn is_child(node: Node, kinds: &[Option<u32>]) -> bool
    ensures { result ≡ is_child_in kinds.now node }
{
    match node {
        Node::Firing { actor, turn: _ } => match kinds.get(actor as usize) {
            Some(Some(_)) => false,
            _ => true,
        },
        _ => false,
    }
}

/// Keeps the tokens that an End or a Sink has written: each has a list of its own among those of its kind.
pub(crate) fn keep_tokens(
    node: Node,
    tokens: Vec<i64>,
    left: &mut [List<i64>],
    outs: &mut [List<i64>],
)
    ensures left { left.new ≡ with_left node tokens.items left.old }
    ensures outs { outs.new ≡ with_out node tokens.items outs.old }
{
    match node {
        Node::End(link) => put_tokens(left, link, tokens),
        Node::Sink(sink) => put_tokens(outs, sink, tokens),
        _ => {}
    }
}

/// Puts tokens at a place of a list that has it.
fn put_tokens(lists: &mut [List<i64>], at: u32, tokens: Vec<i64>)
    ensures { lists.new ≡ slice_set lists.old at tokens.items }
{
    let at = at as usize;
    if at < lists.len() {
        lists[at] = List::new(tokens);
    }
}
