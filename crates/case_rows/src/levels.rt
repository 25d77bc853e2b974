// Levels, as the rows give them.
//
// A row has the number of `actors` and the `links`, in order: `[tail, put, head, taken]` or `[tail, put, head, taken,
// delay]` is a link between two actors, `[{"source": rate}, head, taken]` one from a source, and `[tail, put,
// {"sink": rate}]` one into a sink. `{"chain": n, "put": p, "taken": t}` are the links from actor 0 to 1, from 1 to 2
// and so on, n of them. Sources, sinks and the ports of an actor are numbered in the order of the links.
use crate::building::level_with;
use crate::lines::{End, Line};
use crate::row::{items, small, small_of, small_or};
use crate::trouble::Trouble;
use sdf_level::Level;
use serde_json::Value;
use std::alloc::Global;

/// The end at a port of an actor.
fn port_of(actor: &Value, rate: &Value) -> Result<End, Trouble> {
    let actor = small_of(actor, "links")?;
    Ok(End::Actor(actor, small_of(rate, "links")?))
}

/// The end at a source or a sink, which is the item's member of this name.
fn interface_of(item: &Value, name: &'static str) -> Result<End, Trouble> {
    Ok(End::Interface(small(item, name)?))
}

/// The link between two ends, where they are there.
fn between(
    tail: Result<End, Trouble>,
    head: Result<End, Trouble>,
    delay: Result<u32, Trouble>,
) -> Result<Line, Trouble> {
    Ok(Line {
        tail: tail?,
        head: head?,
        delay: delay?,
    })
}

/// The link that an item of a row is.
fn line_of(parts: &[Value]) -> Result<Line, Trouble> {
    match parts {
        [tail, put, head, taken] => between(port_of(tail, put), port_of(head, taken), Ok(0)),
        [tail, put, head, taken, delay] => {
            let delay = small_of(delay, "links");
            between(port_of(tail, put), port_of(head, taken), delay)
        }
        [first, second, third] => {
            if first.is_object() {
                let source = interface_of(first, "source");
                return between(source, port_of(second, third), Ok(0));
            }
            let sink = interface_of(third, "sink");
            between(port_of(first, second), sink, Ok(0))
        }
        _ => Err(Trouble::Member("links")),
    }
}

fn push_chain(lines: &mut Vec<Line>, item: &Value) -> Result<(), Trouble> {
    let put = small_or(item, "put", 1)?;
    let taken = small_or(item, "taken", 1)?;
    for tail in 0..small(item, "chain")? {
        lines.push(Line {
            tail: End::Actor(tail, put),
            head: End::Actor(tail.saturating_add(1), taken),
            delay: 0,
        })?;
    }
    Ok(())
}

/// The row's links.
fn lines_of(alloc: Global, row: &Value) -> Result<Vec<Line>, Trouble> {
    let mut lines = Vec::new(alloc);
    for item in items(row, "links")? {
        match item.as_array() {
            Some(parts) => lines.push(line_of(parts.as_slice())?)?,
            None => push_chain(&mut lines, item)?,
        }
    }
    Ok(lines)
}

/// The row's level.
///
/// # Errors
///
/// [`Trouble`].
pub fn level_of(alloc: Global, row: &Value) -> Result<Level, Trouble> {
    let actors = small(row, "actors")?;
    let lines = lines_of(alloc, row)?;
    level_with(alloc, actors, lines.as_slice())
}
