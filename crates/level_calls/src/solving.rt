// The calls on levels: base vectors, repetition vectors, orders, and the links between two actors.
use balance_solver::{Unsolved, repetition};
use case_rows::{Trouble, answer_in, level_of, member, small, smalls};
use firing_order::{Stuck, order};
use interface_rules::{InterfaceFault, factor, kept_from, repeated_at};
use sdf_level::{Head, Level, Link, List, Tail, Turn};
use serde_json::Value;
use std::alloc::{AllocError, Global};
use std::fmt::Write;

/// The base vector of the row's level, or that it has none.
pub fn base(alloc: Global, row: &Value) -> Result<Value, Trouble> {
    let level = level_of(alloc, row)?;
    match repetition(alloc, &level) {
        Ok(base) => {
            let base = base.items();
            answer_in(alloc, format!(in alloc; "{base:?}"))
        }
        Err(Unsolved::NoVector) => Ok(Value::try_from_str(alloc, "none")?),
        Err(Unsolved::Memory) => Err(Trouble::Memory),
    }
}

/// A repetition vector, or the first link where exactly one rate is 0.
fn counts_text(
    alloc: Global,
    counts: &Result<List<u32>, InterfaceFault>,
) -> Result<String, AllocError> {
    match counts {
        Ok(counts) => {
            let counts = counts.items();
            format!(in alloc; "{counts:?}")
        }
        Err(InterfaceFault::Mismatch { link }) => format!(in alloc; "\"mismatch {link}\""),
        Err(InterfaceFault::Memory) => Err(AllocError),
    }
}

/// The repetition vector of the row's level, or the first link where exactly one rate is 0, or that it has no base vector.
pub fn counts(alloc: Global, row: &Value) -> Result<Value, Trouble> {
    let level = level_of(alloc, row)?;
    match repetition(alloc, &level) {
        Ok(base) => {
            let counts = factor(alloc, &level, base.items());
            answer_in(alloc, counts_text(alloc, &counts))
        }
        Err(Unsolved::NoVector) => Ok(Value::try_from_str(alloc, "none")?),
        Err(Unsolved::Memory) => Err(Trouble::Memory),
    }
}

/// The turns, each an actor and the number of its firing.
pub fn text_of_turns(alloc: Global, turns: &[Turn]) -> Result<String, AllocError> {
    let mut text = String::new(alloc);
    for turn in turns {
        let actor = turn.actor;
        let number = turn.turn;
        write!(text, "{actor}.{number} ")?;
    }
    Ok(text)
}

/// The order in which one thread fires the actors of the row's level, each so often as the row's counts say, or the
/// counts that are left in a deadlock.
pub fn ordered(alloc: Global, row: &Value) -> Result<Value, Trouble> {
    let level = level_of(alloc, row)?;
    let counts = smalls(alloc, row, "counts")?;
    if counts.len() != level.actors as usize {
        return Err(Trouble::Member("counts"));
    }
    match order(alloc, &level, counts.as_slice()) {
        Ok(turns) => Ok(Value::from(text_of_turns(alloc, turns.items())?)),
        Err(Stuck::Left(left)) => {
            let left = left.items();
            answer_in(alloc, format!(in alloc; "{left:?}"))
        }
        Err(Stuck::Memory) => Err(Trouble::Memory),
    }
}

fn push_link(text: &mut String, link: &Link) -> Result<(), AllocError> {
    match link.tail {
        Tail::Source(source) => write!(text, "; source {source}")?,
        Tail::Port { actor, port, rate } => write!(text, "; {actor}.{port} {rate}")?,
    }
    match link.head {
        Head::Sink(sink) => write!(text, " -> sink {sink}")?,
        Head::Port { actor, port, rate } => write!(text, " -> {actor}.{port} {rate}")?,
    }
    let delay = link.delay;
    write!(text, " ({delay})")
}

/// The parts of the row's level: its actors, sources, sinks and links, and of these the ones between two actors.
fn text_of_level(alloc: Global, level: &Level) -> Result<String, AllocError> {
    let mut text = String::new(alloc);
    let actors = level.actors;
    let sources = level.sources.items();
    let sinks = level.sinks.items();
    write!(
        text,
        "{actors} actors, sources {sources:?}, sinks {sinks:?}"
    )?;
    for link in level.links.items() {
        push_link(&mut text, link)?;
    }
    Ok(text)
}

/// The parts of a level, and then the links between two actors.
fn parts_text(alloc: Global, level: &Level) -> Result<String, AllocError> {
    let whole = text_of_level(alloc, level)?;
    let mut text = format!(in alloc; "[{whole:?}")?;
    for link in level.inner_links(alloc)? {
        let ends = [
            link.tail,
            link.produced,
            link.head,
            link.consumed,
            link.delay,
        ];
        write!(text, ", {ends:?}")?;
    }
    text.push(']')?;
    Ok(text)
}

/// The parts of the row's level, and those of its links that are between two actors.
pub fn parts(alloc: Global, row: &Value) -> Result<Value, Trouble> {
    let level = level_of(alloc, row)?;
    answer_in(alloc, parts_text(alloc, &level))
}

/// The place of a list that an interface repeats, or the first place that it keeps of one.
pub fn place(_alloc: Global, row: &Value) -> Result<Value, Trouble> {
    let Some(at) = member(row, "at")?.as_u64() else {
        return Err(Trouble::Member("at"));
    };
    if row.get("length").is_some() {
        let length = small(row, "length")?;
        if length == 0 {
            return Err(Trouble::Member("length"));
        }
        return Ok(Value::from(repeated_at(length, at)));
    }
    let rate = small(row, "rate")?;
    if u64::from(rate) > at {
        return Err(Trouble::Member("rate"));
    }
    Ok(Value::from(kept_from(at, rate)))
}
