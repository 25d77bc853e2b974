// Compilations of levels, and how they are kept.
use crate::schedules::{fault_text, rows_of_edges, text_of_nodes};
use crate::solving::text_of_turns;
use case_rows::{Trouble, answer_in, items, level_of, level_with, numbers, small, small_or};
use job_compiler::{Compiled, Kept, Key, compile, kept};
use sdf_level::List;
use serde_json::Value;
use std::alloc::{AllocError, Global};
use std::sync::Arc;

/// The order of a compilation, its nodes, counts, edges and ranks.
fn graph_text(alloc: Global, compiled: &Compiled) -> Result<String, AllocError> {
    let order = text_of_turns(alloc, compiled.order())?;
    let nodes = text_of_nodes(alloc, compiled.graph().nodes.items())?;
    let edges = rows_of_edges(alloc, compiled.graph().edges.items())?;
    let counts = compiled.counts();
    let ranks = compiled.graph().ranks.items();
    format!(in alloc; "{order:?}, {nodes:?}, {counts:?}, {edges:?}, {ranks:?}")
}

/// The parts of a compilation: order, nodes, counts, edges, ranks, offsets, height, homes, priorities, and the numbers of
/// actors and workers that it was made for.
fn text_of(alloc: Global, compiled: &Compiled) -> Result<String, AllocError> {
    let graph = graph_text(alloc, compiled)?;
    let offsets = compiled.placement().offsets.items();
    let height = compiled.placement().height;
    let home = compiled.mapping().home.items();
    let priority = compiled.mapping().priority.items();
    let made_for = [compiled.level().actors, compiled.workers()];
    format!(in alloc; "[{graph}, {offsets:?}, {height}, {home:?}, {priority:?}, {made_for:?}]")
}

/// The compilation of the row's level for so many workers, or why it has none.
pub fn compilation(alloc: Global, row: &Value) -> Result<Value, Trouble> {
    let workers = small(row, "workers")?;
    if workers == 0 {
        return Err(Trouble::Member("workers"));
    }
    let level = level_of(alloc, row)?;
    let text = match compile(alloc, &level, workers) {
        Ok(compiled) => text_of(alloc, &compiled),
        Err(fault) => fault_text(alloc, &fault),
    };
    answer_in(alloc, text)
}

/// The key of a step: its graph, which is the number given and so many more, its workers, 1 where it has none, and its values.
fn key_of(alloc: Global, step: &Value, graph: u32, more: u32) -> Result<Key, Trouble> {
    Ok(Key {
        graph: graph.saturating_add(more),
        workers: small_or(step, "workers", 1)?,
        values: List::new(numbers(alloc, step, "values")?),
    })
}

/// A compilation that is known by its number of actors.
fn compiled_of(alloc: Global, actors: u32) -> Result<Arc<Compiled>, Trouble> {
    let level = level_with(alloc, actors, &[])?;
    match compile(alloc, &level, 1) {
        Ok(compiled) => Ok(Arc::new(alloc, compiled)?),
        Err(_) => Err(Trouble::Member("actors")),
    }
}

/// Keeps a compilation with so many actors.
fn keep_one(alloc: Global, kept: &mut Kept, key: Key, actors: u32) -> Result<(), Trouble> {
    let compiled = compiled_of(alloc, actors)?;
    kept.keep(key, compiled)?;
    Ok(())
}

/// Keeps compilations, one after the other: each with a graph of one number more, and with one actor more.
fn keep_all(alloc: Global, kept: &mut Kept, step: &Value) -> Result<(), Trouble> {
    let graph = small(step, "keep")?;
    let actors = small_or(step, "actors", 1)?;
    for more in 0..small_or(step, "times", 1)? {
        let key = key_of(alloc, step, graph, more)?;
        keep_one(alloc, kept, key, actors.saturating_add(more))?;
    }
    Ok(())
}

/// The number of actors of the compilation that is found, -1 where none is.
fn found_by(alloc: Global, kept: &mut Kept, step: &Value) -> Result<i64, Trouble> {
    let key = key_of(alloc, step, small(step, "find")?, 0)?;
    match kept.find(&key)? {
        Some(compiled) => Ok(i64::from(compiled.level().actors)),
        None => Ok(-1),
    }
}

/// Makes a step; what it finds comes behind what was found before.
fn step_once(
    alloc: Global,
    kept: &mut Kept,
    found: &mut Vec<i64>,
    step: &Value,
) -> Result<(), Trouble> {
    if step.get("keep").is_some() {
        return keep_all(alloc, kept, step);
    }
    found.push(found_by(alloc, kept, step)?)?;
    Ok(())
}

/// What is found by the row's steps. A step `keep` keeps a compilation with `actors` actors, 1 where it has none, under the
/// key of that graph, its `workers` and `values`; with `times` so many of them, each with a graph of one number more, and one
/// actor more. A step `find` looks one up.
pub fn kept_by(alloc: Global, row: &Value) -> Result<Value, Trouble> {
    let steps = items(row, "steps")?;
    let mut kept = kept(alloc)?;
    let mut found = Vec::new(alloc);
    for step in steps {
        step_once(alloc, &mut kept, &mut found, step)?;
    }
    answer_in(alloc, format!(in alloc; "{found:?}"))
}
