// Traces of what was called, by actor and firing.
ghost use Rattle.std.specs.Prelude.{ℕ, ◌≡◌, ◌<◌, [], length, replicate, slice_set, IfOk};
ghost use Rattle.sdf_level.specs.Lists.{lists_of};
ghost use Rattle.graph_firing.specs.Nodes.Parts.{call_count, row_at};

use job_preparing::{Trace, no_traces};
use std::alloc::{AllocError, Global};

/// How often an actor calls a graph, where the actors have these kernels and fire so often.
fn call_count(kinds: &[Option<u32>], counts: &[u32], actor: usize) -> u32
    requires { actor < length counts.now }
    ensures { result ≡ call_count kinds.now counts.now actor }
{
    match kinds.get(actor) {
        Some(Some(_)) => 0,
        _ => counts[actor],
    }
}

/// A trace of no rows for each firing of each actor that calls graphs, where the actors have these kernels and fire so often.
pub(crate) fn empty_rows(
    alloc: Global,
    kinds: &[Option<u32>],
    counts: &[u32],
) -> Result<Vec<Vec<Trace>>, AllocError>
    ensures many { IfOk result (λ rows. length rows.items ≡ length counts.now) }
    ensures rows { IfOk result (λ rows. (a : ℕ) → row_at rows.items a ≡ replicate (call_count kinds.now counts.now a) []) }
{
    let mut rows = Vec::with_capacity(alloc, counts.len())?;
    for actor in 0..counts.len() {
        let calls = call_count(kinds, counts, actor);
        let row = no_traces(alloc, calls as usize)?;
        rows.push(row)?;
    }
    Ok(rows)
}

/// Keeps the trace of an actor's firing.
pub(crate) fn put_trace(rows: &mut [Vec<Trace>], actor: u32, turn: u32, trace: Trace)
    requires actor { actor < length rows.old }
    requires turn { turn < length (row_at rows.old actor) }
    ensures { lists_of rows.new ≡ slice_set (lists_of rows.old) actor (slice_set (row_at rows.old actor) turn trace) }
{
    let row = &mut rows[actor as usize];
    row[turn as usize] = trace;
}
