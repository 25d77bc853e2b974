// The trace of a firing.
ghost use Rattle.std.specs.Prelude.{ℕ, ◌≡◌, ◌++◌, List as Seq, [], drop, length, slice_index_or};
ghost use Rattle.pisdf_meaning.specs.Running.{Traces, child_rows};
ghost use Rattle.pisdf_meaning.specs.declared.firing.Configured.{Configured as ConfiguredView};
ghost use Rattle.job_preparing.specs.Handing.{with_traces};
ghost use Rattle.graph_firing.specs.Nodes.Parts.{HaveTraces, flat, row_at};

use job_preparing::Trace;
use pisdf_model::{Actor, is_configuration};
use std::alloc::Global;
use std::collections::VecDeque;

/// Moves the rows of all these traces to the end of another.
fn append_all(rows: &mut Trace, traces: Vec<Trace>)
    ensures { rows.new ≡ rows.old ++ flat traces.items }
{
    let mut waiting = VecDeque::from_vec(traces);
    while let Some(trace) = waiting.pop_front() {
        rows.append(trace);
    }
}

/// Takes the first of these lists of traces, which is empty where there is none.
fn next_traces(alloc: Global, rows: &mut VecDeque<Vec<Trace>>) -> Vec<Trace>
    ensures taken { result.items ≡ row_at rows.old.items 0 }
    ensures rest { rows.new.items ≡ drop 1 rows.old.items }
{
    match rows.pop_front() {
        Some(row) => row,
        None => Vec::new(alloc),
    }
}

/// Takes the first of these traces, which has no rows where there is none.
fn next_trace(alloc: Global, left: &mut VecDeque<Trace>) -> Trace
    ensures taken { result ≡ slice_index_or left.old.items 0 [] }
    ensures rest { left.new.items ≡ drop 1 left.old.items }
{
    match left.pop_front() {
        Some(trace) => trace,
        None => Trace::new(alloc),
    }
}

/// Moves the traces of these actors to the end of another: of a configuration actor what is left, of another those of its
/// firings.
pub(crate) fn append_traces(
    alloc: Global,
    actors: &[Actor],
    left: Vec<Trace>,
    own: Vec<Vec<Trace>>,
    rows: &mut Trace,
)
    ensures { (counts : Seq ℕ) (traces : Traces) (configured : Seq ConfiguredView) → length left.items ≡ length configured → HaveTraces counts traces own.items → rows.new ≡ rows.old ++ child_rows counts traces 0 actors.now (with_traces configured left.items) }
{
    let mut left = VecDeque::from_vec(left);
    let mut own = VecDeque::from_vec(own);
    for actor in actors {
        if is_configuration(&actor.body) {
            let more = next_trace(alloc, &mut left);
            rows.append(more);
        } else {
            let traces = next_traces(alloc, &mut own);
            append_all(rows, traces);
        }
    }
}
