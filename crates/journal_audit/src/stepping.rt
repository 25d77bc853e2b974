// One line of the journal of a board.
ghost use Rattle.std.specs.Prelude.{◌≡◌, ◌≢◌, ◌<◌, ◌≤◌, ℕ, List as Seq, None, Some, IfOk, length, slice_index_or, string_bytes};
ghost use Rattle.kernel_gate.specs.Signed.{unnamed};
ghost use Rattle.job_rules.specs.Items.{graph_of};
ghost use Rattle.pisdf_model.specs.declared.graph.Graph.{Graph};
ghost use Rattle.board_rules.specs.Entries.{Step, item_of};
ghost use Rattle.board_rules.specs.Keys.{Key};
ghost use Rattle.board_rules.specs.declared.entry.Entry.TheVariants as entry;
ghost use Rattle.quiescent_driver.specs.Journals.{entry_line};
ghost use Rattle.audit_job.specs.Jobs.{IsJob};
ghost use Rattle.audit_job.specs.Naming.{IsValidJob};
ghost use Rattle.journal_audit.specs.Replays.{IsReplay, Replays};
ghost use Rattle.nested_jobs.specs.Marks.{Free};
ghost use Rattle.audit_job.specs.Marks.{mark_at};
ghost use Rattle.journal_audit.specs.Slots.{InSlot};
ghost use Rattle.journal_audit.specs.Stepping.{ClaimsTo, FinishesTo, IsSpeaker, StepsTo, TakesClaim, line_start};
ghost use Rattle.journal_audit.specs.Table.{row_at};

use crate::lines::{claim_line, claim_start, finish_line};
use crate::opening::find;
use crate::replay::{Replay, enter, leave};
use crate::table::{Run, row_at};
use audit_job::{Job, item_of};
use board_rules::{boards_keep, journals_grow};
use job_compiler::Kept;
use job_rules::rules_are_lawful;
use journal_laws::{lines_begin, next_steps_are_one};
use kernel_gate::Gate;
use pisdf_model::Graphs;
use std::alloc::{AllocError, Global};
use worker_crew::board_laws;

/// What the next line of a worker begins with, that runs this.
fn line_start(
    alloc: Global,
    number: u32,
    worker: u32,
    run: Option<Run>,
) -> Result<String, AllocError>
    ensures { IfOk result (λ s. string_bytes s ≡ line_start number worker run) }
{
    match run {
        Some(_) => finish_line(alloc, number, worker),
        None => claim_start(alloc, number, worker),
    }
}

/// The worker whose next line this can be, if there is one.
fn speaker(
    alloc: Global,
    number: u32,
    running: &[Option<Run>],
    line: &[u8],
) -> Result<Option<u32>, AllocError>
    requires { length running.now ≤ 16 }
    ensures { IfOk result (λ worker. IsSpeaker number running.now line.now worker) }
{
    for worker in 0..running.len() {
        let start = line_start(alloc, number, worker as u32, running[worker])?;
        if line.starts_with(start.as_bytes()) {
            return Ok(Some(worker as u32));
        }
    }
    Ok(None)
}

/// The line of a worker's claim of an item of a job.
fn right_line(
    alloc: Global,
    number: u32,
    worker: u32,
    job: &Job,
    item: usize,
) -> Result<String, AllocError>
    requires valid { IsValidJob job.now }
    requires inside { item < length job.now.marks.items }
    ensures { IfOk result (λ s. (graphs : Seq Graph) (workers : ℕ) → IsJob graphs workers job.now → string_bytes s ≡ entry_line number (entry.Claim worker job.now.firing.path (item_of (graph_of graphs job.now.firing) item))) }
{
    let named = item_of(job, item);
    claim_line(alloc, number, worker, &job.firing.path, named)
}

/// Takes a line as a worker's claim of an item: whether it is that. The worker runs it then.
fn take_claim(
    alloc: Global,
    replay: &mut Replay,
    number: u32,
    worker: u32,
    run: Run,
    line: &[u8],
) -> Result<bool, AllocError>
    requires worker { worker < length replay.old.running.items }
    requires row { InSlot (λ row. IsValidJob row.job × (run.item < length row.job.marks.items) × (mark_at row.job.marks.items run.item ≡ Free)) (row_at replay.old.rows.items run.row) }
    ensures { IfOk result (TakesClaim replay.old number worker run line.now replay.new) }
{
    let job = &row_at(replay.rows.as_slice(), run.row).job;
    let right = right_line(alloc, number, worker, job, run.item)?;
    if line != right.as_bytes() {
        return Ok(false);
    }
    enter(replay, worker, run);
    Ok(true)
}

/// Takes a line as the claim of a worker that runs nothing: whether it is the one that the worker can make. Where it isn't, jobs may
/// have been opened on the way, and the replay is good for nothing.
fn step_claim(
    alloc: Global,
    graphs: &Graphs,
    replay: &mut Replay,
    number: u32,
    worker: u32,
    line: &[u8],
) -> Result<bool, AllocError>
    requires replays { IsReplay graphs.now replay.old }
    requires worker { worker < length replay.old.running.items }
    requires idle { slice_index_or replay.old.running.items worker None ≡ None }
    requires going { replay.old.end ≡ None }
    ensures { IfOk result (λ took. (key : Key) (taken : Seq Step) → Replays graphs.now key taken replay.old → ClaimsTo graphs.now key number taken worker line.now took replay.new) }
{
    boards_keep();
    journals_grow();
    rules_are_lawful();
    next_steps_are_one();
    let found = find(alloc, graphs, &mut replay.rows, worker)?;
    match found {
        Some(run) => take_claim(alloc, replay, number, worker, run, line),
        None => Ok(false),
    }
}

/// Takes a line as the finish of what a worker runs: whether it is that.
fn step_finish<K: Gate>(
    alloc: Global,
    graphs: &Graphs,
    replay: &mut Replay,
    number: u32,
    worker: u32,
    run: Run,
    line: &[u8],
    kept: &mut Kept,
    gate: &K,
) -> Result<bool, AllocError>
    requires replays { (key : Key) × (taken : Seq Step) × Replays graphs.now key taken replay.old × (key.signatures ≡ unnamed (K.kernels gate.now)) }
    requires worker { worker < length replay.old.running.items }
    requires runs { slice_index_or replay.old.running.items worker None ≡ Some run }
    ensures { IfOk result (λ took. (key : Key) (taken : Seq Step) → Replays graphs.now key taken replay.old → key.signatures ≡ unnamed (K.kernels gate.now) → FinishesTo graphs.now key number taken worker line.now took replay.new) }
{
    journals_grow();
    let right = finish_line(alloc, number, worker)?;
    if line != right.as_bytes() {
        return Ok(false);
    }
    leave(alloc, graphs, replay, worker, run, kept, gate)?;
    Ok(true)
}

/// Takes a line that begins as the next one of a worker: whether it is that, whose step is made then.
fn step_worker<K: Gate>(
    alloc: Global,
    graphs: &Graphs,
    replay: &mut Replay,
    number: u32,
    worker: u32,
    line: &[u8],
    kept: &mut Kept,
    gate: &K,
) -> Result<bool, AllocError>
    requires replays { (key : Key) × (taken : Seq Step) × Replays graphs.now key taken replay.old × (key.signatures ≡ unnamed (K.kernels gate.now)) }
    requires going { replay.old.end ≡ None }
    requires speaks { IsSpeaker number replay.old.running.items line.now (Some worker) }
    ensures { IfOk result (λ took. (key : Key) (taken : Seq Step) → Replays graphs.now key taken replay.old → key.signatures ≡ unnamed (K.kernels gate.now) → StepsTo graphs.now key number taken line.now took replay.new) }
{
    lines_begin();
    board_laws();
    match replay.running[worker as usize] {
        Some(run) => step_finish(alloc, graphs, replay, number, worker, run, line, kept, gate),
        None => step_claim(alloc, graphs, replay, number, worker, line),
    }
}

/// Takes a line as the next of the journal: whether it is the line of a step that may come next, which is made then.
pub(crate) fn step<K: Gate>(
    alloc: Global,
    graphs: &Graphs,
    replay: &mut Replay,
    number: u32,
    line: &[u8],
    kept: &mut Kept,
    gate: &K,
) -> Result<bool, AllocError>
    requires replays { (key : Key) × (taken : Seq Step) × Replays graphs.now key taken replay.old × (key.signatures ≡ unnamed (K.kernels gate.now)) }
    requires going { replay.old.end ≡ None }
    ensures { IfOk result (λ took. (key : Key) (taken : Seq Step) → Replays graphs.now key taken replay.old → key.signatures ≡ unnamed (K.kernels gate.now) → StepsTo graphs.now key number taken line.now took replay.new) }
{
    lines_begin();
    board_laws();
    let spoken = speaker(alloc, number, replay.running.as_slice(), line)?;
    match spoken {
        Some(worker) => step_worker(alloc, graphs, replay, number, worker, line, kept, gate),
        None => Ok(false),
    }
}
