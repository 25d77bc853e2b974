// The replay of one board.
ghost use Rattle.std.specs.Prelude.{◌≡◌, ◌≢◌, ◌<◌, ◌≤◌, ℕ, List as Seq, [], None, Some, IfOk, OnOk, length, slice_index_or};
ghost use Rattle.kernel_gate.specs.Signed.{unnamed};
ghost use Rattle.board_rules.specs.Board.{Held};
ghost use Rattle.board_rules.specs.Entries.{Step};
ghost use Rattle.board_rules.specs.Keys.{IsKey, Key, top_job};
ghost use Rattle.nested_jobs.specs.Marks.{Free};
ghost use Rattle.audit_job.specs.Marks.{mark_at};
ghost use Rattle.journal_audit.specs.Replays.{Enters, FinishesRun, IsRun, IsTop, Leaves, Replays, RunsIt};
ghost use Rattle.journal_audit.specs.Slots.{InSlot};
ghost use Rattle.journal_audit.specs.Table.{row_at};

use crate::closing::close;
use crate::slots::{claim_in, finish_in};
use crate::table::{Row, Run};
use audit_job::{Answer, open};
use board_rules::boards_keep;
use job_compiler::Kept;
use job_rules::rules_are_lawful;
use kernel_gate::Gate;
use pisdf_meaning::Firing;
use pisdf_model::Graphs;
use sdf_level::List;
use std::alloc::{AllocError, Global};
use worker_crew::work_fits;

/// A board as its journal tells it so far: the open jobs, what each worker runs, and how the top job ended, once it has.
#[derive(Drop)]
pub(crate) struct Replay {
    pub(crate) workers: u32,
    pub(crate) rows: Vec<Option<Row>>,
    pub(crate) running: Vec<Option<Run>>,
    pub(crate) end: Option<Answer>,
}

/// A board of one firing of the top graph, in which nothing is claimed.
pub(crate) fn start(
    alloc: Global,
    graphs: &Graphs,
    workers: u32,
    firing: Firing,
) -> Result<Replay, AllocError>
    requires { (key : Key) × IsTop graphs.now workers firing key }
    ensures { IfOk result (λ replay. (key : Key) → IsTop graphs.now workers firing key → Replays graphs.now key [] replay) }
{
    boards_keep();
    let running = vec![in alloc; None; workers as usize]?;
    let job = open(alloc, graphs, firing)?;
    let place = List::new(Vec::new(alloc));
    let mut rows = Vec::new(alloc);
    rows.push(Some(Row { job, place }))?;
    Ok(Replay {
        workers,
        rows,
        running,
        end: None,
    })
}

/// A worker claims an item.
pub(crate) fn enter(replay: &mut Replay, worker: u32, run: Run)
    requires worker { worker < length replay.old.running.items }
    requires inside { InSlot (λ row. run.item < length row.job.marks.items) (row_at replay.old.rows.items run.row) }
    requires free { InSlot (λ row. mark_at row.job.marks.items run.item ≡ Free) (row_at replay.old.rows.items run.row) }
    ensures { Enters replay.old worker run replay.new }
{
    claim_in(&mut replay.rows[run.row], run.item);
    replay.running[worker as usize] = Some(run);
}

/// Finishes an item that a worker runs, and closes the jobs of which nothing more will come: how the top job ended, if it was
/// closed.
fn finish_run<K: Gate>(
    alloc: Global,
    graphs: &Graphs,
    rows: &mut Vec<Option<Row>>,
    run: Run,
    workers: u32,
    kept: &mut Kept,
    gate: &K,
) -> Result<Option<Answer>, AllocError>
    requires { IsRun graphs.now (unnamed (K.kernels gate.now)) workers rows.old.items run }
    ensures { IfOk result (λ end. (key : Key) (taken : Seq Step) (held : Held) (w : ℕ) → RunsIt graphs.now (unnamed (K.kernels gate.now)) workers rows.old.items run key taken held w → FinishesRun key taken held w rows.new.items end) }
{
    boards_keep();
    rules_are_lawful();
    work_fits();
    finish_in(
        alloc,
        graphs,
        &mut rows[run.row],
        run.item,
        workers,
        kept,
        gate,
    )?;
    close(alloc, graphs, rows, run.row)
}

/// A worker finishes what it runs.
pub(crate) fn leave<K: Gate>(
    alloc: Global,
    graphs: &Graphs,
    replay: &mut Replay,
    worker: u32,
    run: Run,
    kept: &mut Kept,
    gate: &K,
) -> Result<(), AllocError>
    requires replays { (key : Key) × (taken : Seq Step) × Replays graphs.now key taken replay.old × (key.signatures ≡ unnamed (K.kernels gate.now)) }
    requires worker { worker < length replay.old.running.items }
    requires runs { slice_index_or replay.old.running.items worker None ≡ Some run }
    ensures { OnOk result ((key : Key) (taken : Seq Step) → Replays graphs.now key taken replay.old → key.signatures ≡ unnamed (K.kernels gate.now) → Leaves graphs.now key taken worker replay.new) }
{
    let end = finish_run(
        alloc,
        graphs,
        &mut replay.rows,
        run,
        replay.workers,
        kept,
        gate,
    )?;
    replay.running[worker as usize] = None;
    replay.end = end;
    Ok(())
}
