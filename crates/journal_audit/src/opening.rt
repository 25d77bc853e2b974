// Finds the item that is picked for a worker, and opens the jobs on its way.
ghost use Rattle.std.specs.Prelude.{◌≡◌, ◌<◌, ℕ, false, List as Seq, IfOk};
ghost use Rattle.job_rules.specs.Meant.{IsFit};
ghost use Rattle.job_rules.specs.Words.{Answer};
ghost use Rattle.nested_jobs.specs.Marks.{Marks};
ghost use Rattle.pisdf_model.specs.Valid.{AreValid};
ghost use Rattle.pisdf_meaning.specs.declared.firing.Firing.{Firing as FiringView};
ghost use Rattle.board_rules.specs.Asking.{NoRowOffers};
ghost use Rattle.board_rules.specs.Board.{Held};
ghost use Rattle.board_rules.specs.Entries.{Step};
ghost use Rattle.board_rules.specs.Keys.{Key};
ghost use Rattle.audit_job.specs.Jobs.{IsJob};
ghost use Rattle.journal_audit.specs.Opening.{CallsHere, Finds, IsChild, OpensChild, Reaches, TaskIs};
ghost use Rattle.journal_audit.specs.Standing.{KeepsBoard};
ghost use Rattle.journal_audit.specs.Table.{table_of};

use crate::asking::first_of_all;
use crate::slots::open_in;
use crate::table::{Row, Run, child_place, row_at, vacant_key};
use audit_job::{Kind, call_of, kind_of, open};
use board_rules::{boards_keep, paths_stay, rows_are_asked};
use firing_board::calls_are_fit;
use job_rules::rules_are_lawful;
use pisdf_meaning::Firing;
use pisdf_model::Graphs;
use std::alloc::{AllocError, Global};
use std::snapshot::Snapshot;

/// A job that an item calls: its firing, and the row of the job that is opened for it.
#[derive(Drop)]
pub(crate) struct Child {
    pub(crate) called: Snapshot<Firing>,
    pub(crate) row: Row,
}

/// The job that an item of a row calls.
fn child_of(alloc: Global, graphs: &Graphs, upper: &Row, item: usize) -> Result<Child, AllocError>
    requires valid { AreValid graphs.now }
    requires is { (workers : ℕ) × IsJob graphs.now.graphs workers upper.now.job }
    requires call { (firing : FiringView) × TaskIs graphs.now.graphs upper.now item firing × IsFit graphs.now.graphs firing }
    ensures { IfOk result (IsChild graphs.now upper.now item) }
{
    let firing = call_of(alloc, graphs, &upper.job, item)?;
    let called = Snapshot::of(&firing);
    let place = child_place(alloc, &upper.place, item)?;
    let job = open(alloc, graphs, firing)?;
    Ok(Child {
        called,
        row: Row { job, place },
    })
}

/// Opens the job that an item calls: the key of its row.
fn open_child(
    alloc: Global,
    graphs: &Graphs,
    rows: &mut Vec<Option<Row>>,
    at: Run,
) -> Result<usize, AllocError>
    requires { (key : Key) × (m : Marks FiringView Answer) × CallsHere graphs.now key m rows.old.items at }
    ensures { IfOk result (λ child. OpensChild graphs.now at rows.old.items child rows.new.items) }
{
    rules_are_lawful();
    let key = vacant_key(rows)?;
    let child = child_of(alloc, graphs, row_at(rows.as_slice(), at.row), at.item)?;
    let Child { called, row } = child;
    open_in(&mut rows[at.row], at.item, called);
    rows[key] = Some(row);
    Ok(key)
}

/// Opens the job that an item calls, and within it the job that its first item calls, and so on, up to one whose first item is
/// work: that item.
fn open_way(
    alloc: Global,
    graphs: &Graphs,
    rows: &mut Vec<Option<Row>>,
    at: Run,
) -> Result<Run, AllocError>
    requires { (key : Key) × (m : Marks FiringView Answer) × CallsHere graphs.now key m rows.old.items at }
    ensures { IfOk result (λ run. (key : Key) (m : Marks FiringView Answer) → (c : CallsHere graphs.now key m rows.old.items at) → Reaches graphs.now key m rows.old.items at.item c.row.place rows.new.items run) }
{
    boards_keep();
    rows_are_asked();
    calls_are_fit();
    rules_are_lawful();
    let child = open_child(alloc, graphs, rows, at)?;
    let first = Run {
        row: child,
        item: 0,
    };
    match kind_of(graphs, &row_at(rows.as_slice(), child).job, 0) {
        Some(Kind::Call) => open_way(alloc, graphs, rows, first),
        Some(Kind::Work) => Ok(first),
        None => unreachable!(),
    }
}

/// The item that is picked for a worker where no open job offers work: jobs are opened on its way. None where nothing may be
/// claimed.
fn find_call(
    alloc: Global,
    graphs: &Graphs,
    rows: &mut Vec<Option<Row>>,
    worker: u32,
) -> Result<Option<Run>, AllocError>
    requires { (key : Key) × (taken : Seq Step) × (held : Held) × KeepsBoard graphs.now rows.old.items key taken held × NoRowOffers key false (table_of rows.old.items) }
    ensures { IfOk result (λ found. (key : Key) (taken : Seq Step) (held : Held) → KeepsBoard graphs.now rows.old.items key taken held → NoRowOffers key false (table_of rows.old.items) → Finds graphs.now key taken rows.old.items worker rows.new.items found) }
{
    boards_keep();
    rows_are_asked();
    paths_stay();
    calls_are_fit();
    rules_are_lawful();
    match first_of_all(graphs, rows.as_slice(), worker, true) {
        Some(at) => {
            let run = open_way(alloc, graphs, rows, at)?;
            Ok(Some(run))
        }
        None => Ok(None),
    }
}

/// The item that is picked for a worker, whose job is open then; none where nothing may be claimed.
pub(crate) fn find(
    alloc: Global,
    graphs: &Graphs,
    rows: &mut Vec<Option<Row>>,
    worker: u32,
) -> Result<Option<Run>, AllocError>
    requires { (key : Key) × (taken : Seq Step) × (held : Held) × KeepsBoard graphs.now rows.old.items key taken held }
    ensures { IfOk result (λ found. (key : Key) (taken : Seq Step) (held : Held) → KeepsBoard graphs.now rows.old.items key taken held → Finds graphs.now key taken rows.old.items worker rows.new.items found) }
{
    boards_keep();
    rows_are_asked();
    paths_stay();
    rules_are_lawful();
    match first_of_all(graphs, rows.as_slice(), worker, false) {
        Some(run) => Ok(Some(run)),
        None => find_call(alloc, graphs, rows, worker),
    }
}
