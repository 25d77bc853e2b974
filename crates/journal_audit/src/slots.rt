// What stands at one key of the rows.
ghost use Rattle.std.specs.Prelude.{◌≡◌, ◌<◌, ◌≤◌, ℕ, length, List as Seq, None, OnOk, Some};
ghost use Rattle.kernel_gate.specs.Signed.{unnamed};
ghost use Rattle.nested_jobs.specs.Marks.{Busy, Done, Free, Open};
ghost use Rattle.nested_jobs.specs.Rules.{Call, Work};
ghost use Rattle.job_rules.specs.Items.{rule};
ghost use Rattle.job_rules.specs.Words as words;
ghost use Rattle.pisdf_model.specs.Valid.{AreValid};
ghost use Rattle.pisdf_model.specs.declared.graph.Graph.{Graph};
ghost use Rattle.pisdf_meaning.specs.declared.firing.Firing.{Firing as FiringView};
ghost use Rattle.audit_job.specs.Answering.{FitsWork};
ghost use Rattle.audit_job.specs.Jobs.{IsJob, IsUnscheduled};
ghost use Rattle.audit_job.specs.Marks.{answer_of, answers, mark_at};
ghost use Rattle.journal_audit.specs.Slots.{FinishesSlot, InSlot, MarksSlot};

use crate::table::Row;
use audit_job::{Answer, claim, end_call, finish, mark_open};
use job_compiler::Kept;
use kernel_gate::Gate;
use pisdf_meaning::Firing;
use pisdf_model::Graphs;
use std::alloc::{AllocError, Global};
use std::mem;
use std::snapshot::Snapshot;

/// Takes the row away.
pub(crate) fn take_row(slot: &mut Option<Row>) -> Row
    requires { InSlot (λ row. Unit {0}) slot.old }
    ensures taken { slot.old ≡ Some result }
    ensures rest { slot.new ≡ None }
{
    match mem::replace(slot, None) {
        Some(row) => row,
        None => unreachable!(),
    }
}

/// Marks an item of the row's job as one that a worker runs.
pub(crate) fn claim_in(slot: &mut Option<Row>, item: usize)
    requires inside { InSlot (λ row. item < length row.job.marks.items) slot.old }
    requires free { InSlot (λ row. mark_at row.job.marks.items item ≡ Free) slot.old }
    ensures { MarksSlot item Busy slot.old slot.new }
{
    match slot {
        Some(row) => claim(&mut row.job, item),
        None => unreachable!(),
    }
}

/// Marks an item of the row's job as one that has called this firing.
pub(crate) fn open_in(slot: &mut Option<Row>, item: usize, called: Snapshot<Firing>)
    requires inside { InSlot (λ row. item < length row.job.marks.items) slot.old }
    requires free { InSlot (λ row. mark_at row.job.marks.items item ≡ Free) slot.old }
    requires call { InSlot (λ row. (graphs : Seq Graph) × (workers : ℕ) × IsJob graphs workers row.job × (rule graphs row.job.firing (answers row.job.marks.items) item ≡ Some (Call called.value))) slot.old }
    ensures { MarksSlot item (Open called.value) slot.old slot.new }
{
    match slot {
        Some(row) => mark_open(&mut row.job, item, called),
        None => unreachable!(),
    }
}

/// Finishes an item of the row's job that has called a job, which ended so.
pub(crate) fn end_call_in(slot: &mut Option<Row>, item: usize, answer: Answer)
    requires is { InSlot (λ row. (graphs : Seq Graph) × (workers : ℕ) × IsJob graphs workers row.job) slot.old }
    requires open { InSlot (λ row. (called : FiringView) × (mark_at row.job.marks.items item ≡ Open called)) slot.old }
    requires unscheduled { IsUnscheduled (answer_of answer) }
    ensures { MarksSlot item (Done (answer_of answer)) slot.old slot.new }
{
    match slot {
        Some(row) => end_call(&mut row.job, item, answer),
        None => unreachable!(),
    }
}

/// Finishes an item of the row's job that a worker runs.
///
/// # Errors
///
/// Want of memory.
pub(crate) fn finish_in<K: Gate>(
    alloc: Global,
    graphs: &Graphs,
    slot: &mut Option<Row>,
    item: usize,
    workers: u32,
    kept: &mut Kept,
    gate: &K,
) -> Result<(), AllocError>
    requires valid { AreValid graphs.now }
    requires some { 1 ≤ workers }
    requires is { InSlot (λ row. IsJob graphs.now.graphs workers row.job) slot.old }
    requires busy { InSlot (λ row. mark_at row.job.marks.items item ≡ Busy) slot.old }
    requires work { InSlot (λ row. (work : words.Work) × (rule graphs.now.graphs row.job.firing (answers row.job.marks.items) item ≡ Some (Work work))) slot.old }
    requires fits { InSlot (λ row. (work : words.Work) → rule graphs.now.graphs row.job.firing (answers row.job.marks.items) item ≡ Some (Work work) → FitsWork (unnamed (K.kernels gate.now)) work) slot.old }
    ensures { OnOk result (FinishesSlot graphs.now.graphs workers item slot.old slot.new) }
{
    match slot {
        Some(row) => finish(alloc, graphs, &mut row.job, item, workers, kept, gate),
        None => unreachable!(),
    }
}
