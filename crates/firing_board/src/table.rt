// The table of open jobs and its calls.
ghost use Rattle.std.specs.Prelude.{◌≡◌, ◌≢◌, ◌+◌, ◌≤◌, ◌<◌, ℕ, IfOk, IsOk, None, OnErr, OnOk, Some, length};
ghost use Rattle.std.specs.Arc.{arc_value};

mod begins;
mod opening;
mod pick;
mod row;
mod slots;

pub(crate) use begins::Begins;
use begins::begins_with;
use board_rules::boards_keep;
use graph_firing::{Handed, OpenJob, open};
use job_preparing::{AtHand, CompileEnd, CompileTask, JobGiven};
use job_rules::rules_are_lawful;
use kernel_gate::{Frame, KernelFault, Room};
use opening::{child_place, child_steps, count_rows, end_rows, top_row, vacant_key};
pub(crate) use pick::Picked;
use pisdf_meaning::{Firing, Refusal};
use pisdf_model::Graphs;
use row::Row;
use slots::{calling_item, is_quiet, job_in, put_row, row_in, take_row};
use std::alloc::{AllocError, Global};
use std::marker::Model;
use std::sync::Arc;

/// The open jobs of a board, each in a row of its own, whose key stays as long as the job is open. It is neither `Drop` nor
/// `Clone`: it is given up by `end`.
pub(crate) struct JobTable {
    pub(crate) graphs: Arc<Graphs>,
    pub(crate) workers: u32,
    pub(crate) rows: Vec<Option<Row>>,
}

impl Model for JobTable {
    ghost use Rattle.std.specs.Arc.{arc_value};
    ghost use Rattle.firing_board.specs.Table.View.{TableView};

    ghost Value = { TableView };

    ghost use Rattle.std.specs.Coded.{codes};
    ghost use Rattle.param_expr.specs.Tree.{tree_code};

    ghost coded = { Prim.hlevel (codes, tree_code) };

    ghost view = { λ t. record { graphs = arc_value t.graphs; workers = t.workers; rows = t.rows.items } };
}

impl JobTable {
    ghost use Rattle.job_preparing.specs.CompileTasks.{IsEndOf};
    ghost use Rattle.job_preparing.specs.Handing.{answer_with, mark_at};
    ghost use Rattle.job_preparing.specs.Levels.{SuitsKey, compilation_in};
    ghost use Rattle.job_preparing.specs.View.{HasInherited};
    ghost use Rattle.job_rules.specs.Meant.{IsFit};
    ghost use Rattle.nested_jobs.specs.Marks.{Busy, Done, Free};
    ghost use Rattle.nested_jobs.specs.Rules.{Call};
    ghost use Rattle.pisdf_model.specs.Valid.{AreValid};
    ghost use Rattle.graph_firing.specs.Calls.{IsHanded, IsSoundFor, frame_of};
    ghost use Rattle.graph_firing.specs.Rooms.{HasRoomFor, TakesRoom, is_node, slot_after};
    ghost use Rattle.graph_firing.specs.View.{IsOfferedCall, IsOfferedCompilation, IsOfferedWork, compilation_of, key_in, left_by, task};
    ghost use Rattle.firing_board.specs.Table.Asked.{IsPicked};
    ghost use Rattle.firing_board.specs.Table.Calls.{AsksAsBefore, BeginsWith, FinishesIn, IsStarted, LendsAsBefore, LendsItem, MarksItem, OpensChild, SpoilsItem};
    ghost use Rattle.firing_board.specs.Table.Closing.{Closes, IsClosingFrom, RowsStay};
    ghost use Rattle.firing_board.specs.Table.View.{HasJob, NothingIsLent, free_items, keys_of, lent_in};

    /// The graphs.
    pub(crate) fn graphs(&self) -> &Graphs
        ensures { result.now ≡ self.now.graphs }
    {
        &self.graphs
    }

    /// A table of one job, the top one, of which nothing is claimed. The jobs will be mapped on so many workers.
    ///
    /// # Errors
    ///
    /// Want of memory.
    pub(crate) fn start(
        alloc: Global,
        graphs: Arc<Graphs>,
        workers: u32,
        firing: Firing,
    ) -> Result<JobTable, AllocError>
        requires valid { AreValid (arc_value graphs) }
        requires fit { IsFit (arc_value graphs).graphs firing }
        requires inherited { HasInherited (arc_value graphs).graphs firing }
        requires some { 1 ≤ workers }
        ensures { IfOk result (IsStarted (arc_value graphs) workers firing) }
    {
        let own = Arc::try_clone(&graphs)?;
        // Rows must be spent: from here on no `?` stands.
        let mut rows = Vec::with_capacity(alloc, 8)?;
        match open(alloc, own, workers, firing, None) {
            Ok(job) => {
                rows.push_reserved(Some(top_row(alloc, job)));
                Ok(JobTable {
                    graphs,
                    workers,
                    rows,
                })
            }
            Err(error) => {
                rows.destroy_empty();
                Err(error)
            }
        }
    }

    /// The job in a row.
    pub(crate) fn job(&self, row: usize) -> &OpenJob
        requires { HasJob (λ job. Unit {0}) self.now row }
        ensures { HasJob (λ job. result.now ≡ job) self.now row }
    {
        &row_in(&self.rows[row]).job
    }

    /// How many jobs are open.
    pub(crate) fn open_jobs(&self) -> usize
        ensures { result ≡ length (keys_of self.now) }
    {
        count_rows(self.rows.as_slice())
    }

    /// What goes first for a worker, of all that the jobs offer: work of an open job before each call. None where no job offers
    /// anything.
    pub(crate) fn pick(&self, worker: u32) -> Option<Picked>
        ensures { IsPicked worker self.now result }
    {
        pick::pick(self.rows.as_slice(), worker)
    }

    /// What the first item of a job does of which nothing is claimed.
    pub(crate) fn begins(&self, row: usize) -> Begins
        requires { HasJob (λ job. (i : ℕ) → mark_at job.marks i ≡ Free) self.now row }
        ensures { HasJob (λ job. BeginsWith job result) self.now row }
    {
        begins_with(&row_in(&self.rows[row]).job)
    }

    /// Opens the job that an item calls: the key of its row.
    ///
    /// # Errors
    ///
    /// Want of memory. The item may not be free any more then, without an answer; all else is as before.
    pub(crate) fn open_child(
        &mut self,
        alloc: Global,
        row: usize,
        item: usize,
    ) -> Result<usize, AllocError>
        requires valid { AreValid self.old.graphs }
        requires some { 1 ≤ self.old.workers }
        requires offered { HasJob (λ job. (job.graphs ≡ self.old.graphs) × IsOfferedCall job item) self.old row }
        requires fit { HasJob (λ job. (firing : Firing) → task job item ≡ Some (Call firing) → IsFit job.graphs.graphs firing) self.old row }
        ensures opened { IfOk result (λ child. OpensChild row item self.old child self.new) }
        ensures refused { OnErr result (SpoilsItem row item self.old self.new) }
        ensures lent { LendsAsBefore self.old self.new }
        ensures asked { AsksAsBefore self.old self.new }
    {
        let key = vacant_key(&mut self.rows)?;
        let place = child_place(alloc, row_in(&self.rows[row]), item)?;
        let steps = child_steps(alloc, row_in(&self.rows[row]), item)?;
        let graphs = Arc::try_clone(&self.graphs)?;
        let known = row_in(&self.rows[row]).job.known(item);
        let firing = job_in(&mut self.rows[row]).call(alloc, item)?;
        let job = open(alloc, graphs, self.workers, firing, known)?;
        put_row(
            &mut self.rows[key],
            Row {
                job,
                upper: Some(row),
                place,
                steps,
            },
        );
        Ok(key)
    }

    /// Claims an item that has work of its own, other than the compilation. It takes no memory: the frame of a node is made in the
    /// room that lies in the slot.
    pub(crate) fn claim(&mut self, row: usize, item: usize, slot: &mut Option<Room>) -> Handed
        requires offered { HasJob (λ job. IsOfferedWork job item × (item ≢ compilation_of job)) self.old row }
        requires room { HasJob (λ job. HasRoomFor job.room slot.old) self.old row }
        ensures handed { HasJob (λ job. IsHanded job item result) self.old row }
        ensures claimed { MarksItem row item Busy self.old self.new }
        ensures lent { LendsItem row item (Some (frame_of result).places) self.old self.new }
        ensures asked { AsksAsBefore self.old self.new }
        ensures room { HasJob (λ job. TakesRoom (is_node job item) slot.old (frame_of result).places slot.new) self.old row }
        ensures fewer { free_items self.old ≡ free_items self.new + 1 }
    {
        job_in(&mut self.rows[row]).claim(item, slot)
    }

    /// Claims the compilation of a job, for which this is at hand that is kept by its key.
    ///
    /// # Errors
    ///
    /// Want of memory. The compilation is free still.
    pub(crate) fn claim_compile(
        &mut self,
        alloc: Global,
        row: usize,
        at_hand: AtHand,
    ) -> Result<CompileTask, AllocError>
        requires offered { HasJob IsOfferedCompilation self.old row }
        requires suits { HasJob (λ job. SuitsKey job.graphs.graphs (key_in job) at_hand) self.old row }
        ensures task { IfOk result (λ task. HasJob (λ job. task ≡ record { graphs = job.graphs; workers = job.workers; firing = job.firing; left = left_by job; kept = compilation_in at_hand }) self.old row) }
        ensures claimed { OnOk result (HasJob (λ job. MarksItem row (compilation_of job) Busy self.old self.new) self.old row) }
        ensures fewer { OnOk result (free_items self.old ≡ free_items self.new + 1) }
        ensures refused { OnErr result (self.new ≡ self.old) }
        ensures lent { LendsAsBefore self.old self.new }
        ensures asked { AsksAsBefore self.old self.new }
    {
        job_in(&mut self.rows[row]).claim_compile(alloc, at_hand)
    }

    /// Finishes an item whose frame is out: it comes back with what its kernel or its node wrote, or with the fault of the
    /// kernel. It takes no memory, and closes no job. The room of a node's frame comes back to the slot. Where one lies there, it is
    /// given up.
    pub(crate) fn finish(
        &mut self,
        row: usize,
        item: usize,
        frame: Frame,
        answer: Result<(), KernelFault>,
        slot: &mut Option<Room>,
    )
        requires busy { HasJob (λ job. mark_at job.marks item ≡ Busy) self.old row }
        requires lent { lent_in self.old row item ≡ Some frame.places }
        requires sound { HasJob (λ job. IsSoundFor (task job item) (IsOk answer)) self.old row }
        ensures finished { HasJob (λ job. MarksItem row item (Done (answer_with (task job item) frame answer)) self.old self.new) self.old row }
        ensures lent { LendsItem row item None self.old self.new }
        ensures asked { AsksAsBefore self.old self.new }
        ensures room { HasJob (λ job. slot.new ≡ slot_after (is_node job item) slot.old frame.places) self.old row }
        ensures free { free_items self.new ≡ free_items self.old }
    {
        job_in(&mut self.rows[row]).finish(item, frame, answer, slot)
    }

    /// Finishes the compilation of a job. It closes no job.
    ///
    /// # Errors
    ///
    /// Want of memory, also where the compilation ended so. The table is as before.
    pub(crate) fn finish_compile(
        &mut self,
        alloc: Global,
        row: usize,
        end: CompileEnd,
    ) -> Result<(), AllocError>
        requires busy { HasJob (λ job. mark_at job.marks (compilation_of job) ≡ Busy) self.old row }
        requires end { HasJob (λ job. IsEndOf job.graphs.graphs job.workers job.firing (left_by job) end) self.old row }
        ensures compiled { OnOk result (HasJob (FinishesIn row end self.old self.new) self.old row) }
        ensures refused { OnErr result (self.new ≡ self.old) }
        ensures lent { LendsAsBefore self.old self.new }
    {
        job_in(&mut self.rows[row]).finish_compile(alloc, end)
    }

    /// Closes the job in a row where nothing more will come of it, tells the item that called it how it ended, and so on
    /// with the job round it. Where the top job is closed, that is its end; else it is open still. It takes no memory.
    pub(crate) fn close_from(&mut self, row: usize) -> Option<Result<JobGiven, Refusal>>
        requires { IsClosingFrom self.old row }
        ensures closed { Closes self.old row self.new result }
        ensures stay { RowsStay self.old self.new }
        ensures fewer { free_items self.new ≤ free_items self.old }
    {
        boards_keep();
        rules_are_lawful();
        if !is_quiet(&self.rows[row]) {
            return None;
        }
        let Row {
            job,
            upper,
            place,
            steps: _,
        } = take_row(&mut self.rows[row]);
        let end = job.outcome();
        match upper {
            None => Some(end),
            Some(upper) => {
                job_in(&mut self.rows[upper]).finish_call(calling_item(&place), end);
                self.close_from(upper)
            }
        }
    }

    /// Gives up all jobs, of which no frame is out.
    pub(crate) fn end(self)
        requires { NothingIsLent self }
    {
        let JobTable {
            graphs: _,
            workers: _,
            rows,
        } = self;
        end_rows(rows)
    }
}
