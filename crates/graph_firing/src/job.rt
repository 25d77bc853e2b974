// One open job and its events.
ghost use Rattle.std.specs.Prelude.{◌≡◌, ◌≢◌, ◌⊎◌, ◌↔◌, ◌<◌, ◌-◌, None, Some, IfOk, IfSome, IsOk, IsTrue, MatchOption, OnErr, OnOk, slice_index};
ghost use Rattle.graph_firing.specs.Offers as offers;

use crate::going::{end_stage, go_on, next_stage, refused_early};
use crate::handed::Handed;
use crate::offer::Offer;
use crate::picking::{first_call, first_call_waiting, first_node, first_waiting};
use crate::places::nth_configuration;
use crate::slot::{put_room, take_room};
use crate::stage::Stage;
use crate::stage_nodes::{
    call_node, claim_node, finish_node, finish_node_call, known_node, node_number, node_step,
};
use job_compiler::{Compiled, Key};
use job_preparing::{AtHand, CompileEnd, CompileTask, Configuring, JobGiven, KnownEarly};
use kernel_gate::{Frame, KernelFault, Room, RoomSize};
use one_job::cells_have_one_owner;
use pisdf_meaning::{Firing, Refusal};
use std::alloc::{AllocError, Global};
use std::marker::Model;

/// One firing of a graph, as a job of which each item is claimed once and finished once. Its configuration actors have the
/// numbers from 0 on in file order, then comes its compilation, and then the nodes of its single-rate graph. It is neither
/// `Drop` nor `Clone`: it is given up by `outcome` or `end`.
pub struct OpenJob {
    pub(crate) configuring: Configuring,
    pub(crate) workers: u32,
    pub(crate) stage: Stage,
}

impl Model for OpenJob {
    ghost use Rattle.graph_firing.specs.View.{OpenView};

    ghost Value = { OpenView };

    ghost use Rattle.std.specs.Coded.{codes};
    ghost use Rattle.param_expr.specs.Tree.{tree_code};

    ghost coded = { Prim.hlevel (codes, tree_code) };

    ghost use Rattle.graph_firing.specs.Invariants.{view_of, IsOpenJob};

    ghost view = { view_of };

    ghost invariant = { IsOpenJob };
}

/// The number of the item that is offered.
fn number_of(offer: Option<Offer>) -> Option<usize>
    ensures { result ≡ offers.number_of offer }
{
    match offer {
        Some(offer) => Some(offer.item),
        None => None,
    }
}

impl OpenJob {
    ghost use Rattle.job_preparing.specs.Handing.{answer_with, end_of, lent_at, mark_at, EndSuits, IsNothingLent};
    ghost use Rattle.job_preparing.specs.CompileTasks.{IsEndOf};
    ghost use Rattle.job_preparing.specs.Levels.{SuitsKey, compilation_in};
    ghost use Rattle.job_preparing.specs.View.{HasInherited};
    ghost use Rattle.job_rules.specs.Words.{answer_of};
    ghost use Rattle.pisdf_meaning.specs.Configuring.{early_in};
    ghost use Rattle.pisdf_meaning.specs.declared.firing.Firing.{Firing as FiringOf};
    ghost use Rattle.nested_jobs.specs.Marks.{Busy, Done, Open};
    ghost use Rattle.nested_jobs.specs.Rules.{Call};
    ghost use Rattle.graph_firing.specs.View.{HasItem, IsOfferedCall, IsOfferedCompilation, IsOfferedWork, IsQuiet, compilation_of, graph_in, key_in, left_by, outcome_in, task};
    ghost use Rattle.graph_firing.specs.Places.{config_places};
    ghost use Rattle.graph_firing.specs.Offers.{IsPick, IsPickedNumber};
    ghost use Rattle.one_job.specs.Leased.{OneOwnerEach};
    ghost use Rattle.graph_firing.specs.Leases.{LendsItems};
    ghost use Rattle.graph_firing.specs.Paths.{IsCall, step_of};
    ghost use Rattle.graph_firing.specs.Rooms.{HasRoomFor, TakesRoom, is_node, slot_after};
    ghost use Rattle.graph_firing.specs.Calls.{FinishesCompilation, IsHanded, IsSoundFor, PlacedIn, frame_of, with_item, with_mark};

    /// What the job was compiled to, once it is. In every state what is lent of its nodes are the leases of their buffers, in one
    /// block, at the offsets of the compilation's placement. What isn't free was claimed in the order of the edges. No cell of
    /// the job has two owners.
    pub fn compiled(&self) -> Option<&Compiled>
        ensures value { MatchOption result (self.now.cells ≡ None) (λ compiled. PlacedIn compiled.now self.now.cells) }
        ensures lends { LendsItems self.now }
        ensures owners { OneOwnerEach (lent_at self.now.lent) }
    {
        cells_have_one_owner();
        self.configuring.own_blocks();
        match &self.stage {
            Stage::Nodes(running) => Some(running.compiled()),
            Stage::Waiting => None,
            Stage::Compiling => None,
            Stage::Refused(_) => None,
        }
    }

    /// As much memory as the frame of any node takes, once the nodes are there.
    pub fn room_size(&self) -> Option<RoomSize>
        ensures { result ≡ self.now.room }
    {
        match &self.stage {
            Stage::Nodes(running) => Some(running.room_size()),
            Stage::Waiting => None,
            Stage::Compiling => None,
            Stage::Refused(_) => None,
        }
    }

    /// The firing of which this is the job.
    pub fn firing(&self) -> &Firing
        ensures { result.now ≡ self.now.firing }
    {
        self.configuring.firing()
    }

    /// The number of the compilation. Those of configuration actors are less, those of nodes greater.
    pub fn compilation(&self) -> usize
        ensures { result ≡ compilation_of self.now }
    {
        self.configuring.count() as usize
    }

    /// The place of a configuration actor among all actors of its graph.
    fn config_place(&self, item: usize) -> usize
        requires { item < compilation_of self.now }
        ensures { result ≡ slice_index (config_places (graph_in self.now)) item }
    {
        let graph = self.configuring.firing().graph as usize;
        let graphs = self.configuring.graphs();
        nth_configuration(graphs.graphs.items()[graph].actors.items(), item)
    }

    /// How the path goes on of the job that an item calls: by the place of the item's actor among all actors of the graph, and
    /// the number of its firing, which is 0 for a configuration actor.
    pub fn step(&self, item: usize) -> (u32, u32)
        requires { IsCall self.now item }
        ensures { result ≡ step_of self.now item }
    {
        let compilation = self.configuring.count() as usize;
        if item < compilation {
            (self.config_place(item) as u32, 0)
        } else {
            node_step(&self.stage, item - compilation - 1)
        }
    }

    /// How a journal names an item that has work of its own, other than the compilation: a configuration actor by its place
    /// among all actors of its graph, a node by its number.
    pub fn number(&self, item: usize) -> u32
        requires offered { IsOfferedWork self.now item }
        requires framed { item ≢ compilation_of self.now }
        ensures actor { item < compilation_of self.now → result ≡ slice_index (config_places (graph_in self.now)) item }
        ensures node { compilation_of self.now < item → result ≡ item - compilation_of self.now - 1 }
    {
        let compilation = self.configuring.count() as usize;
        if item < compilation {
            self.config_place(item) as u32
        } else {
            node_number(&self.stage, item - compilation - 1)
        }
    }

    /// Which of the items that are free and have work of their own goes first for a worker.
    pub fn pick(&self, worker: u32) -> Option<Offer>
        ensures { IsPick (IsOfferedWork self.now) self.now worker result }
    {
        match &self.stage {
            Stage::Waiting => first_waiting(&self.configuring),
            Stage::Compiling => None,
            Stage::Refused(_) => None,
            Stage::Nodes(running) => {
                first_node(running, self.configuring.count() as usize + 1, worker)
            }
        }
    }

    /// The number of the item that `pick` answers, without where it stands.
    pub fn first_work(&self, worker: u32) -> Option<usize>
        ensures { IsPickedNumber (IsOfferedWork self.now) self.now worker result }
    {
        match &self.stage {
            Stage::Waiting => number_of(first_waiting(&self.configuring)),
            Stage::Compiling => None,
            Stage::Refused(_) => None,
            Stage::Nodes(running) => number_of(first_node(
                running,
                self.configuring.count() as usize + 1,
                worker,
            )),
        }
    }

    /// Which of the items that are free and call a job goes first for a worker.
    pub fn pick_call(&self, worker: u32) -> Option<Offer>
        ensures { IsPick (IsOfferedCall self.now) self.now worker result }
    {
        match &self.stage {
            Stage::Waiting => first_call_waiting(&self.configuring),
            Stage::Compiling => None,
            Stage::Refused(_) => None,
            Stage::Nodes(running) => {
                first_call(running, self.configuring.count() as usize + 1, worker)
            }
        }
    }

    /// Claims an item that has work of its own, other than the compilation. It takes no memory: the frame of a node is made in the
    /// room that lies in the slot.
    pub fn claim(&mut self, item: usize, slot: &mut Option<Room>) -> Handed
        requires offered { IsOfferedWork self.old item }
        requires framed { item ≢ compilation_of self.old }
        requires room { HasRoomFor self.old.room slot.old }
        ensures there { HasItem self.old item }
        ensures handed { IsHanded self.old item result }
        ensures claimed { self.new ≡ with_item self.old item Busy (Some (frame_of result).places) }
        ensures room { TakesRoom (is_node self.old item) slot.old (frame_of result).places slot.new }
    {
        let compilation = self.configuring.count() as usize;
        if item < compilation {
            Handed::Configure(self.configuring.claim(item as u32))
        } else {
            let room = take_room(slot);
            claim_node(&mut self.stage, item - compilation - 1, room)
        }
    }

    /// What the compilation is kept by.
    ///
    /// # Errors
    ///
    /// Want of memory.
    pub fn compile_key(&self, alloc: Global) -> Result<Key, AllocError>
        requires { IsOfferedCompilation self.now }
        ensures { IfOk result (λ key. key ≡ key_in self.now) }
    {
        self.configuring.key(alloc, self.workers)
    }

    /// Claims the compilation, for which this is at hand that is kept by its key.
    ///
    /// # Errors
    ///
    /// Want of memory. The compilation is free still.
    pub fn claim_compile(
        &mut self,
        alloc: Global,
        at_hand: AtHand,
    ) -> Result<CompileTask, AllocError>
        requires offered { IsOfferedCompilation self.old }
        requires suits { SuitsKey self.old.graphs.graphs (key_in self.old) at_hand }
        ensures there { HasItem self.old (compilation_of self.old) }
        ensures task { IfOk result (λ task. task ≡ record { graphs = self.old.graphs; workers = self.old.workers; firing = self.old.firing; left = left_by self.old; kept = compilation_in at_hand }) }
        ensures claimed { OnOk result (self.new ≡ with_mark self.old (compilation_of self.old) Busy) }
        ensures refused { OnErr result (self.new ≡ self.old) }
    {
        let task = self.configuring.compile_task(alloc, self.workers, at_hand)?;
        go_on(&mut self.stage, Stage::Compiling);
        Ok(task)
    }

    /// What is known of the graph of the job that an item calls, if it is.
    pub fn known(&self, item: usize) -> Option<KnownEarly>
        requires { IsOfferedCall self.now item }
        ensures { IfSome result (λ early. (firing : FiringOf) → task self.now item ≡ Some (Call firing) → early ≡ early_in self.now.graphs.graphs firing) }
    {
        let compilation = self.configuring.count() as usize;
        if item < compilation {
            None
        } else {
            known_node(&self.stage, item - compilation - 1)
        }
    }

    /// Opens an item that calls a job: the firing that is to be opened.
    ///
    /// # Errors
    ///
    /// Want of memory. No more is lent than before, and the job is good for `end` alone.
    pub fn call(&mut self, alloc: Global, item: usize) -> Result<Firing, AllocError>
        requires { IsOfferedCall self.old item }
        ensures there { HasItem self.old item }
        ensures firing { IfOk result (λ firing. task self.old item ≡ Some (Call firing)) }
        ensures inherited { IfOk result (HasInherited self.old.graphs.graphs) }
        ensures opened { IfOk result (λ firing. self.new ≡ with_mark self.old item (Open firing)) }
        ensures refused { OnErr result ((self.new ≡ self.old) ⊎ (self.new ≡ with_mark self.old item Busy)) }
    {
        let compilation = self.configuring.count() as usize;
        if item < compilation {
            self.configuring.call(alloc, item as u32)
        } else {
            call_node(&mut self.stage, alloc, item - compilation - 1)
        }
    }

    /// Finishes an item whose frame is out: it comes back with what its kernel or its node wrote, or with the fault of the
    /// kernel. It takes no memory. The room of a node's frame comes back to the slot. Where one lies there, it is given up.
    pub fn finish(
        &mut self,
        item: usize,
        frame: Frame,
        answer: Result<(), KernelFault>,
        slot: &mut Option<Room>,
    )
        requires busy { mark_at self.old.marks item ≡ Busy }
        requires lent { lent_at self.old.lent item ≡ Some frame.places }
        requires sound { IsSoundFor (task self.old item) (IsOk answer) }
        ensures finished { self.new ≡ with_item self.old item (Done (answer_with (task self.old item) frame answer)) None }
        ensures room { slot.new ≡ slot_after (is_node self.old item) slot.old frame.places }
    {
        let compilation = self.configuring.count() as usize;
        if item < compilation {
            self.configuring.finish(item as u32, frame, answer);
        } else {
            let room = finish_node(&mut self.stage, item - compilation - 1, frame, answer);
            put_room(slot, room);
        }
    }

    /// Finishes an item that called a job, with the end of that job. It takes no memory.
    pub fn finish_call(&mut self, item: usize, end: Result<JobGiven, Refusal>)
        requires { (firing : Firing) × (mark_at self.old.marks item ≡ Open firing) × EndSuits self.old.graphs.graphs firing (end_of end) }
        ensures { self.new ≡ with_mark self.old item (Done (answer_of (end_of end))) }
    {
        let compilation = self.configuring.count() as usize;
        if item < compilation {
            self.configuring.finish_call(item as u32, end);
        } else {
            finish_node_call(&mut self.stage, item - compilation - 1, end);
        }
    }

    /// Finishes the compilation. Where it has a schedule, the nodes are there then, and each is free.
    ///
    /// # Errors
    ///
    /// Want of memory, also where the compilation ended so. The job is as before.
    pub fn finish_compile(&mut self, alloc: Global, end: CompileEnd) -> Result<(), AllocError>
        requires busy { mark_at self.old.marks (compilation_of self.old) ≡ Busy }
        requires end { IsEndOf self.old.graphs.graphs self.old.workers self.old.firing (left_by self.old) end }
        ensures compiled { OnOk result (FinishesCompilation end self.old self.new) }
        ensures refused { OnErr result (self.new ≡ self.old) }
    {
        let next = next_stage(alloc, &self.configuring, self.workers, end)?;
        go_on(&mut self.stage, next);
        Ok(())
    }

    /// Whether nothing more will come of the items: each is finished, or not all that stands before it is there.
    pub fn quiet(&self) -> bool
        ensures { IsTrue result ↔ IsQuiet self.now }
    {
        match &self.stage {
            Stage::Waiting => self.configuring.is_settled() && !self.configuring.is_ready(),
            Stage::Compiling => false,
            Stage::Refused(_) => true,
            Stage::Nodes(running) => running.quiet(),
        }
    }

    /// How the job ended: with the refusal of the item of the least number that was refused, else with what the firing gives.
    /// It takes no memory.
    pub fn outcome(self) -> Result<JobGiven, Refusal>
        requires { IsQuiet self }
        ensures outcome { answer_of (end_of result) ≡ outcome_in self }
        ensures suits { EndSuits self.graphs.graphs self.firing (end_of result) }
    {
        let OpenJob {
            configuring,
            workers: _,
            stage,
        } = self;
        match stage {
            Stage::Waiting => Err(refused_early(configuring)),
            Stage::Compiling => Err(refused_early(configuring)),
            Stage::Refused(refusal) => {
                configuring.end();
                Err(refusal)
            }
            Stage::Nodes(running) => running.outcome(configuring.into_configured()),
        }
    }

    /// Gives up the job, of which no frame is out.
    pub fn end(self)
        requires { IsNothingLent self.lent }
    {
        let OpenJob {
            configuring,
            workers: _,
            stage,
        } = self;
        configuring.end();
        end_stage(stage);
    }
}
