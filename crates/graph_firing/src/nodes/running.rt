// The nodes of one compiled firing, and their events.
ghost use Rattle.std.specs.Prelude.{◌≡◌, ◌⊎◌, ◌<◌, ◌==◌, true, length, slice_index, slice_set, Some, None, Ok, IsOk, IfOk, IfSome, OnErr};
ghost use Rattle.nested_jobs.specs.Marks.{Busy, Open, Done};
ghost use Rattle.kernel_gate.specs.Rooms.{Suffices};
ghost use Rattle.nested_jobs.specs.Rules.{Call};
ghost use Rattle.job_flow.specs.Graphs.{node_at};
ghost use Rattle.job_rules.specs.Words.{answer_of};
ghost use Rattle.one_job.specs.Pick.{IsFirst};
ghost use Rattle.one_job.specs.View.{IsFiring};
ghost use Rattle.job_preparing.specs.View.{HasInherited};
ghost use Rattle.job_preparing.specs.Handing.{EndSuits, IsNothingLent, answer_with, end_of, lent_at, mark_at};

use crate::nodes::calling::{called, caller_of, firing_of};
use crate::nodes::ending::{Ending, job_given, refusal_of};
use crate::nodes::frames::{Held, end_frames, put_frame, spend_held, take_frame, take_refusal};
use crate::nodes::given::put_trace;
use crate::nodes::handed::{Handed, hand_out};
use crate::nodes::stage::{Stage, ended, waiting};
use crate::nodes::stages::Stages;
use crate::nodes::writing::write_child;
use job_compiler::Compiled;
use job_flow::{faults_renamed, ready_stays};
use job_preparing::{ConfiguredFiring, JobGiven, KnownEarly, LeftTold, ReadyLevel};
use kernel_gate::{Frame, KernelFault, Room, RoomSize, told_of};
use one_job::{Job, JobEnd};
use param_expr::Name;
use param_resolver::level_by_actor;
use pisdf_meaning::{Firing, Path, Refusal};
use pisdf_model::Graphs;
use sdf_level::{Node, TokenName};
use single_rate::{graphs_numbered, tokens_delivered};
use std::alloc::{AllocError, Global};
use std::marker::Model;
use std::snapshot::Snapshot;
use std::sync::Arc;

/// The nodes of one compiled firing of a graph, numbered as in its single-rate graph. Each is claimed or called once, and
/// finished once. It is neither `Drop` nor `Clone`: it is given up by `outcome` or `end`.
pub(crate) struct Running {
    pub(crate) graphs: Arc<Graphs>,
    // What the firing was compiled to.
    pub(crate) level: Arc<ReadyLevel>,
    pub(crate) firing: Snapshot<Firing>,
    pub(crate) left: LeftTold,
    // The place of the graph in its file.
    pub(crate) place: u32,
    pub(crate) path: Path,
    // The name of each actor of the level.
    pub(crate) names: Vec<Name>,
    // What is moved at the end. The list of states in it is empty. Of each actor that fires graphs there is a trace for each
    // firing, of another none.
    pub(crate) ending: Ending,
    pub(crate) stages: Stages,
    // At the number of each node that fires a graph: as long as the last such node asks, and empty where no node fires one.
    pub(crate) held: Vec<Held>,
    pub(crate) job: Job,
    pub(crate) alloc: Global,
}

impl Model for Running {
    ghost use Rattle.graph_firing.specs.Nodes.View.{RunningView};

    ghost Value = { RunningView };

    ghost use Rattle.std.specs.Coded.{codes};
    ghost use Rattle.param_expr.specs.Tree.{tree_code};

    ghost coded = { Prim.hlevel (codes, tree_code) };

    ghost use Rattle.graph_firing.specs.Nodes.Invariants.{IsRunning, view_of};

    ghost view = { view_of };

    ghost invariant = { IsRunning };
}

impl Running {
    ghost use Rattle.job_rules.specs.Items.{step_of_node};
    ghost use Rattle.pisdf_meaning.specs.Configuring.{early_in};
    ghost use Rattle.pisdf_meaning.specs.declared.firing.Firing.{Firing as FiringOf};
    ghost use Rattle.graph_firing.specs.Nodes.View.{IsOfferedCall, IsOfferedWork, RunningView, graph_in, is_quiet, nodes_of, outcome_of, task};
    ghost use Rattle.graph_firing.specs.Nodes.Calls.{IsEndOfCall, IsHanded, IsLeft, frame_of};
    ghost use Rattle.graph_firing.specs.Nodes.Leases.{LendsNodes};

    /// What the firing was compiled to. In every state what is lent of the nodes are the leases of their buffers, in the block of
    /// the firing, at the offsets of the compilation's placement. What isn't free was claimed in the order of the edges.
    pub(crate) fn compiled(&self) -> &Compiled
        ensures value { result.now ≡ self.now.cells.compilation }
        ensures lends { LendsNodes self.now }
    {
        self.job.compiled()
    }

    /// The number of nodes.
    pub(crate) fn count(&self) -> u32
        ensures { result ≡ length (nodes_of self.now) }
    {
        self.job.compiled().graph().nodes.items().len() as u32
    }

    /// The node that a worker claims next: of the free nodes with work of their own one whose home is the worker, then that
    /// of greatest priority, then that of least number. None where there is none.
    pub(crate) fn pick(&self, worker: u32) -> Option<u32>
        ensures { IsFirst self.now.mapping worker (IsOfferedWork self.now) result }
    {
        graphs_numbered();
        faults_renamed::<i64, u8, Refusal>();
        self.job.pick(worker)
    }

    /// The same among the free nodes that fire graphs.
    pub(crate) fn pick_call(&self, worker: u32) -> Option<u32>
        ensures { IsFirst self.now.mapping worker (IsOfferedCall self.now) result }
    {
        graphs_numbered();
        faults_renamed::<i64, u8, Refusal>();
        self.job.pick_child(worker)
    }

    /// Whether a worker is a node's home.
    pub(crate) fn is_home(&self, node: u32, worker: u32) -> bool
        requires { node < length (nodes_of self.now) }
        ensures { result ≡ (slice_index self.now.mapping.home node == worker) }
    {
        self.job.home(node) == worker
    }

    /// A node's priority.
    pub(crate) fn priority(&self, node: u32) -> u64
        requires { node < length (nodes_of self.now) }
        ensures { result ≡ slice_index self.now.mapping.priority node }
    {
        self.job.priority(node)
    }

    /// Of a firing of an actor the place of the actor among all actors of the graph, and the number of the firing. Of another
    /// node 0 and 0.
    pub(crate) fn step(&self, node: u32) -> (u32, u32)
        requires { node < length (nodes_of self.now) }
        ensures { result ≡ step_of_node (graph_in self.now) (node_at (nodes_of self.now) node) }
    {
        graphs_numbered();
        level_by_actor();
        match self.job.node(node) {
            Node::Firing { actor, turn } => {
                (self.level.made.set.places.items()[actor as usize], turn)
            },
            Node::Source(_)
            | Node::Init(_)
            | Node::End(_)
            | Node::Sink(_)
            | Node::Broadcast(_)
            | Node::Fork { .. }
            | Node::Join { .. }
            | Node::Round(_) => (0, 0),
        }
    }

    /// As much memory as the frame of any node takes.
    pub(crate) fn room_size(&self) -> RoomSize
        ensures { result ≡ self.now.room }
    {
        self.job.room_size()
    }

    /// Claims a node that has work of its own. Its frame has what the work says. It is made in the room, and takes no memory.
    pub(crate) fn claim(&mut self, node: u32, room: Room) -> Handed
        requires offered { IsOfferedWork self.old node }
        requires room { Suffices self.old.room room }
        ensures handed { IsHanded (task self.old node) result }
        ensures room { (frame_of result).places.room ≡ room }
        ensures claimed { self.new ≡ record self.old { marks = slice_set self.old.marks node Busy; lent = slice_set self.old.lent node (Some (frame_of result).places) } }
    {
        faults_renamed::<i64, u8, Refusal>();
        ready_stays::<i64, u8, ()>();
        let which = self.job.node(node);
        let frame = self.job.claim(node, room);
        frame.outputs_fill_leases();
        self.stages.put(node, Stage::Busy(told_of(&frame)));
        hand_out(which, frame)
    }

    /// Finishes a claimed node: its frame comes back with what it wrote, or with the code of its kernel. It takes no memory, and
    /// gives back the room that the frame was made in.
    pub(crate) fn finish(
        &mut self,
        node: u32,
        frame: Frame,
        answer: Result<(), KernelFault>,
    ) -> Room
        requires busy { mark_at self.old.marks node ≡ Busy }
        requires lent { lent_at self.old.lent node ≡ Some frame.places }
        requires sound { IsFiring (node_at (nodes_of self.old) node) ⊎ IsOk answer }
        ensures finished { self.new ≡ record self.old { marks = slice_set self.old.marks node (Done (answer_with (task self.old node) frame answer)); lent = slice_set self.old.lent node None } }
        ensures room { result ≡ frame.places.room }
    {
        faults_renamed::<i64, u8, Refusal>();
        ready_stays::<i64, u8, ()>();
        frame.outputs_fill_leases();
        self.stages.put(node, ended(&frame, &answer));
        self.job.finish(node, frame, answer)
    }

    /// What is known of the graph that a node asks to fire; none where there is no memory for one more owner of that.
    pub(crate) fn known(&self, node: u32) -> Option<KnownEarly>
        requires { IsOfferedCall self.now node }
        ensures { IfSome result (λ early. (d : FiringOf) → task self.now node ≡ Some (Call d) → early ≡ early_in self.now.graphs.graphs d) }
    {
        level_by_actor();
        faults_renamed::<i64, u8, Refusal>();
        ready_stays::<i64, u8, ()>();
        let which = self.job.node(node);
        let (actor, _turn) = firing_of(which);
        match KnownEarly::of_caller(&self.level, actor) {
            Ok(early) => Some(early),
            Err(AllocError) => None,
        }
    }

    /// Calls the firing of a graph that a node asks for.
    ///
    /// # Errors
    ///
    /// Want of memory. All is as before, or the node is busy then, and nothing of it is lent.
    pub(crate) fn call(&mut self, alloc: Global, node: u32) -> Result<Firing, AllocError>
        requires { IsOfferedCall self.old node }
        ensures called { IfOk result (λ d. task self.old node ≡ Some (Call d)) }
        ensures inherited { IfOk result (HasInherited self.old.graphs.graphs) }
        ensures ok { IfOk result (λ d. self.new ≡ record self.old { marks = slice_set self.old.marks node (Open d) }) }
        ensures err { OnErr result ((self.new ≡ self.old) ⊎ (self.new ≡ record self.old { marks = slice_set self.old.marks node Busy })) }
    {
        level_by_actor();
        faults_renamed::<i64, u8, Refusal>();
        ready_stays::<i64, u8, ()>();
        let room = Room::start(alloc, self.job.room_size())?;
        let which = self.job.node(node);
        let (actor, turn) = firing_of(which);
        let frame = self.job.claim(node, room);
        let caller = caller_of(
            self.graphs.graphs.items(),
            self.place,
            &self.level.made.set,
            &self.ending.keeps,
            actor,
            turn,
        );
        let result = called(alloc, &self.path, &caller, &frame);
        self.stages.put(node, waiting(&result, &frame));
        put_frame(&mut self.held, node as usize, frame);
        result
    }

    /// Finishes a node that called the firing of a graph: with what that gave, or with its refusal. It takes no memory.
    pub(crate) fn finish_call(&mut self, node: u32, end: Result<JobGiven, Refusal>)
        requires { IsEndOfCall self.old node end }
        ensures { self.new ≡ record self.old { marks = slice_set self.old.marks node (Done (answer_of (end_of end))) } }
    {
        graphs_numbered();
        ready_stays::<i64, u8, ()>();
        let which = self.job.node(node);
        match end {
            Ok(given) => {
                let mut frame = take_frame(&mut self.held, node as usize, Held::Nothing);
                self.stages.put(node, Stage::Gave(Snapshot::of(&given)));
                let JobGiven {
                    outs,
                    state,
                    trace,
                    exports: _,
                } = given;
                let (actor, turn) = firing_of(which);
                let keeps = self.ending.keeps[actor as usize];
                write_child(&mut frame, keeps, outs.items(), state.items());
                put_trace(&mut self.ending.traces, actor, turn, trace);
                self.job.finish(node, frame, Ok(())).end();
            }
            Err(refusal) => {
                self.stages
                    .put(node, Stage::Refused(Snapshot::of(&refusal)));
                let frame = take_frame(&mut self.held, node as usize, Held::Refuses(refusal));
                self.job
                    .finish(node, frame, Err(KernelFault { code: 0 }))
                    .end();
            }
        }
    }

    /// Whether nothing more will come of any node.
    pub(crate) fn quiet(&self) -> bool
        ensures { result ≡ is_quiet self.now }
    {
        graphs_numbered();
        faults_renamed::<i64, u8, Refusal>();
        self.job.quiet()
    }

    /// How the firing ends: with the refusal that stands first in the order of one thread, else with what it gives. It is
    /// given what its configuration actors left. It takes no memory.
    pub(crate) fn outcome(self, left: ConfiguredFiring) -> Result<JobGiven, Refusal>
        requires quiet { is_quiet self ≡ true }
        requires left { IsLeft self left }
        ensures end { end_of result ≡ outcome_of self }
        ensures suits { EndSuits self.graphs.graphs self.firing (end_of result) }
    {
        graphs_numbered();
        tokens_delivered::<TokenName, TokenName, TokenName>();
        faults_renamed::<i64, u8, Refusal>();
        let Running {
            graphs,
            level,
            firing: _,
            left: _,
            place,
            path,
            names,
            ending,
            stages: _,
            held,
            job,
            alloc,
        } = self;
        match job.outcome() {
            JobEnd::Fault { node, code } => {
                let which = level.made.compiled.graph().nodes.items()[node as usize];
                let called = take_refusal(held, node as usize);
                Err(refusal_of(alloc, path, names, which, called, code))
            }
            JobEnd::Done { outs, stored } => {
                spend_held(held);
                let graph = &graphs.graphs.items()[place as usize];
                Ok(job_given(alloc, graph, ending, left, outs, stored))
            }
        }
    }

    /// Gives up the firing, of which no frame is out.
    pub(crate) fn end(self)
        requires { IsNothingLent self.lent }
    {
        let Running {
            graphs: _,
            level: _,
            firing: _,
            left: _,
            place: _,
            path: _,
            names: _,
            ending: _,
            stages: _,
            held,
            job,
            alloc: _,
        } = self;
        end_frames(job, held).end();
    }
}
