// A job and its events.
ghost use Rattle.std.specs.Prelude.{◌≡◌, ◌≢◌, ◌⊎◌, ◌↔◌, ◌<◌, ℕ, [], length, map, slice_index, slice_set, true, false, IsTrue, IsOk};
ghost use Rattle.split_block.specs.Places.{Apart, AllApart, has, window};
ghost use Rattle.kernel_gate.specs.Rooms.{Suffices};
ghost use Rattle.kernel_gate.specs.Value.{lengths};
ghost use Rattle.job_flow.specs.Graphs.{node_at};
ghost use Rattle.job_flow.specs.Frames.{inputs, lens, on_edge};
ghost use Rattle.job_flow.specs.Events.{IsQuiet};
ghost use Rattle.job_flow.specs.Outcomes.{ended};

use crate::leases::{give_inputs, give_outputs, take_ports};
use crate::nodes::{is_child, keep_tokens, kind_of, reads_stored, writes_stored};
use crate::ready::{ReadyNodes, is_quiet, release, released};
use crate::stage::{Stage, ended_stage, first_fault};
use crate::stock::begin;
use cell_pool::Pool;
use job_compiler::{Compiled, JobMemory};
use kernel_gate::{Frame, KernelFault, Lent, Room, RoomSize, told_of};
use sdf_level::{List, Node};
use single_rate::graphs_numbered;
use std::alloc::Global;
use std::marker::Model;
use std::snapshot::Snapshot;
use std::sync::Arc;

/// One firing of a graph: the nodes of its single-rate graph, each of which is claimed once and finished once. It is neither
/// `Drop` nor `Clone`: `outcome` or `end` leaves its cells with its compilation.
pub struct Job {
    pub(crate) compiled: Arc<Compiled>,
    pub(crate) kinds: List<Option<u32>>,
    pub(crate) args: List<List<i64>>,
    pub(crate) sources: Snapshot<List<List<i64>>>,
    pub(crate) stored: Snapshot<List<List<i64>>>,
    pub(crate) stages: Vec<Stage>,
    /// How many edges into each node have a tail that isn't finished without a fault.
    pub(crate) waiting: Vec<usize>,
    /// The nodes that may be claimed.
    pub(crate) ready: ReadyNodes,
    /// How many nodes are claimed.
    pub(crate) claimed: usize,
    /// For each node the stored tokens that it reads, or cells for those that it keeps, until it is claimed.
    pub(crate) stock: Vec<List<i64>>,
    /// As much memory as the frame of any node takes.
    pub(crate) size: RoomSize,
    pub(crate) pool: Pool,
    pub(crate) outs: Vec<List<i64>>,
    pub(crate) left: Vec<List<i64>>,
    pub(crate) alloc: Global,
}

/// How a job ended.
#[derive(Debug, Drop)]
pub enum JobEnd {
    /// No node failed. The tokens that each sink keeps, and those that are left on each link.
    Done {
        outs: List<List<i64>>,
        stored: List<List<i64>>,
    },
    /// The first node that failed, in the order of one thread, and its code.
    Fault {
        node: u32,
        code: u8,
    },
}

impl Model for Job {
    ghost use Rattle.one_job.specs.View.{JobView};

    ghost Value = { JobView };

    ghost use Rattle.one_job.specs.Invariants.{view_of, IsJob};

    ghost view = { view_of };

    ghost invariant = { IsJob };
}

impl Job {
    ghost use Rattle.one_job.specs.Marks.{Claimed, IsClaimed, mark_at, phase, values};
    ghost use Rattle.one_job.specs.View.{JobView, IsEnabled, IsFiring, graph_of, kind_of, args_of};
    ghost use Rattle.one_job.specs.Pick.{IsFirst, IsOffered, is_child as is_job};
    ghost use Rattle.one_job.specs.LiveLaws.{KeepsBuffers};
    ghost use Rattle.one_job.specs.Calls.{LieAtBuffers, finished_with, end_of};

    /// The node that a worker claims next: of the nodes that may be claimed and aren't jobs of their own one whose home is the
    /// worker, then that of greatest priority, then that of least number. None where there is none.
    pub fn pick(&self, worker: u32) -> Option<u32>
        ensures { IsFirst self.now.compilation.mapping worker (IsOffered self.now false) result }
    {
        self.first(worker, false)
    }

    /// The same among the nodes that are jobs of their own.
    pub fn pick_child(&self, worker: u32) -> Option<u32>
        ensures { IsFirst self.now.compilation.mapping worker (IsOffered self.now true) result }
    {
        self.first(worker, true)
    }

    /// The same among the nodes that are jobs of their own, or among those that aren't.
    fn first(&self, worker: u32, child: bool) -> Option<u32>
        ensures { IsFirst self.now.compilation.mapping worker (IsOffered self.now child) result }
    {
        self.ready.side(child).first(worker)
    }

    /// What a node is.
    pub fn node(&self, node: u32) -> Node
        requires { node < length self.now.compilation.graph.nodes }
        ensures { result ≡ node_at self.now.compilation.graph.nodes node }
    {
        self.compiled.graph().nodes.items()[node as usize]
    }

    /// Whether a node is a job of its own: a firing of an actor that has no kernel.
    pub fn is_child(&self, node: u32) -> bool
        requires { node < length self.now.compilation.graph.nodes }
        ensures { result ≡ is_job self.now node }
    {
        is_child(
            self.compiled.graph().nodes.items()[node as usize],
            self.kinds.items(),
        )
    }

    /// The worker that is a node's home.
    pub fn home(&self, node: u32) -> u32
        requires { node < length self.now.compilation.graph.nodes }
        ensures { result ≡ slice_index self.now.compilation.mapping.home node }
    {
        self.compiled.mapping().home.items()[node as usize]
    }

    /// A node's priority.
    pub fn priority(&self, node: u32) -> u64
        requires { node < length self.now.compilation.graph.nodes }
        ensures { result ≡ slice_index self.now.compilation.mapping.priority node }
    {
        self.compiled.mapping().priority.items()[node as usize]
    }

    /// What the job was compiled to. In every state what is claimed was claimed in the order of the edges, and has the leases
    /// of its buffers; stored tokens have blocks of their own.
    pub fn compiled(&self) -> &Compiled
        ensures value { result.now ≡ self.now.compilation }
        ensures buffers { KeepsBuffers self.now }
    {
        &self.compiled
    }

    /// As much memory as the frame of any node takes.
    pub fn room_size(&self) -> RoomSize
        ensures { result ≡ self.now.room }
    {
        self.size
    }

    /// Claims a node. Its frame has the node's kind, or 0, the arguments of its actor, or none, no sets, and for each port a
    /// lease: the inputs hold the tokens that the node reads, and the outputs any tokens. It is made in the room, and takes no
    /// memory.
    pub fn claim(&mut self, node: u32, room: Room) -> Frame
        requires enabled { IsEnabled self.old node }
        requires room { Suffices self.old.room room }
        ensures kind { (result.kind ≡ kind_of self.old node) × (result.args ≡ args_of self.old node) × (result.sets ≡ []) }
        ensures inputs { result.inputs ≡ inputs (graph_of self.old) (values self.old.marks) node }
        ensures outputs { lengths result.outputs ≡ lens (graph_of self.old) node }
        ensures leases { LieAtBuffers self.old node result.places }
        ensures room { result.places.room ≡ room }
        ensures claimed { self.new ≡ record self.old { marks = slice_set self.old.marks node (Claimed result.places) } }
    {
        let n = node as usize;
        let kind = self.compiled.graph().nodes.items()[n];
        let edges = self.compiled.graph().edges.items();
        let offsets = self.compiled.placement().offsets.items();
        let mut lent = room.open();
        let parts: &mut Lent = &mut lent;
        begin(
            parts,
            kind,
            self.kinds.items(),
            self.args.items(),
            &mut self.stock[n],
            self.alloc,
        );
        take_ports(
            &mut self.pool,
            edges,
            offsets,
            self.compiled.wiring().entering.row(n),
            &mut parts.inputs,
            self.alloc,
        );
        take_ports(
            &mut self.pool,
            edges,
            offsets,
            self.compiled.wiring().leaving.row(n),
            &mut parts.outputs,
            self.alloc,
        );
        let frame = Frame::lend(lent);
        self.stages[n] = Stage::Claimed(told_of(&frame));
        self.ready.remove(node, is_child(kind, self.kinds.items()));
        self.claimed += 1;
        frame
    }

    /// Finishes a claimed node: its frame comes back with what it wrote, or with the code of its kernel. A job of its own
    /// that was refused is finished with code 0. The stored tokens that the node has read are given up. It takes no memory, and
    /// gives back the room that the frame was made in.
    pub fn finish(&mut self, node: u32, frame: Frame, answer: Result<(), KernelFault>) -> Room
        requires claimed { mark_at self.old.marks node ≡ Claimed frame.places }
        requires sound { IsFiring (node_at self.old.compilation.graph.nodes node) ⊎ IsOk answer }
        ensures finished { self.new ≡ record self.old { marks = slice_set self.old.marks node (finished_with frame answer) } }
        ensures room { result ≡ frame.places.room }
    {
        graphs_numbered();
        let n = node as usize;
        let is_done = answer.is_ok();
        let stage = ended_stage(told_of(&frame), answer);
        let mut lent = frame.take_back();
        let parts: &mut Lent = &mut lent;
        let kind = self.compiled.graph().nodes.items()[n];
        give_inputs(
            &mut self.pool,
            reads_stored(kind),
            &mut parts.inputs,
            self.alloc,
        );
        let kept = give_outputs(
            &mut self.pool,
            writes_stored(kind),
            &mut parts.outputs,
            self.alloc,
        );
        parts.args.clear();
        parts.sets.clear();
        keep_tokens(kind, kept, &mut self.left, &mut self.outs);
        self.stages[n] = stage;
        self.claimed -= 1;
        release(
            self.compiled.graph().edges.items(),
            released(is_done, self.compiled.wiring().leaving.row(n)),
            &mut self.waiting,
            &mut self.ready,
            self.compiled.graph().nodes.items(),
            self.kinds.items(),
        );
        Room::close(lent)
    }

    /// Whether there is nothing left to do: no node may be claimed, and none is claimed.
    pub fn quiet(&self) -> bool
        ensures { IsTrue result ↔ IsQuiet (graph_of self.now) (values self.now.marks) }
    {
        is_quiet(self.claimed, &self.ready)
    }

    /// How the job ended: with the fault that stands first in the order of one thread, else with the tokens that the sinks
    /// keep and those that are left on the links.
    pub fn outcome(self) -> JobEnd
        requires { IsQuiet (graph_of self) (values self.marks) }
        ensures { result ≡ end_of self }
    {
        let fault = first_fault(&self.stages);
        let (outs, left) = self.take_apart();
        match fault {
            Some((node, code)) => JobEnd::Fault { node, code },
            None => JobEnd::Done {
                outs: List::new(outs),
                stored: List::new(left),
            },
        }
    }

    /// Gives up the job, which no worker runs a node of.
    pub fn end(self)
        requires { (n : ℕ) → phase self.marks n ≢ IsClaimed }
    {
        let (_outs, _left) = self.take_apart();
    }

    /// Leaves its memory, no cell of which is out, for the next job of this compilation: what remains are the tokens that the sinks
    /// keep and those that are left on the links.
    fn take_apart(self) -> (Vec<List<i64>>, Vec<List<i64>>)
        requires { (n : ℕ) → phase self.marks n ≢ IsClaimed }
        ensures outs { result.0.items ≡ (ended (graph_of self) (values self.marks)).outs }
        ensures left { result.1.items ≡ (ended (graph_of self) (values self.marks)).left }
    {
        let Job {
            compiled,
            kinds: _,
            args: _,
            sources: _,
            stored: _,
            stages: _,
            waiting,
            ready,
            claimed: _,
            stock,
            size: _,
            pool,
            outs,
            left,
            alloc,
        } = self;
        let ReadyNodes { children, others } = ready;
        compiled.leave_memory(JobMemory {
            cells: pool.close(),
            counts: waiting,
            stock,
            children: children.into_rows(alloc),
            others: others.into_rows(alloc),
        });
        (outs, left)
    }
}
