// The configuration actors of a firing.
use crate::asking::{config_call, line_for};
use crate::compile_task::{CompileTask, KeptTask, Parts, Way};
use crate::ending::{keep, kernel_given};
use crate::handing::{ConfiguredFiring, JobGiven};
use crate::kept_one::key_for;
use crate::known::KnownEarly;
use crate::left_told::LeftTold;
use crate::levels::AtHand;
use crate::slim::{slim_firing, slim_left};
use crate::stage::{
    Stage, all_finished, all_gave, first_call, first_kernel, first_refused, line_of, put, spare_of,
};
use crate::starting::spend_frames;
use crate::trace::Trace;
use job_compiler::{Compiled, Key};
use kernel_gate::{Frame, KernelFault, told_of};
use param_resolver::early_unfolds;
use pisdf_meaning::{Cause, Configured, Firing, Refusal};
use pisdf_model::Graphs;
use sdf_level::List;
use std::alloc::{AllocError, Global};
use std::marker::Model;
use std::mem;
use std::snapshot::Snapshot;
use std::sync::Arc;

/// The configuration actors of one firing of a graph, numbered in file order. Each is claimed or called once, and finished
/// once. It is neither `Drop` nor `Clone`: it is given up by `refusal`, `into_configured` or `end`.
pub struct Configuring {
    pub(crate) graphs: Arc<Graphs>,
    pub(crate) firing: Firing,
    pub(crate) early: KnownEarly,
    // The place of each among the actors of the graph.
    pub(crate) places: Vec<usize>,
    pub(crate) stages: Vec<Stage>,
    pub(crate) frames: Vec<Option<Frame>>,
    pub(crate) left: Vec<Configured>,
    pub(crate) traces: Vec<Trace>,
    pub(crate) alloc: Global,
}

impl Model for Configuring {
    ghost use Rattle.job_preparing.specs.View.{ConfiguringView};

    ghost Value = { ConfiguringView };

    ghost use Rattle.std.specs.Coded.{codes};
    ghost use Rattle.param_expr.specs.Tree.{tree_code};

    ghost coded = { Prim.hlevel (codes, tree_code) };

    ghost use Rattle.job_preparing.specs.Invariants.{IsConfiguring, view_of};

    ghost view = { view_of };

    ghost invariant = { IsConfiguring };
}

impl Configuring {
    ghost use Rattle.std.specs.Prelude.{◌≡◌, ◌<◌, ◌≤◌, ◌↔◌, Some, None, length, map, slice_set, IfOk, IsTrue, OnErr, option_map};
    ghost use Rattle.std.specs.Arc.{arc_value};
    ghost use Rattle.kernel_gate.specs.Value.{lengths};
    ghost use Rattle.nested_jobs.specs.Marks.{Busy, Done, Open};
    ghost use Rattle.nested_jobs.specs.Rules.{Call};
    ghost use Rattle.param_resolver.specs.LevelOf.{sources_of};
    ghost use Rattle.pisdf_meaning.specs.Configuring.{early_in};
    ghost use Rattle.pisdf_meaning.specs.Running.{source_tokens};
    ghost use Rattle.pisdf_meaning.specs.declared.firing.Firing.{Firing as FiringOf};
    ghost use Rattle.job_rules.specs.Items.{compile_number, first_refusal};
    ghost use Rattle.job_rules.specs.Words.{answer_of};
    ghost use Rattle.job_preparing.specs.Handing.{AreOwnBlocks, EndSuits, IsFrameFor, IsLeast, LeftSuits, answer_with, answers, end_of, lent_at, mark_at, with_traces, without_trace};
    ghost use Rattle.job_preparing.specs.Levels.{SuitsKey, compilation_in};
    ghost use Rattle.job_preparing.specs.Tasked.{IsTask, task_view};
    ghost use Rattle.job_preparing.specs.View.{HasInherited, IsOfferedCall, IsOfferedWork, IsReady, IsSettled, graph_in, key_of, left_by, task};

    /// How many configuration actors the graph has.
    pub fn count(&self) -> u32
        ensures { result ≡ compile_number (graph_in self.now) }
    {
        self.places.len() as u32
    }

    /// What is lent of a configuration actor lies in blocks of its own, which are no pool's. This call does nothing.
    pub fn own_blocks(&self)
        ensures { AreOwnBlocks self.now.lent }
    {
        let _stages = self.stages.as_slice();
    }

    /// The firing.
    pub fn firing(&self) -> &Firing
        ensures { result.now ≡ self.now.firing }
    {
        &self.firing
    }

    /// The graphs.
    pub fn graphs(&self) -> &Arc<Graphs>
        ensures { arc_value result.now ≡ self.now.graphs }
    {
        &self.graphs
    }

    /// The first configuration actor that fires a kernel and isn't claimed yet.
    pub fn pick(&self) -> Option<u32>
        ensures { IsLeast (IsOfferedWork self.now) result }
    {
        match first_kernel(&self.stages) {
            Some(n) => Some(n as u32),
            None => None,
        }
    }

    /// The first configuration actor that fires a graph and isn't called yet.
    pub fn pick_call(&self) -> Option<u32>
        ensures { IsLeast (IsOfferedCall self.now) result }
    {
        match first_call(&self.stages) {
            Some(n) => Some(n as u32),
            None => None,
        }
    }

    /// Claims a configuration actor that fires a kernel. It takes no memory.
    pub fn claim(&mut self, c: u32) -> Frame
        requires { IsOfferedWork self.old c }
        ensures frame { IsFrameFor (task self.old c) result }
        ensures claimed { self.new ≡ record self.old { marks = slice_set self.old.marks c Busy; lent = slice_set self.old.lent c (Some result.places) } }
    {
        let n = c as usize;
        let frame = match self.frames[n].take() {
            Some(frame) => frame,
            None => unreachable!(),
        };
        let spare = spare_of(mem::replace(&mut self.stages[n], Stage::Calls));
        self.stages[n] = Stage::Busy(told_of(&frame), spare);
        frame
    }

    /// Calls the graph that a configuration actor fires: the firing that it calls.
    ///
    /// # Errors
    ///
    /// Want of memory. The actor isn't called then.
    pub fn call(&mut self, alloc: Global, c: u32) -> Result<Firing, AllocError>
        requires { IsOfferedCall self.old c }
        ensures called { IfOk result (λ firing. task self.old c ≡ Some (Call firing)) }
        ensures inherited { IfOk result (HasInherited self.old.graphs.graphs) }
        ensures opened { IfOk result (λ firing. self.new ≡ record self.old { marks = slice_set self.old.marks c (Open firing) }) }
        ensures refused { OnErr result (self.new ≡ self.old) }
    {
        let n = c as usize;
        let graph = &self.graphs.graphs.items()[self.firing.graph as usize];
        let firing = config_call(
            alloc,
            &self.graphs,
            graph,
            self.early.get(),
            &self.firing,
            n,
            self.places[n],
        )?;
        let line = line_for(alloc, firing.state.items())?;
        self.stages[n] = Stage::Open(Snapshot::of(&firing), line);
        Ok(firing)
    }

    /// Finishes a claimed configuration actor: its frame comes back with what its kernel gave, or with the kernel's code. It
    /// takes no memory.
    pub fn finish(&mut self, c: u32, frame: Frame, answer: Result<(), KernelFault>)
        requires busy { mark_at self.old.marks c ≡ Busy }
        requires lent { lent_at self.old.lent c ≡ Some frame.places }
        ensures { self.new ≡ record self.old { marks = slice_set self.old.marks c (Done (answer_with (task self.old c) frame answer)); lent = slice_set self.old.lent c None } }
    {
        let n = c as usize;
        let spare = spare_of(mem::replace(&mut self.stages[n], Stage::Calls));
        match answer {
            Ok(()) => {
                let given = kernel_given(self.alloc, frame, spare.lists);
                self.stages[n] = keep(
                    self.alloc,
                    given,
                    Vec::new(self.alloc),
                    &mut self.left[n],
                    &mut self.traces[n],
                );
            }
            Err(fault) => {
                frame.end();
                self.stages[n] = Stage::Refused(Refusal {
                    path: spare.path,
                    cause: Cause::Kernel {
                        actor: spare.name,
                        firing: 0,
                        code: fault.code,
                    },
                });
            }
        }
    }

    /// Finishes a configuration actor whose graph was fired, with how that ended. It takes no memory.
    pub fn finish_call(&mut self, c: u32, end: Result<JobGiven, Refusal>)
        requires open { (d : FiringOf) × (mark_at self.old.marks c ≡ Open d) × EndSuits self.old.graphs.graphs d (end_of end) }
        ensures { self.new ≡ record self.old { marks = slice_set self.old.marks c (Done (answer_of (end_of end))) } }
    {
        let n = c as usize;
        let stage = mem::replace(&mut self.stages[n], Stage::Calls);
        match end {
            Ok(given) => {
                let line = line_of(stage);
                let next = keep(
                    self.alloc,
                    given,
                    line,
                    &mut self.left[n],
                    &mut self.traces[n],
                );
                put(&mut self.stages, n, next);
            }
            Err(refusal) => {
                drop(stage);
                put(&mut self.stages, n, Stage::Refused(refusal));
            }
        }
    }

    /// Whether each configuration actor gave something.
    pub fn is_ready(&self) -> bool
        ensures { IsTrue result ↔ IsReady self.now }
    {
        all_gave(&self.stages)
    }

    /// Whether each configuration actor gave something or was refused.
    pub fn is_settled(&self) -> bool
        ensures { IsTrue result ↔ IsSettled self.now }
    {
        all_finished(&self.stages)
    }

    /// What the configuration actors left, in file order, without their traces.
    pub fn left(&self) -> &[Configured]
        requires { IsReady self.now }
        ensures left { result.now ≡ map without_trace (left_by self.now) }
        ensures sources { source_tokens (graph_in self.now) self.now.firing result.now ≡ source_tokens (graph_in self.now) self.now.firing (left_by self.now) }
        ensures rates { lengths (source_tokens (graph_in self.now) self.now.firing result.now) ≡ sources_of (graph_in self.now) (early_in self.now.graphs.graphs self.now.firing) }
        ensures suits { LeftSuits self.now.graphs.graphs (graph_in self.now) self.now.firing (left_by self.now) }
    {
        early_unfolds();
        &self.left
    }

    /// What the configuration actors left, as data of the proofs alone.
    pub fn told_left(&self) -> LeftTold
        requires { IsReady self.now }
        ensures { result ≡ left_by self.now }
    {
        LeftTold {
            left: Snapshot::of(&self.left),
            traces: Snapshot::of(&self.traces),
        }
    }

    /// What the compilation of the firing for so many workers is kept by.
    ///
    /// # Errors
    ///
    /// Want of memory.
    pub fn key(&self, alloc: Global, workers: u32) -> Result<Key, AllocError>
        requires { IsReady self.now }
        ensures { IfOk result (λ key. key ≡ key_of (graph_in self.now) workers self.now.firing (left_by self.now)) }
    {
        let graph = &self.graphs.graphs.items()[self.firing.graph as usize];
        key_for(alloc, graph, &self.firing, &self.left, workers)
    }

    /// What the compilation of the firing for so many workers needs, with a compilation that is kept by the firing's key, if one
    /// is.
    fn parts(
        &self,
        alloc: Global,
        workers: u32,
        key: Key,
        kept: Option<Arc<Compiled>>,
    ) -> Result<Parts, AllocError>
        requires ready { IsReady self.now }
        requires workers { 1 ≤ workers }
        requires key { key ≡ key_of (graph_in self.now) workers self.now.firing (left_by self.now) }
        ensures task { IfOk result IsTask }
        ensures view { IfOk result (λ parts. task_view parts ≡ record { graphs = self.now.graphs; workers = workers; firing = self.now.firing; left = left_by self.now; kept = option_map arc_value kept }) }
    {
        Ok(Parts {
            graphs: Arc::try_clone(&self.graphs)?,
            early: self.early.share()?,
            workers,
            firing: slim_firing(alloc, &self.firing)?,
            left: slim_left(alloc, &self.left)?,
            key,
            kept,
            whole: Snapshot::of(&self.firing),
            told: self.told_left(),
        })
    }

    /// The compilation of the firing for so many workers, for which this is at hand that is kept by the firing's key.
    ///
    /// # Errors
    ///
    /// Want of memory, only where no level is at hand.
    pub fn compile_task(
        &self,
        alloc: Global,
        workers: u32,
        at_hand: AtHand,
    ) -> Result<CompileTask, AllocError>
        requires ready { IsReady self.now }
        requires workers { 1 ≤ workers }
        requires suits { SuitsKey self.now.graphs.graphs (key_of (graph_in self.now) workers self.now.firing (left_by self.now)) at_hand }
        ensures { IfOk result (λ t. t ≡ record { graphs = self.now.graphs; workers = workers; firing = self.now.firing; left = left_by self.now; kept = compilation_in at_hand }) }
    {
        match at_hand {
            AtHand::Level(level) => Ok(CompileTask {
                way: Way::Kept(KeptTask {
                    level,
                    graphs: Snapshot::of(&self.graphs),
                    workers: Snapshot::of(&workers),
                    whole: Snapshot::of(&self.firing),
                    told: self.told_left(),
                }),
            }),
            AtHand::Key(key, kept) => {
                let parts = self.parts(alloc, workers, key, kept)?;
                Ok(CompileTask {
                    way: Way::Make(Box::new(alloc, parts)?),
                })
            }
        }
    }

    /// The first refusal of a configuration actor, in file order. The others are given up.
    pub fn refusal(self) -> Option<Refusal>
        ensures { result ≡ first_refusal (answers self.marks) 0 (compile_number (graph_in self)) }
    {
        let Configuring {
            graphs: _,
            firing: _,
            early: _,
            places: _,
            stages,
            frames,
            left: _,
            traces: _,
            alloc: _,
        } = self;
        spend_frames(frames);
        first_refused(stages)
    }

    /// The firing, and what the configuration actors left.
    pub fn into_configured(self) -> ConfiguredFiring
        requires { IsReady self }
        ensures firing { result.firing ≡ self.firing }
        ensures left { with_traces result.configured result.traces ≡ left_by self }
        ensures configured { result.configured ≡ map without_trace (left_by self) }
        ensures one_trace { length result.traces ≡ length result.configured }
    {
        let Configuring {
            graphs: _,
            firing,
            early: _,
            places: _,
            stages: _,
            frames,
            left,
            traces,
            alloc: _,
        } = self;
        spend_frames(frames);
        ConfiguredFiring {
            firing,
            configured: List::new(left),
            traces: List::new(traces),
        }
    }

    /// Gives up the configuration actors.
    pub fn end(self) {
        let Configuring {
            graphs: _,
            firing: _,
            early: _,
            places: _,
            stages: _,
            frames,
            left: _,
            traces: _,
            alloc: _,
        } = self;
        spend_frames(frames);
    }
}
