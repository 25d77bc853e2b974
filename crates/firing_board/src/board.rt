// The board and its calls.
ghost use Rattle.std.specs.Prelude.{◌≡◌, ◌≤◌, ◌*◌, [], ◌∷◌, IfOk, IsErr, IsOk, None, OnErr, OnOk, Some, false, is_some, replicate, true};
ghost use Rattle.std.specs.Arc.{arc_value};

use crate::claim::{Claim, Ticket};
use crate::claiming;
use crate::ending::{BoardEnd, end_core, outcome_of};
use crate::finishing::{finish_compilation, finish_frame, unless_wanted};
use crate::keeping::{Keeping, keep_ready};
use crate::laws::tables_suit;
use crate::signatures::Signatures;
use crate::starting::start_core;
use crate::state::Core;
use board_journal::Journal;
use board_rules::{boards_end, boards_keep, entries_tell_steps, few_jobs_are_open};
use job_compiler::Kept;
use job_preparing::{CompileEnd, KeptLevels};
use job_rules::rules_are_lawful;
use kernel_gate::{Frame, KernelFault, Signature};
use pisdf_meaning::{Delays, Firing, runnable, top_firing};
use pisdf_model::Graphs;
use sdf_level::List;
use std::alloc::{AllocError, Global};
use std::marker::Model;
use std::mem;
use std::snapshot::Snapshot;
use std::sync::Arc;

/// A run of one firing of the top graph by several workers: the open jobs, what each worker runs of them, and the journal of
/// their claims and finishes. It is neither `Drop` nor `Clone`: it is given up by `outcome` or `end`.
pub struct Board {
    pub(crate) signatures: Signatures,
    pub(crate) top: Snapshot<Firing>,
    pub(crate) core: Core,
    pub(crate) keeping: Keeping,
    /// Memory was wanted.
    pub(crate) starved: bool,
}

impl Model for Board {
    ghost use Rattle.firing_board.specs.View.{BoardView};

    ghost Value = { BoardView };

    ghost use Rattle.std.specs.Coded.{codes};
    ghost use Rattle.param_expr.specs.Tree.{tree_code};

    ghost coded = { Prim.hlevel (codes, tree_code) };

    ghost use Rattle.firing_board.specs.Invariants.{IsBoard, view_of};

    ghost view = { view_of };

    ghost invariant = { IsBoard };
}

impl Board {
    ghost use Rattle.board_journal.specs.View.{IsEmpty};
    ghost use Rattle.board_rules.specs.Keys.{IsKey};
    ghost use Rattle.firing_board.specs.Claims.{Claims, EntersAs};
    ghost use Rattle.firing_board.specs.Ends.{EndsAs, IsOver};
    ghost use Rattle.firing_board.specs.Finishes.{Finishes, MayComeBack, MayEnd};
    ghost use Rattle.firing_board.specs.Firings.{FiringsGoOn, LeasesFrame, open_count};
    ghost use Rattle.firing_board.specs.Keeping.{AreKeptLevelsOf};
    ghost use Rattle.firing_board.specs.Runs.{AreAllIdle, IsIdle, IsSound, Runs};
    ghost use Rattle.firing_board.specs.Starts.{key_from};
    ghost use Rattle.firing_board.specs.View.{lent_to};
    ghost use Rattle.firing_board.specs.Wanting.{MayStarve};

    /// A board of one firing of the top graph, in which nothing is claimed. `ins` has the tokens of each of its inputs, as many
    /// as the input's rate, and `delays` the state that the iteration before left. There are 1 to 16 workers.
    ///
    /// # Errors
    ///
    /// Want of memory.
    pub fn start(
        alloc: Global,
        graphs: Arc<Graphs>,
        signatures: &[Signature],
        delays: &Delays,
        ins: &[List<i64>],
        workers: u32,
    ) -> Result<Board, AllocError>
        requires { IsKey (key_from (arc_value graphs) signatures.now delays.now ins.now workers) }
        ensures { IfOk result (λ b. b ≡ record { key = key_from (arc_value graphs) signatures.now delays.now ins.now workers; journal = []; starved = false; firings = Some record { place = []; cells = None } ∷ []; lent = replicate workers None; kept = false }) }
    {
        let journal = Journal::new(alloc);
        Board::start_with(alloc, graphs, signatures, delays, ins, workers, journal)
    }

    /// As `start`, with the journal into which the board's steps are entered. Nothing was put into it. Where it can't be read, the
    /// steps take no memory.
    ///
    /// # Errors
    ///
    /// Want of memory.
    pub fn start_with(
        alloc: Global,
        graphs: Arc<Graphs>,
        signatures: &[Signature],
        delays: &Delays,
        ins: &[List<i64>],
        workers: u32,
        journal: Journal,
    ) -> Result<Board, AllocError>
        requires key { IsKey (key_from (arc_value graphs) signatures.now delays.now ins.now workers) }
        requires empty { IsEmpty journal }
        ensures { IfOk result (λ b. b ≡ record { key = key_from (arc_value graphs) signatures.now delays.now ins.now workers; journal = []; starved = false; firings = Some record { place = []; cells = None } ∷ []; lent = replicate workers None; kept = false }) }
    {
        runnable();
        boards_keep();
        tables_suit();
        let top = &graphs.graphs.items()[graphs.top as usize];
        let firing = top_firing(alloc, top, graphs.top, delays, ins)?;
        let top = Snapshot::of(&firing);
        let signatures = Signatures::of(signatures);
        let core = start_core(alloc, graphs, workers, firing, journal)?;
        Ok(Board {
            signatures,
            top,
            core,
            keeping: Keeping {
                kept: None,
                levels: None,
            },
            starved: false,
        })
    }

    /// Claims the item that is picked for a worker that runs nothing. `Wait` comes exactly where nothing may be claimed and
    /// another worker runs something, and `Finished` exactly where the journal has ended. Once a claim or a finish wanted
    /// memory, each later claim is `Starved`. Before that a claim is so only where the item that is picked for the worker is in
    /// a job that isn't open yet, or is a compilation: each other claim takes no memory. The leases of a node's frame are those of
    /// its buffers, in the block of its firing, at the offsets of the firing's placement.
    pub fn claim(&mut self, alloc: Global, worker: u32) -> Claim
        requires { IsIdle self.old worker }
        ensures claims { Claims self.old self.new worker result }
        ensures enters { EntersAs self.old self.new worker result }
        ensures licensed { result ≡ Claim.Starved → self.old.starved ≡ false → MayStarve self.old worker }
        ensures starved { self.old.starved ≡ true → result ≡ Claim.Starved }
        ensures leases { LeasesFrame self.new worker result }
        ensures firings { FiringsGoOn self.old.firings self.new.firings }
    {
        entries_tell_steps();
        if self.starved {
            return Claim::Starved;
        }
        let claimed = claiming::claim(alloc, &mut self.core, &mut self.keeping, worker);
        match claimed {
            Ok(claim) => claim,
            Err(AllocError) => {
                self.starved = true;
                Claim::Starved
            }
        }
    }

    /// Finishes a kernel or a node: its frame comes back with what it wrote, or with the fault of the kernel. It takes no
    /// memory, and never starves the board.
    pub fn finish_fire(&mut self, ticket: Ticket, frame: Frame, answer: Result<(), KernelFault>)
        requires runs { Runs self.old ticket.worker (MayComeBack self.old.key frame answer (IsOk answer)) }
        requires lent { lent_to self.old ticket.worker ≡ Some frame.places }
        ensures finishes { Finishes self.old self.new ticket.worker }
        ensures firings { FiringsGoOn self.old.firings self.new.firings }
        ensures starved { self.new.starved ≡ self.old.starved }
    {
        finish_frame(&mut self.core, self.starved, ticket.worker, frame, answer);
    }

    /// Finishes a configuration actor in the same way.
    pub fn finish_configure(
        &mut self,
        ticket: Ticket,
        frame: Frame,
        answer: Result<(), KernelFault>,
    )
        requires runs { Runs self.old ticket.worker (MayComeBack self.old.key frame answer (IsOk answer)) }
        requires lent { lent_to self.old ticket.worker ≡ Some frame.places }
        ensures finishes { Finishes self.old self.new ticket.worker }
        ensures firings { FiringsGoOn self.old.firings self.new.firings }
        ensures starved { self.new.starved ≡ self.old.starved }
    {
        self.finish_fire(ticket, frame, answer);
    }

    /// Finishes a compilation.
    ///
    /// # Errors
    ///
    /// Want of memory, now or before, also where the compilation ended so. The finish is entered, and the board is starved.
    pub fn finish_compile(
        &mut self,
        alloc: Global,
        ticket: Ticket,
        end: CompileEnd,
    ) -> Result<(), AllocError>
        requires runs { Runs self.old ticket.worker (MayEnd self.old.key end) }
        requires lent { lent_to self.old ticket.worker ≡ None }
        ensures finishes { Finishes self.old self.new ticket.worker }
        ensures firings { FiringsGoOn self.old.firings self.new.firings }
        ensures live { OnOk result (self.new.starved ≡ false) }
        ensures starved { OnErr result (self.new.starved ≡ true) }
        ensures memory { end ≡ CompileEnd.Memory → IsErr result }
        ensures stays { self.old.starved ≡ true → self.new.starved ≡ true }
    {
        keep_ready(alloc, self.core.table.graphs(), &mut self.keeping, &end);
        self.starved = finish_compilation(alloc, &mut self.core, self.starved, ticket.worker, end);
        unless_wanted(self.starved)
    }

    /// How many firings are open: at most 8 for each worker, unless memory was wanted.
    pub fn open_jobs(&self) -> usize
        ensures count { result ≡ open_count self.now.firings }
        ensures few { self.now.starved ≡ false → result ≤ 8 * self.now.key.workers }
    {
        few_jobs_are_open();
        tables_suit();
        self.core.table.open_jobs()
    }

    /// The steps that were taken, which are legal.
    pub fn journal(&self) -> &Journal
        ensures entries { result.now.entries ≡ self.now.journal }
        ensures sound { IsSound self.now }
    {
        entries_tell_steps();
        rules_are_lawful();
        &self.core.journal
    }

    /// Puts in compilations that are kept from one board to the next, in place of those that were in the board, if any were.
    pub fn put_kept(&mut self, kept: Kept)
        ensures { self.new ≡ record self.old { kept = true } }
    {
        self.keeping.kept = Some(kept);
    }

    /// Takes out the compilations that were put in, and those made since; none exactly where none are in the board.
    pub fn take_kept(&mut self) -> Option<Kept>
        ensures taken { is_some result ≡ self.old.kept }
        ensures left { self.new ≡ record self.old { kept = false } }
    {
        mem::replace(&mut self.keeping.kept, None)
    }

    /// Puts in levels of the board's graphs that are kept from one board to the next, in place of those that were in the board.
    pub fn put_levels(&mut self, levels: KeptLevels)
        requires { levels ≡ self.old.key.graphs }
        ensures { self.new ≡ self.old }
    {
        self.keeping.levels = Some(levels);
    }

    /// Takes out the levels that were put in, with those made since; or `None`, where none are in the board.
    pub fn take_levels(&mut self) -> Option<KeptLevels>
        ensures taken { AreKeptLevelsOf self.old.key.graphs result }
        ensures left { self.new ≡ self.old }
    {
        mem::replace(&mut self.keeping.levels, None)
    }

    /// How the board ends, once its journal has ended, or memory was wanted and no worker runs anything.
    ///
    /// # Errors
    ///
    /// Want of memory. The board is given up.
    pub fn outcome(self, alloc: Global) -> Result<BoardEnd, AllocError>
        requires { IsOver self }
        ensures { IfOk result (EndsAs self) }
    {
        boards_end();
        entries_tell_steps();
        let Board {
            signatures: _,
            top: _,
            core,
            keeping: _,
            starved,
        } = self;
        outcome_of(alloc, core, starved)
    }

    /// Gives up the board, of which no worker runs anything.
    pub fn end(self)
        requires { AreAllIdle self }
    {
        entries_tell_steps();
        let Board {
            signatures: _,
            top: _,
            core,
            keeping: _,
            starved: _,
        } = self;
        end_core(core);
    }
}
