// One iteration of a run, by many workers.
ghost use Rattle.std.specs.Prelude.{◌≡◌, ◌⊎◌, ◌<◌, ◌≤◌, ℤ, List as Seq, [], Ok, Err, IfOk, IfErr, OnErr, OnOk, true};
ghost use Rattle.std.specs.Arc.{arc_value};
ghost use Rattle.kernel_gate.specs.Signed.{unnamed};
ghost use Rattle.kernel_gate.specs.Value.{lengths};
ghost use Rattle.param_resolver.specs.EarlyCheck.{early_faults};
ghost use Rattle.pisdf_meaning.specs.Run.{IterationEnds, IterationGives, top_needs};
ghost use Rattle.pisdf_meaning.specs.Sound.{AreValidFor};
ghost use Rattle.pisdf_meaning.specs.declared.outcome.Iteration.{Iteration as Outcome};
ghost use Rattle.pisdf_meaning.specs.declared.refusal.Refusal.{Refusal as Cause};
ghost use Rattle.board_journal.specs.View.{IsEmpty, JournalView};
ghost use Rattle.quiescent_driver.specs.Carrying.{Suits};
ghost use Rattle.firing_board.specs.Runs.{AreAllIdle};
ghost use Rattle.quiescent_driver.specs.Endings.{HasReadableJournal, HasWholeJournal, IfRefused};
ghost use Rattle.quiescent_driver.specs.Given.{IsTopState, key_with};

use crate::carried::Carried;
use crate::driving::drive;
use crate::fault::IterationFault;
use board_journal::Journal;
use firing_board::{Board, BoardEnd};
use job_compiler::Kept;
use kernel_gate::Gate;
use pisdf_meaning::{Delays, Iteration, one_meaning, runnable, sizes_kept};
use pisdf_model::Graphs;
use sdf_level::List;
use std::alloc::{AllocError, Global};
use std::mem;
use std::sync::{Arc, Wait};
use std::thread::Threads;

/// The board of an iteration, in which nothing is claimed. Nothing was put into the journal.
fn start_board<K: Gate>(
    alloc: Global,
    graphs: &Arc<Graphs>,
    delays: &Delays,
    ins: &[List<i64>],
    workers: u32,
    gate: &K,
    journal: Journal,
) -> Result<Board, AllocError>
    requires valid { AreValidFor (unnamed (K.kernels gate.now)) (arc_value graphs.now) }
    requires sound { early_faults (arc_value graphs.now).graphs (arc_value graphs.now).top [] ≡ [] }
    requires inputs { lengths ins.now ≡ top_needs (arc_value graphs.now) }
    requires state { IsTopState (arc_value graphs.now) delays.now.lists }
    requires some { 0 < workers }
    requires few { workers ≤ 16 }
    requires empty { IsEmpty journal }
    ensures key { IfOk result (λ b. b.key ≡ key_with (arc_value graphs.now) (K.kernels gate.now) delays.now.lists ins.now workers) }
    ensures idle { IfOk result AreAllIdle }
{
    Board::start_with(
        alloc,
        graphs.clone()?,
        gate.signatures(),
        delays,
        ins,
        workers,
        journal,
    )
}

/// Looks whether a journal can be read that should be. The journal that a board gives back can be read where the one could that it
/// was started with: this is tested, since no clause says it.
///
/// # Errors
///
/// It should be, and can't.
fn see_readable(wanted: bool, journal: &Journal) -> Result<(), AllocError>
    ensures { OnOk result (wanted ≡ true → journal.now.readable ≡ true) }
{
    if wanted && !journal.is_readable() {
        return Err(AllocError);
    }
    Ok(())
}

/// One iteration by many workers, which gives or is refused. Nothing was put into the journal, into which the workers' steps are
/// entered.
fn iterate<K: Gate + Sync, R: Threads + Wait + Sync>(
    rt: &R,
    alloc: Global,
    graphs: &Arc<Graphs>,
    delays: &mut Delays,
    ins: &[List<i64>],
    workers: u32,
    carried: &mut Carried,
    gate: &K,
    journal: Journal,
) -> Result<(Iteration, Journal), IterationFault>
    requires valid { AreValidFor (unnamed (K.kernels gate.now)) (arc_value graphs.now) }
    requires sound { early_faults (arc_value graphs.now).graphs (arc_value graphs.now).top [] ≡ [] }
    requires inputs { lengths ins.now ≡ top_needs (arc_value graphs.now) }
    requires state { IsTopState (arc_value graphs.now) delays.old.lists }
    requires some { 0 < workers }
    requires few { workers ≤ 16 }
    requires empty { IsEmpty journal }
    requires levels { Suits (arc_value graphs.now) carried.old }
    ensures gives { IfOk result (λ r. IterationGives (arc_value graphs.now) ins.now delays.old.lists r.0 delays.new.lists) }
    ensures refused { IfErr result (IfRefused (λ refusal. IterationEnds (arc_value graphs.now) ins.now delays.old.lists (Err refusal))) }
    ensures unchanged { OnErr result (delays.new ≡ delays.old) }
    ensures journal { HasWholeJournal (key_with (arc_value graphs.now) (K.kernels gate.now) delays.old.lists ins.now workers) result }
    ensures readable { journal.readable ≡ true → HasReadableJournal result }
    ensures levels { Suits (arc_value graphs.now) carried.new }
{
    let readable = journal.is_readable();
    let board = start_board(alloc, graphs, delays, ins, workers, gate, journal)?;
    match drive(rt, alloc, board, workers, carried, gate)? {
        BoardEnd::Done {
            iteration,
            delays: left,
            journal,
        } => {
            see_readable(readable, &journal)?;
            *delays = left;
            Ok((iteration, journal))
        }
        BoardEnd::Refused { refusal, journal } => {
            see_readable(readable, &journal)?;
            Err(IterationFault::Refused(refusal, journal))
        }
        BoardEnd::Starved => Err(IterationFault::Memory),
    }
}

/// As `run_iteration`, with what the run's iterations before it have left in `carried`: the compilations and levels that are kept,
/// which are used, and what the iterations have shown. There are as many threads as that asks for, at most one for each worker. The
/// compilations and levels that are made are kept there. Nothing was put into the journal, into which the workers' steps are entered:
/// where it can't be read, they take no memory.
///
/// # Errors
///
/// - `Refused`: the firing is refused here, and the journal.
/// - `Memory`: want of memory.
///
/// Either leaves `delays` unchanged.
pub fn run_iteration_by<K: Gate + Sync, R: Threads + Wait + Sync>(
    rt: &R,
    alloc: Global,
    graphs: &Arc<Graphs>,
    delays: &mut Delays,
    ins: &[List<i64>],
    workers: u32,
    carried: &mut Carried,
    gate: &K,
    journal: Journal,
) -> Result<(Iteration, Journal), IterationFault>
    requires valid { AreValidFor (unnamed (K.kernels gate.now)) (arc_value graphs.now) }
    requires sound { early_faults (arc_value graphs.now).graphs (arc_value graphs.now).top [] ≡ [] }
    requires inputs { lengths ins.now ≡ top_needs (arc_value graphs.now) }
    requires state { IsTopState (arc_value graphs.now) delays.old.lists }
    requires some { 0 < workers }
    requires few { workers ≤ 16 }
    requires empty { IsEmpty journal }
    requires levels { Suits (arc_value graphs.now) carried.old }
    ensures gives { IfOk result (λ r. IterationGives (arc_value graphs.now) ins.now delays.old.lists r.0 delays.new.lists) }
    ensures refused { IfErr result (IfRefused (λ refusal. IterationEnds (arc_value graphs.now) ins.now delays.old.lists (Err refusal))) }
    ensures unchanged { OnErr result (delays.new ≡ delays.old) }

    // Where the iteration gives something the answer is that, and where it is refused that refusal, unless there was no memory.
    ensures only_given { (iteration : Outcome) (state : Seq (Seq ℤ)) → IterationGives (arc_value graphs.now) ins.now delays.old.lists iteration state → ((journal : JournalView) × (result ≡ Ok (iteration, journal)) × (delays.new.lists ≡ state)) ⊎ (result ≡ Err IterationFault.Memory) }
    ensures only_refused { (refusal : Cause) → IterationEnds (arc_value graphs.now) ins.now delays.old.lists (Err refusal) → ((journal : JournalView) × (result ≡ Err (IterationFault.Refused refusal journal))) ⊎ (result ≡ Err IterationFault.Memory) }

    // The journal is one of such a board, and has ended.
    ensures journal { HasWholeJournal (key_with (arc_value graphs.now) (K.kernels gate.now) delays.old.lists ins.now workers) result }
    ensures readable { journal.readable ≡ true → HasReadableJournal result }

    // The state that is left suits the next iteration.
    ensures state { IsTopState (arc_value graphs.now) delays.new.lists }

    // So do the levels that are kept.
    ensures levels { Suits (arc_value graphs.now) carried.new }
{
    one_meaning();
    sizes_kept();
    runnable();
    // Its clause says that the kernels give outputs of the lengths that they are asked for.
    let _signatures = gate.signatures();
    iterate(
        rt, alloc, graphs, delays, ins, workers, carried, gate, journal,
    )
}

/// One iteration by 1 to 16 workers, each in a thread: a firing of the top graph (Desnos and others 2013, PiMM; Lee and
/// Messerschmitt 1987), whose early check finds nothing. It gives what one thread gets, whatever the order of the workers'
/// steps, and the journal of these steps. `ins` has the tokens of each of the top graph's inputs, as many as the input's rate,
/// and `delays` the state that the iteration before left, which becomes the one that this iteration leaves. The compilations of
/// jobs that are in `kept` are used, and those that are made are kept there; where it is `None` none are kept. It may wait.
///
/// # Errors
///
/// - `Refused`: the firing is refused here, and the journal.
/// - `Memory`: want of memory.
///
/// Either leaves `delays` unchanged.
pub fn run_iteration<K: Gate + Sync, R: Threads + Wait + Sync>(
    rt: &R,
    alloc: Global,
    graphs: &Arc<Graphs>,
    delays: &mut Delays,
    ins: &[List<i64>],
    workers: u32,
    kept: &mut Option<Kept>,
    gate: &K,
) -> Result<(Iteration, Journal), IterationFault>
    requires valid { AreValidFor (unnamed (K.kernels gate.now)) (arc_value graphs.now) }
    requires sound { early_faults (arc_value graphs.now).graphs (arc_value graphs.now).top [] ≡ [] }
    requires inputs { lengths ins.now ≡ top_needs (arc_value graphs.now) }
    requires state { IsTopState (arc_value graphs.now) delays.old.lists }
    requires some { 0 < workers }
    requires few { workers ≤ 16 }
    ensures gives { IfOk result (λ r. IterationGives (arc_value graphs.now) ins.now delays.old.lists r.0 delays.new.lists) }
    ensures refused { IfErr result (IfRefused (λ refusal. IterationEnds (arc_value graphs.now) ins.now delays.old.lists (Err refusal))) }
    ensures unchanged { OnErr result (delays.new ≡ delays.old) }

    // Where the iteration gives something the answer is that, and where it is refused that refusal, unless there was no memory.
    ensures only_given { (iteration : Outcome) (state : Seq (Seq ℤ)) → IterationGives (arc_value graphs.now) ins.now delays.old.lists iteration state → ((journal : JournalView) × (result ≡ Ok (iteration, journal)) × (delays.new.lists ≡ state)) ⊎ (result ≡ Err IterationFault.Memory) }
    ensures only_refused { (refusal : Cause) → IterationEnds (arc_value graphs.now) ins.now delays.old.lists (Err refusal) → ((journal : JournalView) × (result ≡ Err (IterationFault.Refused refusal journal))) ⊎ (result ≡ Err IterationFault.Memory) }

    // The journal is one of such a board, has ended, and can be read.
    ensures journal { HasWholeJournal (key_with (arc_value graphs.now) (K.kernels gate.now) delays.old.lists ins.now workers) result }
    ensures readable { HasReadableJournal result }

    // The state that is left suits the next iteration.
    ensures state { IsTopState (arc_value graphs.now) delays.new.lists }
{
    let mut carried = Carried::new(mem::replace(kept, None));
    let journal = Journal::new(alloc);
    let made = run_iteration_by(
        rt,
        alloc,
        graphs,
        delays,
        ins,
        workers,
        &mut carried,
        gate,
        journal,
    );
    let Carried {
        kept: left,
        levels: _,
        workload: _,
    } = carried;
    *kept = left;
    made
}
