// Takes back what a worker ran.
ghost use Rattle.std.specs.Prelude.{◌≡◌, ◌<◌, ◌≤◌, IfOk, IsErr, IsOk, None, OnErr, OnOk, Some, false, true, length, slice_index_or, slice_set};
ghost use Rattle.board_rules.specs.Keys.{Key};
ghost use Rattle.firing_board.specs.Table.Closing.{IsClosingFrom};
ghost use Rattle.firing_board.specs.Table.View.{free_items, room_in};
ghost use Rattle.firing_board.specs.Closing.{ClosesOn, KeepsJournal};
ghost use Rattle.firing_board.specs.Core.{HasJournalRoom, HasMemory};
ghost use Rattle.firing_board.specs.FrameRooms.{FitsNeed};
ghost use Rattle.firing_board.specs.Finishes.{MayComeBack, MayEnd};
ghost use Rattle.firing_board.specs.OnCore.{FinishesOn, KeepsKey, MayLeave};
ghost use Rattle.firing_board.specs.Returning.{Compiles, GivesUp, Leaves, MayCompile, MayReturn, Returns, RunsItem};

use crate::frame_rooms::fit_rooms;
use crate::journal_room::room_for_nodes;
use crate::laws::tables_suit;
use crate::run::Run;
use crate::state::Core;
use board_rules::{boards_keep, entries_tell_steps, journals_grow};
use job_preparing::CompileEnd;
use job_rules::rules_are_lawful;
use kernel_gate::{Frame, KernelFault};
use std::alloc::{AllocError, Global};
use std::mem;

/// What a worker runs, which it doesn't run then.
fn take_run(running: &mut Vec<Option<Run>>, worker: u32) -> Run
    requires { (run : Run) × (slice_index_or running.old.items worker None ≡ Some run) }
    ensures ran { slice_index_or running.old.items worker None ≡ Some result }
    ensures free { running.new.items ≡ slice_set running.old.items worker None }
{
    match mem::replace(&mut running[worker as usize], None) {
        Some(run) => run,
        None => unreachable!(),
    }
}

/// The finish of a worker, which is entered: what it ran.
fn leave(core: &mut Core, worker: u32) -> Run
    requires runs { (run : Run) × (slice_index_or core.old.running.items worker None ≡ Some run) }
    requires room { 0 < core.old.journal.room }
    ensures { Leaves core.old worker result core.new × (core.new.table ≡ core.old.table) × (core.new.rooms ≡ core.old.rooms) }
{
    core.journal.finish(worker);
    take_run(&mut core.running, worker)
}

/// Takes back the frame of the item that a worker runs: the row of its job.
fn take_back(core: &mut Core, worker: u32, frame: Frame, answer: Result<(), KernelFault>) -> usize
    requires item { RunsItem (MayReturn frame (IsOk answer)) core.old worker }
    requires room { 0 < core.old.journal.room }
    requires slot { worker < length core.old.rooms.slots.items }
    ensures returns { Returns frame answer core.old worker core.new result }
    ensures room { HasJournalRoom core.old → HasJournalRoom core.new }
{
    let run = leave(core, worker);
    let slot = &mut core.rooms.slots[worker as usize];
    core.table.finish(run.row, run.item, frame, answer, slot);
    run.row
}

/// Takes back the compilation that a worker has: the row of its job.
///
/// # Errors
///
/// Want of memory, also where the compilation ended so. The worker has left it, and the job is as before.
fn take_compilation(
    alloc: Global,
    core: &mut Core,
    worker: u32,
    end: CompileEnd,
) -> Result<usize, AllocError>
    requires item { RunsItem (MayCompile end) core.old worker }
    requires room { 0 < core.old.journal.room }
    ensures compiled { IfOk result (Compiles end core.old worker core.new) }
    ensures room { OnOk result (HasJournalRoom core.old → HasJournalRoom core.new) }
    ensures refused { OnErr result (GivesUp core.old worker core.new) }
    ensures rooms { core.new.rooms ≡ core.old.rooms }
{
    let run = leave(core, worker);
    room_for_nodes(&mut core.journal, &end)?;
    core.table.finish_compile(alloc, run.row, end)?;
    Ok(run.row)
}

/// Closes jobs from a row up. Where the top job is closed, its end is kept. It takes no memory.
fn close(core: &mut Core, row: usize)
    requires { IsClosingFrom core.old.table row }
    ensures closed { ClosesOn core.old row core.new }
    ensures kept { KeepsJournal core.old core.new }
    ensures fewer { free_items core.new.table ≤ free_items core.old.table }
    ensures rooms { core.new.rooms ≡ core.old.rooms }
{
    if let Some(end) = core.table.close_from(row) {
        core.end = Some(end);
    }
}

/// As `close`, in less time where the job isn't quiet: most finishes leave their job with more to do.
fn close_if_quiet(core: &mut Core, row: usize)
    requires { IsClosingFrom core.old.table row }
    ensures closed { ClosesOn core.old row core.new }
    ensures kept { KeepsJournal core.old core.new }
    ensures fewer { free_items core.new.table ≤ free_items core.old.table }
    ensures rooms { core.new.rooms ≡ core.old.rooms }
{
    boards_keep();
    rules_are_lawful();
    if !core.table.job(row).quiet() {
        return;
    }
    close(core, row);
}

/// Closes jobs from the row up of a job whose compilation was taken back, once the rooms of workers suffice for its nodes.
///
/// # Errors
///
/// Want of memory.
fn settle(alloc: Global, core: &mut Core, row: usize) -> Result<(), AllocError>
    requires { IsClosingFrom core.old.table row }
    ensures closed { IfOk result (λ done. ClosesOn core.old row core.new) }
    ensures kept { KeepsJournal core.old core.new }
    ensures fewer { free_items core.new.table ≤ free_items core.old.table }
    ensures fits { OnOk result (FitsNeed (room_in core.old.table row) core.old.rooms core.new.rooms) }
    ensures many { length core.new.rooms.slots.items ≡ length core.old.rooms.slots.items }
{
    let need = core.table.job(row).room_size();
    fit_rooms(alloc, &mut core.rooms, need)?;
    close(core, row);
    Ok(())
}

/// A worker finishes what it runs, whose frame comes back. It takes no memory. Where memory was wanted before, no job is closed.
pub(crate) fn finish_frame(
    core: &mut Core,
    starved: bool,
    worker: u32,
    frame: Frame,
    answer: Result<(), KernelFault>,
)
    requires may { (key : Key) × MayLeave key core.old starved worker (MayComeBack key frame answer (IsOk answer)) (Some frame.places) }
    requires slots { length core.old.rooms.slots.items ≡ length core.old.running.items }
    ensures finished { (key : Key) → MayLeave key core.old starved worker (MayComeBack key frame answer (IsOk answer)) (Some frame.places) → FinishesOn key core.old starved worker core.new starved }
    ensures kept { KeepsKey core.old core.new }
    ensures room { HasMemory core.old → HasMemory core.new }
{
    boards_keep();
    journals_grow();
    entries_tell_steps();
    rules_are_lawful();
    tables_suit();
    let row = take_back(core, worker, frame, answer);
    if starved {
        return;
    }
    close_if_quiet(core, row);
}

/// A worker finishes a compilation: whether memory was wanted, then or before.
pub(crate) fn finish_compilation(
    alloc: Global,
    core: &mut Core,
    starved: bool,
    worker: u32,
    end: CompileEnd,
) -> bool
    requires { (key : Key) × MayLeave key core.old starved worker (MayEnd key end) None }
    ensures finished { (key : Key) → MayLeave key core.old starved worker (MayEnd key end) None → FinishesOn key core.old starved worker core.new result }
    ensures kept { KeepsKey core.old core.new }
    ensures room { result ≡ false → HasMemory core.old → HasMemory core.new }
    ensures memory { end ≡ CompileEnd.Memory → result ≡ true }
{
    boards_keep();
    journals_grow();
    entries_tell_steps();
    rules_are_lawful();
    tables_suit();
    if starved {
        let _run = leave(core, worker);
        return true;
    }
    match take_compilation(alloc, core, worker, end) {
        Ok(row) => settle(alloc, core, row).is_err(),
        Err(AllocError) => true,
    }
}

/// Nothing, unless memory was wanted.
pub(crate) fn unless_wanted(starved: bool) -> Result<(), AllocError>
    ensures live { OnOk result (starved ≡ false) }
    ensures wanted { OnErr result (starved ≡ true) }
    ensures told { starved ≡ true → IsErr result }
{
    if starved { Err(AllocError) } else { Ok(()) }
}
