// Finds the item that is picked for a worker, and opens the jobs on its way.
ghost use Rattle.std.specs.Prelude.{◌<◌, List as Seq, IfOk, OnErr, OnOk};
ghost use Rattle.board_rules.specs.Entries.{Step};
ghost use Rattle.board_rules.specs.Keys.{Key};
ghost use Rattle.board_rules.specs.Legal.{state_after};
ghost use Rattle.firing_board.specs.Finding.{Finds};
ghost use Rattle.firing_board.specs.Opening.{KeepsRuns, MayOpen, OpensAt, OpensWay};
ghost use Rattle.firing_board.specs.Core.{HasMemory, StandsAt};
ghost use Rattle.firing_board.specs.Wanting.{PicksInNew};

use crate::journal_room::room_for;
use crate::laws::{calls_are_fit, tables_suit};
use crate::numbering::number_row;
use crate::run::Run;
use crate::state::Core;
use crate::table::{Begins, Picked};
use board_rules::{boards_keep, paths_stay, rows_are_asked, workers_are_answered};
use job_rules::rules_are_lawful;
use std::alloc::{AllocError, Global};

/// Opens the job that an item calls: the key of its row.
///
/// # Errors
///
/// Want of memory.
fn open(alloc: Global, core: &mut Core, at: Run) -> Result<usize, AllocError>
    requires { MayOpen core.old at }
    ensures opened { IfOk result (λ child. OpensAt core.old at child core.new) }
    ensures room { OnOk result (HasMemory core.old → HasMemory core.new) }
    ensures kept { KeepsRuns core.old core.new }
{
    let child = core.table.open_child(alloc, at.row, at.item)?;
    room_for(&mut core.journal, core.table.job(child))?;
    let path = core.table.job(child).firing().path.copy()?;
    let number = core.journal.add_path(path)?;
    number_row(&mut core.numbers, child, number)?;
    Ok(child)
}

/// Opens the job that an item calls, and within it the job that its first item calls, and so on, up to one whose first item is
/// work: that item.
///
/// # Errors
///
/// Want of memory.
pub(crate) fn open_way(alloc: Global, core: &mut Core, at: Run) -> Result<Run, AllocError>
    requires { MayOpen core.old at }
    ensures opened { IfOk result (λ run. OpensWay core.old at core.new run) }
    ensures room { OnOk result (HasMemory core.old → HasMemory core.new) }
    ensures kept { KeepsRuns core.old core.new }
{
    boards_keep();
    calls_are_fit();
    tables_suit();
    rules_are_lawful();
    let child = open(alloc, core, at)?;
    let first = Run {
        row: child,
        item: 0,
    };
    match core.table.begins(child) {
        Begins::Work => Ok(first),
        Begins::Call => open_way(alloc, core, first),
    }
}

/// The item that is picked for a worker, whose job is open then; none where nothing may be claimed. Of a call it is the first
/// item of the job that the call opens.
///
/// # Errors
///
/// Want of memory, only where the item's job isn't open yet.
pub(crate) fn find(alloc: Global, core: &mut Core, worker: u32) -> Result<Option<Run>, AllocError>
    requires { (key : Key) × (taken : Seq Step) × StandsAt key taken core.old }
    ensures found { IfOk result (λ run. (key : Key) (taken : Seq Step) → StandsAt key taken core.old → Finds key taken core.old worker core.new run) }
    ensures room { OnOk result (HasMemory core.old → HasMemory core.new) }
    ensures wants { OnErr result ((key : Key) (taken : Seq Step) → StandsAt key taken core.old → PicksInNew key (state_after key taken) worker) }
    ensures kept { KeepsRuns core.old core.new }
{
    boards_keep();
    rows_are_asked();
    paths_stay();
    calls_are_fit();
    rules_are_lawful();
    workers_are_answered();
    match core.table.pick(worker) {
        Some(Picked::Work(work)) => Ok(Some(work)),
        Some(Picked::Call(call)) => {
            let run = open_way(alloc, core, call)?;
            Ok(Some(run))
        }
        None => Ok(None),
    }
}
