// Hands out the item that is picked for a worker.
ghost use Rattle.std.specs.Prelude.{ℕ, List as Seq, ◌≡◌, ◌≢◌, ◌+◌, ◌<◌, ◌↔◌, All, IfOk, IsTrue, None, OnErr, OnOk, Some, false, length, slice_index_or};
ghost use Rattle.board_rules.specs.Entries.{item_of};
ghost use Rattle.board_rules.specs.Keys.{Key as BoardKey};
ghost use Rattle.firing_board.specs.FrameRooms.{TakesSlot, slot_at};
ghost use Rattle.firing_board.specs.Table.Calls.{AsksAsBefore, LendsItem, MarksItem};
ghost use Rattle.firing_board.specs.Table.View.{HasJob, free_items};
ghost use Rattle.graph_firing.specs.Calls.{IsHanded, frame_of};
ghost use Rattle.graph_firing.specs.Rooms.{HasRoomFor, is_node};
ghost use Rattle.nested_jobs.specs.Marks.{Busy};
ghost use Rattle.graph_firing.specs.View.{IsOfferedCompilation, IsOfferedWork, compilation_of, graph_in};
ghost use Rattle.firing_board.specs.Core.{HasMemory, IsNumbered};
ghost use Rattle.firing_board.specs.Handing.{Enters, HandsCompilation, HandsFrame, HandsOut, MayEnter, claim_of};
ghost use Rattle.firing_board.specs.Invariants.{view_with};
ghost use Rattle.firing_board.specs.Keeping.{AreKeptLevelsOf, KeepsAs};
ghost use Rattle.firing_board.specs.OnCore.{ClaimsOn, KeepsKey, MayClaim, StarvesOn};
ghost use Rattle.firing_board.specs.Wanting.{MayStarve};

use crate::claim::{Claim, Ticket};
use crate::finding::find;
use crate::frame_rooms::FrameRooms;
use crate::keeping::{Keeping, at_hand};
use crate::laws::tables_suit;
use crate::numbering::number_of;
use crate::run::Run;
use crate::state::Core;
use crate::table::JobTable;
use board_rules::{ItemName, boards_end, boards_keep, journals_grow};
use graph_firing::{Handed, OpenJob};
use job_rules::rules_are_lawful;
use std::alloc::{AllocError, Global};

/// An item other than the compilation, as the journal names it.
fn item_at(job: &OpenJob, item: usize) -> ItemName
    requires offered { IsOfferedWork job.now item }
    requires framed { item ≢ compilation_of job.now }
    ensures { result ≡ item_of (graph_in job.now) item }
{
    let number = job.number(item);
    if item < job.compilation() {
        ItemName::Configure(number)
    } else {
        ItemName::Node(number)
    }
}

/// Enters that a worker claims an item, which it then runs.
fn enter(core: &mut Core, worker: u32, run: Run, item: ItemName) -> Ticket
    requires enter { MayEnter core.old worker run }
    requires room { 0 < core.old.journal.room }
    ensures { Enters core.old worker run item result core.new }
{
    let entry = core.journal.len();
    let number = number_of(&core.numbers, run.row);
    core.journal.claim(worker, number, item);
    core.running[worker as usize] = Some(run);
    Ticket { worker, entry }
}

/// What a job hands out, as a worker gets it.
fn with_ticket(ticket: Ticket, handed: Handed) -> Claim
    ensures { result ≡ claim_of ticket handed }
{
    match handed {
        Handed::Configure(frame) => Claim::Configure(ticket, frame),
        Handed::Fire(frame) => Claim::Fire(ticket, frame),
        Handed::Copy(node, frame) => Claim::Copy(ticket, node, frame),
    }
}

/// Claims an item other than a compilation. The frame of a node is made in the room of the worker, which leaves its slot.
fn claim_item(table: &mut JobTable, rooms: &mut FrameRooms, worker: u32, run: Run) -> Handed
    requires offered { HasJob (λ job. IsOfferedWork job run.item × (run.item ≢ compilation_of job)) table.old run.row }
    requires slot { worker < length rooms.old.slots.items }
    requires room { HasJob (λ job. HasRoomFor job.room (slot_at rooms.old.slots.items worker)) table.old run.row }
    ensures handed { HasJob (λ job. IsHanded job run.item result) table.old run.row }
    ensures claimed { MarksItem run.row run.item Busy table.old table.new }
    ensures lent { LendsItem run.row run.item (Some (frame_of result).places) table.old table.new }
    ensures asked { AsksAsBefore table.old table.new }
    ensures fewer { free_items table.old ≡ free_items table.new + 1 }
    ensures room { HasJob (λ job. TakesSlot (is_node job run.item) worker (frame_of result).places rooms.old rooms.new) table.old run.row }
{
    table.claim(run.row, run.item, &mut rooms.slots[worker as usize])
}

/// Hands out the frame of an item other than a compilation. That of a node is made in the room of the worker.
fn hand_frame(core: &mut Core, worker: u32, run: Run, item: ItemName) -> Claim
    requires enter { MayEnter core.old worker run }
    requires room { HasMemory core.old }
    requires offered { HasJob (λ job. IsOfferedWork job run.item × (run.item ≢ compilation_of job)) core.old.table run.row }
    ensures handed { HandsFrame core.old worker run item core.new result }
    ensures room { HasMemory core.new }
    ensures slots { length core.new.rooms.slots.items ≡ length core.old.rooms.slots.items }
{
    let handed = claim_item(&mut core.table, &mut core.rooms, worker, run);
    // The leases of the frame are now known to be those of the node's buffers.
    core.table.job(run.row).compiled();
    let ticket = enter(core, worker, run, item);
    with_ticket(ticket, handed)
}

/// Hands out a compilation, with what is kept by its key.
///
/// # Errors
///
/// Want of memory. Nothing is claimed.
fn hand_compilation(
    alloc: Global,
    core: &mut Core,
    keeping: &mut Keeping,
    worker: u32,
    run: Run,
) -> Result<Claim, AllocError>
    requires enter { MayEnter core.old worker run }
    requires room { HasMemory core.old }
    requires offered { HasJob IsOfferedCompilation core.old.table run.row }
    requires graphs { HasJob (λ job. AreKeptLevelsOf job.graphs keeping.old.levels) core.old.table run.row }
    ensures handed { IfOk result (HandsCompilation core.old worker run core.new) }
    ensures room { OnOk result (HasMemory core.new) }
    ensures rooms { core.new.rooms ≡ core.old.rooms }
    ensures refused { OnErr result (core.new ≡ core.old) }
    ensures keeps { KeepsAs keeping.old keeping.new }
{
    let at_hand = at_hand(alloc, keeping, core.table.job(run.row))?;
    let task = core.table.claim_compile(alloc, run.row, at_hand)?;
    let ticket = enter(core, worker, run, ItemName::Compile);
    Ok(Claim::Compile(ticket, task))
}

/// Hands out an item that was found.
///
/// # Errors
///
/// Want of memory, only where the item is a compilation. Nothing is claimed.
fn hand_out(
    alloc: Global,
    core: &mut Core,
    keeping: &mut Keeping,
    worker: u32,
    run: Run,
) -> Result<Claim, AllocError>
    requires worker { worker < length core.old.running.items }
    requires idle { slice_index_or core.old.running.items worker None ≡ None }
    requires numbered { (path : Seq ℕ) × IsNumbered core.old.numbers.items core.old.journal.paths run.row path }
    requires offered { HasJob (λ job. IsOfferedWork job run.item) core.old.table run.row }
    requires room { HasMemory core.old }
    requires graphs { HasJob (λ job. AreKeptLevelsOf job.graphs keeping.old.levels) core.old.table run.row }
    ensures handed { IfOk result (HandsOut core.old worker run core.new) }
    ensures room { OnOk result (HasMemory core.new) }
    ensures slots { length core.new.rooms.slots.items ≡ length core.old.rooms.slots.items }
    ensures compiles { OnErr result (HasJob (λ job. run.item ≡ compilation_of job) core.old.table run.row) }
    ensures refused { OnErr result (core.new ≡ core.old) }
    ensures keeps { KeepsAs keeping.old keeping.new }
{
    let job = core.table.job(run.row);
    if run.item == job.compilation() {
        hand_compilation(alloc, core, keeping, worker, run)
    } else {
        let item = item_at(job, run.item);
        Ok(hand_frame(core, worker, run, item))
    }
}

/// Whether no worker runs anything.
fn is_idle(running: &[Option<Run>]) -> bool
    ensures { IsTrue result ↔ All (λ run. run ≡ None) running.now }
{
    running.iter().all(|run| run.is_none())
}

/// What a worker gets that runs nothing and claims.
///
/// # Errors
///
/// Want of memory.
pub(crate) fn claim(
    alloc: Global,
    core: &mut Core,
    keeping: &mut Keeping,
    worker: u32,
) -> Result<Claim, AllocError>
    requires may { (key : BoardKey) × MayClaim key core.old worker }
    requires room { HasMemory core.old }
    requires graphs { AreKeptLevelsOf core.old.table.graphs keeping.old.levels }
    ensures claimed { IfOk result (λ claim. (key : BoardKey) → MayClaim key core.old worker → ClaimsOn key core.old worker core.new claim) }
    ensures room { OnOk result (HasMemory core.new) }
    ensures refused { OnErr result ((key : BoardKey) → MayClaim key core.old worker → StarvesOn key core.old core.new) }
    ensures licensed { OnErr result ((key : BoardKey) → MayClaim key core.old worker → MayStarve (view_with key core.old false) worker) }
    ensures kept { KeepsKey core.old core.new × KeepsAs keeping.old keeping.new }
{
    boards_keep();
    boards_end();
    journals_grow();
    rules_are_lawful();
    tables_suit();
    match find(alloc, core, worker)? {
        Some(run) => hand_out(alloc, core, keeping, worker, run),
        None => {
            if is_idle(core.running.as_slice()) {
                Ok(Claim::Finished)
            } else {
                Ok(Claim::Wait)
            }
        }
    }
}
