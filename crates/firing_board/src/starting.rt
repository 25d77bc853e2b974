// The start of a board.
ghost use Rattle.std.specs.Prelude.{◌≡◌, ◌≤◌, ◌+◌, ◌*◌, IfOk, None, OnOk, replicate};
ghost use Rattle.std.specs.Arc.{arc_value};
ghost use Rattle.board_journal.specs.View.{IsEmpty};
ghost use Rattle.job_preparing.specs.View.{HasInherited};
ghost use Rattle.job_rules.specs.Meant.{IsFit};
ghost use Rattle.graph_firing.specs.View.{compilation_of};
ghost use Rattle.pisdf_model.specs.Valid.{AreValid};
ghost use Rattle.firing_board.specs.Beginning.{IsStartedOn};
ghost use Rattle.firing_board.specs.Core.{HasMemory};

use crate::frame_rooms::{FrameRooms, no_rooms};
use crate::journal_room::room_for;
use crate::run::Run;
use crate::state::Core;
use crate::table::JobTable;
use board_journal::Journal;
use graph_firing::OpenJob;
use pisdf_meaning::Firing;
use pisdf_model::Graphs;
use std::alloc::{AllocError, Global};
use std::sync::Arc;

/// No worker runs anything.
pub(crate) fn nothing_runs(alloc: Global, workers: u32) -> Result<Vec<Option<Run>>, AllocError>
    ensures { IfOk result (λ running. running.items ≡ replicate workers None) }
{
    vec![in alloc; None; workers as usize]
}

/// The memory that a board has at its start: in the journal for the entries of the top job, and a slot for the room of each
/// worker, in which none lies yet.
fn first_memory(
    alloc: Global,
    journal: &mut Journal,
    job: &OpenJob,
    workers: u32,
) -> Result<FrameRooms, AllocError>
    ensures rooms { IfOk result (λ rooms. (rooms.slots.items ≡ replicate workers None) × (rooms.size ≡ None)) }
    ensures taken { OnOk result (journal.new.room ≡ journal.old.room + 2 * (compilation_of job.now + 1)) }
    ensures kept { OnOk result ((journal.new.paths ≡ journal.old.paths) × (journal.new.entries ≡ journal.old.entries)) }
{
    room_for(journal, job)?;
    no_rooms(alloc, workers)
}

/// The open jobs, of which there is the top one alone, and no worker runs anything. Nothing was put into the journal.
pub(crate) fn start_core(
    alloc: Global,
    graphs: Arc<Graphs>,
    workers: u32,
    firing: Firing,
    mut journal: Journal,
) -> Result<Core, AllocError>
    requires valid { AreValid (arc_value graphs) }
    requires fit { IsFit (arc_value graphs).graphs firing }
    requires inherited { HasInherited (arc_value graphs).graphs firing }
    requires some { 1 ≤ workers }
    requires empty { IsEmpty journal }
    ensures started { IfOk result (IsStartedOn (arc_value graphs) workers firing) }
    ensures room { IfOk result HasMemory }
{
    let running = nothing_runs(alloc, workers)?;
    let path = firing.path.copy()?;
    let _number = journal.add_path(path)?;
    let numbers = Vec::new(alloc);
    let table = JobTable::start(alloc, graphs, workers, firing)?;
    match first_memory(alloc, &mut journal, table.job(0), workers) {
        Ok(rooms) => Ok(Core {
            table,
            running,
            numbers,
            journal,
            rooms,
            end: None,
        }),
        Err(error) => {
            table.end();
            Err(error)
        }
    }
}
