// How a board ends.
ghost use Rattle.std.specs.Prelude.{◌≡◌, IfOk, Result as Outcome, Some, false};
ghost use Rattle.job_preparing.specs.declared.handing.JobGiven.{JobGiven};
ghost use Rattle.pisdf_meaning.specs.declared.refusal.Refusal.{Refusal};
ghost use Rattle.firing_board.specs.Table.View.{NothingIsLent};
ghost use Rattle.firing_board.specs.Beginning.{EndsWith};

use crate::frame_rooms::end_rooms;
use crate::state::Core;
use board_journal::Journal;
use job_preparing::JobGiven;
use pisdf_meaning::{Delays, Iteration, Refusal};
use std::alloc::{AllocError, Global};

/// How a board ends.
#[derive(Drop)]
pub enum BoardEnd {
    /// What one thread gets of the iteration, the state that it leaves, and the journal.
    Done {
        iteration: Iteration,
        delays: Delays,
        journal: Journal,
    },
    /// The refusal that one thread meets first, and the journal.
    Refused {
        refusal: Refusal,
        journal: Journal,
    },
    /// Memory was wanted.
    Starved,
}

/// Gives up the open jobs.
pub(crate) fn end_core(core: Core)
    requires { NothingIsLent core.table }
{
    let Core {
        table,
        running: _,
        numbers: _,
        journal: _,
        rooms,
        end: _,
    } = core;
    table.end();
    end_rooms(rooms);
}

/// How the board ends that has these open jobs.
///
/// # Errors
///
/// Want of memory.
pub(crate) fn outcome_of(alloc: Global, core: Core, starved: bool) -> Result<BoardEnd, AllocError>
    requires lent { NothingIsLent core.table }
    requires ended { starved ≡ false → (end : Outcome JobGiven Refusal) × (core.end ≡ Some end) }
    ensures { IfOk result (EndsWith core starved) }
{
    let Core {
        table,
        running: _,
        numbers: _,
        journal,
        rooms,
        end,
    } = core;
    table.end();
    end_rooms(rooms);
    if starved {
        return Ok(BoardEnd::Starved);
    }
    match end {
        Some(Ok(given)) => {
            let trace = given.trace.into_list(alloc)?;
            Ok(BoardEnd::Done {
                iteration: Iteration {
                    outs: given.outs,
                    trace,
                },
                delays: Delays { lists: given.state },
                journal,
            })
        }
        Some(Err(refusal)) => Ok(BoardEnd::Refused { refusal, journal }),
        None => unreachable!(),
    }
}
