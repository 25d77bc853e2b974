// Room in the journal for the entries that may come.
ghost use Rattle.std.specs.Prelude.{◌≡◌, ◌+◌, ◌*◌, ◌≤◌, OnOk};
ghost use Rattle.graph_firing.specs.Calls.{nodes_by};
ghost use Rattle.graph_firing.specs.View.{compilation_of};

use board_journal::Journal;
use graph_firing::OpenJob;
use job_preparing::CompileEnd;
use std::alloc::AllocError;

/// Takes room for the claims and the finishes of the items of a job that is opened: its configuration actors and its
/// compilation.
///
/// # Errors
///
/// Want of memory.
pub(crate) fn room_for(journal: &mut Journal, job: &OpenJob) -> Result<(), AllocError>
    ensures taken { OnOk result (journal.new.room ≡ journal.old.room + 2 * (compilation_of job.now + 1)) }
    ensures kept { (journal.new.paths ≡ journal.old.paths) × (journal.new.entries ≡ journal.old.entries) × (journal.old.room ≤ journal.new.room) }
{
    journal.reserve(job.compilation())?;
    journal.reserve(1)
}

/// Takes room for the claims and the finishes of the nodes that come of a compilation.
///
/// # Errors
///
/// Want of memory.
pub(crate) fn room_for_nodes(journal: &mut Journal, end: &CompileEnd) -> Result<(), AllocError>
    ensures taken { OnOk result (journal.new.room ≡ journal.old.room + 2 * nodes_by end.now) }
    ensures kept { (journal.new.paths ≡ journal.old.paths) × (journal.new.entries ≡ journal.old.entries) × (journal.old.room ≤ journal.new.room) }
{
    match end {
        CompileEnd::Ready(level) => {
            journal.reserve(level.made.compiled.graph().nodes.items().len())
        }
        CompileEnd::Refused(_) => Ok(()),
        CompileEnd::Memory => Ok(()),
    }
}
