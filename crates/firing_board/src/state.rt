use crate::frame_rooms::FrameRooms;
use crate::run::Run;
use crate::table::JobTable;
use board_journal::Journal;
use job_preparing::JobGiven;
use pisdf_meaning::Refusal;

/// The open jobs, what workers run of them, and the journal.
pub(crate) struct Core {
    pub(crate) table: JobTable,
    /// What each worker runs.
    pub(crate) running: Vec<Option<Run>>,
    /// For each row of the table the number of its path in the journal.
    pub(crate) numbers: Vec<usize>,
    pub(crate) journal: Journal,
    /// For the frames of nodes.
    pub(crate) rooms: FrameRooms,
    /// The end of the top job, once it is there.
    pub(crate) end: Option<Result<JobGiven, Refusal>>,
}
