// What jobs begin with.
ghost use Rattle.std.specs.Prelude.{◌≡◌, ℕ};
ghost use Rattle.job_preparing.specs.Handing.{mark_at};
ghost use Rattle.nested_jobs.specs.Marks.{Free};
ghost use Rattle.firing_board.specs.Table.Calls.{BeginsWith};

use board_rules::rows_are_asked;
use graph_firing::OpenJob;

/// What the first item of a job does.
#[derive(Debug, Clone, Copy, PartialEq, Eq)]
pub(crate) enum Begins {
    /// It has work of its own.
    Work,
    /// It calls a job.
    Call,
}

/// What the first item of a job does of which nothing is claimed.
pub(crate) fn begins_with(job: &OpenJob) -> Begins
    requires { (i : ℕ) → mark_at job.now.marks i ≡ Free }
    ensures { BeginsWith job.now result }
{
    rows_are_asked();
    match job.pick(0) {
        Some(offer) => {
            if offer.item == 0 {
                Begins::Work
            } else {
                Begins::Call
            }
        }
        None => Begins::Call,
    }
}
