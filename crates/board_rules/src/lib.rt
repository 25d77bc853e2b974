//! The rules of a board: which items of the open jobs may be claimed and finished, in what order they are handed to workers, and
//! what every journal of claims and finishes that has ended tells.
#![tactic(auto)]

mod entry;
mod laws;

pub use entry::{Entry, ItemName};
pub use laws::{
    boards_end, boards_keep, closed_jobs_have_finished, entries_tell_steps, few_jobs_are_open,
    jobs_are_asked, journals_grow, journals_tell_one_thread, paths_stay, rows_are_asked,
    workers_are_answered, workers_dont_matter,
};
