//! Boards of nested jobs, as theory: workers claim and finish the items of jobs that call jobs, and whatever the order,
//! a journal that has ended tells what one thread gets. Definitions in `specs/`, laws as contracts, and no code that runs.
#![tactic(auto)]

mod laws;

pub use laws::{
    answers_sound, closed_jobs_settled, enabled_items_listed, ended_journals_tell,
    few_jobs_are_open, never_stuck, tasks_stay,
};
