//! A report on the list schedule of a graph: the schedule, a path that bounds every schedule from below, the work that does
//! so too, and how far the list schedule can be above them (Graham 1969).
#![tactic(auto)]

mod critical;
mod listed;
mod reporting;
mod slots;
mod tables;

pub use reporting::report;
pub use slots::Slot;
pub use tables::Report;
