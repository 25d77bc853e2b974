//! What is told of a compiled job: its plan, its list schedule beside what bounds it, and its memory where workers keep
//! fixed orders, as texts of rows.
#![tactic(auto)]

mod memory;
mod names;
mod ordering;
mod plan;
mod report;
mod schedule;
mod text;
mod values;

pub use text::{JobText, job_text};
