//! Laws of journals, for whoever reads one that was written: that each legal journal can be brought to its end, what the lines
//! of its text tell, and how the text of a run goes on. The functions do nothing; their contracts are the laws.
#![tactic(auto)]

mod lines;
mod steps;
mod texts;

pub use lines::{entries_are_lines, lines_begin, lines_tell_entries, paths_are_plain};
pub use steps::{legal_journals_end, next_steps_are_one};
pub use texts::{texts_are_one, texts_go_on};
