//! Graphs that run on boards, by simulated workers, whose steps come in orders that tables tell, and by crews of threads: each line
//! of a table is a JSON object with a graph, its tokens, and cases, each with the answer that is wanted. There is
//! [`case_rows::Trouble`] where a line hasn't its form, or where there is no memory.
#![tactic(auto)]

mod carried;
mod cases;
mod crew;
mod given;
mod giving_back;
mod held;
mod holding;
mod iterations;
mod texts;
mod told;
mod turns;

pub use cases::outcomes;
