//! The commands of the program, over files by name and two sinks of bytes: `run GRAPH TOKENS ITERATIONS WORKERS`,
//! `plain GRAPH TOKENS ITERATIONS`, `unfold TIMES GRAPH TOKENS ITERATIONS WORKERS`, `plan GRAPH TOKENS WORKERS`,
//! `schedule GRAPH TOKENS WORKERS`, `memory GRAPH TOKENS WORKERS`, `journal GRAPH TOKENS ITERATIONS WORKERS`,
//! `audit GRAPH TOKENS ITERATIONS WORKERS JOURNAL`, `soak NUMBER WORKERS` and `upgrade GRAPH`.
#![tactic(auto)]

mod audit;
mod job;
mod job_command;
mod journal;
mod journal_text;
mod limits;
mod line;
mod load;
mod number;
mod program;
mod soak;
mod soak_tokens;
mod soak_totals;
mod status;
mod stop;
mod upgrade;
mod words;

pub use program::run_program;
pub use status::{GraphCause, JournalCause, Status, TokenCause, Which};
