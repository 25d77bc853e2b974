//! The auditor of journals: whether a text is that of the journals of a run by many workers, or which of its lines is the first
//! bad one. It replays each board over plain values, and shares no state with what runs boards.
#![tactic(auto)]

mod asking;
mod auditing;
mod board;
mod closing;
mod laws;
mod lines;
mod opening;
mod replay;
mod slots;
mod stepping;
mod table;
mod verdict;

pub use auditing::audit;
pub use laws::verdicts_are_one;
pub use verdict::Verdict;
