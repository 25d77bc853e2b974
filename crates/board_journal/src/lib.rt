//! The journal of a board: the claims and finishes of its workers, in their order. A journal keeps its entries, so that they can be
//! read, or it shows them to contracts alone and takes no memory for them. Entries that are kept name the jobs' paths by number, so
//! that a path is kept once, and an entry for which room was taken takes no memory.
#![tactic(auto)]

mod entry_at;
mod history;
mod journal;
mod keeping;
mod kept;
mod line;

pub use entry_at::EntryAt;
pub use journal::Journal;
