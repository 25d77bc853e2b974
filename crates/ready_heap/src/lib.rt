//! Numbers that come in and go out without memory, and the least of those that are in: each number has a group and a key, and
//! its rank is its place in the order of groups and keys. The ranks of those that are in are the set bits of a row of words,
//! with a bit for each word that tells whether it has one. The ranks are worked out once for any number of such rows.
#![tactic(auto)]

mod bits;
mod groups;
mod ranking;

pub use groups::{BitRows, GroupedHeaps};
pub use ranking::Ranking;
