//! What programs over tables of cases share: how the rows of a table write texts, lists and levels, whether an answer is the
//! wanted one, and what is told of a table.
//!
//! A table is a file, and each of its lines a JSON object: a case with its inputs and the answer `want` that is wanted of it, or
//! a text that later lines begin with.
#![tactic(auto)]

mod answers;
mod bases;
mod building;
mod levels;
mod lines;
mod notation;
mod number_lists;
mod row;
mod table;
mod trouble;

pub use answers::{answer_in, answer_of_text, lists_text};
pub use building::level_with;
pub use levels::level_of;
pub use lines::{End, Line};
pub use notation::{bytes, bytes_of, quoted, text, text_of};
pub use number_lists::{lists, numbers, numbers_of, smalls, total};
pub use row::{items, member, number, small, small_of, small_or, word};
pub use table::{Outcome, Table, outcome_of};
pub use trouble::Trouble;
