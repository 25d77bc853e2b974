//! The token file, which gives a run its input streams, and the rows that a run writes. Both are CSV (RFC 4180).
#![tactic(auto)]

mod fault;
mod plain;
mod reading;
mod record;
mod rows;
mod token;

pub use fault::TokenFault;
pub use reading::read_tokens;
pub use rows::{param_row, push_param_row, push_tokens_row, tokens_row};
