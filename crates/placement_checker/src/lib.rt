//! Whether a placement of buffers in one run of cells keeps those apart that exclude each other.
#![tactic(auto)]

mod checker;
mod exclusion;
mod row;

pub use checker::{Clash, check};
pub use exclusion::Exclusion;
pub use row::has_bit;
