//! The kernels, one call each, over frames.
#![tactic(auto)]

mod configured;
mod counted;
mod elements;
mod maps;
mod partial_sums;
mod rearranged;
mod sums;
mod tokens;

pub use configured::{pick, read_param, spread};
pub use counted::{count_above, histogram, median};
pub use elements::{add, clamp, div, dup, gain, max, min, mul, pass, sub, threshold};
pub use rearranged::{down, ramp, transpose, up};
pub use sums::{dot, fir, mean, moving, sum};
