//! Kernels behind a trait: a frame holds what one firing reads and writes, and a gate fires it.
#![tactic(auto)]

mod fault;
mod frame;
mod gate;
mod laws;
mod leases;
mod limits;
mod room;
mod signature;
mod told;

pub use fault::KernelFault;
pub use frame::{Frame, Lent};
pub use gate::Gate;
pub use laws::lengths_given;
pub use leases::spend;
pub use limits::{MAX_MEDIAN_TOKENS, MAX_MOVING_WIDTH};
pub use room::{Room, RoomSize};
pub use signature::Signature;
pub use told::{Told, told_of};
