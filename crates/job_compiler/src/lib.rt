//! Everything that a job of one level needs before its first firing: how often each actor fires and in which order, the
//! single-rate graph, where its buffers lie in reused cells, which worker each node belongs to, which edges are at its ports,
//! and in which order the nodes of each worker go.
#![tactic(auto)]

mod cache;
mod compiled;
mod compiling;
mod ends;
mod keeping;
mod key;
mod laws;
mod memory;
mod parts;
mod ranking;
mod rows;
mod wiring;

pub use cache::{Kept, LastUsed};
pub use compiled::Compiled;
pub use compiling::compile;
pub use keeping::{kept, none_used};
pub use key::Key;
pub use laws::one_compilation;
pub use level_schedule::{Unscheduled as CompileFault, What};
pub use memory::{JobMemory, SideMemory};
pub use rows::{Port, Rows};
pub use wiring::Wiring;
