//! Ordered workers: a fixed order of the nodes of each worker, and offsets for the buffers of a graph under these orders, which
//! let buffers share cells that could be live at once without them (allocation after scheduling; Desnos et al., memory
//! exclusion graphs).
#![tactic(auto)]

mod grouping;
mod laws;
mod line;
mod ordering;
mod orders;
mod places;
mod tables;

pub use laws::live_buffers_apart;
pub use ordering::ordered;
pub use tables::Ordered;
