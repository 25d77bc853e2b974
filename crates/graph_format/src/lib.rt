//! The format of graph files: what a JSON value states as a file, what a file means as graphs, and the faults of both.
#![tactic(auto)]

mod actor;
mod fifo;
mod file;
mod graph_fault;
mod named;
mod param;
mod port;

pub use actor::{FileActor, FileBody};
pub use fifo::{FileDelay, FileEnd, FileFifo};
pub use file::{File, FileGraph};
pub use graph_fault::GraphFault;
pub use param::{FileParam, FileParamKind, GREATEST_BOUND};
pub use port::FilePort;
