//! Reads graph files from JSON: the file that a JSON value states, and the graphs that the file means.
#![tactic(auto)]

mod actor;
mod checks;
mod fifo;
mod file_counts;
mod file_names;
mod kernel_counts;
mod kernels;
mod names;
mod param;
mod place;
mod port;
mod reader;
mod resolved;
mod resolved_actors;
mod resolved_fifos;
mod resolved_graphs;
mod resolved_parts;
mod root;
mod scoped_names;
mod shape;
mod stated_file;
mod surroundings;
mod text;
mod versions;

pub use graph_format::GraphFault;
pub use reader::read;
