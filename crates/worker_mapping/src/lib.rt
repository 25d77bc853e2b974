//! Where each node of a graph runs first: its home worker, by a list schedule of the whole graph
//! with the heaviest path from a node as its priority (Hu 1961; Graham 1969).
#![tactic(auto)]

mod choice;
mod costs;
mod entry;
mod growing;
mod mapping;
mod neighbours;
mod priority;
mod release;
mod schedule;
mod scheduled;

pub use costs::{edge_pairs, node_costs};
pub use entry::Entry;
pub use mapping::{Mapping, map};
pub use neighbours::edges_before;
pub use scheduled::{ListSchedule, schedule_nodes};
