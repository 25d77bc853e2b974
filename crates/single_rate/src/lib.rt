//! Single-rate graphs of synchronous dataflow levels (Lee and Messerschmitt 1987), in which each node fires once, with PREESM's
//! special actors; and what flows over their edges.
#![tactic(auto)]

mod counting;
mod cutting;
mod expansion;
mod graph;
mod laws;
mod nodes;
mod numbers;
mod part;
mod ranks;
mod sequence;
mod wire;

pub use graph::expand;
pub use laws::{graphs_numbered, tokens_delivered};
pub use part::{Part, Port};
pub use wire::Wire;
