//! PiSDF graphs (Desnos and others 2013, PiMM): hierarchical dataflow graphs of actors whose token rates depend on
//! parameters. Names are resolved: a part refers to another by its place in a list. And the checks of graphs: which
//! numbers refer to parts, and the first place at which a graph breaks a rule.
#![tactic(auto)]

mod actor;
mod arrows;
mod components;
mod copy;
mod counting;
mod detail_fault;
mod duplicates;
mod end_times;
mod fifo;
mod graph;
mod interface_wires;
mod limits;
mod named_params;
mod names;
mod nesting;
mod ordering;
mod param;
mod parts;
mod port_counts;
mod range;
mod rules;
mod state_tokens;
mod tally;
mod wires;

pub use actor::{Actor, Body, Port};
pub use copy::{Copied, copies};
pub use counting::{Counted, PartCounts, count};
pub use detail_fault::DetailFault;
pub use duplicates::duplicate;
pub use fifo::{End, Fifo, Life};
pub use graph::{Graph, Graphs, Interface};
pub use interface_wires::{FifoPlace, interface_wire, is_at_configuration, is_configuration};
pub use limits::{
    MAX_ACTORS, MAX_DELAY_TOKENS, MAX_EXPORTS, MAX_FIFOS, MAX_GRAPHS, MAX_HOLD, MAX_INPUTS,
    MAX_NESTING, MAX_OUTPUTS, MAX_PARAMS,
};
pub use named_params::refers;
pub use names::{Scope, ScopedName, push_name, push_names, repeat};
pub use nesting::{depth, graph_cycle};
pub use ordering::param_order;
pub use param::{Param, ParamKind};
pub use parts::{Named, input_count, output_count};
pub use port_counts::{AnyCounts, Counts, ports};
pub use range::{in_range, life_of};
pub use rules::{ModelFault, well_formed};
pub use state_tokens::{capped_hold_sum, graph_holds, large_holds};
pub use wires::{port_text, wire};
