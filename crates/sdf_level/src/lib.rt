//! Synchronous dataflow levels (Lee and Messerschmitt 1987) and their single-rate graphs: the types, and in `specs/` the
//! definitions that the other crates cite.
#![tactic(auto)]

mod groups;
mod inner_link;
mod laws;
mod level;
mod link;
mod list;
mod lists;
mod node;
mod single_rate;
mod token_name;
mod turn;

pub use groups::Groups;
pub use inner_link::InnerLink;
pub use laws::{
    lengths_kept, reads_final, repetition_suffices, runs_mapped, runs_told, same_tokens,
};
pub use level::Level;
pub use link::{Head, Link, Tail};
pub use list::List;
pub use lists::empty_lists;
pub use node::Node;
pub use single_rate::{Edge, SingleRate};
pub use token_name::{Maker, TokenName};
pub use turn::Turn;

/// The greatest rate of a port, a source or a sink, in tokens a firing.
pub const RATE_LIMIT: u32 = 262_144;

/// The greatest entry of a base vector, in firings.
pub const BASE_ENTRY_LIMIT: u32 = 1_024;

/// The most firings of a job: the sum of its repetition vector.
pub const FIRINGS_LIMIT: u64 = 2_048;

/// The greatest count of links of a job: over its links, the firings of the tail and of the head, and 2.
pub const LINKS_LIMIT: u64 = 8_192;

/// The most tokens of a job: over its links, the tokens that its firings put or take, and the delay.
pub const TOKENS_LIMIT: u64 = 1_048_576;
