//! What the sources and sinks of a level ask of it: how often each component of the base vector is repeated to serve them,
//! which token of a source is read where, and which tokens a sink keeps.
#![tactic(auto)]

mod component;
mod fault;
mod interface;
mod need;
mod place;
mod repetition;

pub use component::components;
pub use fault::InterfaceFault;
pub use place::{kept_from, repeated_at};
pub use repetition::factor;
