//! What a run of one thread keeps of a level: for each link its line, every token that was put on it, the oldest first. A
//! firing reads its inputs off the lines and puts its outputs at their ends; each costs as many steps as the actor has
//! ports and tokens.
#![tactic(auto)]

mod ends;
mod ports;
mod putting;
mod reading;

pub use ends::{kept, left};
pub use ports::{Ports, ports_of};
pub use putting::put;
pub use reading::read;
