//! In which order the actors of a level fire in one thread, or what is left where they can't all fire.
#![tactic(auto)]

mod adjacent;
mod greedy;
mod lacking;
mod stuck;

pub use greedy::order;
pub use stuck::Stuck;
