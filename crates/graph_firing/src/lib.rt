//! One firing of a graph, from its configuration actors over the compilation of its level to the last node of its single-rate
//! graph. Its items are numbered as the rules of jobs number them, claimed one by one, and finished one by one. The nodes alone
//! are in `nodes`.
#![tactic(auto)]

mod going;
mod handed;
mod job;
mod nodes;
mod offer;
mod opening;
mod picking;
mod places;
mod slot;
mod stage;
mod stage_nodes;

pub use handed::Handed;
pub use job::OpenJob;
pub use offer::Offer;
pub use opening::open;
