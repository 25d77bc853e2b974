//! Iterations of a graph fired as one (unfolding: Lee and Messerschmitt 1987; Parhi and Messerschmitt 1991): the graphs in which
//! one iteration is several of others, where that can be, and how it is cut into these.
#![tactic(auto)]

mod counting;
mod cutting;
mod exactness;
mod fault;
mod multiplying;
mod rows;
mod serving;
mod unfolded;
mod unfolding;

pub use fault::UnfoldFault;
pub use unfolded::Unfolded;
pub use unfolding::unfold;
