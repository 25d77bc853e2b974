//! What runs the iterations of a graph by many workers: each iteration is a firing of the top graph, which a crew of workers runs
//! on a board, and which gives what one thread gets of it. Beside it the run over the iterations, by workers or by one thread.
#![tactic(auto)]

mod carried;
mod driving;
mod end;
mod fault;
mod iteration;
mod maker;
mod run;
mod stop;
mod streams;
mod texts;
mod unfolded;

pub use carried::Carried;
pub use driving::{lend_kept, lend_levels};
pub use end::RunEnd;
pub use fault::IterationFault;
pub use iteration::{run_iteration, run_iteration_by};
pub use run::{plain_run, run_all, top_of};
pub use stop::Stop;
pub use streams::{Lack, Streams};
pub use unfolded::run_unfolded;
