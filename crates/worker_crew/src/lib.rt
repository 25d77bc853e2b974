//! The workers of a run. Each claims an item under the lock, runs it outside the lock, and gives it back under the lock, until
//! the board is over. Small copies it makes while it holds the lock, so many at the most. A crew works in at most as many threads
//! as it has workers, by halves of halves. How many there are is decided by what the boards before this one have shown. Where one
//! thread is enough, it holds the lock all the time, and runs kernels too while it holds it.
#![tactic(auto)]

mod alone;
mod asking;
mod crew;
mod giving_back;
mod laws;
mod pace;
mod running;
mod slot;
mod turn_end;
mod under_lock;
mod working;
mod workload;

pub use crew::{run_crew, run_crew_by};
pub use laws::{board_laws, cells_are_lent_once, compilations_end, work_fits};
pub use working::work;
pub use workload::Workload;
