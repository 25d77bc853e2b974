// The state with which a run begins.
ghost use Rattle.std.specs.Prelude.{◌≡◌, IfOk};
ghost use Rattle.pisdf_model.specs.Hold.{initial};

use crate::outcome::Delays;
use crate::states::begin;
use pisdf_model::Graphs;
use std::alloc::{AllocError, Global};

/// The state with which the first iteration of a run begins: for each FIFO of the top graph the tokens of its delay, and
/// none where they start anew at each firing; and then for each of its actors the state, in one line, with which the graph
/// that it names begins. The time taken goes with the sizes of the graphs, and with the number of these tokens times the
/// sizes of the graphs in whose states they stand.
///
/// The error is want of memory.
pub fn first_delays(alloc: Global, graphs: &Graphs) -> Result<Delays, AllocError>
    ensures { IfOk result (λ delays. delays.lists ≡ initial graphs.now.graphs graphs.now.top) }
{
    Ok(Delays {
        lists: begin(alloc, graphs.graphs.items(), graphs.top)?,
    })
}
