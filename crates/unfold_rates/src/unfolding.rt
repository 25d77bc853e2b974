ghost use Rattle.std.specs.Prelude.{◌≡◌, ◌≤◌, IfOk, IfErr};
ghost use Rattle.std.specs.Arc.{arc_value};
ghost use Rattle.pisdf_model.specs.Valid.{AreValid};
ghost use Rattle.unfold_rates.specs.Cut.{IsUnfolded};
ghost use Rattle.unfold_rates.specs.Exact.{IsExact};
ghost use Rattle.unfold_rates.specs.Fits.{FitAsBefore};
ghost use Rattle.unfold_rates.specs.InTurn.{UnfoldsTo};

use crate::exactness::exact;
use crate::fault::UnfoldFault;
use crate::multiplying::unfolded_graphs;
use crate::unfolded::Unfolded;
use firing_laws::{actors_move, graphs_below, level_runs_move, levels_alike};
use level_laws::{counts_multiplied, unfolded_scheduled};
use param_resolver::early_unfolds;
use pisdf_meaning::runnable;
use pisdf_model::Graphs;
use std::alloc::Global;
use std::sync::Arc;

/// The graphs one iteration of which is so many iterations of these: each interface of the top graph has so many times its
/// rate (unfolding: Lee and Messerschmitt 1987; Parhi and Messerschmitt 1991).
///
/// The iterations can be fired as one where the firings stay the same: the top graph has no configuration actor and no delay
/// that starts anew at each firing; its early check, its rates and its schedule refuse nothing; each component of its level
/// has an interface of positive rate, and the firings of the actor there move just as many tokens as that rate; and so many
/// times the counts and the rates of the interfaces are within the limits.
///
/// # Errors
///
/// `NotExact` exactly where they can't. `Memory`: want of memory.
pub fn unfold(alloc: Global, graphs: &Graphs, times: u32) -> Result<Unfolded, UnfoldFault>
    requires valid { AreValid graphs.now }
    requires some { 1 ≤ times }
    requires few { times ≤ 64 }
    ensures unfolded { IfOk result (IsUnfolded graphs.now times) }
    ensures fits { IfOk result (λ u. FitAsBefore graphs.now times (arc_value u.graphs)) }
    ensures unfolds { IfOk result (UnfoldsTo graphs.now) }
    ensures refused { IfErr result (λ fault. fault ≡ UnfoldFault.NotExact → IsExact graphs.now times → ⊥) }
{
    early_unfolds();
    runnable();
    counts_multiplied();
    graphs_below();
    levels_alike();
    actors_move();
    level_runs_move();
    unfolded_scheduled();
    let schedule = exact(alloc, graphs, times)?;
    let unfolded = unfolded_graphs(alloc, graphs, times)?;
    let shared = Arc::new(alloc, unfolded)?;
    Ok(Unfolded {
        graphs: shared,
        counts: schedule.counts,
        times,
    })
}
