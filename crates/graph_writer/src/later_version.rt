ghost use Rattle.std.specs.Prelude.{◌≡◌, IfOk};
ghost use Rattle.pisdf_model.specs.Range.{InRange};
ghost use Rattle.pisdf_model.specs.WellFormed.{WellFormed};
ghost use Rattle.graph_writer.specs.Upgraded.{HasFirstLives, upgraded};

use pisdf_model::{Graphs, copies};
use std::alloc::{AllocError, Global};

/// The same graphs as those of a file of version 2. Each delay keeps the life that it has, which a file of version 1
/// doesn't state: a permanent one in the top graph, and a firing's in the others.
///
/// # Errors
///
/// Want of memory.
#[tactic(auto, using(crate::proofs::Lives::upgraded_in_range, crate::proofs::Lives::first_lives))]
pub fn upgrade(alloc: Global, graphs: &Graphs) -> Result<Graphs, AllocError>
    requires well_formed { WellFormed graphs.now }
    requires first_version { graphs.now.version ≡ 1 }
    ensures upgraded { IfOk result (λ new. new ≡ upgraded graphs.now) }
    ensures well_formed { IfOk result WellFormed }
    ensures in_range { InRange graphs.now → IfOk result InRange }
    // The lives of delays are those that version 1 gives them.
    ensures lives { InRange graphs.now → IfOk result HasFirstLives }
{
    Ok(Graphs {
        version: 2,
        top: graphs.top,
        graphs: copies(alloc, graphs.graphs.items())?,
    })
}
