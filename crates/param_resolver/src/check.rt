ghost use Rattle.std.specs.Prelude.{◌≡◌, ◌<◌, [], length, slice_get, IfErr, IfOk, IfSome, OnOk};
ghost use Rattle.pisdf_model.specs.Ports.{inherited_count};
ghost use Rattle.pisdf_model.specs.Valid.{AreValid};
ghost use Rattle.param_resolver.specs.EarlyCheck.{early_faults, early_of};
ghost use Rattle.param_resolver.specs.Refusal.{StandsFirst, TellsMemory, refusal_of};

use crate::configuration::early_within;
use crate::fault::EarlyFault;
use crate::known::Early;
use pisdf_model::{Graphs, MAX_NESTING};
use std::alloc::Global;

/// The early check of the graph at a place, where these are the values of its inherited parameters (Desnos and others
/// 2013, PiMM): what is known of it before its configuration actors fire.
///
/// The checks are made in this order: the early parameters, the rates of the inputs, the rates of the outputs, and for each
/// configuration actor in file order its arguments, and then its output rates, or, where it is hierarchical, its child's
/// early check and the rates of its inputs, which must be those of the input interfaces that feed them. Every rate lies
/// in 0 to `RATE_LIMIT`.
///
/// # Errors
///
/// - `Param`: the first parameter that isn't sound though all that it refers to is.
/// - `Rate`: the first interface, port or argument that has no such rate or no value; the port of a hierarchical
///   configuration actor whose rate isn't that of the interface, with its rate.
/// - `Child`: the first fault of the early check of the graph that the actor names.
/// - `Memory`: want of memory, also where it is met in the check of a graph that an actor names.
pub fn early(
    alloc: Global,
    graphs: &Graphs,
    graph: u32,
    inherited: &[i64],
) -> Result<Early, EarlyFault>
    requires valid { AreValid graphs.now }
    requires there { graph < length graphs.now.graphs }
    requires inherited { length inherited.now ≡ inherited_count (slice_get graphs.now.graphs graph) }
    ensures known { IfOk result (λ e. e ≡ early_of graphs.now.graphs graph inherited.now) }
    ensures sound { OnOk result (early_faults graphs.now.graphs graph inherited.now ≡ []) }
    ensures first_fault { IfErr result (λ fault. StandsFirst (early_faults graphs.now.graphs graph inherited.now) (refusal_of fault)) }
    ensures memory { IfErr result TellsMemory }
{
    early_within(
        alloc,
        graphs.graphs.items(),
        graph as usize,
        inherited,
        MAX_NESTING,
    )
}
