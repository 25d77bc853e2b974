ghost use Rattle.std.specs.Prelude.{◌≡◌, ◌<◌, ◌^◌, ℤ, [], List as Seq, length, IfErr, IfOk, OnOk};
ghost use Rattle.param_resolver.specs.Assignment.{StandsAt, supplied_to, numbers, param_faults, values_of};
ghost use Rattle.param_resolver.specs.EarlyCheck.{IsEarlyOf};
ghost use Rattle.param_resolver.specs.Settled.{AreOrdered};

use crate::assignment::assign;
use crate::fault::ResolveFault;
use crate::known::Early;
use crate::supplied::supplied_late;
use pisdf_model::Graph;
use sdf_level::List;
use std::alloc::Global;

/// The values of all parameters of a graph, in file order, once its configuration actors set the chosen ones to these, in
/// file order.
///
/// # Errors
///
/// - `Param`: the first parameter in file order that isn't sound though all that it refers to is.
/// - `Memory`: want of memory.
pub fn resolve(
    alloc: Global,
    graph: &Graph,
    early: &Early,
    chosen: &[i64],
) -> Result<List<i64>, ResolveFault>
    requires ordered { AreOrdered graph.now.params }
    requires few { length graph.now.params < 2 ^ 32 }
    ensures values { (inherited : Seq ℤ) → IsEarlyOf graph.now.params inherited early.now.values → IfOk result (λ v. v ≡ numbers (values_of graph.now.params (supplied_to graph.now.params inherited chosen.now))) }
    ensures sound { (inherited : Seq ℤ) → IsEarlyOf graph.now.params inherited early.now.values → OnOk result (param_faults graph.now.params (supplied_to graph.now.params inherited chosen.now) ≡ []) }
    ensures first_fault { (inherited : Seq ℤ) → IsEarlyOf graph.now.params inherited early.now.values → IfErr result (StandsAt (param_faults graph.now.params (supplied_to graph.now.params inherited chosen.now))) }
{
    let supplied = supplied_late(alloc, graph.params.items(), early.values.items(), chosen)?;
    let assigned = assign(alloc, graph.params.items(), &supplied)?;
    Ok(List::new(assigned.numbers))
}
