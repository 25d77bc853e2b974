// How many tokens an iteration takes.
ghost use Rattle.std.specs.Prelude.{◌≡◌, [], length, slice_get, Some, IfErr, IfOk, OnOk, Err, Option};
ghost use Rattle.param_resolver.specs.EarlyCheck.{early_faults};
ghost use Rattle.pisdf_model.specs.Valid.{AreValid};
ghost use Rattle.pisdf_model.specs.declared.graph.Graph.{Graph};
ghost use Rattle.pisdf_meaning.specs.Endings.{IfRefused};
ghost use Rattle.pisdf_meaning.specs.Run.{Lack, after_early, top_needs};

use crate::causes::early_refused;
use crate::naming::copy_name;
use crate::path::Path;
use crate::refusal::PlainFault;
use param_resolver::{early, early_unfolds};
use pisdf_model::Graphs;
use sdf_level::List;
use std::alloc::Global;

/// How many tokens each input of the top graph takes in an iteration, in the order of the inputs.
///
/// # Errors
///
/// `Refused`: the early check of the top graph, which each iteration makes first, refuses it. `Memory`: want of memory.
pub fn top_needs(alloc: Global, graphs: &Graphs) -> Result<List<u32>, PlainFault>
    requires valid { AreValid graphs.now }
    ensures needs { IfOk result (λ needs. needs ≡ top_needs graphs.now) }
    ensures fit { IfOk result (λ needs. (top : Graph) → slice_get graphs.now.graphs graphs.now.top ≡ Some top → length needs ≡ length top.inputs) }
    ensures sound { OnOk result (early_faults graphs.now.graphs graphs.now.top [] ≡ []) }
    ensures refused { IfErr result (IfRefused (λ refusal. (top : Graph) (lack : Option Lack) → slice_get graphs.now.graphs graphs.now.top ≡ Some top → after_early graphs.now top lack ≡ Err refusal)) }
{
    early_unfolds();
    match early(alloc, graphs, graphs.top, &[]) {
        Ok(early) => Ok(early.inputs),
        Err(fault) => {
            let all = graphs.graphs.items();
            let top = &all[graphs.top as usize];
            let path = Path::new(alloc, copy_name(alloc, &top.name)?)?;
            Err(early_refused(alloc, all, top, &path, fault))
        }
    }
}
