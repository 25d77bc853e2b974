// Actors and configuration actors that fire kernels.
ghost use Rattle.std.specs.Prelude.{◌≡◌, [], length, slice_index_or, Ok, Err, IfOk, IfErr};
ghost use Rattle.kernel_gate.specs.Signed.{unnamed};
ghost use Rattle.kernel_gate.specs.Table.{the_value};
ghost use Rattle.pisdf_meaning.specs.Configuring.{fed_to, kernel_leaves};
ghost use Rattle.pisdf_meaning.specs.Endings.{IfRefused};
ghost use Rattle.pisdf_meaning.specs.Kernels.{FitsKernel};
ghost use Rattle.pisdf_meaning.specs.Running.{kernel_fires};
ghost use Rattle.pisdf_meaning.specs.States.{tokens_at};

use crate::feeding::fed_to;
use crate::firing::{Configured, Firing, Made};
use crate::kernels::{KernelEnd, fire_kernel};
use crate::lists::tokens_at;
use crate::naming::kernel_refused;
use crate::path::Path;
use crate::preparing::rates_at;
use crate::refusal::PlainFault;
use kernel_gate::Gate;
use param_expr::Name;
use param_resolver::Early;
use pisdf_model::Graph;
use sdf_level::List;
use std::alloc::Global;

/// Firing `turn` of a kernel actor of the job with this path, which reads these tokens.
pub(crate) fn fire_kernel_actor<K: Gate>(
    alloc: Global,
    gate: &K,
    path: &Path,
    actor: &Name,
    turn: u32,
    kernel: u32,
    args: &[i64],
    read: List<List<i64>>,
    rates: &[u32],
) -> Result<Made, PlainFault>
    requires { FitsKernel (unnamed (K.kernels gate.now)) kernel (length args.now) (length read) (length rates.now) 0 }
    ensures gives { IfOk result (λ made. Ok made.outs ≡ kernel_fires path.now actor.now turn (the_value kernel args.now read rates.now 0)) }
    ensures nothing { IfOk result (λ made. made.trace ≡ []) }
    ensures refused { IfErr result (IfRefused (λ refusal. Err refusal ≡ kernel_fires path.now actor.now turn (the_value kernel args.now read rates.now 0))) }
{
    match fire_kernel(alloc, gate, kernel, args, read, rates, 0)? {
        KernelEnd::Gave { outs, sets: _ } => Ok(Made {
            outs,
            trace: List::new(Vec::new(alloc)),
        }),
        KernelEnd::Faulted(code) => Err(kernel_refused(alloc, path, actor, turn, code)),
    }
}

/// The firing of a kernel configuration actor of the job with this path, which reads these tokens and sets so many
/// parameters.
pub(crate) fn leave_kernel<K: Gate>(
    alloc: Global,
    gate: &K,
    path: &Path,
    actor: &Name,
    kernel: u32,
    args: &[i64],
    read: List<List<i64>>,
    rates: &[u32],
    sets: u32,
) -> Result<Configured, PlainFault>
    requires { FitsKernel (unnamed (K.kernels gate.now)) kernel (length args.now) (length read) (length rates.now) sets }
    ensures leaves { IfOk result (λ one. Ok one ≡ kernel_leaves path.now actor.now (the_value kernel args.now read rates.now sets)) }
    ensures outs { IfOk result (λ one. length one.outs ≡ length rates.now) }
    ensures refused { IfErr result (IfRefused (λ refusal. Err refusal ≡ kernel_leaves path.now actor.now (the_value kernel args.now read rates.now sets))) }
{
    match fire_kernel(alloc, gate, kernel, args, read, rates, sets)? {
        KernelEnd::Gave { outs, sets } => Ok(Configured {
            outs,
            sets,
            state: List::new(Vec::new(alloc)),
            trace: List::new(Vec::new(alloc)),
        }),
        KernelEnd::Faulted(code) => Err(kernel_refused(alloc, path, actor, 0, code)),
    }
}

/// The one firing of a configuration actor that fires a kernel.
#[derive(Drop)]
pub(crate) struct ConfigCall<'a> {
    /// The actor's name.
    pub(crate) actor: &'a Name,
    /// The actor's number among the configuration actors of its graph.
    pub(crate) number: usize,
    /// The actor's place among all actors of its graph.
    pub(crate) place: usize,
    /// The kernel that it fires.
    pub(crate) kernel: u32,
    /// How many inputs it has.
    pub(crate) inputs: usize,
    /// How many parameters it sets.
    pub(crate) sets: u32,
}

/// What a configuration actor that fires a kernel leaves.
///
/// # Errors
///
/// - `Refused`: the kernel faults.
/// - `Memory`: want of memory.
pub(crate) fn leave_config<K: Gate>(
    alloc: Global,
    gate: &K,
    graph: &Graph,
    early: &Early,
    firing: &Firing,
    call: &ConfigCall<'_>,
) -> Result<Configured, PlainFault>
    requires { FitsKernel (unnamed (K.kernels gate.now)) call.now.kernel (length (tokens_at early.now.args call.now.number)) call.now.inputs (length (slice_index_or early.now.outs call.now.number [])) call.now.sets }
    ensures leaves { IfOk result (λ one. Ok one ≡ kernel_leaves firing.now.path call.now.actor.now (the_value call.now.kernel (tokens_at early.now.args call.now.number) (fed_to graph.now firing.now.inputs call.now.place call.now.inputs) (slice_index_or early.now.outs call.now.number []) call.now.sets)) }
    ensures outs { IfOk result (λ one. length one.outs ≡ length (slice_index_or early.now.outs call.now.number [])) }
    ensures refused { IfErr result (IfRefused (λ refusal. Err refusal ≡ kernel_leaves firing.now.path call.now.actor.now (the_value call.now.kernel (tokens_at early.now.args call.now.number) (fed_to graph.now firing.now.inputs call.now.place call.now.inputs) (slice_index_or early.now.outs call.now.number []) call.now.sets))) }
{
    let read = fed_to(alloc, graph, firing.inputs.items(), call.place, call.inputs)?;
    let args = tokens_at(early.args.items(), call.number);
    let rates = rates_at(early.outs.items(), call.number);
    leave_kernel(
        alloc,
        gate,
        &firing.path,
        call.actor,
        call.kernel,
        args,
        read,
        rates,
        call.sets,
    )
}
