// One firing of a kernel.
ghost use Rattle.std.specs.Prelude.{◌≡◌, ◌≤◌, [], length, map, vec_capacity, IfOk};
ghost use Rattle.kernel_gate.specs.Leased.{AllWhole, AreWhole};
ghost use Rattle.kernel_gate.specs.Signed.{unnamed};
ghost use Rattle.kernel_gate.specs.Table.{the_value};
ghost use Rattle.kernel_gate.specs.Value.{Gives};
ghost use Rattle.split_block.specs.View.{cells_of, lease_place};
ghost use Rattle.pisdf_meaning.specs.Kernels.{FitsKernel, GivesLengths, fired_answer};

use crate::lists::copy_tokens;
use kernel_gate::{Frame, Gate, Lent};
use sdf_level::List;
use split_block::Lease;
use std::alloc::{AllocError, Global};
use std::mem;

/// What a kernel gave.
#[derive(Drop)]
pub enum KernelEnd {
    /// The tokens of each output, and the values that it sets.
    Gave {
        outs: List<List<i64>>,
        sets: List<i64>,
    },
    /// Its code.
    Faulted(u8),
}

/// The tokens of leases that are whole blocks, in their order. It takes no memory: `lists` is empty, and has room for them.
pub fn lists_of_leases(mut leases: Vec<Lease>, mut lists: Vec<List<i64>>) -> List<List<i64>>
    requires whole { AllWhole (map lease_place leases.items) }
    requires empty { lists.items ≡ [] }
    requires room { length leases.items ≤ vec_capacity lists }
    ensures { result ≡ map cells_of leases.items }
{
    while let Some(lease) = leases.pop() {
        lists.push_reserved(List::new(lease.into_vec()));
    }
    leases.destroy_empty();
    lists.reverse();
    List::new(lists)
}

/// What stands in a fired frame, which is given up. It takes no memory: `lists` is empty, and has room for the outputs.
fn gave(alloc: Global, frame: Frame, lists: Vec<List<i64>>) -> KernelEnd
    requires whole { AreWhole frame.places }
    requires empty { lists.items ≡ [] }
    requires room { length frame.outputs ≤ vec_capacity lists }
    ensures { fired_answer result ≡ Gives frame.outputs frame.sets }
{
    let mut lent = frame.take_back();
    let parts: &mut Lent = &mut lent;
    let outputs = mem::replace(&mut parts.outputs, Vec::new(alloc));
    let sets = mem::replace(&mut parts.sets, Vec::new(alloc));
    Frame::lend(lent).end();
    KernelEnd::Gave {
        outs: lists_of_leases(outputs, lists),
        sets: List::new(sets),
    }
}

/// Fires a kernel with these arguments and inputs, outputs of these lengths and so many sets.
///
/// # Errors
///
/// Want of memory.
pub fn fire_kernel<K: Gate>(
    alloc: Global,
    gate: &K,
    kernel: u32,
    args: &[i64],
    inputs: List<List<i64>>,
    outputs: &[u32],
    sets: u32,
) -> Result<KernelEnd, AllocError>
    requires { FitsKernel (unnamed (K.kernels gate.now)) kernel (length args.now) (length inputs) (length outputs.now) sets }
    ensures value { IfOk result (λ end. fired_answer end ≡ the_value kernel args.now inputs outputs.now sets) }
    ensures lengths { IfOk result (GivesLengths outputs.now) }
{
    let args = copy_tokens(alloc, args)?;
    let lists = Vec::with_capacity(alloc, outputs.len())?;
    let mut frame = Frame::start(alloc, kernel, args, inputs, outputs, sets)?;
    match gate.fire(&mut frame) {
        Ok(()) => Ok(gave(alloc, frame, lists)),
        Err(fault) => {
            frame.end();
            Ok(KernelEnd::Faulted(fault.code))
        }
    }
}
