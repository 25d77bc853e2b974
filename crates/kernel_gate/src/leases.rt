// Lists as leases, each of a block of its own.
ghost use Rattle.std.specs.Prelude.{◌≡◌, ◌≤◌, [], ℕ, IfOk, length, map, pos, replicate, vec_capacity};
ghost use Rattle.split_block.specs.View.{cells_of, lease_place};
ghost use Rattle.kernel_gate.specs.Leased.{AllWhole};

use sdf_level::List;
use split_block::Lease;
use std::alloc::{AllocError, Global};

/// Lists of these lengths, all 0.
pub(crate) fn zeros(alloc: Global, lens: &[u32]) -> Result<Vec<List<i64>>, AllocError>
    ensures { IfOk result (λ v. v.items ≡ map (λ n. replicate n (pos 0)) lens.now) }
{
    let mut lists = Vec::with_capacity(alloc, lens.len())?;
    for n in lens {
        lists.push(List::new(vec![in alloc; 0i64; *n as usize]?))?;
    }
    Ok(lists)
}

/// Puts each list as a lease into an empty `Vec` with room for them.
pub(crate) fn put_lists(leases: &mut Vec<Lease>, lists: Vec<List<i64>>)
    requires { (leases.old.items ≡ []) × (length lists.items ≤ vec_capacity leases.old) }
    ensures cells { map cells_of leases.new.items ≡ lists.items }
    ensures whole { AllWhole (map lease_place leases.new.items) }
{
    for cells in lists {
        leases.push_reserved(Lease::from_vec(cells.into_items()));
    }
}

/// Gives up leases that are whole blocks.
pub fn spend(mut leases: Vec<Lease>)
    requires { AllWhole (map lease_place leases.items) }
{
    while let Some(lease) = leases.pop() {
        drop(lease.into_vec());
    }
    leases.destroy_empty();
}
