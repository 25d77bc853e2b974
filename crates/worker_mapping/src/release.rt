// What a node that is placed changes for the nodes after it, and how those that wait for none are queued.
ghost use Rattle.std.specs.Prelude.{◌≡◌, ℕ, ◌^◌, ◌<◌, ◌≤◌, [], length, slice_index, All, IfOk, OnOk};
ghost use Rattle.sdf_level.specs.Lists.{occurrences};
ghost use Rattle.worker_mapping.specs.Release.{ArePlacesOfZero, Releases};
ghost use Rattle.worker_mapping.specs.Queues.{Queues};

use crate::choice::Queue;
use std::alloc::{AllocError, Global};

/// The places at which a count is 0.
pub(crate) fn places_of_zero(alloc: Global, counts: &[usize]) -> Result<Vec<u32>, AllocError>
    requires { length counts.now < 2 ^ 32 }
    ensures { IfOk result (λ places. ArePlacesOfZero counts.now places.items) }
{
    let mut places = Vec::new(alloc);
    for (place, count) in counts.iter().enumerate() {
        if *count == 0 {
            places.push(place as u32)?;
        }
    }
    Ok(places)
}

/// A node before each of these has been placed and ends at this time: each waits for one node less,
/// is ready then or later, and becomes a candidate where it waits for none.
pub(crate) fn release(
    heads: &[u32],
    end: u64,
    waiting: &mut [usize],
    ready: &mut [u64],
    candidates: &mut Vec<u32>,
) -> Result<(), AllocError>
    requires there { All (λ n. (n < length waiting.old) × (n < length ready.old)) heads.now }
    requires enough { (n : ℕ) → occurrences n heads.now ≤ slice_index waiting.old n }
    ensures { let IsAfter = Releases heads.now end waiting.old ready.old candidates.old.items in
        OnOk result (IsAfter waiting.new ready.new candidates.new.items) }
{
    for head in heads {
        let n = *head as usize;
        waiting[n] -= 1;
        ready[n] = ready[n].max(end);
        if waiting[n] == 0 {
            candidates.push(*head)?;
        }
    }
    Ok(())
}

/// Queues these candidates by the times at which they are ready, and leaves none of them.
pub(crate) fn queue(
    candidates: &mut Vec<u32>,
    ready: &[u64],
    later: &mut Queue,
) -> Result<(), AllocError>
    requires { All (λ n. n < length ready.now) candidates.old.items }
    ensures emptied { OnOk result (candidates.new.items ≡ []) }
    ensures queued { OnOk result (Queues candidates.old.items ready.now later.old.keys later.new.keys) }
{
    while let Some(node) = candidates.pop() {
        later.insert((ready[node as usize], node))?;
    }
    Ok(())
}
