// The list schedule by node.
ghost use Rattle.std.specs.Prelude.{◌≡◌, ◌≢◌, ◌<◌, ℕ, length, map, IfOk, All};
ghost use Rattle.worker_mapping.specs.Graph.{greatest};
ghost use Rattle.schedule_bound.specs.Slots.{length_of};
ghost use Rattle.schedule_bound.specs.Listed.{AreSlots, StandOnce};

use crate::slots::Slot;
use std::alloc::{AllocError, Global};
use worker_mapping::Entry;

/// The slot of each node's entry.
pub(crate) fn slots_of(
    alloc: Global,
    nodes: u32,
    entries: &[Entry],
) -> Result<Vec<Slot>, AllocError>
    requires there { All (λ e. e.node < nodes) entries.now }
    requires once { StandOnce entries.now }
    ensures { IfOk result (λ slots. AreSlots nodes entries.now slots.items) }
{
    let none = Slot {
        worker: 0,
        start: 0,
        end: 0,
    };
    let mut slots = vec![in alloc; none; nodes as usize]?;
    for entry in entries {
        slots[entry.node as usize] = Slot {
            worker: entry.worker,
            start: entry.start,
            end: entry.end,
        };
    }
    Ok(slots)
}

/// The greatest end, 0 with no node.
pub(crate) fn length_of(slots: &[Slot]) -> u64
    ensures { result ≡ length_of slots.now }
{
    let mut last = 0u64;
    for slot in slots {
        last = last.max(slot.end);
    }
    last
}
