// The choices of a list schedule.
ghost use Rattle.std.specs.Prelude.{◌≡◌, ℕ, ◌+◌, ◌^◌, ◌<◌, ◌≤◌, [], max, length, All, Contains, IfOk, OnOk, MatchOption};
ghost use Rattle.worker_mapping.specs.Choice.{IsFirstLeast};
ghost use Rattle.worker_mapping.specs.Queues.{time_of, Moves, Takes};

use crate::entry::Entry;
use std::alloc::AllocError;
use std::collections::BTreeSet;

/// Nodes that wait for nothing but a worker or their time, each with a number: the least number goes first, the lesser node at
/// a tie.
pub(crate) type Queue = BTreeSet<(u64, u32)>;

/// The place of the least number, the first at a tie.
fn earliest(free: &[u64]) -> usize
    requires { 0 < length free.now }
    ensures { IsFirstLeast free.now result }
{
    let mut best = 0;
    for w in 1..free.len() {
        if free[w] < free[best] {
            best = w;
        }
    }
    best
}

/// When the next node starts: not before the last one did, nor before the worker is free, and where none of the nodes was
/// ready by then, when the first of the others is.
fn next_time(now: u64, free: u64, due: &Queue, later: &Queue) -> u64
    ensures time { result ≡ time_of now free due.now.keys later.now.keys }
    ensures least { due.now.keys ≡ [] → (key : ℕ × ℕ) → Contains later.now.keys key → result ≤ max (max now free) key.0 }
{
    let time = now.max(free);
    if !due.is_empty() {
        return time;
    }
    match later.first() {
        Some(first) => time.max(first.0),
        None => time,
    }
}

/// Lets those start that are ready by now: each goes by its priority, the greatest first.
fn move_due(
    now: u64,
    priority: &[u64],
    due: &mut Queue,
    later: &mut Queue,
) -> Result<(), AllocError>
    requires { All (λ key. key.1 < length priority.now) later.old.keys }
    ensures { OnOk result (Moves now priority.now due.old.keys later.old.keys due.new.keys later.new.keys) }
{
    while let Some(first) = later.first() {
        let (time, node) = *first;
        if now < time {
            break;
        }
        due.insert((u64::MAX - priority[node as usize], node))?;
        later.pop_first();
    }
    Ok(())
}

/// The entry that follows, if there is a candidate. `now` is the start of the last entry, and then of this one.
pub(crate) fn next_entry(
    costs: &[u32],
    priority: &[u64],
    free: &[u64],
    now: &mut u64,
    due: &mut Queue,
    later: &mut Queue,
) -> Result<Option<Entry>, AllocError>
    requires workers { 0 < length free.now }
    requires few_workers { length free.now < 2 ^ 32 }
    requires costs { (key : ℕ × ℕ) → Contains due.old.keys key → key.1 < length costs.now }
    requires costs_later { All (λ key. key.1 < length costs.now) later.old.keys }
    requires priority { length costs.now ≤ length priority.now }
    requires time { now.old + 2 ^ 32 < 2 ^ 64 }
    requires free { All (λ t. t + 2 ^ 32 < 2 ^ 64) free.now }
    requires times { All (λ key. key.0 + 2 ^ 32 < 2 ^ 64) later.old.keys }
    ensures { IfOk result (λ found. MatchOption found ((due.old.keys ≡ []) × (later.old.keys ≡ [])) (Takes costs.now priority.now free.now now.old due.old.keys later.old.keys now.new due.new.keys later.new.keys)) }
{
    let worker = earliest(free);
    *now = next_time(*now, free[worker], due, later);
    move_due(*now, priority, due, later)?;
    let Some((_, node)) = due.pop_first() else {
        return Ok(None);
    };
    Ok(Some(Entry {
        node,
        worker: worker as u32,
        start: *now,
        end: *now + costs[node as usize] as u64,
    }))
}
