// Numbers in groups, each group with a heap.
//
// A row has the `groups` and the `keys` of the numbers, the `count` of groups, and `steps`, each with one answer: `{"insert": n}`
// and `{"remove": n}` put a number in and take it out, 0; `{"least": g}` is the number of least key of a group that is in, -1
// where there is none; `{"is_empty": 1}` is 1 where none is in, else 0; `{"groups": 1}` is how many groups there are.
ghost use Rattle.std.specs.Prelude.{◌≡◌, ◌<◌, EachIndex, slice_index};
ghost use Rattle.std.specs.Bool.{OnTrue};

use case_rows::{Trouble, answer_in, items, small, smalls};
use ready_heap::{GroupedHeaps, Ranking};
use serde_json::Value;
use std::alloc::Global;
use std::sync::Arc;

/// The row's keys.
fn keys_of(alloc: Global, row: &Value) -> Result<Vec<u128>, Trouble> {
    let mut keys = Vec::new(alloc);
    for item in items(row, "keys")? {
        match item.as_u64() {
            Some(key) => keys.push(key as u128)?,
            None => return Err(Trouble::Member("keys")),
        }
    }
    Ok(keys)
}

/// Whether all numbers are below a bound.
fn are_below(numbers: &[u32], bound: usize) -> bool
    ensures { OnTrue result (EachIndex numbers.now (λ n. slice_index numbers.now n < bound)) }
{
    for n in 0..numbers.len() {
        if numbers[n] as usize >= bound {
            return false;
        }
    }
    true
}

/// Puts a number in that isn't in.
fn put_in(heaps: &mut GroupedHeaps, held: &mut [bool], n: u32) -> Result<(), Trouble>
    requires { heaps.old.held ≡ held.old }
    ensures { heaps.new.held ≡ held.new }
{
    if n as usize >= held.len() || held[n as usize] {
        return Err(Trouble::Member("insert"));
    }
    heaps.insert(n);
    held[n as usize] = true;
    Ok(())
}

/// Takes a number out that is in.
fn take_out(heaps: &mut GroupedHeaps, held: &mut [bool], n: u32) -> Result<(), Trouble>
    requires { heaps.old.held ≡ held.old }
    ensures { heaps.new.held ≡ held.new }
{
    if n as usize >= held.len() || !held[n as usize] {
        return Err(Trouble::Member("remove"));
    }
    heaps.remove(n);
    held[n as usize] = false;
    Ok(())
}

/// What a step asks.
fn asked(heaps: &GroupedHeaps, step: &Value) -> Result<i64, Trouble> {
    if step.get("is_empty").is_some() {
        return Ok(i64::from(heaps.is_empty()));
    }
    match heaps.least(small(step, "least")? as usize) {
        Some(n) => Ok(i64::from(n)),
        None => Ok(-1),
    }
}

/// The answer of one step.
fn step_once(heaps: &mut GroupedHeaps, held: &mut [bool], step: &Value) -> Result<i64, Trouble>
    requires { heaps.old.held ≡ held.old }
    ensures { heaps.new.held ≡ held.new }
{
    if step.get("insert").is_some() {
        put_in(heaps, held, small(step, "insert")?)?;
        return Ok(0);
    }
    if step.get("remove").is_some() {
        take_out(heaps, held, small(step, "remove")?)?;
        return Ok(0);
    }
    asked(heaps, step)
}

/// The answers of steps.
fn step_all(
    alloc: Global,
    heaps: &mut GroupedHeaps,
    held: &mut [bool],
    steps: &[Value],
) -> Result<Vec<i64>, Trouble>
    requires { heaps.old.held ≡ held.old }
{
    let mut answers = Vec::new(alloc);
    for step in steps {
        answers.push(step_once(heaps, held, step)?)?;
    }
    Ok(answers)
}

/// The answers of steps, where the numbers have these groups and keys.
fn answers_of(
    alloc: Global,
    groups: &[u32],
    keys: &[u128],
    count: usize,
    steps: &[Value],
) -> Result<Value, Trouble> {
    if groups.len() > 1_000_000 || keys.len() != groups.len() || !are_below(groups, count) {
        return Err(Trouble::Member("groups"));
    }
    let ranking = Arc::new(alloc, Ranking::new(alloc, groups, keys, count)?)?;
    // The set is made in memory of one with a number in it, which says nothing of the set.
    let mut used = GroupedHeaps::new(alloc, Arc::try_clone(&ranking)?)?;
    if !groups.is_empty() {
        used.insert(0);
    }
    let mut heaps = GroupedHeaps::over(used.into_rows(), ranking)?;
    let mut held = vec![in alloc; false; groups.len()]?;
    let answers = step_all(alloc, &mut heaps, &mut held, steps)?;
    answer_in(alloc, format!(in alloc; "{answers:?}"))
}

/// The answers of the row's steps.
pub fn answers(alloc: Global, row: &Value) -> Result<Value, Trouble> {
    let count = small(row, "count")? as usize;
    let steps = items(row, "steps")?;
    let groups = smalls(alloc, row, "groups")?;
    let keys = keys_of(alloc, row)?;
    answers_of(alloc, &groups, &keys, count, steps)
}
