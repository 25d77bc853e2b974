// Jobs at their start.
ghost use Rattle.std.specs.Prelude.{◌≡◌, length, map, IfOk, IsOk};
ghost use Rattle.std.specs.Bool.{OnTrue};
ghost use Rattle.kernel_gate.specs.Value.{lengths};
ghost use Rattle.sdf_level.specs.LevelRun.{HaveDelays};
ghost use Rattle.job_calls.specs.Held.{HasNoneClaimed};

use case_rows::{Trouble, items, level_of, lists, small, small_of};
use job_compiler::{Compiled, compile};
use one_job::{Job, start};
use sdf_level::{Level, Link, List};
use serde_json::Value;
use std::alloc::{AllocError, Global};
use std::sync::Arc;

/// The place of a kernel, or none.
fn kind_of(item: &Value) -> Result<Option<u32>, Trouble> {
    if item.as_u64().is_none() {
        return Ok(None);
    }
    Ok(Some(small_of(item, "kinds")?))
}

/// The row's kinds: the place of a kernel for each actor, or none.
fn kinds(alloc: Global, row: &Value) -> Result<List<Option<u32>>, Trouble> {
    let mut kinds = Vec::new(alloc);
    for item in items(row, "kinds")? {
        kinds.push(kind_of(item)?)?;
    }
    Ok(List::new(kinds))
}

/// Whether these lists are as long as these numbers say.
fn are_long(lists: &[List<i64>], lens: &[u32]) -> bool
    ensures { OnTrue result (lengths lists.now ≡ lens.now) }
{
    if lists.len() != lens.len() {
        return false;
    }
    for n in 0..lists.len() {
        if lists[n].items().len() != lens[n] as usize {
            return false;
        }
    }
    true
}

/// The delay of each link.
fn delays_of(alloc: Global, links: &[Link]) -> Result<Vec<u32>, AllocError>
    ensures { IfOk result (λ v. v.items ≡ map (λ link. link.delay) links.now) }
{
    let mut delays = Vec::new(alloc);
    for link in links {
        delays.push(link.delay)?;
    }
    Ok(delays)
}

/// Whether these lists are as long as the delays of these links.
fn are_delays(alloc: Global, lists: &[List<i64>], links: &[Link]) -> Result<bool, Trouble>
    ensures { IfOk result (λ are. OnTrue are (HaveDelays links.now lists.now)) }
{
    let delays = delays_of(alloc, links)?;
    Ok(are_long(lists, &delays))
}

/// The row's compilation.
fn compiled_of(alloc: Global, row: &Value) -> Result<Arc<Compiled>, Trouble> {
    let workers = small(row, "workers")?;
    if workers == 0 {
        return Err(Trouble::Member("workers"));
    }
    let level = level_of(alloc, row)?;
    match compile(alloc, &level, workers) {
        Ok(compiled) => Ok(Arc::new(alloc, compiled)?),
        Err(_) => Err(Trouble::Member("links")),
    }
}

/// Refuses lists with which no job of a level can start.
fn check_given(
    alloc: Global,
    level: &Level,
    kinds: &[Option<u32>],
    args: &[List<i64>],
    sources: &[List<i64>],
    stored: &[List<i64>],
) -> Result<(), Trouble>
    ensures kinds { IsOk result → length kinds.now ≡ level.now.actors }
    ensures args { IsOk result → length args.now ≡ level.now.actors }
    ensures sources { IsOk result → lengths sources.now ≡ level.now.sources }
    ensures stored { IsOk result → HaveDelays level.now.links stored.now }
{
    let actors = level.actors as usize;
    if kinds.len() != actors || args.len() != actors {
        return Err(Trouble::Member("kinds"));
    }
    if !are_long(sources, level.sources.items()) {
        return Err(Trouble::Member("sources"));
    }
    if !are_delays(alloc, stored, level.links.items())? {
        return Err(Trouble::Member("stored"));
    }
    Ok(())
}

/// Leaves memory with a compilation, as a job might: other cells, counts and lists of tokens than a job of it begins with. They say
/// nothing of the next job.
fn leave_used_memory(alloc: Global, compiled: &Compiled) -> Result<(), AllocError> {
    compiled.prepare_memory(alloc)?;
    let mut memory = compiled.take_memory(alloc);
    memory.cells.fill(7);
    memory.cells.push(7)?;
    memory.counts.push(7)?;
    memory.stock.push(List::new(vec![in alloc; 7i64; 7]?))?;
    compiled.leave_memory(memory);
    Ok(())
}

/// The row's job.
pub(crate) fn started(alloc: Global, row: &Value) -> Result<Job, Trouble>
    ensures { IfOk result HasNoneClaimed }
{
    let compiled = compiled_of(alloc, row)?;
    let kinds = kinds(alloc, row)?;
    let args = lists(alloc, row, "args")?;
    let sources = lists(alloc, row, "sources")?;
    let stored = lists(alloc, row, "stored")?;
    check_given(
        alloc,
        compiled.level(),
        kinds.items(),
        args.items(),
        sources.items(),
        stored.items(),
    )?;
    leave_used_memory(alloc, &compiled)?;
    let job = start(alloc, compiled, kinds, args, sources, stored)?;
    Ok(job)
}
