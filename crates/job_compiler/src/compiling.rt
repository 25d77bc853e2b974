ghost use Rattle.std.specs.Prelude.{◌≡◌, ◌⊎◌, ◌≤◌, IfOk, IfErr};
ghost use Rattle.job_compiler.specs.Compilation.{Compilation, IsCompiled};
ghost use Rattle.level_schedule.specs.Schedules.{IsScheduled, IsUnscheduled};

use crate::compiled::Compiled;
use crate::memory::MemorySlot;
use crate::parts::graph_parts;
use level_schedule::{LevelSchedule, Unscheduled, schedule};
use sdf_level::Level;
use single_rate::expand;
use std::alloc::{AllocError, Global};

/// The compilation of a level that has this schedule.
fn compile_scheduled(
    alloc: Global,
    level: &Level,
    workers: u32,
    schedule: LevelSchedule,
) -> Result<Compiled, AllocError>
    requires workers { 1 ≤ workers }
    requires schedule { IsScheduled level.now schedule }
    ensures compiled { IfOk result (λ c. (c.level ≡ level.now) × (c.workers ≡ workers)) }
    ensures kept { IfOk result IsCompiled }
{
    let LevelSchedule { counts, order } = schedule;
    let graph = expand(alloc, level, counts.items(), order.items())?;
    let parts = graph_parts(alloc, level, &graph, workers)?;
    Ok(Compiled {
        level: parts.level,
        workers,
        counts,
        order,
        graph,
        placement: parts.placement,
        mapping: parts.mapping,
        wiring: parts.wiring,
        ranking: parts.ranking,
        ranking_of_all: parts.ranking_of_all,
        memory: MemorySlot::new(),
    })
}

/// Compiles a level for this number of workers. There is at most one compilation.
///
/// # Errors
///
/// Exactly one of these, where there is no compilation: `Rates` where the level has no repetition vector; else `Limit` with
/// the first of firings, links and tokens whose count is over its limit; else `Deadlock`. And `Memory` where there was none.
pub fn compile(alloc: Global, level: &Level, workers: u32) -> Result<Compiled, Unscheduled>
    requires { 1 ≤ workers }
    ensures compiled { IfOk result (λ c. (c.level ≡ level.now) × (c.workers ≡ workers)) }
    ensures kept { IfOk result IsCompiled }
    ensures refused { IfErr result (λ fault. IsUnscheduled level.now fault ⊎ (fault ≡ Unscheduled.Memory)) }

    // Where there is a compilation the answer is that one, and where there is a fault that one, unless there was no memory.
    ensures only_compilation { (c : Compilation) → IsCompiled c → c.level ≡ level.now → c.workers ≡ workers → (result ≡ Ok c) ⊎ (result ≡ Err Unscheduled.Memory) }
    ensures only_fault { (fault : Unscheduled) → IsUnscheduled level.now fault → (result ≡ Err fault) ⊎ (result ≡ Err Unscheduled.Memory) }
{
    let scheduled = schedule(alloc, level)?;
    Ok(compile_scheduled(alloc, level, workers, scheduled)?)
}
