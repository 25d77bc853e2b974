// The orders of a job's workers, and the memory under them.
ghost use Rattle.std.specs.Prelude.{◌≡◌, ◌≤◌, IfOk};
ghost use Rattle.job_report.specs.Holding.{KeepsApart};
ghost use Rattle.job_report.specs.Memory.{IsOrdering};
ghost use Rattle.order_memory.specs.declared.tables.Ordered.{Ordered as AnyOrdered};

use job_compiler::Compiled;
use order_memory::{Ordered, ordered};
use std::alloc::{AllocError, Global};

/// The only orders of a job's workers, and the only placement that is first fit under them.
pub(crate) fn ordering_of(alloc: Global, job: &Compiled) -> Result<Ordered, AllocError>
    ensures ordering { IfOk result (IsOrdering job.now) }
    ensures apart { IfOk result (KeepsApart job.now) }
    ensures only { IfOk result (λ o. (other : AnyOrdered) → IsOrdering job.now other → other ≡ o) }
{
    // A level within its limits has few nodes and edges.
    let _ = job.level();
    ordered(alloc, job.graph(), job.mapping(), job.workers())
}
