ghost use Rattle.std.specs.Prelude.{◌≡◌, ◌≤◌, ℕ, List as Seq, IfOk, OnOk, string_bytes};
ghost use Rattle.job_report.specs.Holding.{Holds};
ghost use Rattle.job_report.specs.Names.{names_of};
ghost use Rattle.job_report.specs.Told.{Tells};

use crate::memory::memory_text;
use crate::names::job_names;
use crate::ordering::ordering_of;
use crate::plan::plan_text;
use crate::report::report_on;
use crate::schedule::schedule_text;
use job_compiler::Compiled;
use pisdf_model::Graph;
use std::alloc::{AllocError, Global};

/// What is told of a job.
#[derive(Clone, Copy, Debug, PartialEq, Eq)]
pub enum JobText {
    /// How it is to run: firings, nodes and buffers.
    Plan,
    /// Its list schedule (Graham 1969), beside what bounds the length of every schedule.
    Schedule,
    /// What each worker runs in turn where it keeps a fixed order, and where the buffers lie then.
    Memory,
}

/// The text that tells this of a job for one worker at least, whose level is that of this graph of a file with all these graphs.
/// There is no other. The only error is want of memory.
pub fn job_text(
    alloc: Global,
    what: JobText,
    graphs: &[Graph],
    graph: &Graph,
    job: &Compiled,
) -> Result<String, AllocError>
    requires { 1 ≤ job.now.workers }
    ensures tells { IfOk result (λ text. Tells what (names_of graphs.now graph.now) job.now (string_bytes text)) }
    ensures only { IfOk result (λ text. (other : Seq ℕ) → Tells what (names_of graphs.now graph.now) job.now other → other ≡ string_bytes text) }

    // A report bounds every schedule of the job, and offsets under orders keep apart what is live at once.
    ensures holds { OnOk result (Holds what job.now) }
{
    match what {
        JobText::Plan => plan_text(alloc, &job_names(alloc, graphs, graph)?, job),
        JobText::Schedule => schedule_text(alloc, &report_on(alloc, job)?),
        JobText::Memory => memory_text(alloc, job, &ordering_of(alloc, job)?),
    }
}
