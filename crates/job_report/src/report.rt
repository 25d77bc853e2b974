// The report on the list schedule of a job.
ghost use Rattle.std.specs.Prelude.{◌≡◌, ◌≤◌, IfOk};
ghost use Rattle.job_report.specs.Holding.{Bounds};
ghost use Rattle.job_report.specs.Schedule.{IsReportOn};
ghost use Rattle.schedule_bound.specs.declared.tables.Report.{Report as AnyReport};

use job_compiler::Compiled;
use schedule_bound::{Report, report};
use std::alloc::{AllocError, Global};
use worker_mapping::{edge_pairs, node_costs};

/// The only report on the list schedule of a job on its workers, of which there is one at least.
pub(crate) fn report_on(alloc: Global, job: &Compiled) -> Result<Report, AllocError>
    requires { 1 ≤ job.now.workers }
    ensures report { IfOk result (IsReportOn job.now) }
    ensures bounds { IfOk result (Bounds job.now) }
    ensures only { IfOk result (λ report. (other : AnyReport) → IsReportOn job.now other → other ≡ report) }
{
    let graph = job.graph();
    let nodes = graph.nodes.items().len() as u32;
    let edges = graph.edges.items();
    let pairs = edge_pairs(alloc, edges)?;
    let costs = node_costs(alloc, nodes, edges)?;
    report(
        alloc,
        nodes,
        &pairs,
        graph.ranks.items(),
        &costs,
        job.workers(),
    )
}
