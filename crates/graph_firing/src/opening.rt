ghost use Rattle.std.specs.Prelude.{◌≡◌, ◌+◌, ◌≤◌, replicate, None, IfOk, IfSome};
ghost use Rattle.std.specs.Arc.{arc_value};
ghost use Rattle.job_preparing.specs.View.{HasInherited};
ghost use Rattle.pisdf_meaning.specs.Configuring.{early_in};
ghost use Rattle.job_rules.specs.Items.{compile_number, graph_of};
ghost use Rattle.job_rules.specs.Meant.{IsFit};
ghost use Rattle.nested_jobs.specs.Marks.{Free};
ghost use Rattle.pisdf_model.specs.Valid.{AreValid};

use crate::job::OpenJob;
use crate::stage::Stage;
use job_preparing::{KnownEarly, configure};
use pisdf_meaning::Firing;
use pisdf_model::Graphs;
use std::alloc::{AllocError, Global};
use std::sync::Arc;

/// Opens a job: a firing of one of the graphs, of which nothing is claimed yet. Its nodes will be mapped on so many workers. `known`
/// is what its caller knows of the graph, if it does.
///
/// # Errors
///
/// Want of memory.
pub fn open(
    alloc: Global,
    graphs: Arc<Graphs>,
    workers: u32,
    firing: Firing,
    known: Option<KnownEarly>,
) -> Result<OpenJob, AllocError>
    requires valid { AreValid (arc_value graphs) }
    requires fit { IsFit (arc_value graphs).graphs firing }
    requires inherited { HasInherited (arc_value graphs).graphs firing }
    requires some { 1 ≤ workers }
    requires known { IfSome known (λ early. early ≡ early_in (arc_value graphs).graphs firing) }
    ensures made_of { IfOk result (λ j. (j.graphs ≡ arc_value graphs) × (j.workers ≡ workers) × (j.firing ≡ firing)) }
    ensures unplaced { IfOk result (λ j. j.cells ≡ None) }
    ensures roomless { IfOk result (λ j. j.room ≡ None) }
    ensures free { IfOk result (λ j. j.marks ≡ replicate (compile_number (graph_of (arc_value graphs).graphs firing) + 1) Free) }
    ensures unlent { IfOk result (λ j. j.lent ≡ replicate (compile_number (graph_of (arc_value graphs).graphs firing) + 1) None) }
{
    let configuring = configure(alloc, graphs, firing, known)?;
    Ok(OpenJob {
        configuring,
        workers,
        stage: Stage::Waiting,
    })
}
