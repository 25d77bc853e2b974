// What a run takes from one iteration to the next.
ghost use Rattle.pisdf_model.specs.declared.graph.Graphs.{Graphs as GraphsView};
ghost use Rattle.quiescent_driver.specs.Carrying.{Suits};

use job_compiler::Kept;
use job_preparing::KeptLevels;
use worker_crew::Workload;

/// What a run takes from one iteration to the next, beside the state of its delays.
#[derive(Drop)]
pub struct Carried {
    /// The compilations that are kept.
    pub(crate) kept: Option<Kept>,
    /// The levels that are kept, of the graphs of the iterations; none before the first.
    pub(crate) levels: Option<KeptLevels>,
    /// What the iterations have shown of the work that workers can share.
    pub(crate) workload: Workload,
}

impl Carried {
    /// What the first iteration takes, with these compilations, or where none are to be kept.
    pub fn new(kept: Option<Kept>) -> Carried
        ensures { (graphs : GraphsView) → Suits graphs result }
    {
        Carried {
            kept,
            levels: None,
            workload: Workload::new(),
        }
    }
}
