// Laws of the jobs of firings of graphs, for whoever proves something above them. The functions do nothing; their contracts
// are the laws.
ghost use Rattle.std.specs.Prelude.{List as Seq};
ghost use Rattle.kernel_gate.specs.Signed.{Counts};
ghost use Rattle.nested_jobs.specs.Meanings.{Lawful, Meant};
ghost use Rattle.kernel_gate.specs.Laws.{GiveLengths};
ghost use Rattle.pisdf_meaning.specs.Sound.{AreValidFor};
ghost use Rattle.pisdf_model.specs.Valid.{AreValid};
ghost use Rattle.pisdf_model.specs.declared.graph.Graphs.{Graphs};
ghost use Rattle.job_rules.specs.Fitting.{CallsInherit, TasksFit};
ghost use Rattle.job_rules.specs.Items.{job_rules};
ghost use Rattle.job_rules.specs.Meant.{meanings, rank};

use job_flow::{edges_have_ports, frames_told, jobs_end_as_runs, ready_stays};
use param_resolver::early_unfolds;
use pisdf_meaning::{Refusal, runnable};
use single_rate::graphs_numbered;

/// The rules of the jobs of well-formed graphs are lawful: the task of an item stays when more of its job's items are
/// finished, and the item is one of those that the job counts; a firing that is called is of a graph with fewer graphs
/// nested below it; and a job begins with a task.
pub fn rules_are_lawful()
    ensures { (graphs : Graphs) → AreValid graphs → Lawful (job_rules graphs.graphs) (rank graphs.graphs) }
{
    ready_stays::<i64, Refusal, ()>();
}

/// A job of well-formed graphs ends as the firing does in one thread, whatever the order in which its items were finished:
/// where each finished item has an answer that its work may have, or that the firing which it calls may end with, and each
/// item that has a task is finished, the outcome is what the firing gives, or the refusal that one thread meets first. The
/// firings that it calls are given what their graphs take, where the job's own is. The actors' kernels have to fit signatures
/// of kernels that give outputs of the lengths that they are asked for.
pub fn jobs_mean_firings()
    ensures { (signatures : Seq Counts) (graphs : Graphs) → AreValidFor signatures graphs → GiveLengths signatures → Meant (job_rules graphs.graphs) (meanings graphs.graphs) }
{
    runnable();
    early_unfolds();
    graphs_numbered();
    ready_stays::<i64, Refusal, ()>();
    frames_told::<i64, Refusal, u64>();
    edges_have_ports::<i64>();
    jobs_end_as_runs::<i64, Refusal, u64>();
}

/// A kernel that a task fires is asked as many arguments, inputs, outputs and sets as its signature takes, whatever the items
/// before answered, where the job's firing is given what its graph takes; and a firing that is called has a value for each
/// inherited parameter of its graph.
pub fn tasks_fit()
    ensures kernels { TasksFit }
    ensures calls { CallsInherit }
{
    runnable();
}
