// What is known of boards and of what workers run, for the proofs of whoever runs what was claimed. The functions do nothing;
// their contracts are the laws.
ghost use Rattle.worker_crew.specs.Laws.{BoardsHaveLaws, CompilationsEnd, WorkFits};
ghost use Rattle.worker_crew.specs.Lent.{CellsAreLentOnce};

use board_rules::entries_tell_steps;
use job_flow::{edges_have_ports, frames_told, ready_stays};
use job_rules::{jobs_mean_firings, rules_are_lawful, tasks_fit};
use level_schedule::schedules_exist;
use pisdf_meaning::{Refusal, runnable};
use sdf_level::repetition_suffices;
use single_rate::graphs_numbered;

/// A worker runs something exactly where its last entry is a claim, and what it runs stays the same work until its next entry,
/// whatever the others do; a journal that has ended doesn't go on.
pub fn board_laws()
    ensures { BoardsHaveLaws }
{
    entries_tell_steps();
    rules_are_lawful();
}

/// A compilation has an answer, whether or not there is memory to work it out.
pub fn compilations_end()
    ensures { CompilationsEnd }
{
    rules_are_lawful();
    jobs_mean_firings();
    schedules_exist();
}

/// The work that a worker runs is such that its frame can be run: it fits the signature of its kernel, or has the ports and the
/// lengths of its node.
pub fn work_fits()
    ensures { WorkFits }
{
    rules_are_lawful();
    jobs_mean_firings();
    tasks_fit();
    runnable();
    graphs_numbered();
    ready_stays::<i64, Refusal, ()>();
    frames_told::<i64, Refusal, u64>();
    edges_have_ports::<i64>();
    repetition_suffices();
}

/// Of the cells of an open firing none stands in what the lock lends to two workers, nor at two ports of one item: so what a
/// worker has no other has.
pub fn cells_are_lent_once()
    ensures { CellsAreLentOnce }
{}
