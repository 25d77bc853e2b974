// Laws of journals, for whoever holds a board. The functions do nothing; their contracts are the laws.
ghost use Rattle.board_rules.specs.AskingLaws.{BoardsEnd, EndsAreMeant, FirstCallIsOpened, FirstWorkIsPicked, JobsBegin, NothingIsEnabled, OpenedWorkIsPicked, PathsAreApart, PathsStay, RowsAreFew};
ghost use Rattle.board_rules.specs.BoardLaws.{BoardsStart, ClaimsAreEntered, ClaimsKeep, ClosingsEnd, ClosingsGoOn, ClosingsStop, EndedJournalsStay, FinishesAreEntered, FinishesBegin, HeldAreBusy, NothingOpened, OneMoreOpened};
ghost use Rattle.board_rules.specs.JobLaws.{JobsHaveLaws};
ghost use Rattle.board_rules.specs.Laws.{AnswersAreOne, ChildIsOpened, ClosedJobsHaveFinished, JobsAreMapped, JournalsTellSteps, NoneWaitsAlone, OpenJobsAreFew, OpenJobsAreShallow, PicksAreOne, PicksExist, WorkHasOneAnswer, WorkIsPicked, WorkersAreAnswered, WorkersDontMatter};
ghost use Rattle.board_rules.specs.Legal.{EndedJournalsTell, FewJobsAreOpen};

use job_flow::{edges_have_ports, frames_told, jobs_end_as_runs, ready_stays};
use job_rules::{jobs_mean_firings, rules_are_lawful};
use pisdf_meaning::{Refusal, one_meaning, runnable};
use single_rate::graphs_numbered;

/// Every legal journal that has ended, of any number of workers and in any order of their steps, tells what one thread gets of
/// the top graph: its outputs, the state that it leaves and its trace, or the first refusal. And in the state of every legal
/// journal at most as many jobs are open at each depth as there are workers.
pub fn journals_tell_one_thread()
    ensures tell { EndedJournalsTell }
    ensures few { FewJobsAreOpen }
{
    rules_are_lawful();
    jobs_mean_firings();
}

/// The laws of the jobs of a board, in one.
fn job_laws()
    ensures { JobsHaveLaws }
{
    rules_are_lawful();
    jobs_mean_firings();
    runnable();
    graphs_numbered();
    ready_stays::<i64, Refusal, ()>();
    frames_told::<i64, Refusal, u64>();
    edges_have_ports::<i64>();
}

/// In the state of every legal journal where an item is enabled, exactly one is picked for each worker. So a worker that asks
/// is handed that item, or has to wait for what others run, or the journal has ended, and no two of these; a worker that is
/// alone never waits. The open jobs that are compiled have list schedules, by which homes and priorities are told.
pub fn workers_are_answered()
    ensures mapped { JobsAreMapped }
    ensures picked { PicksExist }
    ensures once { PicksAreOne }
    ensures answered { WorkersAreAnswered }
    ensures one_answer { AnswersAreOne }
    ensures alone { NoneWaitsAlone }
{
    job_laws();
}

/// The pick is found job by job. Each open job tells the best work that it offers, by home, urgency and number: the best of
/// the deepest jobs that offer any, by home, urgency and path, is the pick. Where none offers work, the best call so found
/// opens a child, and the pick is the child's first item, or that of the first child which this one opens, and so on.
pub fn jobs_are_asked()
    ensures work { WorkIsPicked }
    ensures child { ChildIsOpened }
{
    job_laws();
}

/// In the state of every legal journal no job is open at depth 8 or deeper, and at most 8 times as many as there are workers
/// are open in all.
pub fn few_jobs_are_open()
    ensures shallow { OpenJobsAreShallow }
    ensures few { OpenJobsAreFew }
    ensures rows { RowsAreFew }
{
    job_laws();
    journals_tell_one_thread();
}

/// Legal journals of keys that differ in the number of workers alone end alike, once they have ended.
pub fn workers_dont_matter()
    ensures { WorkersDontMatter }
{
    one_meaning();
    journals_tell_one_thread();
}

/// The entries of a legal journal tell the steps that were taken, and so the state that they leave: the place of each claim,
/// since the pick is one, and each answer, since work has only one.
pub fn entries_tell_steps()
    ensures answers { WorkHasOneAnswer }
    ensures steps { JournalsTellSteps }
{
    job_laws();
}

/// A table of the open jobs, with what each worker runs of them, follows the steps of a board. A claim opens no job or several,
/// one in the other, and then marks the item that is picked. A finish marks the item that the worker runs, and then closes jobs
/// from its own up, until one isn't quiet or the top job is closed.
pub fn boards_keep()
    ensures start { BoardsStart }
    ensures nothing_opened { NothingOpened }
    ensures one_more_opened { OneMoreOpened }
    ensures claim { ClaimsKeep }
    ensures held { HeldAreBusy }
    ensures finish { FinishesBegin }
    ensures go_on { ClosingsGoOn }
    ensures stop { ClosingsStop }
    ensures end { ClosingsEnd }
{
    job_laws();
}

/// The rows of a board are asked one by one, each for the first item that it offers: what is then the first of all is the pick,
/// and where none offers anything, nothing is enabled. A job that is opened begins with its first item.
pub fn rows_are_asked()
    ensures work { FirstWorkIsPicked }
    ensures child { FirstCallIsOpened }
    ensures opened { OpenedWorkIsPicked }
    ensures none { NothingIsEnabled }
    ensures begin { JobsBegin }
{
    job_laws();
}

/// A board has ended exactly where its top job is done, and then with what one thread gets.
pub fn boards_end()
    ensures ended { BoardsEnd }
    ensures meant { EndsAreMeant }
{
    job_laws();
    journals_tell_one_thread();
}

/// An open job keeps its path, as actors and their firings from the top on, and no two open jobs have one path.
pub fn paths_stay()
    ensures stay { PathsStay }
    ensures apart { PathsAreApart }
{
    job_laws();
}

/// Each claim and each finish appends one entry to the journal, and where a journal has ended it doesn't go on.
pub fn journals_grow()
    ensures claim { ClaimsAreEntered }
    ensures finish { FinishesAreEntered }
    ensures ended { EndedJournalsStay }
{}

/// A job that a step closes and that gives something, as it wasn't refused, has finished every item: its configuration actors,
/// its compilation and every node.
pub fn closed_jobs_have_finished()
    ensures { ClosedJobsHaveFinished }
{
    job_laws();
    jobs_end_as_runs::<i64, Refusal, u64>();
}
