// Laws of boards of nested jobs, for whoever proves something above them. The functions do nothing; their contracts are the
// laws. They hold for jobs, work and answers of any type, for all rules that keep the laws of `Lawful`, and for any
// relation between work and its answers: what one thread gets needn't be a function of the job.
ghost use Rattle.nested_jobs.specs.Laws.{EndedJournalsTell, AnswersAreSound, OpenJobsGoOn, EndsAtTop, NoneIsStuck, OneNeverWaits, QuietJobsAreClosed, TasksStay, FewJobsAreOpen, OpenJobsAreShallow, FewAreOpenInAll, EnabledItemsAreListed, ClosedJobsAreSettled, ClosingsStop};

/// Every legal journal of claims and finishes, by any number of workers in any order, that has ended leaves the top job done
/// with an answer that it may have by the rules of one thread.
pub fn ended_journals_tell<J, W, A, R, M, F>()
    ensures { EndedJournalsTell J W A R M F }
{}

/// Each finished item of an open job has an answer that its task may have, in every state of every journal whose finishes
/// bring such answers, be it legal or not.
pub fn answers_sound<J, W, A, R, M, F>()
    ensures { AnswersAreSound J W A R M F }
{}

/// A legal journal is never stuck: in or below each open job an item is enabled or runs, no open job is quiet, and so the
/// journal goes on until the top job is done, and no further. A worker that is alone finds an enabled item whenever it runs
/// none.
pub fn never_stuck<J, W, A, R>()
    ensures open_jobs { OpenJobsGoOn J W A R }
    ensures quiet_jobs { QuietJobsAreClosed J W A R }
    ensures ended { EndsAtTop J W A R }
    ensures goes_on { NoneIsStuck J W A R }
    ensures alone { OneNeverWaits J W A R }
{}

/// The task of an item stays while a worker runs it, whatever the others do: what it finishes is the work that it claimed.
pub fn tasks_stay<J, W, A, R>()
    ensures { TasksStay J W A R }
{}

/// Where items of open jobs are claimed before others, and those under deeper open jobs before those under less deep ones, at
/// most as many jobs as workers are open at each depth, and no job is open deeper than the rank of the top job. So in all at
/// most as many as workers, times the depths at which jobs can be open.
pub fn few_jobs_are_open<J, W, A, R>()
    ensures few { FewJobsAreOpen J W A R }
    ensures shallow { OpenJobsAreShallow J W A }
    ensures in_all { FewAreOpenInAll J A }
{}

/// In every state of every journal, be it legal or not, the enabled items are among finitely many places.
pub fn enabled_items_listed<J, W, A>()
    ensures { EnabledItemsAreListed J W A }
{}

/// A job that a step of a legal journal closes was settled, and what it answers is its outcome. Closings, which go from the
/// deepest job up, stop at the first job that isn't quiet.
pub fn closed_jobs_settled<J, W, A, R, M, F>()
    ensures settled { ClosedJobsAreSettled J W A R M F }
    ensures stop { ClosingsStop J W A }
{}
