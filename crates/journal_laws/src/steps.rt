ghost use Rattle.journal_laws.specs.Steps.{LegalJournalsEnd, NextStepsAreOne};

use board_rules::{entries_tell_steps, few_jobs_are_open, workers_are_answered};
use job_rules::rules_are_lawful;
use worker_crew::{board_laws, compilations_end, work_fits};

/// Every legal journal of a board can be brought to its end by further steps: whatever was done so far, the workers can go on
/// until the top job is done.
pub fn legal_journals_end()
    ensures { LegalJournalsEnd }
{
    rules_are_lawful();
    workers_are_answered();
    few_jobs_are_open();
    board_laws();
    compilations_end();
    work_fits();
}

/// After a legal journal a worker has at most one step: the finish of what it runs, with the one answer that this has, or else
/// the claim of its pick.
pub fn next_steps_are_one()
    ensures { NextStepsAreOne }
{
    workers_are_answered();
    entries_tell_steps();
}
