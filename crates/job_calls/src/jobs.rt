// Whole cases: a job from its start to its end.
//
// A row has a level, as the tables of levels write it (`actors`, `links`), the number of `workers` that it is compiled for,
// what the job is started with (`kinds`, null for an actor whose firings are jobs of their own; `args`, `sources` and
// `stored`, a list for each actor, source and link), the `steps`, and how the job ends (`end`).
ghost use Rattle.std.specs.Prelude.{◌≢◌, ℕ};
ghost use Rattle.one_job.specs.Marks.{IsClaimed, phase};

use crate::places::{end_frames, no_frames};
use crate::starting::started;
use crate::steps::step_all;
use case_rows::{Trouble, answer_in, items, lists_text, word};
use one_job::{Job, JobEnd};
use serde_json::Value;
use std::alloc::{AllocError, Global};

/// How a job ends: it is given up where it isn't quiet or no outcome is asked for.
fn ended(job: Job, asks: bool) -> Option<JobEnd>
    requires { (n : ℕ) → phase job.marks n ≢ IsClaimed }
{
    if asks && job.quiet() {
        return Some(job.outcome());
    }
    job.end();
    None
}

/// How a job ended, as a JSON text: the tokens that the sinks keep and those that are left on the links; the node that failed, and
/// its code; or -1 where it was given up.
fn end_text(alloc: Global, end: &Option<JobEnd>) -> Result<String, AllocError> {
    match end {
        Some(JobEnd::Done { outs, stored }) => {
            let outs = lists_text(alloc, outs.items())?;
            let stored = lists_text(alloc, stored.items())?;
            format!(in alloc; "[{outs}, {stored}]")
        }
        Some(JobEnd::Fault { node, code }) => format!(in alloc; "[{node}, {code}]"),
        None => String::from_str(alloc, "-1"),
    }
}

/// The answers of the row's steps, and at last how the job ends, which the row asks for where its member `end` is `outcome`.
pub fn answers(alloc: Global, row: &Value) -> Result<Value, Trouble> {
    let steps = items(row, "steps")?;
    let asks = word(row, "end")? == "outcome";
    let mut job = started(alloc, row)?;
    let count = job.compiled().graph().nodes.items().len();
    let room = match Vec::with_capacity(alloc, count) {
        Ok(room) if count <= 1_000_000 => room,
        Ok(room) => {
            room.destroy_empty();
            job.end();
            return Err(Trouble::Member("links"));
        }
        Err(_) => {
            job.end();
            return Err(Trouble::Memory);
        }
    };
    let mut frames = no_frames(room, count);
    let told = step_all(alloc, &mut job, &mut frames, steps);
    let end = ended(end_frames(job, frames), asks);
    let answers = told?;
    let end = end_text(alloc, &end)?;
    answer_in(alloc, format!(in alloc; "[{answers}{end}]"))
}
