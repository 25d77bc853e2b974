// Workers who take turns at one tally.
ghost use Rattle.std.specs.Prelude.{◌≡◌, ◌+◌, [], length};
ghost use Rattle.std.specs.Thread.{IsSync};

use crate::tally::{Count, Tally, add, in_turn, lend, look};
use board_lock::{Lock, Pass};
use case_rows::{Trouble, answer_in, items, number, small};
use serde_json::Value;
use std::alloc::{AllocError, Global};
use std::fmt::Write;
use std::sync::Wait;
use std::thread::{Threads, join};

/// The most workers that a row may ask for.
const MOST_WORKERS: u32 = 16;

fn empty(alloc: Global) -> Tally
    ensures { result.drawers.items ≡ [] }
{
    Tally {
        name: 7,
        counts: Vec::new(alloc),
        drawers: Vec::new(alloc),
        closed: false,
    }
}

/// What a tally is in the end: its counts, each with its worker and its amount; its drawers, each with its worker and its label; and
/// whether it is closed.
fn text_of(alloc: Global, tally: &Tally) -> Result<String, AllocError> {
    let mut counts = Vec::new(alloc);
    for count in tally.counts.iter() {
        counts.push([u64::from(count.worker), count.amount])?;
    }
    let mut drawers = Vec::new(alloc);
    for drawer in tally.drawers.iter() {
        drawers.push([u64::from(drawer.worker), drawer.label])?;
    }
    let closed = tally.closed;
    format!(in alloc; "{counts:?}, {drawers:?}, {closed}")
}

/// The number that a member of a step is.
fn number_in(step: &Value, name: &str) -> Option<u64> {
    step.get(name).and_then(Value::as_u64)
}

/// Whether a step is one: it has a number `add` or `lend`, or the member `look`.
fn is_step(step: &Value) -> bool {
    number_in(step, "add").is_some()
        || number_in(step, "lend").is_some()
        || step.get("look").is_some()
}

/// A step of a worker: it adds the step's `add`, and closes the tally where the step has the member `last`; or else it lends itself a
/// drawer with the label `lend`. Both answer whether there was memory for it. Or else it looks whether the tally is closed.
fn step_once<R: Wait>(
    rt: &R,
    lock: &Lock<Tally>,
    pass: Pass<Tally>,
    step: &Value,
) -> (Pass<Tally>, bool)
    requires { pass.lock ≡ lock.now }
    ensures lock { result.0.lock ≡ lock.now }
    ensures numbers { (result.0.known.number ≡ pass.known.number) × (length result.0.known.own ≡ length pass.known.own) × (result.0.known.workers ≡ pass.known.workers) }
{
    if let Some(amount) = number_in(step, "add") {
        return add(rt, lock, pass, amount, step.get("last").is_some());
    }
    match number_in(step, "lend") {
        Some(label) => lend(rt, lock, pass, label),
        None => look(rt, lock, pass),
    }
}

/// These answers, and one more, with a comma after it.
fn with_answer(answers: Result<String, AllocError>, answer: bool) -> Result<String, AllocError> {
    let mut answers = answers?;
    write!(answers, "{answer}, ")?;
    Ok(answers)
}

/// Steps of two workers, one after the other: those with the member `second` are the second worker's. What both know is joined in the
/// end.
fn step_all<R: Wait>(
    rt: &R,
    alloc: Global,
    lock: &Lock<Tally>,
    mut first: Pass<Tally>,
    mut second: Pass<Tally>,
    steps: &[Value],
) -> (Pass<Tally>, Result<String, AllocError>)
    requires first { first.lock ≡ lock.now }
    requires second { second.lock ≡ lock.now }
    requires beside { first.known.number + length first.known.own ≡ second.known.number }
    ensures lock { result.0.lock ≡ lock.now }
    ensures numbers { (result.0.known.number ≡ first.known.number) × (length result.0.known.own ≡ length first.known.own + length second.known.own) × (result.0.known.workers ≡ first.known.workers) }
{
    let mut answers = Ok(String::new(alloc));
    for step in steps {
        let answer;
        if step.get("second").is_some() {
            (second, answer) = step_once(rt, lock, second, step);
        } else {
            (first, answer) = step_once(rt, lock, first, step);
        }
        answers = with_answer(answers, answer);
    }
    (lock.join(first, second), answers)
}

/// What each of the row's `steps` of two workers answers, and then the tally's counts, its drawers, and whether it is closed.
pub fn stepped<R: Wait>(rt: &R, alloc: Global, row: &Value) -> Result<Value, Trouble> {
    let steps = items(row, "steps")?;
    for step in steps {
        if !is_step(step) {
            return Err(Trouble::Member("steps"));
        }
    }
    let Ok((lock, all)) = Lock::start(alloc, empty(alloc), 2) else {
        return Err(Trouble::Memory);
    };
    let (first, second) = lock.split(all, 1);
    let (all, answers) = step_all(rt, alloc, &lock, first, second, steps);
    let tally = lock.close(all);
    let answers = answers?;
    let tally = text_of(alloc, &tally)?;
    answer_in(alloc, format!(in alloc; "[{answers}{tally}]"))
}

/// Whether the row's `amount` was added by the first of two workers, and then the tally as in [`stepped`]; it is closed where the row
/// has the member `last`.
pub fn taken_in_turn<R: Wait>(rt: &R, alloc: Global, row: &Value) -> Result<Value, Trouble> {
    let Ok(amount) = u64::try_from(number(row, "amount")?) else {
        return Err(Trouble::Member("amount"));
    };
    let last = row.get("last").is_some();
    let Ok((tally, added)) = in_turn(rt, alloc, empty(alloc), amount, last) else {
        return Err(Trouble::Memory);
    };
    let tally = text_of(alloc, &tally)?;
    answer_in(alloc, format!(in alloc; "[{added}, {tally}]"))
}

/// One number's counts, from 0 on.
fn add_many<R: Wait>(rt: &R, lock: &Lock<Tally>, mut pass: Pass<Tally>, times: u64) -> Pass<Tally>
    requires { pass.lock ≡ lock.now }
    ensures lock { result.lock ≡ lock.now }
    ensures numbers { (result.known.number ≡ pass.known.number) × (length result.known.own ≡ length pass.known.own) × (result.known.workers ≡ pass.known.workers) }
{
    for amount in 0..times {
        let (next, _) = add(rt, lock, pass, amount, false);
        pass = next;
    }
    pass
}

/// Each number in a thread of its own.
fn add_beside<R: Threads + Wait + Sync>(
    rt: &R,
    lock: &Lock<Tally>,
    pass: Pass<Tally>,
    times: u64,
) -> Pass<Tally>
    requires { pass.lock ≡ lock.now }
    ensures lock { result.lock ≡ lock.now }
    ensures numbers { (result.known.number ≡ pass.known.number) × (length result.known.own ≡ length pass.known.own) × (result.known.workers ≡ pass.known.workers) }
{
    if pass.count() < 2 {
        return add_many(rt, lock, pass, times);
    }
    let half = pass.count() / 2;
    let (first, second) = lock.split(pass, half);
    let (first, second) = join(
        rt,
        move || -> Pass<Tally>
            requires { IsSync R.row × (first.lock ≡ lock.now) }
            ensures lock { result.lock ≡ lock.entry.now }
            ensures numbers { (result.known.number ≡ first.known.number) × (length result.known.own ≡ length first.known.own) × (result.known.workers ≡ first.known.workers) }
        { add_beside(rt, lock, first, times) },
        move || -> Pass<Tally>
            requires { IsSync R.row × (second.lock ≡ lock.now) }
            ensures lock { result.lock ≡ lock.entry.now }
            ensures numbers { (result.known.number ≡ second.known.number) × (length result.known.own ≡ length second.known.own) × (result.known.workers ≡ second.known.workers) }
        { add_beside(rt, lock, second, times) },
    );
    lock.join(first, second)
}

/// How many counts one worker has, where their amounts in the order of the tally are 0, 1, 2 and so on; else -1.
fn counted_up(counts: &[Count], worker: u32) -> i64 {
    let mut next = 0u64;
    for count in counts {
        if count.worker == worker {
            if count.amount != next {
                return -1;
            }
            next = next.saturating_add(1);
        }
    }
    i64::try_from(next).unwrap_or(-1)
}

/// How many counts each of the row's `workers` has, where each, in a thread of its own, added 0, 1, 2 and so on, so many `times`, and
/// they stand so in the tally; else -1 for it. At last how many counts the tally has.
pub fn counted<R: Threads + Wait + Sync>(
    rt: &R,
    alloc: Global,
    row: &Value,
) -> Result<Value, Trouble> {
    let times = small(row, "times")?;
    let workers = small(row, "workers")?;
    if workers < 1 || workers > MOST_WORKERS {
        return Err(Trouble::Member("workers"));
    }
    let Ok((lock, all)) = Lock::start(alloc, empty(alloc), workers) else {
        return Err(Trouble::Memory);
    };
    let all = add_beside(rt, &lock, all, u64::from(times));
    let tally = lock.close(all);
    let mut answers = Vec::new(alloc);
    for worker in 0..workers {
        answers.push(counted_up(tally.counts.as_slice(), worker))?;
    }
    let all = tally.counts.len();
    answer_in(alloc, format!(in alloc; "[{answers:?}, {all}]"))
}
