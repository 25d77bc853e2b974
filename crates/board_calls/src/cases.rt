// The cases of a line: a graph and tokens, and runs of them.
ghost use Rattle.std.specs.Prelude.{◌≤◌, IfOk};
ghost use Rattle.std.specs.Arc.{arc_value};
ghost use Rattle.board_calls.specs.Given.{AreSound};

use crate::carried::Carried;
use crate::given::{graphs_of, streams_of};
use crate::iterations::{Plan, run};
use crate::told::Told;
use case_rows::{Outcome, Table, Trouble, items, small, small_of, small_or, word};
use job_compiler::kept;
use pisdf_model::Graphs;
use sdf_level::List;
use serde_json::Value;
use std::alloc::Global;
use std::sync::{Arc, Wait};
use std::thread::Threads;

/// How many steps are drawn, where a case has a seed.
const DRAWN: u32 = 20_000;

/// The most jobs that may be open, where a case doesn't say it.
const MOST_OPEN: u32 = 128;

/// What is told of a run, beside the line of its refusal.
#[derive(Clone, Copy, PartialEq, Eq)]
enum Tells {
    /// The lines of the iterations.
    Iterations,
    /// The lines of the journals.
    Journals,
    /// Whether each compilation was kept, and then the lines of the iterations.
    Compilations,
    /// Each claim and each finish, with tokens.
    Steps,
}

/// What a case asks for: its member `tells`, which is `journals`, `compilations` or `steps`, or the lines of the iterations
/// where there is no such member.
fn tells_of(case: &Value) -> Result<Tells, Trouble> {
    if case.get("tells").is_none() {
        return Ok(Tells::Iterations);
    }
    match word(case, "tells")? {
        "journals" => Ok(Tells::Journals),
        "compilations" => Ok(Tells::Compilations),
        "steps" => Ok(Tells::Steps),
        _ => Err(Trouble::Member("tells")),
    }
}

/// The workers that step first, by the case's `order`.
fn order_of(alloc: Global, case: &Value) -> Result<Vec<u32>, Trouble> {
    let mut order = Vec::new(alloc);
    for worker in items(case, "order")? {
        order.push(small_of(worker, "order")?)?;
    }
    Ok(order)
}

/// The text that a case asks for.
fn text_of(alloc: Global, tells: Tells, told: &Told) -> Result<String, Trouble> {
    let out = told.out.as_str();
    let kept = told.kept.as_str();
    match tells {
        Tells::Iterations => Ok(String::from_str(alloc, out)?),
        Tells::Journals => Ok(told.journal.clone()?),
        Tells::Compilations => Ok(format!(in alloc; "{kept}{out}")?),
        Tells::Steps => Ok(told.steps.clone()?),
    }
}

/// The answer of a case: the text that it asks for, and the line of the refusal; and where fewer or more jobs were open at once
/// than are wanted, how many.
fn answer_of(alloc: Global, case: &Value, tells: Tells, told: &Told) -> Result<Value, Trouble> {
    let text = text_of(alloc, tells, told)?;
    let err = told.err.clone()?;
    let mut texts = vec![in alloc; Value::from(text), Value::from(err)]?;
    let open = told.open;
    let most = small_or(case, "open", MOST_OPEN)? as usize;
    let least = small_or(case, "open_at_least", 0)? as usize;
    if open < least || open > most {
        texts.push(Value::from(format!(in alloc; "{open} jobs were open")?))?;
    }
    Ok(Value::from(texts))
}

/// How a case runs: so many `iterations` by so many `workers`, 1 to 16 of them, each in a thread where the case has the member
/// `threads`, else simulated: they step in the `order` of a list, then, where there is a `seed`, as drawn.
fn plan_of<'a>(case: &Value, order: &'a [u32]) -> Result<Plan<'a>, Trouble>
    ensures { IfOk result (λ plan. (1 ≤ plan.workers) × (plan.workers ≤ 16)) }
{
    let workers = small(case, "workers")?;
    if workers < 1 || workers > 16 {
        return Err(Trouble::Member("workers"));
    }
    let drawn = if case.get("seed").is_some() { DRAWN } else { 0 };
    Ok(Plan {
        iterations: small(case, "iterations")?,
        workers,
        threads: case.get("threads").is_some(),
        order,
        drawn,
        seed: u64::from(small_or(case, "seed", 0)?),
    })
}

/// What becomes of a case. Its boards keep compilations where it has the member `kept`, and levels where it has the member `levels`.
fn outcome_of<R: Threads + Wait + Sync>(
    rt: &R,
    alloc: Global,
    graphs: &Arc<Graphs>,
    streams: &[List<i64>],
    case: &Value,
) -> Result<Outcome, Trouble>
    requires { AreSound (arc_value graphs.now) }
{
    let order = order_of(alloc, case)?;
    let plan = plan_of(case, order.as_slice())?;
    let tells = tells_of(case)?;
    let kept = match case.get("kept") {
        Some(_) => Some(kept(alloc)?),
        None => None,
    };
    let mut carried = Carried::new(kept, case.get("levels").is_some());
    let mut told = Told::new(alloc, tells == Tells::Steps);
    run(rt, alloc, graphs, streams, &plan, &mut carried, &mut told)?;
    let answer = answer_of(alloc, case, tells, &told)?;
    case_rows::outcome_of(alloc, case, &answer)
}

/// What becomes of the `cases` of the next line, which run the graphs of its `file`, in which `'` stands for `"`, on the `tokens` of a
/// token file.
pub fn outcomes<R: Threads + Wait + Sync>(
    rt: &R,
    alloc: Global,
    table: &mut Table,
    line: &str,
) -> Result<Vec<Outcome>, Trouble> {
    let Some(row) = table.next_row(alloc, line)? else {
        return Ok(Vec::new(alloc));
    };
    let graphs = Arc::new(alloc, graphs_of(alloc, word(&row, "file")?)?)?;
    let streams = streams_of(alloc, word(&row, "tokens")?, &graphs)?;
    let mut outcomes = Vec::new(alloc);
    for case in items(&row, "cases")? {
        outcomes.push(outcome_of(rt, alloc, &graphs, streams.items(), case)?)?;
    }
    Ok(outcomes)
}
