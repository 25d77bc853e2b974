// What the rows offer a worker first.
ghost use Rattle.std.specs.Prelude.{◌≡◌, ◌<◌, ◌≤◌, ℕ, Bool, length, IfSome, IsSome};
ghost use Rattle.std.specs.Ordering.{nat_cmp, ordering_then};
ghost use Rattle.nested_jobs.specs.Marks.{Marks};
ghost use Rattle.job_rules.specs.Words.{Answer};
ghost use Rattle.pisdf_model.specs.declared.graph.Graphs.{Graphs as GraphsView};
ghost use Rattle.pisdf_meaning.specs.declared.firing.Firing.{Firing};
ghost use Rattle.board_rules.specs.Keys.{Key};
ghost use Rattle.board_rules.specs.Picks.{is_lesser_path, steps_to};
ghost use Rattle.audit_job.specs.Offering.{ordering_by};
ghost use Rattle.journal_audit.specs.Asking.{IsBestOf, IsFirstOf, IsFirstRun, PathsDiffer, early_order, stands_before};
ghost use Rattle.journal_audit.specs.Asking as rows_asked;
ghost use Rattle.journal_audit.specs.Standing.{IsOpenAt, Stands, StandsSo, last_step};
ghost use Rattle.journal_audit.specs.Table.{row_at};

use crate::table::{Asked, Row, Run, key_of, row_at};
use audit_job::{compare_urgency, first_offer, step_of};
use job_rules::rules_are_lawful;
use pisdf_model::Graphs;
use std::cmp::Ordering;

/// The actor and the firing that the item is which called the job at a place, other than the top job's.
fn last_step(rows: &[Option<Row>], place: &[usize]) -> (u32, u32)
    requires some { 0 < length place.now }
    requires stands { (graphs : GraphsView) × (key : Key) × (m : Marks Firing Answer) × StandsSo graphs rows.now key m × IsOpenAt m place.now }
    ensures { (graphs : GraphsView) (key : Key) (m : Marks Firing Answer) → StandsSo graphs rows.now key m → IsOpenAt m place.now → result ≡ last_step key m place.now }
{
    rules_are_lawful();
    let found = key_of(rows, &place[1..]);
    match found {
        Some(key) => {
            let row = row_at(rows, key);
            step_of(&row.job, place[0])
        }
        None => unreachable!(),
    }
}

/// `Less` where the first step is the lesser: by actor, then by firing.
fn compare_steps(one: (u32, u32), other: (u32, u32)) -> Ordering
    ensures { result ≡ ordering_then (nat_cmp one.0 other.0) (nat_cmp one.1 other.1) }
{
    one.0.cmp(&other.0).then(one.1.cmp(&other.1))
}

/// `Less` where the path of the job at the first place is the lesser, of two of one depth.
fn compare_paths(rows: &[Option<Row>], one: &[usize], other: &[usize]) -> Ordering
    requires { (graphs : GraphsView) × (key : Key) × (m : Marks Firing Answer) × StandsSo graphs rows.now key m × IsOpenAt m one.now × IsOpenAt m other.now × (length one.now ≡ length other.now) }
    ensures { (graphs : GraphsView) (key : Key) (m : Marks Firing Answer) → StandsSo graphs rows.now key m → IsOpenAt m one.now → IsOpenAt m other.now → result ≡ ordering_by (is_lesser_path (steps_to key m one.now) (steps_to key m other.now)) (is_lesser_path (steps_to key m other.now) (steps_to key m one.now)) }
{
    rules_are_lawful();
    let depth = one.len();
    if depth == 0 {
        return Ordering::Equal;
    }
    let round = compare_paths(rows, &one[1..], &other[1..]);
    let step = last_step(rows, one);
    let beside = last_step(rows, other);
    let order = compare_steps(step, beside);
    round.then(order)
}

/// How what a row offers stands to what another offers by the rules before that of paths: the deeper job first, then the item
/// at home, then the more urgent.
fn compare_early(row: &Row, one: Asked, beside: &Row, other: Asked) -> Ordering
    ensures { result ≡ early_order row.now one beside.now other }
{
    let depth = row.place.items().len();
    let other_depth = beside.place.items().len();
    other_depth
        .cmp(&depth)
        .then(one.offer.away.cmp(&other.offer.away))
        .then(compare_urgency(one.offer.urgency, other.offer.urgency))
}

/// Whether what a row offers goes before what another offers: by the rules before that of paths, then the lesser path, then the
/// lesser number.
fn goes_before(rows: &[Option<Row>], one: Asked, other: Asked) -> bool
    requires stands { Stands rows.now }
    requires one { IsSome (row_at rows.now one.row) }
    requires other { IsSome (row_at rows.now other.row) }
    ensures { (graphs : GraphsView) (key : Key) (m : Marks Firing Answer) (calls : Bool) → StandsSo graphs rows.now key m → result ≡ stands_before key m calls rows.now one other }
{
    let row = row_at(rows, one.row);
    let beside = row_at(rows, other.row);
    let early = compare_early(row, one, beside, other);
    match early {
        Ordering::Less => true,
        Ordering::Greater => false,
        Ordering::Equal => {
            let paths = compare_paths(rows, row.place.items(), beside.place.items());
            let numbers = one.offer.item.cmp(&other.offer.item);
            paths.then(numbers).is_lt()
        }
    }
}

/// The first of two offers: the one that was found before, unless the next goes before it.
fn first_of_two(rows: &[Option<Row>], best: Asked, next: Asked) -> Asked
    requires stands { Stands rows.now }
    requires best { IsSome (row_at rows.now best.row) }
    requires next { IsSome (row_at rows.now next.row) }
    ensures { (graphs : GraphsView) (key : Key) (m : Marks Firing Answer) (calls : Bool) → StandsSo graphs rows.now key m → result ≡ rows_asked.first_of_two key m calls rows.now best next }
{
    if goes_before(rows, next, best) {
        next
    } else {
        best
    }
}

/// The first of what was found before and of what the next row offers, if any.
fn better(rows: &[Option<Row>], best: Option<Asked>, next: Option<Asked>) -> Option<Asked>
    requires stands { Stands rows.now }
    requires best { IfSome best (λ asked. IsSome (row_at rows.now asked.row)) }
    requires next { IfSome next (λ asked. IsSome (row_at rows.now asked.row)) }
    ensures { (graphs : GraphsView) (key : Key) (m : Marks Firing Answer) (calls : Bool) → StandsSo graphs rows.now key m → result ≡ rows_asked.better key m calls rows.now best next }
{
    match (best, next) {
        (Some(best), Some(next)) => Some(first_of_two(rows, best, next)),
        (None, next) => next,
        (Some(best), None) => Some(best),
    }
}

/// What the row at a key offers first.
fn asked_at(
    graphs: &Graphs,
    rows: &[Option<Row>],
    key: usize,
    worker: u32,
    calls: bool,
) -> Option<Asked>
    requires stands { (key : Key) × (m : Marks Firing Answer) × StandsSo graphs.now rows.now key m }
    requires inside { key < length rows.now }
    ensures { (board : Key) (m : Marks Firing Answer) → StandsSo graphs.now rows.now board m → IsFirstOf board m worker calls key (row_at rows.now key) result }
{
    match &rows[key] {
        Some(row) => match first_offer(graphs, &row.job, worker, calls) {
            Some(offer) => Some(Asked { row: key, offer }),
            None => None,
        },
        None => None,
    }
}

/// What the rows offer a worker first.
fn best_of(graphs: &Graphs, rows: &[Option<Row>], worker: u32, calls: bool) -> Option<Asked>
    requires { (key : Key) × (m : Marks Firing Answer) × StandsSo graphs.now rows.now key m }
    ensures { (key : Key) (m : Marks Firing Answer) → StandsSo graphs.now rows.now key m → IsBestOf key m worker calls rows.now (length rows.now) result }
{
    let mut best: Option<Asked> = None;
    for key in 0..rows.len() {
        best = better(rows, best, asked_at(graphs, rows, key, worker, calls));
    }
    best
}

/// The item that the rows offer a worker first, which has work of its own, or calls a job.
pub(crate) fn first_of_all(
    graphs: &Graphs,
    rows: &[Option<Row>],
    worker: u32,
    calls: bool,
) -> Option<Run>
    requires { (key : Key) × (m : Marks Firing Answer) × StandsSo graphs.now rows.now key m }
    ensures { (key : Key) (m : Marks Firing Answer) → StandsSo graphs.now rows.now key m → PathsDiffer key m → IsFirstRun key m worker calls rows.now result }
{
    match best_of(graphs, rows, worker, calls) {
        Some(asked) => Some(Run {
            row: asked.row,
            item: asked.offer.item,
        }),
        None => None,
    }
}
