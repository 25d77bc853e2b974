// What the rows of a table offer a worker first. Six rules say it, and the first that tells two items apart decides. `pick` is
// rule 1 (`pick_alone` for one row), and `goes_before` has rules 2 to 6.
ghost use Rattle.std.specs.Prelude.{◌≡◌, ◌<◌, false, true, length, IfSome, IsSome};
ghost use Rattle.board_rules.specs.Picks.{goes_before};
ghost use Rattle.nested_jobs.specs.Pick.{is_more_urgent};
ghost use Rattle.graph_firing.specs.Offers.{IsPick};
ghost use Rattle.firing_board.specs.Table.Asked.{IsPickedOf};
ghost use Rattle.firing_board.specs.Table.Asked as table_asked;
ghost use Rattle.firing_board.specs.Table.AskedRows.{IsBestOf, IsFirstOf, IsOfferedAs, ordering_by, row_in, standing_of};
ghost use Rattle.firing_board.specs.Table.AskedRows as rows_asked;

use crate::run::Run;
use crate::table::row::Row;
use graph_firing::{Offer, OpenJob};
use std::cmp::Ordering;

/// What a table offers a worker first.
#[derive(Clone, Copy)]
pub(crate) struct Asked {
    /// The key of the row of the job that offers it.
    pub row: usize,
    /// The item, and where it stands.
    pub offer: Offer,
}

/// The item that goes first of all that a table offers.
#[derive(Clone, Copy)]
pub(crate) enum Picked {
    /// Work of a job that is open.
    Work(Run),
    /// A call, whose claim opens a job. No open job offers work.
    Call(Run),
}

// ---- rule 1

/// The item that is asked for.
fn run_of(asked: Asked) -> Run
    ensures { result ≡ table_asked.run_of asked }
{
    Run {
        row: asked.row,
        item: asked.offer.item,
    }
}

/// What goes first of all that the rows offer: work of an open job before each call. None where no row offers anything.
pub(crate) fn pick(rows: &[Option<Row>], worker: u32) -> Option<Picked>
    ensures { IsPickedOf worker rows.now result }
{
    // The most frequent case by far: a table that never had a second row has nothing to compare, so a number says it all.
    if rows.len() == 1 {
        return pick_alone(rows, worker);
    }
    match best_of(rows, worker, false) {
        Some(work) => Some(Picked::Work(run_of(work))),
        None => match best_of(rows, worker, true) {
            Some(call) => Some(Picked::Call(run_of(call))),
            None => None,
        },
    }
}

/// As `pick`, where there is one row.
fn pick_alone(rows: &[Option<Row>], worker: u32) -> Option<Picked>
    requires { length rows.now ≡ 1 }
    ensures { IsPickedOf worker rows.now result }
{
    match &rows[0] {
        Some(row) => match row.job.first_work(worker) {
            Some(item) => Some(Picked::Work(Run { row: 0, item })),
            None => match row.job.pick_call(worker) {
                Some(offer) => Some(Picked::Call(Run {
                    row: 0,
                    item: offer.item,
                })),
                None => None,
            },
        },
        None => None,
    }
}

// ---- rules 2 to 6

/// Whether what a job offers goes before what another offers: the deeper job first, then the item at home, then the more
/// urgent, then the lesser path, then the lesser number.
fn goes_before(job: &Row, offer: &Offer, other: &Row, rest: &Offer) -> bool
    ensures { result ≡ goes_before (standing_of job.now offer.now) (standing_of other.now rest.now) }
{
    let depth = job.place.items().len();
    let other_depth = other.place.items().len();
    // Rule 2: the deeper job.
    let order = other_depth
        .cmp(&depth)
        // Rule 3: the item at home.
        .then(offer.away.cmp(&rest.away))
        // Rule 4: the more urgent item.
        .then(compare_urgency(offer.urgency, rest.urgency))
        // Rule 5: the lesser path.
        .then(job.steps.items().cmp(other.steps.items()))
        // Rule 6: the lesser number.
        .then(offer.item.cmp(&rest.item));
    order.is_lt()
}

/// `Less` where the first is the more urgent: a configuration actor or a compilation beside a node, and of two nodes the one of
/// the greater priority.
fn compare_urgency(one: Option<u64>, other: Option<u64>) -> Ordering
    ensures { result ≡ ordering_by (is_more_urgent one other) (is_more_urgent other one) }
{
    match (one, other) {
        (None, None) => Ordering::Equal,
        (None, Some(_)) => Ordering::Less,
        (Some(_), None) => Ordering::Greater,
        (Some(priority), Some(other)) => other.cmp(&priority),
    }
}

// ---- the first of all

/// The row at a key.
fn row_at(rows: &[Option<Row>], key: usize) -> &Row
    requires { IsSome (row_in rows.now key) }
    ensures { row_in rows.now key ≡ Some result.now }
{
    match &rows[key] {
        Some(row) => row,
        None => unreachable!(),
    }
}

/// The first of two offers: the one that was found before, unless the next goes before it.
fn first_of_two(rows: &[Option<Row>], best: Asked, next: Asked) -> Asked
    requires best { IsSome (row_in rows.now best.row) }
    requires next { IsSome (row_in rows.now next.row) }
    ensures { result ≡ rows_asked.first_of_two rows.now best next }
{
    let before = goes_before(
        row_at(rows, next.row),
        &next.offer,
        row_at(rows, best.row),
        &best.offer,
    );
    if before { next } else { best }
}

/// The first of what was found before and of what the next row offers, if any.
fn better(rows: &[Option<Row>], best: Option<Asked>, next: Option<Asked>) -> Option<Asked>
    requires best { IfSome best (λ asked. IsSome (row_in rows.now asked.row)) }
    requires next { IfSome next (λ asked. IsSome (row_in rows.now asked.row)) }
    ensures { result ≡ rows_asked.better rows.now best next }
{
    match (best, next) {
        (Some(best), Some(next)) => Some(first_of_two(rows, best, next)),
        (None, next) => next,
        (Some(best), None) => Some(best),
    }
}

/// What a job offers first: of its calls, or of the items that have work of their own.
fn first_offer(job: &OpenJob, worker: u32, calls: bool) -> Option<Offer>
    ensures { IsPick (IsOfferedAs calls job.now) job.now worker result }
{
    if calls {
        job.pick_call(worker)
    } else {
        job.pick(worker)
    }
}

/// What the row at a key offers first.
fn asked_at(rows: &[Option<Row>], key: usize, worker: u32, calls: bool) -> Option<Asked>
    requires { key < length rows.now }
    ensures { IsFirstOf worker calls key (row_in rows.now key) result }
{
    match &rows[key] {
        Some(row) => match first_offer(&row.job, worker, calls) {
            Some(offer) => Some(Asked { row: key, offer }),
            None => None,
        },
        None => None,
    }
}

/// What the rows offer first of their work, or of their calls.
fn best_of(rows: &[Option<Row>], worker: u32, calls: bool) -> Option<Asked>
    ensures { IsBestOf worker calls rows.now (length rows.now) result }
{
    let mut best: Option<Asked> = None;
    for key in 0..rows.len() {
        best = better(rows, best, asked_at(rows, key, worker, calls));
    }
    best
}
