// Which of its items a job offers a worker first.
ghost use Rattle.std.specs.Prelude.{◌≡◌, ◌<◌, ◌+◌, ◌↔◌, IsTrue, ℕ, List as Seq, length, slice_index};
ghost use Rattle.std.specs.Option.{option_map};
ghost use Rattle.board_rules.specs.Asking.{IsAskedFor, goes_first};
ghost use Rattle.board_rules.specs.Keys.{Key as KeyView};
ghost use Rattle.job_rules.specs.Words as words;
ghost use Rattle.nested_jobs.specs.Marks.{Marks};
ghost use Rattle.nested_jobs.specs.Pick.{is_more_urgent};
ghost use Rattle.nested_jobs.specs.Rules.{Place};
ghost use Rattle.pisdf_meaning.specs.declared.firing.Firing.{Firing as FiringView};
ghost use Rattle.pisdf_model.specs.declared.graph.Graph.{Graph as GraphView};
ghost use Rattle.audit_job.specs.Jobs.{IsJob, row_of};
ghost use Rattle.audit_job.specs.Offering.{IsFirstOf, IsOfferedIn, early_offer, leads, offer_at, offer_of, ordering_by};

use crate::answer::Kind;
use crate::items::{is_free, kind_of};
use crate::job::Job;
use pisdf_model::Graphs;
use std::cmp::Ordering;

/// An item that a job offers, and where it stands among those that are offered.
#[derive(Debug, Clone, Copy, Drop)]
pub struct Offer {
    /// The number of the item in its job.
    pub item: usize,
    /// Its home is another worker.
    pub away: bool,
    /// The priority of a node. A configuration actor and the compilation have none, and go before every node.
    pub urgency: Option<u64>,
}

/// An item that is at home everywhere, and goes before every node.
fn early_offer(item: usize) -> Offer
    ensures { offer_of result ≡ early_offer item }
{
    Offer {
        item,
        away: false,
        urgency: None,
    }
}

/// Where an item stands for a worker.
fn offer_of(job: &Job, item: usize, worker: u32) -> Offer
    requires { (graphs : Seq GraphView) × (workers : ℕ) × IsJob graphs workers job.now × (item < length job.now.marks.items) }
    ensures { offer_of result ≡ offer_at job.now worker item }
{
    let base = job.places.len();
    if item <= base {
        return early_offer(item);
    }
    match &job.nodes {
        Some(nodes) => {
            let mapping = nodes.compiled.mapping();
            let node = item - base - 1;
            Offer {
                item,
                away: mapping.home.items()[node] != worker,
                urgency: Some(mapping.priority.items()[node]),
            }
        }
        None => early_offer(item),
    }
}

/// `Less` where the first is the more urgent.
pub fn compare_urgency(one: Option<u64>, other: Option<u64>) -> Ordering
    ensures { result ≡ ordering_by (is_more_urgent one other) (is_more_urgent other one) }
{
    match (one, other) {
        (None, None) => Ordering::Equal,
        (None, Some(_)) => Ordering::Less,
        (Some(_), None) => Ordering::Greater,
        (Some(priority), Some(other)) => other.cmp(&priority),
    }
}

/// Whether an offer of a job goes before another of it: by home, then urgency, then number.
fn goes_first(one: &Offer, other: &Offer) -> bool
    ensures { result ≡ goes_first (offer_of one.now) (offer_of other.now) }
{
    let order = one
        .away
        .cmp(&other.away)
        .then(compare_urgency(one.urgency, other.urgency))
        .then(one.item.cmp(&other.item));
    order.is_lt()
}

/// Whether an offer goes before what was found before, if anything was.
fn leads(next: &Offer, best: &Option<Offer>) -> bool
    ensures { result ≡ leads (offer_of next.now) best.now }
{
    match best {
        Some(best) => goes_first(next, best),
        None => true,
    }
}

/// Whether an item is free, and has work of its own, or calls a job.
fn is_offered(graphs: &Graphs, job: &Job, item: usize, calls: bool) -> bool
    requires is { (workers : ℕ) × IsJob graphs.now.graphs workers job.now }
    requires inside { item < length job.now.marks.items }
    ensures { IsTrue result ↔ IsOfferedIn graphs.now.graphs calls job.now item }
{
    if !is_free(&job.marks[item]) {
        return false;
    }
    match kind_of(graphs, job, item) {
        Some(Kind::Work) => !calls,
        Some(Kind::Call) => calls,
        None => false,
    }
}

/// What goes first once one more item is looked at: the item, if it is offered and goes before what was found before.
fn better(
    graphs: &Graphs,
    job: &Job,
    worker: u32,
    calls: bool,
    best: Option<Offer>,
    item: usize,
) -> Option<Offer>
    requires is { (workers : ℕ) × IsJob graphs.now.graphs workers job.now }
    requires inside { item < length job.now.marks.items }
    ensures { (items : Seq ℕ) (n : ℕ) → slice_index items n ≡ item → IsFirstOf (IsOfferedIn graphs.now.graphs calls job.now) (offer_at job.now worker) items n best → IsFirstOf (IsOfferedIn graphs.now.graphs calls job.now) (offer_at job.now worker) items (n + 1) result }
{
    let next = offer_of(job, item, worker);
    if !leads(&next, &best) {
        return best;
    }
    if !is_offered(graphs, job, item, calls) {
        return best;
    }
    Some(next)
}

/// The first of the candidates by home, urgency and number, which have work of their own, or call jobs.
fn first_candidate(graphs: &Graphs, job: &Job, worker: u32, calls: bool) -> Option<Offer>
    requires { (workers : ℕ) × IsJob graphs.now.graphs workers job.now }
    ensures { IsFirstOf (IsOfferedIn graphs.now.graphs calls job.now) (offer_at job.now worker) job.now.candidates.items (length job.now.candidates.items) result }
{
    let mut best: Option<Offer> = None;
    for place in 0..job.candidates.len() {
        best = better(graphs, job, worker, calls, best, job.candidates[place]);
    }
    best
}

/// The first of its free items that a job offers a worker, which have work of their own, or call jobs; none exactly where no item
/// does.
pub fn first_offer(graphs: &Graphs, job: &Job, worker: u32, calls: bool) -> Option<Offer>
    requires { (workers : ℕ) × IsJob graphs.now.graphs workers job.now }
    ensures { (key : KeyView) (m : Marks FiringView words.Answer) (place : Place) → key.graphs ≡ graphs.now → IsJob key.graphs.graphs key.workers job.now → IsAskedFor key m worker calls (row_of place job.now) (option_map offer_of result) }
{
    first_candidate(graphs, job, worker, calls)
}
