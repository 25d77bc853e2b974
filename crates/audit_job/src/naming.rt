// How the items of a job are named.
ghost use Rattle.std.specs.Prelude.{◌≡◌, ◌<◌, ℕ, List as Seq, Some, length};
ghost use Rattle.board_rules.specs.Entries.{item_of};
ghost use Rattle.board_rules.specs.Keys.{Key as KeyView};
ghost use Rattle.board_rules.specs.Picks.{step_of_item};
ghost use Rattle.job_rules.specs.Items.{graph_of, prepared_in, rule};
ghost use Rattle.nested_jobs.specs.Rules.{Call};
ghost use Rattle.pisdf_model.specs.declared.graph.Graph.{Graph as GraphView};
ghost use Rattle.pisdf_meaning.specs.declared.firing.Firing.{Firing as FiringView};
ghost use Rattle.audit_job.specs.Jobs.{IsJob};
ghost use Rattle.audit_job.specs.Marks.{answers};
ghost use Rattle.audit_job.specs.Naming.{IsValidJob};

use crate::job::Job;
use board_rules::ItemName;
use param_resolver::level_by_actor;
use sdf_level::Node;

/// An item of a job, as the journal names it.
pub fn item_of(job: &Job, item: usize) -> ItemName
    requires valid { IsValidJob job.now }
    requires inside { item < length job.now.marks.items }
    ensures { (graphs : Seq GraphView) (workers : ℕ) → IsJob graphs workers job.now → result ≡ item_of (graph_of graphs job.now.firing) item }
{
    let base = job.places.len();
    if item < base {
        ItemName::Configure(job.places[item] as u32)
    } else if item == base {
        ItemName::Compile
    } else {
        ItemName::Node((item - base - 1) as u32)
    }
}

/// Of the call that an item makes the place of its actor among all actors of the graph, and the number of the firing.
pub fn step_of(job: &Job, item: usize) -> (u32, u32)
    requires valid { IsValidJob job.now }
    requires call { (graphs : Seq GraphView) × (workers : ℕ) × (called : FiringView) × IsJob graphs workers job.now × (rule graphs job.now.firing (answers job.now.marks.items) item ≡ Some (Call called)) }
    ensures { (key : KeyView) (workers : ℕ) → IsJob key.graphs.graphs workers job.now → result ≡ step_of_item key (graph_of key.graphs.graphs job.now.firing) job.now.firing item (prepared_in (graph_of key.graphs.graphs job.now.firing) (answers job.now.marks.items)) }
{
    level_by_actor();
    let base = job.places.len();
    if item < base {
        return (job.places[item] as u32, 0);
    }
    match &job.nodes {
        Some(nodes) => match nodes.compiled.graph().nodes.items()[item - base - 1] {
            Node::Firing { actor, turn } => { (nodes.set.places.items()[actor as usize], turn) }
            Node::Source(_) => (0, 0),
            Node::Init(_) => (0, 0),
            Node::End(_) => (0, 0),
            Node::Sink(_) => (0, 0),
            Node::Broadcast(_) => (0, 0),
            Node::Fork { link: _, turn: _ } => (0, 0),
            Node::Join { link: _, turn: _ } => (0, 0),
            Node::Round(_) => (0, 0),
        },
        None => unreachable!(),
    }
}
