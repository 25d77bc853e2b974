// The firings of graphs that nodes call.
ghost use Rattle.std.specs.Prelude.{ℕ, ℤ, List as Seq, ◌≡◌, ◌<◌, ◌^◌, [], Some, length, slice_get, IfOk};
ghost use Rattle.param_expr.specs.Tree.{Tree};
ghost use Rattle.param_resolver.specs.EarlyView.{EarlyView};
ghost use Rattle.param_resolver.specs.Numbering.{acting, acting_places};
ghost use Rattle.one_job.specs.View.{IsFiring};
ghost use Rattle.pisdf_model.specs.declared.graph.Graph.{Graph as GraphView};
ghost use Rattle.pisdf_meaning.specs.declared.firing.Firing.{Firing as FiringView};
ghost use Rattle.pisdf_model.specs.Parts.{input_count};
ghost use Rattle.pisdf_model.specs.declared.actor.Body.TheVariants.{Child};
ghost use Rattle.pisdf_meaning.specs.Running.{child_firing as firing_of};
ghost use Rattle.pisdf_meaning.specs.States.{tokens_at};

use job_preparing::acting_at;
use kernel_gate::Frame;
use param_resolver::LevelSet;
use pisdf_meaning::{ChildCall, Firing, Path, child_firing, copy_tokens};
use pisdf_model::{Actor, Body, Graph, input_count};
use sdf_level::{List, Node};
use std::alloc::{AllocError, Global};

/// Copies of what a frame reads.
pub(crate) fn read_from(alloc: Global, frame: &Frame) -> Result<List<List<i64>>, AllocError>
    requires { length frame.now.inputs < 2 ^ 32 }
    ensures { IfOk result (λ read. read ≡ frame.now.inputs) }
{
    let mut lists = Vec::new(alloc);
    for port in 0..frame.inputs() {
        lists.push(copy_tokens(alloc, frame.input(port))?)?;
    }
    Ok(List::new(lists))
}

/// A firing with this path, and with nothing else.
fn at_path(alloc: Global, path: &Path) -> Result<Firing, AllocError>
    ensures { IfOk result (λ firing. firing.path ≡ path.now) }
{
    Ok(Firing {
        path: path.copy()?,
        graph: 0,
        inherited: List::new(Vec::new(alloc)),
        inputs: List::new(Vec::new(alloc)),
        state: List::new(Vec::new(alloc)),
    })
}

/// A firing of an actor that names a graph: the actor, the graphs, the arguments, and the firing's number.
#[derive(Clone, Copy)]
pub(crate) struct Caller<'a> {
    pub graphs: &'a [Graph],
    pub actor: &'a Actor,
    pub set: &'a LevelSet,
    /// Its number in the level.
    pub number: u32,
    pub turn: u32,
    pub keeps: bool,
}

/// The actor and the number of a firing.
pub(crate) fn firing_of(which: Node) -> (u32, u32)
    requires { IsFiring which }
    ensures { which ≡ Node.Firing result.0 result.1 }
{
    match which {
        Node::Firing { actor, turn } => (actor, turn),
        Node::Source(_)
        | Node::Init(_)
        | Node::End(_)
        | Node::Sink(_)
        | Node::Broadcast(_)
        | Node::Fork { .. }
        | Node::Join { .. }
        | Node::Round(_) => unreachable!(),
    }
}

/// What an actor of the level of the graph at this place calls with.
pub(crate) fn caller_of<'a>(
    graphs: &'a [Graph],
    place: u32,
    set: &'a LevelSet,
    keeps: &[bool],
    actor: u32,
    turn: u32,
) -> Caller<'a>
    requires graph { place < length graphs.now }
    requires keeps { actor < length keeps.now }
    requires set { actor < length set.now.places }
    requires places { (g : GraphView) → slice_get graphs.now place ≡ Some g → set.now.places ≡ acting_places g }
    requires there { (g : GraphView) → slice_get graphs.now place ≡ Some g → actor < length (acting g) }
    ensures actor { (g : GraphView) → slice_get graphs.now place ≡ Some g → slice_get (acting g) actor ≡ Some result.actor.now }
    ensures graphs { (result.graphs.now ≡ graphs.now) × (result.set.now ≡ set.now) }
    ensures number { (result.number ≡ actor) × (result.turn ≡ turn) }
    ensures keeps { slice_get keeps.now actor ≡ Some result.keeps }
{
    Caller {
        graphs,
        actor: acting_at(&graphs[place as usize], set.places.items(), actor as usize),
        set,
        number: actor,
        turn,
        keeps: keeps[actor as usize],
    }
}

/// The firing of the graph at a place that an actor's firing calls, in the job with this path, which reads this.
fn call_graph(
    alloc: Global,
    path: &Path,
    caller: &Caller<'_>,
    place: u32,
    read: List<List<i64>>,
) -> Result<Firing, AllocError>
    requires args { caller.now.number < length caller.now.set.now.args }
    requires known { (early : EarlyView) × (slice_get caller.now.set.now.children caller.now.number ≡ Some (Some early)) }
    ensures { (firing : FiringView) → firing.path ≡ path.now → IfOk result (λ d. d ≡ firing_of caller.now.graphs.now firing caller.now.actor.now.name caller.now.turn (tokens_at caller.now.set.now.args caller.now.number) caller.now.keeps place (input_count caller.now.graphs.now caller.now.actor.now.body) read) }
{
    let here = at_path(alloc, path)?;
    let inputs = input_count(caller.graphs, &caller.actor.body);
    let number = caller.number as usize;
    let early = match &caller.set.children.items()[number] {
        Some(early) => early,
        None => unreachable!(),
    };
    let call = ChildCall {
        actor: caller.actor,
        place,
        turn: caller.turn,
        args: caller.set.args.items()[number].items(),
        early,
    };
    child_firing(
        alloc,
        caller.graphs,
        &here,
        &call,
        caller.keeps,
        inputs,
        read,
    )
}

/// The firing that an actor's firing calls, in the job with this path, where it reads what the frame does.
pub(crate) fn called(
    alloc: Global,
    path: &Path,
    caller: &Caller<'_>,
    frame: &Frame,
) -> Result<Firing, AllocError>
    requires args { caller.now.number < length caller.now.set.now.args }
    requires known { (early : EarlyView) × (slice_get caller.now.set.now.children caller.now.number ≡ Some (Some early)) }
    requires child { (place : ℕ) × (exprs : Seq Tree) × (caller.now.actor.now.body ≡ Child place exprs) }
    requires few { length frame.now.inputs < 2 ^ 32 }
    ensures { (firing : FiringView) (place : ℕ) (exprs : Seq Tree) → firing.path ≡ path.now → caller.now.actor.now.body ≡ Child place exprs → IfOk result (λ d. d ≡ firing_of caller.now.graphs.now firing caller.now.actor.now.name caller.now.turn (tokens_at caller.now.set.now.args caller.now.number) caller.now.keeps place (input_count caller.now.graphs.now caller.now.actor.now.body) frame.now.inputs) }
{
    let read = read_from(alloc, frame)?;
    match &caller.actor.body {
        Body::Child { graph, .. } => call_graph(alloc, path, caller, *graph, read),
        Body::Kernel { .. } | Body::Config { .. } | Body::ConfigChild { .. } => unreachable!(),
    }
}
