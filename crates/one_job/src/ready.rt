// The nodes that may be claimed, as each claim and each finish keeps them.
ghost use Rattle.std.specs.Prelude.{IsTrue, ◌↔◌, ◌≡◌, ◌<◌, ◌^◌, ◌-◌, [], Bool, ℕ, None, true, false, length, slice_index, slice_index_or, slice_set, if◌then◌else◌, ◌==◌, IfOk};
ghost use Rattle.std.specs.Arc.{arc_value};
ghost use Rattle.ready_heap.specs.Heaps.{Holds};
ghost use Rattle.one_job.specs.Ready.{side, put, none_ready, is_in, is_child_at, Releases, CanRelease, AreStarted, AreFirstReady};
ghost use Rattle.one_job.specs.Alike.{AreOneGroup, IsOfAll};

use crate::nodes::is_child;
use crate::side::ReadySide;
use job_compiler::{Compiled, Port, SideMemory};
use ready_heap::Ranking;
use sdf_level::{Edge, Node};
use std::alloc::AllocError;
use std::sync::Arc;

/// The nodes that may be claimed: those that are jobs of their own, and the others.
#[derive(Drop)]
pub(crate) struct ReadyNodes {
    pub(crate) children: ReadySide,
    pub(crate) others: ReadySide,
}

impl ReadyNodes {
    /// None of the nodes that are ranked is in. `of_all` ranks them as one group. `one_home` says that all have home 0. More memory
    /// is taken only where what is there is too little.
    fn over(
        children: SideMemory,
        others: SideMemory,
        ranking: &Arc<Ranking>,
        of_all: &Arc<Ranking>,
        one_home: bool,
    ) -> Result<ReadyNodes, AllocError>
        requires of_all { IsOfAll (arc_value ranking.now) (arc_value of_all.now) }
        requires one_home { IsTrue one_home → AreOneGroup (arc_value ranking.now).groups }
        ensures { IfOk result (λ r. r ≡ none_ready (arc_value ranking.now)) }
    {
        Ok(ReadyNodes {
            children: ReadySide::over(children, ranking, of_all, one_home)?,
            others: ReadySide::over(others, ranking, of_all, one_home)?,
        })
    }

    /// The nodes that are jobs of their own, or the others.
    pub(crate) fn side(&self, child: bool) -> &ReadySide
        ensures { result.now ≡ side self.now child }
    {
        if child { &self.children } else { &self.others }
    }

    /// Puts a node in, which is a job of its own or isn't.
    fn insert(&mut self, node: u32, child: bool)
        requires below { node < length (side self.old child).held }
        requires new { slice_index_or (side self.old child).held node false ≡ false }
        ensures { self.new ≡ put self.old child node true }
    {
        if child {
            self.children.insert(node);
        } else {
            self.others.insert(node);
        }
    }

    /// Takes it out.
    pub(crate) fn remove(&mut self, node: u32, child: bool)
        requires { Holds (side self.old child).held node }
        ensures { self.new ≡ put self.old child node false }
    {
        if child {
            self.children.remove(node);
        } else {
            self.others.remove(node);
        }
    }

    /// Whether no node is in.
    fn is_empty(&self) -> bool
        ensures { IsTrue result ↔ ((b : Bool) (n : ℕ) → Holds (side self.now b).held n → ⊥) }
    {
        self.others.is_empty() && self.children.is_empty()
    }
}

/// Puts those nodes in that wait for none.
fn put_first(ready: &mut ReadyNodes, waiting: &[usize], nodes: &[Node], kinds: &[Option<u32>])
    requires long { length nodes.now ≡ length waiting.now }
    requires wide { (b : Bool) → length (side ready.old b).held ≡ length waiting.now }
    requires none { (b : Bool) (n : ℕ) → slice_index_or (side ready.old b).held n false ≡ false }
    requires few { length waiting.now < 2 ^ 32 }
    ensures { AreStarted (is_child_at nodes.now kinds.now) waiting.now (length waiting.now) ready.old ready.new }
{
    for n in 0..waiting.len() {
        if waiting[n] == 0 {
            ready.insert(n as u32, is_child(nodes[n], kinds));
        }
    }
}

/// Whether all nodes have home 0.
fn have_home_zero(homes: &[u32]) -> bool
    ensures { IsTrue result ↔ AreOneGroup homes.now }
{
    for home in homes {
        if *home != 0 {
            return false;
        }
    }
    true
}

/// The nodes that may be claimed at the start of a job of this compilation: those that wait for none.
pub(crate) fn start_ready(
    children: SideMemory,
    others: SideMemory,
    compiled: &Compiled,
    kinds: &[Option<u32>],
    waiting: &[usize],
) -> Result<ReadyNodes, AllocError>
    requires { length waiting.now ≡ length compiled.now.graph.nodes }
    ensures { IfOk result (AreFirstReady compiled.now kinds.now waiting.now) }
{
    let one_home = have_home_zero(compiled.mapping().home.items());
    let mut ready = ReadyNodes::over(
        children,
        others,
        compiled.ranking(),
        compiled.ranking_of_all(),
        one_home,
    )?;
    put_first(&mut ready, waiting, compiled.graph().nodes.items(), kinds);
    Ok(ready)
}

/// A node waits for an edge less, and is in if it waits for none then.
fn release_one(
    waiting: &mut [usize],
    ready: &mut ReadyNodes,
    node: u32,
    nodes: &[Node],
    kinds: &[Option<u32>],
)
    requires there { node < length waiting.old }
    requires node { node < length nodes.now }
    requires wide { (b : Bool) → length (side ready.old b).held ≡ length waiting.old }
    requires waits { 0 < slice_index waiting.old node }
    requires out { is_in (is_child_at nodes.now kinds.now) ready.old node ≡ false }
    ensures waiting { waiting.new ≡ slice_set waiting.old node (slice_index waiting.old node - 1) }
    ensures ready { ready.new ≡ (if slice_index waiting.old node == 1 then put ready.old (is_child_at nodes.now kinds.now node) node true else ready.old) }
{
    let count = waiting[node as usize] - 1;
    waiting[node as usize] = count;
    if count == 0 {
        ready.insert(node, is_child(nodes[node as usize], kinds));
    }
}

/// Whether no node is claimed and none is in.
pub(crate) fn is_quiet(claimed: usize, ready: &ReadyNodes) -> bool
    ensures { IsTrue result ↔ ((claimed ≡ 0) × ((b : Bool) (n : ℕ) → Holds (side ready.now b).held n → ⊥)) }
{
    claimed == 0 && ready.is_empty()
}

/// The ports by which a node that is finished so releases nodes: none where it failed.
pub(crate) fn released<'a>(is_done: bool, ports: &'a [Port]) -> &'a [Port]
    ensures { result.now ≡ (if is_done then ports.now else []) }
{
    if is_done { ports } else { &[] }
}

/// The nodes at the heads of the edges at these ports wait for an edge less, and those that wait for none then are in.
pub(crate) fn release(
    edges: &[Edge],
    ports: &[Port],
    waiting: &mut [usize],
    ready: &mut ReadyNodes,
    nodes: &[Node],
    kinds: &[Option<u32>],
)
    requires nodes { length nodes.now ≡ length waiting.old }
    requires can { CanRelease (is_child_at nodes.now kinds.now) edges.now ports.now waiting.old ready.old }
    ensures { Releases (is_child_at nodes.now kinds.now) edges.now ports.now [] waiting.old waiting.new ready.old ready.new }
{
    for port in ports {
        if let Some(edge) = port.edge() {
            release_one(waiting, ready, edges[edge as usize].head, nodes, kinds);
        }
    }
}
