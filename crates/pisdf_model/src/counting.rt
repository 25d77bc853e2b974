ghost use Rattle.std.specs.Prelude.{◌≡◌, ◌<◌, false, length, map, slice_index_or, List as Seq, IfOk};
ghost use Rattle.std.specs.List.{range_with_len};
ghost use Rattle.pisdf_model.specs.Hold.{has_large_hold};
ghost use Rattle.pisdf_model.specs.declared.graph.Graph.{Graph};
ghost use Rattle.pisdf_model.specs.Details.{Answers, first};
ghost use Rattle.pisdf_model.specs.Count.{count_faults, counts_of, excess_of, graph_counts, has_long_delay, word_of};

use crate::detail_fault::DetailFault;
use crate::fifo::Fifo;
use crate::graph::{Graph, Graphs};
use crate::limits::{
    MAX_ACTORS, MAX_DELAY_TOKENS, MAX_EXPORTS, MAX_FIFOS, MAX_GRAPHS, MAX_INPUTS, MAX_OUTPUTS,
    MAX_PARAMS,
};
use crate::state_tokens::{large_holds, own_holds};
use std::alloc::{AllocError, Global};

/// What there may be too many of.
#[derive(Clone, Copy, Debug, PartialEq, Eq)]
pub enum Counted {
    Graphs,
    Params,
    Inputs,
    Outputs,
    Actors,
    Fifos,
    Exports,
    /// The tokens of one delay.
    Delay,
    /// The tokens that the state of a graph begins with.
    Hold,
}

impl Counted {
    /// Its word in texts.
    pub fn word(self) -> &'static str
        ensures { result.now ≡ word_of self }
    {
        match self {
            Counted::Graphs => "graphs",
            Counted::Params => "params",
            Counted::Inputs => "inputs",
            Counted::Outputs => "outputs",
            Counted::Actors => "actors",
            Counted::Fifos => "fifos",
            Counted::Exports => "exports",
            Counted::Delay => "delay",
            Counted::Hold => "hold",
        }
    }
}

fn has_long_delay(fifos: &[Fifo]) -> bool
    ensures { result ≡ has_long_delay fifos.now }
{
    fifos
        .iter()
        .any(|fifo| fifo.delay.items().len() > MAX_DELAY_TOKENS)
}

/// How many parts a graph has.
#[derive(Clone, Copy, Debug)]
pub struct PartCounts {
    pub params: usize,
    pub inputs: usize,
    pub outputs: usize,
    pub actors: usize,
    pub fifos: usize,
    pub exports: usize,
    /// Whether some delay has more tokens than it may have.
    pub has_long_delay: bool,
    /// Whether some actor names the graph, and its state begins with more tokens than it may.
    pub has_large_hold: bool,
}

impl PartCounts {
    /// The first of what there are too many of.
    pub fn excess(self) -> Option<Counted>
        ensures { result ≡ first (excess_of self) }
    {
        if self.params > MAX_PARAMS {
            Some(Counted::Params)
        } else if self.inputs > MAX_INPUTS {
            Some(Counted::Inputs)
        } else if self.outputs > MAX_OUTPUTS {
            Some(Counted::Outputs)
        } else if self.actors > MAX_ACTORS {
            Some(Counted::Actors)
        } else if self.fifos > MAX_FIFOS {
            Some(Counted::Fifos)
        } else if self.exports > MAX_EXPORTS {
            Some(Counted::Exports)
        } else if self.has_long_delay {
            Some(Counted::Delay)
        } else if self.has_large_hold {
            Some(Counted::Hold)
        } else {
            None
        }
    }
}

fn counts_of(has_large_hold: bool, graph: &Graph) -> PartCounts
    ensures { result ≡ counts_of has_large_hold graph.now }
{
    PartCounts {
        params: graph.params.items().len(),
        inputs: graph.inputs.items().len(),
        outputs: graph.outputs.items().len(),
        actors: graph.actors.items().len(),
        fifos: graph.fifos.items().len(),
        exports: graph.exports.items().len(),
        has_long_delay: has_long_delay(graph.fifos.items()),
        has_large_hold,
    }
}

/// For each graph, whether some actor names it and its state begins with too many tokens.
fn with_large_holds(alloc: Global, graphs: &[Graph]) -> Result<Vec<bool>, AllocError>
    ensures { IfOk result (λ v. v.items ≡ map (λ place. has_large_hold graphs.now place) (range_with_len 0 (length graphs.now))) }
{
    let own = own_holds(alloc, graphs)?;
    let large = large_holds(alloc, graphs, &own)?;
    Ok(large)
}

/// Whether the graph at a place has not too many parts, where these graphs have too large a hold.
fn graph_count(large: &[bool], number: usize, graph: &Graph) -> Result<(), DetailFault<Counted>>
    ensures { (graphs : Seq Graph) → large.now ≡ map (λ place. has_large_hold graphs place) (range_with_len 0 (length graphs)) → number < length graphs → Answers (graph_counts graphs number graph.now) result }
{
    match counts_of(large.get(number).copied().unwrap_or(false), graph).excess() {
        None => Ok(()),
        Some(counted) => Err(DetailFault::Fault(counted)),
    }
}

/// Whether there are not too many parts: graphs; then, graph by graph, parameters, inputs, outputs, actors, FIFOs, exports,
/// tokens of a delay, and tokens of the state of a graph that an actor names.
///
/// # Errors
///
/// - `Fault`: the first of what there are too many of.
/// - `Memory`: want of memory.
pub fn count(alloc: Global, graphs: &Graphs) -> Result<(), DetailFault<Counted>>
    ensures { Answers (count_faults graphs.now) result }
{
    let all = graphs.graphs.items();
    if all.len() > MAX_GRAPHS {
        return Err(DetailFault::Fault(Counted::Graphs));
    }
    let large = with_large_holds(alloc, all)?;
    for (number, graph) in all.iter().enumerate() {
        graph_count(&large, number, graph)?;
    }
    Ok(())
}
