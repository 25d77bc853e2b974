// How many parts there are in a file. Delays are counted, and not made.
ghost use Rattle.std.specs.Prelude.{◌≡◌, ℕ, nat_lt, Bool, false, List as Seq, IfOk, length, map, slice_index_or};
ghost use Rattle.std.specs.List.{range_with_len};
ghost use Rattle.pisdf_model.specs.Count.{count_faults, delay_limit, excess_of};
ghost use Rattle.pisdf_model.specs.Details.{Answers, first, of_each};
ghost use Rattle.pisdf_model.specs.Hold.{capped_hold};
ghost use Rattle.pisdf_model.specs.Range.{life_of};
ghost use Rattle.graph_format.specs.Placed.{mark_of, placed, tokens_of};
ghost use Rattle.graph_reader.specs.Counted.{has_long_delay, kept_count, own_count, own_counts, part_counts};

use graph_format::{File, FileDelay, FileFifo, FileGraph};
use pisdf_model::{
    Counted, DetailFault, Graphs, Life, MAX_DELAY_TOKENS, MAX_GRAPHS, PartCounts, capped_hold_sum,
    large_holds, life_of,
};
use std::alloc::{AllocError, Global};

/// Whether a delay has too many tokens.
fn is_long(delay: &FileDelay) -> bool
    ensures { result ≡ nat_lt delay_limit (length (tokens_of delay.now)) }
{
    match delay {
        FileDelay::Zeros(count) => *count > MAX_DELAY_TOKENS as u64,
        FileDelay::Tokens(tokens) => tokens.items().len() > MAX_DELAY_TOKENS,
    }
}

fn has_long_delay(fifos: &[FileFifo]) -> bool
    ensures { result ≡ has_long_delay fifos.now }
{
    fifos.iter().any(|fifo| is_long(&fifo.delay))
}

fn counts_of(graph: &FileGraph, has_large_hold: bool) -> PartCounts
    ensures { result ≡ part_counts has_large_hold graph.now }
{
    PartCounts {
        params: graph.params.items().len(),
        inputs: graph.inputs.items().len(),
        outputs: graph.outputs.items().len(),
        actors: graph.actors.items().len(),
        fifos: graph.fifos.items().len(),
        exports: graph.exports.items().len(),
        has_long_delay: has_long_delay(graph.fifos.items()),
        has_large_hold,
    }
}

/// How many tokens a delay has.
fn token_count(delay: &FileDelay) -> usize
    ensures { result ≡ length (tokens_of delay.now) }
{
    match delay {
        FileDelay::Zeros(count) => *count as usize,
        FileDelay::Tokens(tokens) => tokens.items().len(),
    }
}

/// The life of a FIFO's tokens, in a graph that is the top one or not.
fn life_in(version: u32, is_top: bool, fifo: &FileFifo) -> Life
    ensures { result ≡ life_of version is_top fifo.now.life (tokens_of fifo.now.delay) }
{
    // One token tells as much as all of them.
    if token_count(&fifo.delay) == 0 {
        life_of(version, is_top, fifo.life, &[])
    } else {
        life_of(version, is_top, fifo.life, &[0])
    }
}

/// How many tokens of a FIFO go on over the firings of its graph.
fn kept_count(version: u32, is_top: bool, fifo: &FileFifo) -> usize
    ensures { result ≡ kept_count version is_top fifo.now }
{
    match life_in(version, is_top, fifo) {
        Life::Firing => 0,
        Life::Permanent => token_count(&fifo.delay),
    }
}

/// The same of all FIFOs of a graph, counted to one more than the limit.
fn own_count(version: u32, is_top: bool, graph: &FileGraph) -> usize
    ensures { result ≡ capped_hold (own_count version is_top graph.now) }
{
    let mut total = 0;
    for fifo in graph.fifos.items() {
        total = capped_hold_sum(total, kept_count(version, is_top, fifo));
    }
    total
}

/// The same of each graph of a file.
fn own_counts(alloc: Global, file: &File, top: u32) -> Result<Vec<usize>, AllocError>
    ensures { IfOk result (λ own. own.items ≡ own_counts file.now top) }
{
    let mut own = Vec::new(alloc);
    for (number, graph) in file.graphs.items().iter().enumerate() {
        own.push(own_count(file.version, number == top as usize, graph))?;
    }
    Ok(own)
}

/// The first of what the graph with this number has too many of, where these holds are too large.
fn first_excess(graph: &FileGraph, large: &[bool], number: usize) -> Option<Counted>
    ensures { result ≡ first (excess_of (part_counts (slice_index_or large.now number false) graph.now)) }
{
    let is_large = large.get(number).copied().unwrap_or(false);
    counts_of(graph, is_large).excess()
}

/// Whether no graph has too many parts, where these holds are too large.
fn count_graphs(graphs: &[FileGraph], large: &[bool]) -> Result<(), DetailFault<Counted>>
    ensures { Answers (of_each (λ n g. excess_of (part_counts (slice_index_or large.now n false) g)) graphs.now) result }
{
    for (number, graph) in graphs.iter().enumerate() {
        if let Some(counted) = first_excess(graph, large, number) {
            return Err(DetailFault::Fault(counted));
        }
    }
    Ok(())
}

/// Whether there are not too many parts in a file, whose graphs are these with their delays marked: graphs; then, graph
/// by graph, parameters, inputs, outputs, actors, FIFOs, exports, tokens of a delay, and tokens of the state of a graph
/// that an actor names.
pub(crate) fn count(alloc: Global, file: &File, marked: &Graphs) -> Result<(), DetailFault<Counted>>
    requires { length marked.now.graphs ≡ length file.now.graphs }
    ensures { (kernels : Seq (Seq ℕ)) → marked.now ≡ placed mark_of kernels file.now → Answers (count_faults (placed tokens_of kernels file.now)) result }
{
    let graphs = file.graphs.items();
    if graphs.len() > MAX_GRAPHS {
        return Err(DetailFault::Fault(Counted::Graphs));
    }
    let own = own_counts(alloc, file, marked.top)?;
    let large = large_holds(alloc, marked.graphs.items(), &own)?;
    count_graphs(graphs, &large)
}
