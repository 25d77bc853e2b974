ghost use Rattle.std.specs.Prelude.{◌≡◌, ◌≤◌, ◌<◌, ◌+◌, ◌*◌, ◌++◌, ℕ, ℤ, List as Seq, length, map, slice_get, slice_index, sum, IfOk, OnOk, Some};
ghost use Rattle.std.specs.Arc.{arc_value};
ghost use Rattle.level_laws.specs.Parts.{part as part_of, parts_at as parts_of};
ghost use Rattle.level_laws.specs.Unfolded.{multiplied};
ghost use Rattle.firing_laws.specs.Moving.{moved_row};
ghost use Rattle.pisdf_meaning.specs.Endings.{child_path};
ghost use Rattle.pisdf_meaning.specs.Run.{IterationGives};
ghost use Rattle.pisdf_meaning.specs.declared.outcome.TraceRow.{TraceRow as Row};
ghost use Rattle.pisdf_model.specs.Valid.{AreValid};
ghost use Rattle.pisdf_model.specs.declared.graph.Graphs.{Graphs as SomeGraphs};
ghost use Rattle.sdf_level.specs.Limits.{firings_limit};
ghost use Rattle.std.specs.List.{AllPass, range_with_len};
ghost use Rattle.unfold_rates.specs.Cut.{AreCut, IsUnfolded, firings_rows, is_within, piece_at, piece_rows as rows_of_piece};
ghost use Rattle.sdf_level.specs.Lists.{lists_of};
ghost use Rattle.unfold_rates.specs.Spans.{AreInOrder, ArePicked, ArePickedEach, AreSpans, IsSpan};

use crate::rows::{end_of_rows, firing_path, push_moved};
use crate::unfolded::Unfolded;
use firing_laws::{actors_move, graphs_below, levels_alike};
use level_laws::counts_multiplied;
use param_expr::Name;
use param_resolver::early_unfolds;
use pisdf_meaning::{Iteration, TraceRow};
use pisdf_model::{Graph, Graphs};
use sdf_level::List;
use std::alloc::{AllocError, Global};

/// One of the equal parts of a list, of which there are so many.
fn part(alloc: Global, tokens: &[i64], times: u32, number: u32) -> Result<List<i64>, AllocError>
    requires some { 0 < times }
    requires there { number < times }
    ensures { IfOk result (λ list. list ≡ part_of times number tokens.now) }
{
    let size = tokens.len() / times as usize;
    let start = number as usize * size;
    let tokens = Vec::from_slice(alloc, &tokens[start..start + size])?;
    Ok(List::new(tokens))
}

/// That part of each list.
fn parts_at(
    alloc: Global,
    lists: &[List<i64>],
    times: u32,
    number: u32,
) -> Result<List<List<i64>>, AllocError>
    requires some { 0 < times }
    requires there { number < times }
    ensures { IfOk result (λ parts. parts ≡ parts_of times number lists.now) }
{
    let mut parts = Vec::with_capacity(alloc, lists.len())?;
    for list in lists {
        parts.push(part(alloc, list.items(), times, number)?)?;
    }
    Ok(List::new(parts))
}

/// Where the rows of this firing of an actor end, that begin at `start`.
fn end_of_firing(
    alloc: Global,
    top: &Name,
    actor: &Name,
    firing: u32,
    rows: &[TraceRow],
    start: usize,
) -> Result<usize, AllocError>
    requires { start ≤ length rows.now }
    ensures { IfOk result (IsSpan rows.now (child_path top.now actor.now firing) start) }
{
    // Where no row is left, as in graphs without parameters that are chosen, no path is made.
    if start == rows.len() {
        return Ok(start);
    }
    let path = firing_path(alloc, top, actor, firing)?;
    Ok(end_of_rows(rows, start, &path))
}

/// Where the rows of each firing of an actor begin, and where those of the last one end. Those of the first begin at `start`.
fn bounds_of(
    alloc: Global,
    top: &Name,
    actor: &Name,
    firings: u32,
    rows: &[TraceRow],
    start: usize,
) -> Result<Vec<usize>, AllocError>
    requires { start ≤ length rows.now }
    ensures { IfOk result (λ bounds. AreSpans rows.now top.now actor.now firings start bounds.items) }
{
    let mut bounds = Vec::new(alloc);
    bounds.push(start)?;
    let mut end = start;
    for firing in 0..firings {
        end = end_of_firing(alloc, top, actor, firing, rows, end)?;
        bounds.push(end)?;
    }
    Ok(bounds)
}

/// The bound with this number.
fn bound_at(bounds: &[usize], number: u32) -> usize
    requires { number < length bounds.now }
    ensures { result ≡ slice_index bounds.now number }
{
    bounds[number as usize]
}

/// The same for each actor, so many times its count of firings.
fn all_bounds(
    alloc: Global,
    top: &Graph,
    counts: &[u32],
    times: u32,
    rows: &[TraceRow],
) -> Result<Vec<Vec<usize>>, AllocError>
    requires one_each { length counts.now ≡ length top.now.actors }
    requires few { sum (multiplied times counts.now) ≤ firings_limit }
    requires in_order { AreInOrder top.now (multiplied times counts.now) rows.now }
    ensures { IfOk result (λ bounds. ArePickedEach rows.now top.now (multiplied times counts.now) (lists_of bounds.items)) }
{
    let mut all = Vec::new(alloc);
    let mut start = 0;
    for (place, actor) in top.actors.items().iter().enumerate() {
        let firings = times * counts[place];
        let bounds = bounds_of(alloc, &top.name, &actor.name, firings, rows, start)?;
        start = bound_at(&bounds, firings);
        all.push(bounds)?;
    }
    Ok(all)
}

/// Adds these rows of one firing of an actor, as those of its firing `turn`.
fn push_firing(
    alloc: Global,
    top: &Name,
    actor: &Name,
    firing: u32,
    turn: u32,
    rows: &[TraceRow],
    trace: &mut Vec<TraceRow>,
) -> Result<(), AllocError>
    requires { AllPass (λ (row : Row). is_within (child_path top.now actor.now firing) row.path) rows.now }
    ensures { OnOk result (trace.new.items ≡ trace.old.items ++ map (moved_row (child_path top.now actor.now firing) (child_path top.now actor.now turn)) rows.now) }
{
    // Most firings have no rows, and need no paths.
    if rows.is_empty() {
        return Ok(());
    }
    let from = firing_path(alloc, top, actor, firing)?;
    let to = firing_path(alloc, top, actor, turn)?;
    push_moved(alloc, rows, &from, &to, trace)
}

/// Adds the rows of so many firings of an actor from `first` on, as those of its firings from 0 on.
fn push_firings(
    alloc: Global,
    top: &Name,
    actor: &Name,
    first: u32,
    count: u32,
    rows: &[TraceRow],
    bounds: &[usize],
    trace: &mut Vec<TraceRow>,
) -> Result<(), AllocError>
    requires few { first + count ≤ firings_limit }
    requires picked { (all : ℕ) × (first + count ≤ all) × ArePicked rows.now top.now actor.now all bounds.now }
    ensures { OnOk result (trace.new.items ≡ trace.old.items ++ firings_rows top.now actor.now first count rows.now) }
{
    for turn in 0..count {
        let firing = first + turn;
        let start = bounds[firing as usize];
        let end = bounds[firing as usize + 1];
        push_firing(alloc, top, actor, firing, turn, &rows[start..end], trace)?;
    }
    Ok(())
}

/// The rows of the piece with this number.
fn piece_rows(
    alloc: Global,
    top: &Graph,
    counts: &[u32],
    times: u32,
    number: u32,
    rows: &[TraceRow],
    bounds: &[Vec<usize>],
) -> Result<List<TraceRow>, AllocError>
    requires one_each { length counts.now ≡ length top.now.actors }
    requires few { sum (multiplied times counts.now) ≤ firings_limit }
    requires there { number < times }
    requires picked { ArePickedEach rows.now top.now (multiplied times counts.now) (lists_of bounds.now) }
    ensures { IfOk result (λ trace. trace ≡ rows_of_piece top.now counts.now number rows.now) }
{
    let mut trace = Vec::new(alloc);
    for (place, actor) in top.actors.items().iter().enumerate() {
        let count = counts[place];
        push_firings(
            alloc,
            &top.name,
            &actor.name,
            number * count,
            count,
            rows,
            &bounds[place],
            &mut trace,
        )?;
    }
    Ok(List::new(trace))
}

/// The pieces of an iteration with these outputs and rows, which stand in the order of the firings of the top graph.
fn pieces_of(
    alloc: Global,
    top: &Graph,
    counts: &[u32],
    times: u32,
    outs: &[List<i64>],
    rows: &[TraceRow],
) -> Result<List<Iteration>, AllocError>
    requires one_each { length counts.now ≡ length top.now.actors }
    requires few { sum (multiplied times counts.now) ≤ firings_limit }
    requires in_order { AreInOrder top.now (multiplied times counts.now) rows.now }
    ensures { IfOk result (λ pieces. pieces ≡ map (piece_at top.now counts.now times record { outs = outs.now; trace = rows.now }) (range_with_len 0 times)) }
{
    let bounds = all_bounds(alloc, top, counts, times, rows)?;
    let mut pieces = Vec::new(alloc);
    for number in 0..times {
        let part = parts_at(alloc, outs, times, number)?;
        let trace = piece_rows(alloc, top, counts, times, number, rows, &bounds)?;
        pieces.push(Iteration { outs: part, trace })?;
    }
    Ok(List::new(pieces))
}

/// The top graph.
fn top_of(graphs: &Graphs) -> &Graph
    requires { graphs.now.top < length graphs.now.graphs }
    ensures { slice_get graphs.now.graphs graphs.now.top ≡ Some result.now }
{
    &graphs.graphs.items()[graphs.top as usize]
}

impl Unfolded {
    /// The iterations that one of the unfolded graphs stands for, in their order. Each has the part of the outputs with its number,
    /// and of each actor's firings those from its number times the actor's count on, as firings from 0 on.
    ///
    /// # Errors
    ///
    /// Want of memory.
    pub fn cut(&self, alloc: Global, iteration: &Iteration) -> Result<List<Iteration>, AllocError>
        requires of { (graphs : SomeGraphs) × AreValid graphs × IsUnfolded graphs self.now.times self.now }
        requires done { (ins state left : Seq (Seq ℤ)) × IterationGives (arc_value self.now.graphs) ins state iteration.now left }
        ensures pieces { IfOk result (AreCut self.now iteration.now) }
    {
        early_unfolds();
        counts_multiplied();
        graphs_below();
        levels_alike();
        actors_move();
        let top = top_of(&self.graphs);
        let outs = iteration.outs.items();
        let rows = iteration.trace.items();
        pieces_of(alloc, top, self.counts.items(), self.times, outs, rows)
    }
}
