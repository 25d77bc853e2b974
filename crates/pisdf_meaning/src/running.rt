// Where the run of a level stands, and what it leaves.
ghost use Rattle.std.specs.Prelude.{◌≡◌, ℕ, ◌<◌, ◌++◌, [], length, set, slice_index_or, IfOk, IfErr, OnOk};
ghost use Rattle.level_lines.specs.AtActors.{ArePorts};
ghost use Rattle.sdf_level.specs.Lists.{lists_of};
ghost use Rattle.sdf_level.specs.LevelRun.{end_of};
ghost use Rattle.sdf_level.specs.Run.{put as lines_put};
ghost use Rattle.pisdf_meaning.specs.Endings.{IfRefused};
ghost use Rattle.pisdf_meaning.specs.Running.{link_starts};

use crate::firing::{Firing, Made};
use crate::giving::LevelEnd;
use crate::outcome::TraceRow;
use crate::parts::Prepared;
use crate::refusal::PlainFault;
use crate::rows::append_to;
use crate::states::link_starts;
use level_lines::{kept, left, put};
use pisdf_model::Graph;
use sdf_level::{Level, List, Turn, empty_lists};
use std::alloc::{AllocError, Global};

/// Where the run of a level stands.
#[derive(Drop)]
pub(crate) struct RunState {
    /// The line of each link: all tokens that were put on it.
    pub(crate) lines: Vec<Vec<i64>>,
    /// The traces of the firings of each actor of the level.
    pub(crate) rows: Vec<Vec<TraceRow>>,
}

/// Where it stands before the first firing, in a level of so many actors.
pub(crate) fn starting(
    alloc: Global,
    graphs: &[Graph],
    graph: &Graph,
    firing: &Firing,
    actors: u32,
) -> Result<RunState, AllocError>
    ensures lines { IfOk result (λ s. lists_of s.lines.items ≡ link_starts graphs.now graph.now firing.now) }
    ensures rows { IfOk result (λ s. (b : ℕ) → slice_index_or (lists_of s.rows.items) b [] ≡ []) }
    ensures one_each { IfOk result (λ s. length s.rows.items ≡ actors) }
{
    let lines = link_starts(alloc, graphs, graph, firing)?;
    let rows = empty_lists(alloc, actors as usize)?;
    Ok(RunState { lines, rows })
}

/// Puts what a firing of an actor of the level made on the lines of the actor's outputs, and adds its trace to the actor's.
///
/// # Errors
///
/// Want of memory. Some of it may have been put.
pub(crate) fn end_turn(
    alloc: Global,
    prepared: &Prepared,
    turn: Turn,
    made: Made,
    state: &mut RunState,
) -> Result<(), PlainFault>
    requires ports { ArePorts prepared.now.parts.level prepared.now.ports }
    requires actor { turn.actor < prepared.now.parts.level.actors }
    requires lines { length state.old.lines.items ≡ length prepared.now.parts.level.links }
    requires rows { length state.old.rows.items ≡ prepared.now.parts.level.actors }
    ensures puts { OnOk result (lists_of state.new.lines.items ≡ lines_put turn.actor made.outs prepared.now.parts.level.links (lists_of state.old.lines.items)) }
    ensures adds { OnOk result (lists_of state.new.rows.items ≡ set (lists_of state.old.rows.items) turn.actor (slice_index_or (lists_of state.old.rows.items) turn.actor [] ++ made.trace)) }
    ensures lines { OnOk result (length state.new.lines.items ≡ length state.old.lines.items) }
    ensures rows { OnOk result (length state.new.rows.items ≡ length state.old.rows.items) }
    ensures never_refused { IfErr result (IfRefused (λ refusal. ⊥)) }
{
    put(
        &prepared.parts.level,
        &prepared.ports,
        &mut state.lines,
        turn.actor,
        made.outs.items(),
    )?;
    append_to(alloc, &mut state.rows, turn.actor, made.trace.items())?;
    Ok(())
}

/// What the run leaves after all firings, of which each actor made its count.
pub(crate) fn ended(
    alloc: Global,
    level: &Level,
    counts: &[u32],
    state: RunState,
) -> Result<LevelEnd, AllocError>
    requires counts { length counts.now ≡ level.now.actors }
    requires lines { length state.lines.items ≡ length level.now.links }
    ensures end { IfOk result (λ e. record { outs = e.outs; left = e.left } ≡ end_of level.now counts.now (lists_of state.lines.items)) }
    ensures rows { IfOk result (λ e. e.rows ≡ state.rows) }
{
    Ok(LevelEnd {
        outs: kept(alloc, level, &state.lines)?,
        left: left(alloc, level, counts, &state.lines)?,
        rows: state.rows,
    })
}
