// What becomes of what configuration actors give.
ghost use Rattle.std.specs.Prelude.{◌≡◌, ◌≤◌, ◌+◌, ◌++◌, [], length, map, vec_capacity};
ghost use Rattle.kernel_gate.specs.Leased.{AreWhole};
ghost use Rattle.kernel_gate.specs.Value.{lengths};
ghost use Rattle.pisdf_model.specs.Hold.{in_line};
ghost use Rattle.job_preparing.specs.Ending.{IsKeptAs};

use crate::handing::JobGiven;
use crate::stage::Stage;
use crate::trace::Trace;
use kernel_gate::{Frame, Lent, spend};
use pisdf_meaning::{Configured, lists_of_leases};
use sdf_level::List;
use std::alloc::Global;
use std::snapshot::Snapshot;

/// What stands in a fired frame, which is given up: `lists` is empty, and has room for the outputs.
pub(crate) fn kernel_given(alloc: Global, frame: Frame, lists: Vec<List<i64>>) -> JobGiven
    requires whole { AreWhole frame.places }
    requires empty { lists.items ≡ [] }
    requires room { length frame.places.outputs ≤ vec_capacity lists }
    ensures given { result ≡ record { outs = frame.outputs; state = []; trace = []; exports = frame.sets } }
    ensures long { lengths frame.outputs ≡ map (λ p. p.len) frame.places.outputs }
{
    frame.outputs_fill_leases();
    let Lent {
        kind: _,
        args: _,
        inputs,
        outputs,
        sets,
    } = Box::into_inner(frame.take_back());
    spend(inputs);
    JobGiven {
        outs: lists_of_leases(outputs, lists),
        state: List::new(Vec::new(alloc)),
        trace: Trace::new(alloc),
        exports: List::new(sets),
    }
}

/// Adds the tokens of a list, for which there is room.
fn add_reserved(line: &mut Vec<i64>, tokens: &[i64])
    requires { length line.old.items + length tokens.now ≤ vec_capacity line.old }
    ensures items { line.new.items ≡ line.old.items ++ tokens.now }
    ensures capacity { vec_capacity line.new ≡ vec_capacity line.old }
{
    for token in tokens {
        line.push_reserved(*token);
    }
}

/// The lists of a state in one line: `line` is empty, and has room for them.
pub(crate) fn in_line(mut line: Vec<i64>, state: &[List<i64>]) -> List<i64>
    requires empty { line.items ≡ [] }
    requires room { length (in_line state.now) ≤ vec_capacity line }
    ensures { result ≡ in_line state.now }
{
    for list in state {
        add_reserved(&mut line, list.items());
    }
    List::new(line)
}

/// Keeps what was given as what a configuration actor leaves: `line` is empty, and has room for the state.
pub(crate) fn keep(
    alloc: Global,
    given: JobGiven,
    line: Vec<i64>,
    left: &mut Configured,
    trace: &mut Trace,
) -> Stage
    requires empty { line.items ≡ [] }
    requires room { length (in_line given.state) ≤ vec_capacity line }
    ensures stage { IsKeptAs given result }
    ensures left { left.new ≡ record { outs = given.outs; sets = given.exports; state = in_line given.state; trace = [] } }
    ensures trace { trace.new ≡ given.trace }
{
    let told = Snapshot::of(&given);
    let JobGiven {
        outs,
        state,
        trace: rows,
        exports,
    } = given;
    *left = Configured {
        outs,
        sets: exports,
        state: in_line(line, state.items()),
        trace: List::new(Vec::new(alloc)),
    };
    *trace = rows;
    Stage::Gave(told)
}
