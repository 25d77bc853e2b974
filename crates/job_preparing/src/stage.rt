// How far configuration actors are.
ghost use Rattle.std.specs.Prelude.{◌≡◌, ◌<◌, Some, IsSome, length, position, slice_set};
ghost use Rattle.std.specs.List.{list_all};
ghost use Rattle.job_preparing.specs.Stages.{has_given, is_call, is_done, is_kernel, line_in, or_else, refusal_in, refusal_of, spare_in};

use crate::handing::JobGiven;
use kernel_gate::Told;
use param_expr::Name;
use pisdf_meaning::{Firing, Path, Refusal};
use sdf_level::List;
use std::snapshot::Snapshot;

/// What the finish of a kernel is made of, so that it takes no memory.
#[derive(Drop)]
pub(crate) struct Spare {
    /// Where a refusal stands.
    pub(crate) path: Path,
    /// The actor's name.
    pub(crate) name: Name,
    /// Empty, with room for the outputs.
    pub(crate) lists: Vec<List<i64>>,
}

/// How far a configuration actor is.
#[derive(Drop)]
pub(crate) enum Stage {
    /// It fires a kernel, and its frame waits.
    Fires(Spare),
    /// It fires a graph.
    Calls,
    /// Its frame is out.
    Busy(Told, Spare),
    /// Its graph is fired; with an empty list that has room for the state which this leaves.
    Open(Snapshot<Firing>, Vec<i64>),
    /// It gave something.
    Gave(Snapshot<JobGiven>),
    /// It was refused.
    Refused(Refusal),
}

/// What is ready for the finish of a kernel.
pub(crate) fn spare_of(stage: Stage) -> Spare
    requires { IsSome (spare_in stage) }
    ensures { spare_in stage ≡ Some result }
{
    match stage {
        Stage::Fires(spare) => spare,
        Stage::Busy(_, spare) => spare,
        Stage::Calls => unreachable!(),
        Stage::Open(_, _) => unreachable!(),
        Stage::Gave(_) => unreachable!(),
        Stage::Refused(_) => unreachable!(),
    }
}

/// The room for the state of a graph that is fired.
pub(crate) fn line_of(stage: Stage) -> Vec<i64>
    requires { IsSome (line_in stage) }
    ensures { line_in stage ≡ Some result }
{
    match stage {
        Stage::Open(_, line) => line,
        Stage::Fires(_) => unreachable!(),
        Stage::Busy(_, _) => unreachable!(),
        Stage::Calls => unreachable!(),
        Stage::Gave(_) => unreachable!(),
        Stage::Refused(_) => unreachable!(),
    }
}

/// Writes the stage of the actor with this number.
pub(crate) fn put(stages: &mut Vec<Stage>, number: usize, stage: Stage)
    requires { number < length stages.old.items }
    ensures { stages.new.items ≡ slice_set stages.old.items number stage }
{
    stages[number] = stage;
}

fn fires_kernel(stage: &Stage) -> bool
    ensures { result ≡ is_kernel stage.now }
{
    match stage {
        Stage::Fires(_) => true,
        Stage::Calls => false,
        Stage::Busy(_, _) => false,
        Stage::Open(_, _) => false,
        Stage::Gave(_) => false,
        Stage::Refused(_) => false,
    }
}

fn calls_graph(stage: &Stage) -> bool
    ensures { result ≡ is_call stage.now }
{
    match stage {
        Stage::Fires(_) => false,
        Stage::Calls => true,
        Stage::Busy(_, _) => false,
        Stage::Open(_, _) => false,
        Stage::Gave(_) => false,
        Stage::Refused(_) => false,
    }
}

fn gave(stage: &Stage) -> bool
    ensures { result ≡ has_given stage.now }
{
    match stage {
        Stage::Fires(_) => false,
        Stage::Calls => false,
        Stage::Busy(_, _) => false,
        Stage::Open(_, _) => false,
        Stage::Gave(_) => true,
        Stage::Refused(_) => false,
    }
}

fn finished(stage: &Stage) -> bool
    ensures { result ≡ is_done stage.now }
{
    match stage {
        Stage::Fires(_) => false,
        Stage::Calls => false,
        Stage::Busy(_, _) => false,
        Stage::Open(_, _) => false,
        Stage::Gave(_) => true,
        Stage::Refused(_) => true,
    }
}

/// The first actor that fires a kernel and isn't claimed.
pub(crate) fn first_kernel(stages: &[Stage]) -> Option<usize>
    ensures { result ≡ position is_kernel stages.now }
{
    stages.iter().position(|stage| fires_kernel(stage))
}

/// The first actor that fires a graph and isn't called.
pub(crate) fn first_call(stages: &[Stage]) -> Option<usize>
    ensures { result ≡ position is_call stages.now }
{
    stages.iter().position(|stage| calls_graph(stage))
}

pub(crate) fn all_gave(stages: &[Stage]) -> bool
    ensures { result ≡ list_all has_given stages.now }
{
    stages.iter().all(|stage| gave(stage))
}

pub(crate) fn all_finished(stages: &[Stage]) -> bool
    ensures { result ≡ list_all is_done stages.now }
{
    stages.iter().all(|stage| finished(stage))
}

/// The refusal that was found, or else that of the next actor.
fn refusal_after(found: Option<Refusal>, next: Stage) -> Option<Refusal>
    ensures { result ≡ or_else found (refusal_of next) }
{
    match found {
        Some(refusal) => Some(refusal),
        None => match next {
            Stage::Refused(refusal) => Some(refusal),
            Stage::Fires(_) => None,
            Stage::Calls => None,
            Stage::Busy(_, _) => None,
            Stage::Open(_, _) => None,
            Stage::Gave(_) => None,
        },
    }
}

/// The first refusal.
pub(crate) fn first_refused(stages: Vec<Stage>) -> Option<Refusal>
    ensures { result ≡ refusal_in stages.items }
{
    let mut found = None;
    for stage in stages {
        found = refusal_after(found, stage);
    }
    found
}
