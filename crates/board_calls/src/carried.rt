// What the boards of a run keep from one to the next.
ghost use Rattle.std.specs.Prelude.{◌≡◌, None, false};
ghost use Rattle.firing_board.specs.Keeping.{AreKeptLevelsOf};
ghost use Rattle.firing_board.specs.Runs.{AreAllIdle};

use firing_board::Board;
use job_compiler::Kept;
use job_preparing::KeptLevels;
use quiescent_driver::{lend_kept, lend_levels};

/// What the boards of a run keep from one to the next.
#[derive(Drop)]
pub(crate) struct Carried {
    /// The compilations, where they are kept.
    pub(crate) kept: Option<Kept>,
    /// The levels; none before the first board.
    pub(crate) levels: Option<KeptLevels>,
    /// Whether levels are kept.
    pub(crate) keeps_levels: bool,
}

impl Carried {
    /// What the first board gets.
    pub(crate) fn new(kept: Option<Kept>, keeps_levels: bool) -> Carried
        ensures { result.levels ≡ None }
    {
        Carried {
            kept,
            levels: None,
            keeps_levels,
        }
    }
}

/// Moves what is kept into a board.
pub(crate) fn lend(board: &mut Board, carried: &mut Carried)
    requires idle { AreAllIdle board.old }
    requires levels { AreKeptLevelsOf board.old.key.graphs carried.old.levels }
    ensures key { board.new.key ≡ board.old.key }
    ensures idle { AreAllIdle board.new }
{
    lend_levels(board, &mut carried.levels);
    lend_kept(board, &mut carried.kept);
}

/// Moves what is kept out of a board.
pub(crate) fn take_back(board: &mut Board, carried: &mut Carried)
    ensures board { board.new ≡ record board.old { kept = false } }
    ensures levels { AreKeptLevelsOf board.old.key.graphs carried.new.levels }
{
    let levels = board.take_levels();
    carried.levels = if carried.keeps_levels { levels } else { None };
    carried.kept = board.take_kept();
}
