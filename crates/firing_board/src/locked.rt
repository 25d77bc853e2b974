// A board under a lock.
use crate::board::Board;
use board_lock::Locked;
use board_rules::Entry;
use std::marker::Model;

/// What a board was started with. No value of it is made.
pub struct BoardKey;

impl Model for BoardKey {
    ghost use Rattle.board_rules.specs.Keys.{Key};
    ghost use Rattle.firing_board.specs.Locking.{no_key};

    ghost Value = { Key };

    ghost use Rattle.std.specs.Coded.{codes};
    ghost use Rattle.param_expr.specs.Tree.{tree_code};

    ghost coded = { Prim.hlevel (codes, tree_code) };

    ghost view = { λ _. no_key };
}

/// Where the leases of a frame lie. No value of it is made.
pub struct FramePlaces;

impl Model for FramePlaces {
    ghost use Rattle.kernel_gate.specs.Value.{Places};
    ghost use Rattle.one_job.specs.Marks.{nowhere};

    ghost Value = { Places };

    ghost view = { λ _. nowhere };
}

impl Locked for Board {
    ghost use Rattle.firing_board.specs.Locking.{board_meant};

    type Key = BoardKey;

    type Entry = Entry;

    type Place = FramePlaces;

    ghost meant = { board_meant };
}
