// How far the nodes of a firing are, as clauses see it.
ghost use Rattle.std.specs.Prelude.{◌≡◌, replicate, slice_set};

use crate::nodes::stage::Stage;
use std::marker::Model;
use std::mem;
use std::snapshot::Snapshot;

/// How far each node was, and what changed last.
#[derive(Drop)]
pub(crate) enum Past {
    /// So many nodes, each of which is free.
    Free(usize),
    /// One node is so now.
    Then {
        past: Snapshot<Past>,
        node: u32,
        stage: Stage,
    },
}

/// How far each node is, by its number. It has no bytes, and no code can read it.
#[derive(Drop)]
pub(crate) struct Stages {
    past: Snapshot<Past>,
}

impl Model for Stages {
    ghost use Rattle.std.specs.Prelude.{List as Seq};
    ghost use Rattle.graph_firing.specs.declared.nodes.stage.Stage.{Stage as StageView};

    ghost Value = { Seq StageView };

    ghost use Rattle.graph_firing.specs.Nodes.Told.{stages_by};

    ghost view = { λ s. stages_by s.past.value };
}

impl Stages {
    /// So many free nodes.
    pub(crate) fn free(count: usize) -> Stages
        ensures { result ≡ replicate count Stage.Free }
    {
        Stages {
            past: Snapshot::of(&Past::Free(count)),
        }
    }

    /// A node is so from now on.
    pub(crate) fn put(&mut self, node: u32, stage: Stage)
        ensures { self.new ≡ slice_set self.old node stage }
    {
        let past = mem::replace(&mut self.past, Snapshot::of(&Past::Free(0)));
        self.past = Snapshot::of(&Past::Then { past, node, stage });
    }
}
