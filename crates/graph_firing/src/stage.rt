ghost use Rattle.std.specs.Prelude.{◌≡◌};
ghost use Rattle.std.specs.Borrow.{sem};

use crate::nodes::Running;
use pisdf_meaning::Refusal;

/// How far an open job is.
pub(crate) enum Stage {
    /// The compilation isn't claimed.
    Waiting,
    /// A worker has the compilation.
    Compiling,
    /// The level can't be compiled.
    Refused(Refusal),
    /// The nodes are there.
    Nodes(Running),
}

impl Stage {
    ghost use Rattle.graph_firing.specs.Lending.{LendsNodes};
    ghost use Rattle.graph_firing.specs.Stages.{HasNodes};

    /// The nodes, which are there.
    pub(crate) fn nodes(&self) -> &Running
        requires { HasNodes (λ _. Unit {0}) self.now }
        ensures { self.now ≡ Stage.Nodes result.now }
    {
        match self {
            Stage::Nodes(running) => running,
            Stage::Waiting => unreachable!(),
            Stage::Compiling => unreachable!(),
            Stage::Refused(_) => unreachable!(),
        }
    }

    /// The same, to go on with.
    pub(crate) fn nodes_mut(&mut self) -> &mut Running
        requires { HasNodes (λ _. Unit {0}) self.old }
        ensures* lends { sem 𝓛 (LendsNodes self.entry result) }
        ensures value { self.old ≡ Stage.Nodes result.now }
    {
        match self {
            Stage::Nodes(running) => running,
            Stage::Waiting => unreachable!(),
            Stage::Compiling => unreachable!(),
            Stage::Refused(_) => unreachable!(),
        }
    }
}
