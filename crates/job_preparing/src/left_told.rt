// What configuration actors left, as clauses see it.
use crate::trace::Trace;
use pisdf_meaning::Configured;
use std::marker::Model;
use std::snapshot::Snapshot;

/// What the configuration actors of a firing had left when they were looked at, with their traces. Contracts alone see it.
#[derive(Drop)]
pub struct LeftTold {
    pub(crate) left: Snapshot<Vec<Configured>>,
    pub(crate) traces: Snapshot<Vec<Trace>>,
}

impl Model for LeftTold {
    ghost use Rattle.std.specs.Prelude.{List as Seq};
    ghost use Rattle.pisdf_meaning.specs.declared.firing.Configured.{Configured as One};
    ghost use Rattle.job_preparing.specs.Handing.{with_traces};

    ghost Value = { Seq One };

    ghost view = { λ t. with_traces t.left.value.items t.traces.value.items };
}
