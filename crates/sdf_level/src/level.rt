use crate::link::Link;
use crate::list::List;
use std::marker::Model;

/// One graph as a synchronous dataflow graph: its actors without the configuration actors, numbered from 0; the rates of
/// its sources (the inputs that feed no configuration actor, then what the configuration actors give) and of its sinks
/// (the outputs); and its links.
///
/// Every level keeps that:
///
/// - every number names a part that is there;
/// - each source and each sink stands at one link;
/// - no link goes from a source to a sink;
/// - a link with a source or sink has no delay;
/// - no two links have the same tail port, and no two have the same head port;
/// - an actor's outputs are numbered from 0 without a gap, and so are its inputs;
/// - every rate is at most `RATE_LIMIT`;
///
/// and that there are fewer than 2^32 sources, sinks and links, so that a `u32` numbers them.
#[derive(Debug, Drop)]
pub struct Level {
    /// How many actors there are.
    pub actors: u32,
    /// The rate of each source.
    pub sources: List<u32>,
    /// The rate of each sink.
    pub sinks: List<u32>,
    pub links: List<Link>,
}

impl Model for Level {
    ghost use Rattle.sdf_level.specs.View.{LevelView};

    ghost Value = { LevelView };

    ghost use Rattle.sdf_level.specs.Invariants.{IsLevel};

    ghost view = { λ l. record { actors = l.actors; sources = l.sources; sinks = l.sinks; links = l.links } };

    ghost invariant = { λ l. IsLevel record { actors = l.actors; sources = l.sources; sinks = l.sinks; links = l.links } };
}
