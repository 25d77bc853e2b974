use level_schedule::LevelSchedule;
use pisdf_meaning::{Firing, Given, Refusal};
use std::snapshot::Snapshot;

/// What an item of a job answers.
#[derive(Drop)]
pub enum Answer {
    /// What the firing of an actor, of a graph or of a node that copies gives.
    Gives(Given),
    /// The schedule to which a compilation comes.
    Schedules(LevelSchedule),
    /// The refusal.
    Refuses(Refusal),
}

/// Where an item of a job stands.
#[derive(Drop)]
pub enum Mark {
    /// Nobody has claimed it.
    Free,
    /// A worker runs it.
    Busy,
    /// It has called this firing, whose job is open.
    Open(Snapshot<Firing>),
    /// It is finished.
    Done(Answer),
}

/// What an item is to do.
#[derive(Debug, Clone, Copy, PartialEq, Eq, Drop)]
pub enum Kind {
    /// Work of its own.
    Work,
    /// It calls a firing of a graph.
    Call,
}
