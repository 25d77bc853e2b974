ghost use Rattle.board_lock.specs.Meant.{Meant};

/// What a lock may keep. Its types and its meaning are for contracts alone.
pub trait Locked {
    /// What never changes.
    type Key;

    /// A step of a worker, as the journal has it.
    type Entry;

    /// What is lent to a worker, by a type of the state's own: for instance a place of cells, by its block, start and length.
    type Place;

    /// The key, the journal, the worker of an entry, what is lent to each worker, and whether the state is over.
    ghost meant: { Meant Self Self.Key Self.Entry Self.Place };
}
