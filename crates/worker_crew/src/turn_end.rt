/// What came of a turn of a worker that asks for an item.
#[derive(Clone, Copy)]
pub(crate) enum TurnEnd {
    /// It ran one.
    Ran,
    /// There is none until another worker finishes.
    Waits,
    /// The board is over.
    Over,
}
