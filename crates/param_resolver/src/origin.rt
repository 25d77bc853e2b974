/// What a link of a level comes from.
#[derive(Clone, Copy, Debug, PartialEq, Eq)]
pub enum Origin {
    /// The FIFO at this place.
    Fifo(u32),
    /// The state that goes on from one firing of the actor at this place to the next.
    State(u32),
}
