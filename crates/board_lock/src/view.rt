use std::collections::LinkedList;

/// What a seat of the table is doing.
pub enum Phase {
    Starting,
    Open,
    Holding,
    Spent,
}

/// What a pass knows: the key, the journal at the start, the longest journal that it has seen, whether it has seen the
/// state over, its least number, for each of its numbers the entries of its own and the places lent to it, and how many
/// numbers all passes have. No value of it is made.
pub struct Known<K, E, P> {
    pub key: Option<K>,
    pub opening: LinkedList<E>,
    pub seen: LinkedList<E>,
    pub over: bool,
    pub number: u32,
    pub own: LinkedList<LinkedList<E>>,
    pub lent: LinkedList<LinkedList<P>>,
    pub workers: u32,
}

/// The view of a seat: what it is doing, the state as it was found, while it is held, and what its pass knows. No value
/// of it is made.
pub struct View<S, K, E, P> {
    pub phase: Phase,
    pub found: Option<S>,
    pub known: Known<K, E, P>,
}
