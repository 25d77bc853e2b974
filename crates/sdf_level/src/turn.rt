/// A firing: the actor's number, and how often the actor fired before.
#[derive(Debug, Clone, Copy, PartialEq, Eq, Drop)]
pub struct Turn {
    pub actor: u32,
    pub turn: u32,
}
