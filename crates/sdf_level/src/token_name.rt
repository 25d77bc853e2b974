/// What makes a token.
#[derive(Debug, Clone, Copy, PartialEq, Eq, Drop)]
pub enum Maker {
    /// The source with this number.
    Source(u32),
    /// The delay of the link with this number.
    Init(u32),
    /// Firing `turn` of an actor at its output `port`.
    Firing { actor: u32, turn: u32, port: u32 },
}

/// A token's name: what makes it, and its place, from 0, among the tokens made there.
#[derive(Debug, Clone, Copy, PartialEq, Eq, Drop)]
pub struct TokenName {
    pub maker: Maker,
    pub place: u32,
}
