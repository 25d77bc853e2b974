/// Where the tokens of a link come from.
#[derive(Debug, Clone, Copy, PartialEq, Eq, Drop)]
pub enum Tail {
    /// The source with this number, counted from 0.
    Source(u32),
    /// An actor's output port, numbered among its outputs alone; a firing puts `rate` tokens there.
    Port { actor: u32, port: u32, rate: u32 },
}

/// Where the tokens of a link go.
#[derive(Debug, Clone, Copy, PartialEq, Eq, Drop)]
pub enum Head {
    /// The sink with this number, counted from 0.
    Sink(u32),
    /// An actor's input port, numbered among its inputs alone; a firing takes `rate` tokens there.
    Port { actor: u32, port: u32, rate: u32 },
}

/// A queue without a bound from `tail` to `head`, which holds `delay` tokens at the start.
#[derive(Debug, Clone, Copy, PartialEq, Eq, Drop)]
pub struct Link {
    pub tail: Tail,
    pub head: Head,
    pub delay: u32,
}
