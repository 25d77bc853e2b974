use sdf_level::List;

/// One end of a FIFO.
#[derive(Clone, Copy, Debug, PartialEq, Eq)]
pub enum End {
    /// An interface of the graph. The graph's inputs are counted first, then its outputs.
    Interface(u32),
    /// A port of an actor. The actor's inputs are counted first, then its outputs; those of a hierarchical actor are
    /// its child's.
    Port { actor: u32, port: u32 },
}

/// How long the tokens of a delay live.
#[derive(Clone, Copy, Debug, PartialEq, Eq)]
pub enum Life {
    /// They start anew at each firing of their graph.
    Firing,
    /// They go on with what the firing before left.
    Permanent,
}

/// A queue of tokens from one end to another.
#[derive(Drop)]
pub struct Fifo {
    pub tail: End,
    pub head: End,
    /// The tokens that stand in it at first, the oldest first.
    pub delay: List<i64>,
    pub life: Life,
}
