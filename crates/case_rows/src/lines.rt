/// One end of a link.
#[derive(Clone, Copy)]
pub enum End {
    /// A source or a sink of its own, of this rate.
    Interface(u32),
    /// A port of its own of the actor with this number, of this rate.
    Actor(u32, u32),
}

/// A link whose ports aren't numbered.
#[derive(Clone, Copy)]
pub struct Line {
    pub tail: End,
    pub head: End,
    pub delay: u32,
}
