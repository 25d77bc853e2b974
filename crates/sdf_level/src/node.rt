/// A node of a single-rate graph, after PREESM's special actors: beside the firings, what copies tokens between them.
#[derive(Debug, Clone, Copy, PartialEq, Eq, Drop)]
pub enum Node {
    /// The tokens of the source with this number.
    Source(u32),
    /// The tokens that the link with this number holds at the start.
    Init(u32),
    /// Firing `turn` of an actor, counted from 0.
    Firing { actor: u32, turn: u32 },
    /// Gives the tokens of a source to each firing that reads from this link, again from the first where they run out.
    Broadcast(u32),
    /// Cuts what one writer puts on a link into the pieces that its readers take. `turn` is the writer's place among those
    /// of the link.
    Fork { link: u32, turn: u32 },
    /// Joins the pieces that one reader takes from a link. `turn` is the reader's place among those of the link.
    Join { link: u32, turn: u32 },
    /// Keeps the last tokens that the firings write to a sink over this link.
    Round(u32),
    /// The tokens that are left on the link with this number.
    End(u32),
    /// The tokens that the sink with this number keeps.
    Sink(u32),
}
