use param_expr::Name;
use pisdf_model::Life;
use sdf_level::List;

/// One end of a FIFO, by names.
#[derive(Drop)]
pub enum FileEnd {
    /// An interface of the graph, written as its name.
    Interface(Name),
    /// A port of an actor, written as the actor's name and the port's, joined by `.`.
    Port { actor: Name, port: Name },
}

/// The tokens that stand in a FIFO at first.
#[derive(Drop)]
pub enum FileDelay {
    /// So many tokens 0, written as a number. No delay is none of them.
    Zeros(u64),
    /// These tokens, written as a list, the oldest first.
    Tokens(List<i64>),
}

/// A queue of tokens from one end to another.
#[derive(Drop)]
pub struct FileFifo {
    pub from: FileEnd,
    pub to: FileEnd,
    pub delay: FileDelay,
    /// The life that is stated, in versions 2 and 3. Where none is, it is a firing's.
    pub life: Life,
}
