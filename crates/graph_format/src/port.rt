use param_expr::{Name, Parsed};

/// An interface of a graph or a port of an actor, with the text of its rate as an expression over names.
#[derive(Drop)]
pub struct FilePort {
    pub name: Name,
    pub rate: Parsed,
}
