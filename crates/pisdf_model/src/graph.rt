use crate::actor::Actor;
use crate::fifo::Fifo;
use crate::param::Param;
use param_expr::{Expr, Name};
use sdf_level::List;

/// A data interface of a graph, with the number of tokens that one firing of the graph takes or gives there.
#[derive(Drop)]
pub struct Interface {
    pub name: Name,
    pub rate: Expr,
}

/// A graph. Each list is in the order of the file.
#[derive(Drop)]
pub struct Graph {
    pub name: Name,
    pub params: List<Param>,
    pub inputs: List<Interface>,
    pub outputs: List<Interface>,
    pub actors: List<Actor>,
    pub fifos: List<Fifo>,
    /// The places of the parameters whose values a hierarchical configuration actor takes from the graph.
    pub exports: List<u32>,
}

/// The graphs of a file, and the place of the top one among them.
#[derive(Drop)]
pub struct Graphs {
    /// The version of the file's format.
    pub version: u32,
    pub top: u32,
    pub graphs: List<Graph>,
}
