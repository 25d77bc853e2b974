use crate::list::List;
use crate::node::Node;

/// A buffer of `size` tokens, which the node `tail` writes as its output `tail_port` and the node `head` reads as its input
/// `head_port`. Nodes are named by their places in the graph's list.
#[derive(Debug, Clone, Copy, PartialEq, Eq, Drop)]
pub struct Edge {
    pub tail: u32,
    pub tail_port: u32,
    pub head: u32,
    pub head_port: u32,
    pub size: u32,
}

/// A level with its counts of firings, as a graph without cycles in which every node fires once.
#[derive(Debug, Drop)]
pub struct SingleRate {
    pub nodes: List<Node>,
    pub edges: List<Edge>,
    /// For each node the number of edges on the longest path that ends at it.
    pub ranks: List<u32>,
}
