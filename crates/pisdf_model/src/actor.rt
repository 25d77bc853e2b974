use param_expr::{Expr, Name};
use sdf_level::List;

/// A port of an actor, with the number of tokens that one firing takes or gives there.
#[derive(Drop)]
pub struct Port {
    pub name: Name,
    pub rate: Expr,
}

/// What an actor is.
#[derive(Drop)]
pub enum Body {
    /// A kernel actor fires a kernel, which stands at this place of the gate's signatures.
    Kernel {
        kernel: u32,
        /// The kernel's arguments, in the order of its row.
        args: List<Expr>,
        ins: List<Port>,
        outs: List<Port>,
    },
    /// A kernel configuration actor fires a kernel once, before the actors of its graph that aren't configuration
    /// actors, and sets parameters.
    Config {
        kernel: u32,
        args: List<Expr>,
        /// Its inputs, each of which takes a whole input interface.
        ins: List<Name>,
        outs: List<Port>,
        /// The places of the parameters that it sets, in the order of its kernel's sets.
        sets: List<u32>,
    },
    /// A hierarchical actor fires the child graph at this place of the file. Its ports are the child's interfaces.
    Child {
        graph: u32,
        /// The values of the child's inherited parameters, in their order.
        args: List<Expr>,
    },
    /// A hierarchical configuration actor fires the child graph at this place of the file once, before the actors of its
    /// graph that aren't configuration actors. Its ports are the child's interfaces, and it sets parameters to the
    /// values of the child's exports.
    ConfigChild {
        graph: u32,
        /// The values of the child's inherited parameters, in their order.
        args: List<Expr>,
        /// The places of the parameters that it sets, in the order of the child's exports.
        sets: List<u32>,
    },
}

/// An actor of a graph.
#[derive(Drop)]
pub struct Actor {
    pub name: Name,
    pub body: Body,
}
