use crate::port::FilePort;
use param_expr::{Name, Parsed};
use sdf_level::List;

/// What an actor is: the kinds `"kernel"`, `"config"`, `"graph"` and, in version 3, `"setgraph"`.
#[derive(Drop)]
pub enum FileBody {
    Kernel {
        /// The kernel's name, which may also be `min` or `max`.
        kernel: Name,
        args: List<Parsed>,
        ins: List<FilePort>,
        outs: List<FilePort>,
    },
    Config {
        /// The kernel's name, which may also be `min` or `max`.
        kernel: Name,
        args: List<Parsed>,
        ins: List<Name>,
        outs: List<FilePort>,
        /// The names of the parameters that it sets.
        sets: List<Name>,
    },
    Child {
        /// The child graph's name.
        graph: Name,
        args: List<Parsed>,
    },
    ConfigChild {
        /// The child graph's name.
        graph: Name,
        args: List<Parsed>,
        /// The names of the parameters that it sets.
        sets: List<Name>,
    },
}

/// An actor of a graph.
#[derive(Drop)]
pub struct FileActor {
    pub name: Name,
    pub body: FileBody,
}
