use param_expr::Name;

/// Why bytes mean no graphs: the faults of a graph file, in the order of their numbers from 1 to 13, and want of memory.
#[derive(Debug, Drop)]
pub enum GraphFault {
    /// The bytes are no JSON text.
    NotJson,
    /// The value at this pointer has not the form.
    Shape(Name),
    /// The file is of this other version.
    Version(i64),
    /// This name is equal to an earlier one of its scope.
    Duplicate(Name),
    /// This reference names nothing of the kind that its place asks for.
    Unknown(Name),
    /// This kernel is none, or one of the other kind of actor.
    Kernel(Name),
    /// This actor's numbers of arguments, ports or sets don't fit, or this parameter isn't set as its kind says.
    Ports(Name),
    /// A FIFO runs the wrong way at this end, or this interface or port doesn't stand at one FIFO end.
    Wire(Name),
    /// This FIFO may not be where it is: at interfaces, or at a configuration actor.
    InterfaceWire {
        /// Its graph's name.
        graph: Name,
        /// Its number in that graph, from 0.
        fifo: u32,
    },
    /// This parameter depends on itself, or is late where an early one must be.
    ParamOrder(Name),
    /// This graph holds itself.
    GraphCycle(Name),
    /// This graph is nested too deep.
    Depth(Name),
    /// There are too many of what this word says.
    Count(Name),
    /// Want of memory.
    Memory,
}
