use pisdf_meaning::Path;

/// An item of a job, as a journal names it.
#[derive(Debug, Clone, Copy, PartialEq, Eq, Drop)]
pub enum ItemName {
    /// A configuration actor that fires a kernel, by its place among the actors of its graph.
    Configure(u32),
    /// The compilation.
    Compile,
    /// A node of the single-rate graph, by its number.
    Node(u32),
}

/// A step of a worker, as the journal has it.
#[derive(Drop)]
pub enum Entry {
    /// The worker claims an item of the job with this path.
    Claim {
        worker: u32,
        path: Path,
        item: ItemName,
    },
    /// The worker finishes the item that it runs.
    Finish {
        worker: u32,
    },
}
