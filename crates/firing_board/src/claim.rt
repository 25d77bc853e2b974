use job_preparing::CompileTask;
use kernel_gate::Frame;
use sdf_level::Node;

/// Which claim it is that a worker finishes.
#[derive(Debug, Clone, Copy, PartialEq, Eq)]
pub struct Ticket {
    /// The worker.
    pub worker: u32,
    /// The number of the claim among the entries of the journal, which have its path and its item.
    pub entry: usize,
}

/// What a worker gets that claims.
pub enum Claim {
    /// A kernel is to be fired, with this frame.
    Fire(Ticket, Frame),
    /// A node is to copy its inputs to its outputs, in this frame.
    Copy(Ticket, Node, Frame),
    /// The kernel of a configuration actor is to be fired, with this frame.
    Configure(Ticket, Frame),
    /// A firing of a graph is to be compiled.
    Compile(Ticket, CompileTask),
    /// Nothing may be claimed until another worker finishes.
    Wait,
    /// All is done.
    Finished,
    /// Memory was wanted, now or before.
    Starved,
}
