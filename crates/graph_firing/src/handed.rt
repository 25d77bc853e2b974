use kernel_gate::Frame;
use sdf_level::Node;

/// What a worker is handed with an item that it claimed, to run and to give back.
pub enum Handed {
    /// The frame of a configuration actor's kernel.
    Configure(Frame),
    /// The frame of an actor's kernel.
    Fire(Frame),
    /// A node that copies its inputs to its outputs, and its frame.
    Copy(Node, Frame),
}
