// What a worker holds between its claim and its finish.
use firing_board::Ticket;
use job_preparing::CompileTask;
use kernel_gate::Frame;
use sdf_level::Node;

/// What a worker holds: nothing, or what its claim gave it.
pub(crate) enum Held {
    Nothing,
    Fire(Ticket, Frame),
    Configure(Ticket, Frame),
    Copy(Ticket, Node, Frame),
    Compile(Ticket, CompileTask),
}
