// Which item of a job goes first.
ghost use Rattle.std.specs.Prelude.{◌≡◌, ◌<◌, ◌≤◌, ◌^◌, length};
ghost use Rattle.graph_firing.specs.Nodes.View.{IsOfferedCall, IsOfferedWork, nodes_of};
ghost use Rattle.graph_firing.specs.Stages.{IsFirstCallWaiting, IsFirstNode, IsFirstWaiting, early_offer};
ghost use Rattle.graph_firing.specs.Stages as stages;

use crate::nodes::Running;
use crate::offer::Offer;
use job_preparing::Configuring;

/// An item that is at home everywhere, and goes before every node.
fn early(item: usize) -> Offer
    ensures { result ≡ early_offer item }
{
    Offer {
        item,
        away: false,
        urgency: None,
    }
}

/// The first of the configuration actors that fire kernels, else the compilation where it can be made.
pub(crate) fn first_waiting(configuring: &Configuring) -> Option<Offer>
    ensures { IsFirstWaiting configuring.now result }
{
    match configuring.pick() {
        Some(c) => Some(early(c as usize)),
        None => {
            if configuring.is_ready() {
                Some(early(configuring.count() as usize))
            } else {
                None
            }
        }
    }
}

/// The first of the configuration actors that fire graphs.
pub(crate) fn first_call_waiting(configuring: &Configuring) -> Option<Offer>
    ensures { IsFirstCallWaiting configuring.now result }
{
    match configuring.pick_call() {
        Some(c) => Some(early(c as usize)),
        None => None,
    }
}

/// Where a node stands.
fn node_offer(running: &Running, base: usize, node: u32, worker: u32) -> Offer
    requires base { base ≤ 2 ^ 32 }
    requires node { node < length (nodes_of running.now) }
    ensures { result ≡ stages.node_offer running.now base worker node }
{
    Offer {
        item: base + node as usize,
        away: !running.is_home(node, worker),
        urgency: Some(running.priority(node)),
    }
}

/// The first of the nodes that have work of their own, where node 0 has this number.
pub(crate) fn first_node(running: &Running, base: usize, worker: u32) -> Option<Offer>
    requires base { base ≤ 2 ^ 32 }
    ensures { IsFirstNode (IsOfferedWork running.now) running.now base worker result }
{
    match running.pick(worker) {
        Some(node) => Some(node_offer(running, base, node, worker)),
        None => None,
    }
}

/// The first of the nodes that fire graphs, where node 0 has this number.
pub(crate) fn first_call(running: &Running, base: usize, worker: u32) -> Option<Offer>
    requires base { base ≤ 2 ^ 32 }
    ensures { IsFirstNode (IsOfferedCall running.now) running.now base worker result }
{
    match running.pick_call(worker) {
        Some(node) => Some(node_offer(running, base, node, worker)),
        None => None,
    }
}
