/// The item that goes first among those that a job offers, and where it stands among the items that other jobs offer.
#[derive(Debug, Clone, Copy)]
pub struct Offer {
    /// The number of the item in its job.
    pub item: usize,
    /// Its home is another worker.
    pub away: bool,
    /// The priority of a node. A configuration actor and the compilation have none, and stand before every node.
    pub urgency: Option<u64>,
}
