/// Where and when a node runs: from its start to its end, in units of cost.
#[derive(Debug, Clone, Copy, PartialEq, Eq, Drop)]
pub struct Slot {
    pub worker: u32,
    pub start: u64,
    pub end: u64,
}
