/// One line of a schedule: a node runs on a worker from its start to its end, in units of cost.
#[derive(Debug, Clone, Copy, Drop)]
pub struct Entry {
    pub node: u32,
    pub worker: u32,
    pub start: u64,
    pub end: u64,
}
