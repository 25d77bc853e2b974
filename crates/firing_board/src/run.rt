/// What a worker runs: an item of the job in a row of the table.
#[derive(Clone, Copy, Drop)]
pub(crate) struct Run {
    pub(crate) row: usize,
    pub(crate) item: usize,
}
