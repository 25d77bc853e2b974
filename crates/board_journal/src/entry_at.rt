use board_rules::ItemName;
use pisdf_meaning::Path;

/// An entry of a journal, which the journal keeps.
#[derive(Clone, Copy)]
pub enum EntryAt<'a> {
    /// The worker claims an item of the job with this path.
    Claim {
        worker: u32,
        path: &'a Path,
        item: ItemName,
    },
    /// The worker finishes the item that it runs.
    Finish {
        worker: u32,
    },
}
