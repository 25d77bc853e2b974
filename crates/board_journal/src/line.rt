use board_rules::ItemName;

/// An entry, whose path is told by its number among the journal's paths.
#[derive(Clone, Copy, Drop)]
pub(crate) enum Line {
    Claim {
        worker: u32,
        path: usize,
        item: ItemName,
    },
    Finish {
        worker: u32,
    },
}
