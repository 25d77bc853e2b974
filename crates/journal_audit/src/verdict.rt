/// What a text is as the journals of a run.
#[derive(Debug, Clone, Copy, PartialEq, Eq, Drop)]
pub enum Verdict {
    /// It is the whole text of the journals of so many boards, with so many entries in all.
    Legal { boards: u32, entries: u64 },
    /// This line, counted from 1, is the first with which no such text begins.
    Illegal { line: u64 },
}
