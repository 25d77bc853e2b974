// Entries that contracts alone see.
ghost use Rattle.std.specs.Prelude.{◌≡◌, [], ◌∷◌, ◌++◌};

use crate::line::Line;
use board_rules::ItemName;
use pisdf_meaning::Path;
use std::marker::Model;
use std::mem;
use std::snapshot::Snapshot;

/// What was put into a journal last, and all before it as it was.
#[derive(Drop)]
pub(crate) enum Past {
    Start,
    Path {
        past: Snapshot<Past>,
        path: Snapshot<Path>,
    },
    Entry {
        past: Snapshot<Past>,
        line: Line,
    },
}

/// The paths and the entries of a journal, which no code can read. It has no bytes.
#[derive(Drop)]
pub(crate) struct History {
    past: Snapshot<Past>,
}

impl Model for History {
    ghost use Rattle.board_journal.specs.View.{HistoryView};

    ghost Value = { HistoryView };

    ghost use Rattle.board_journal.specs.History.{history_by};

    ghost view = { λ t. history_by t.past.value };
}

impl History {
    ghost use Rattle.board_rules.specs.declared.entry.Entry.TheVariants as entry;
    ghost use Rattle.board_journal.specs.History.{history_by};
    ghost use Rattle.board_journal.specs.View.{path_at};

    /// Nothing was put in.
    pub(crate) fn new() -> History
        ensures { result ≡ record { paths = []; entries = [] } }
    {
        History {
            past: Snapshot::of(&Past::Start),
        }
    }

    /// Takes out all that was put in.
    fn take(&mut self) -> Snapshot<Past>
        ensures { history_by result.value ≡ self.old }
    {
        mem::replace(&mut self.past, Snapshot::of(&Past::Start))
    }

    /// Puts in the path of a job.
    pub(crate) fn add_path(&mut self, path: Snapshot<Path>)
        ensures { self.new ≡ record self.old { paths = self.old.paths ++ path.value ∷ [] } }
    {
        let past = self.take();
        self.past = Snapshot::of(&Past::Path { past, path });
    }

    /// Enters that a worker claims an item of the job with the path of this number.
    pub(crate) fn claim(&mut self, worker: u32, path: usize, item: ItemName)
        ensures { self.new ≡ record self.old { entries = self.old.entries ++ entry.Claim worker (path_at self.old.paths path) item ∷ [] } }
    {
        let line = Line::Claim { worker, path, item };
        let past = self.take();
        self.past = Snapshot::of(&Past::Entry { past, line });
    }

    /// Enters that a worker finishes what it runs.
    pub(crate) fn finish(&mut self, worker: u32)
        ensures { self.new ≡ record self.old { entries = self.old.entries ++ entry.Finish worker ∷ [] } }
    {
        let line = Line::Finish { worker };
        let past = self.take();
        self.past = Snapshot::of(&Past::Entry { past, line });
    }
}
