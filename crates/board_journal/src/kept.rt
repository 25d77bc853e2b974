// Entries that can be read.
ghost use Rattle.std.specs.Prelude.{◌≡◌, ◌-◌, ◌<◌, [], ◌∷◌, ◌++◌, length, slice_get, Some, OnErr, OnOk};

use crate::entry_at::EntryAt;
use crate::line::Line;
use board_rules::ItemName;
use pisdf_meaning::Path;
use std::alloc::{AllocError, Global};
use std::marker::Model;

/// The paths and the entries of a journal, and for how many entries more room was taken.
#[derive(Drop)]
pub(crate) struct Entries {
    paths: Vec<Path>,
    lines: Vec<Line>,
    /// For how many entries more room was taken.
    room: usize,
}

impl Model for Entries {
    ghost use Rattle.board_journal.specs.View.{EntriesView};

    ghost Value = { EntriesView };

    ghost use Rattle.board_journal.specs.Invariants.{view_of, AreEntries};

    ghost view = { λ e. view_of e };

    ghost invariant = { AreEntries };
}

impl Entries {
    ghost use Rattle.board_rules.specs.declared.entry.Entry.TheVariants as entry;
    ghost use Rattle.board_journal.specs.View.{entry_told, path_at};

    /// No entries, and room for none.
    pub(crate) fn new(alloc: Global) -> Entries
        ensures { result ≡ record { paths = []; entries = []; room = 0 } }
    {
        Entries {
            paths: Vec::new(alloc),
            lines: Vec::new(alloc),
            room: 0,
        }
    }

    #[tactic(auto, using(crate::proofs::Paths::entries_stay, crate::proofs::Paths::names_stay))]
    /// Puts in the path of a job.
    ///
    /// # Errors
    ///
    /// Want of memory. Nothing is put in.
    pub(crate) fn add_path(&mut self, path: Path) -> Result<(), AllocError>
        ensures added { OnOk result (self.new ≡ record self.old { paths = self.old.paths ++ path ∷ [] }) }
        ensures refused { OnErr result (self.new ≡ self.old) }
    {
        self.paths.reserve(1)?;
        self.paths.push_reserved(path);
        Ok(())
    }

    /// Takes room for so many entries more.
    ///
    /// # Errors
    ///
    /// Want of memory. The room is as before.
    pub(crate) fn reserve(&mut self, room: usize) -> Result<(), AllocError>
        ensures taken { OnOk result (self.new ≡ record self.old { room = room }) }
        ensures refused { OnErr result (self.new ≡ self.old) }
    {
        self.lines.reserve(room)?;
        self.room = room;
        Ok(())
    }

    /// Enters that a worker claims an item of the job with the path of this number.
    pub(crate) fn claim(&mut self, worker: u32, path: usize, item: ItemName)
        requires path { path < length self.old.paths }
        requires room { 0 < self.old.room }
        ensures { self.new ≡ record self.old { entries = self.old.entries ++ entry.Claim worker (path_at self.old.paths path) item ∷ []; room = self.old.room - 1 } }
    {
        self.lines.push_reserved(Line::Claim { worker, path, item });
        self.room -= 1;
    }

    /// Enters that a worker finishes what it runs.
    pub(crate) fn finish(&mut self, worker: u32)
        requires { 0 < self.old.room }
        ensures { self.new ≡ record self.old { entries = self.old.entries ++ entry.Finish worker ∷ []; room = self.old.room - 1 } }
    {
        self.lines.push_reserved(Line::Finish { worker });
        self.room -= 1;
    }

    /// The entry with this number, in the order in which they were entered.
    pub(crate) fn entry(&self, number: usize) -> EntryAt<'_>
        requires { number < length self.now.entries }
        ensures { slice_get self.now.entries number ≡ Some (entry_told result) }
    {
        match self.lines[number] {
            Line::Claim { worker, path, item } => EntryAt::Claim {
                worker,
                path: &self.paths[path],
                item,
            },
            Line::Finish { worker } => EntryAt::Finish { worker },
        }
    }
}
