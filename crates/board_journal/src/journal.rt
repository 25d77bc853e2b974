ghost use Rattle.std.specs.Prelude.{◌≡◌, ◌+◌, ◌-◌, ◌*◌, ◌<◌, ◌≤◌, [], ◌∷◌, ◌++◌, true, false, length, slice_get, Some, OnErr, OnOk, IfOk, IfSome};

use crate::entry_at::EntryAt;
use crate::history::History;
use crate::keeping::{keep_claim, keep_finish, keep_path, keep_room};
use crate::kept::Entries;
use board_rules::ItemName;
use pisdf_meaning::Path;
use std::alloc::{AllocError, Global};
use std::marker::Model;
use std::snapshot::Snapshot;

/// The steps of the workers of a board. Contracts see it as its entries, with the paths that were put in, for how many more entries
/// room was taken, and whether its entries can be read.
#[derive(Drop)]
pub struct Journal {
    history: History,
    /// The same, where its entries can be read.
    kept: Option<Entries>,
    /// How many paths there are.
    paths: usize,
    /// How many entries there are.
    entries: usize,
    /// For how many entries more room was taken.
    room: usize,
}

impl Model for Journal {
    ghost use Rattle.board_journal.specs.View.{JournalView};

    ghost Value = { JournalView };

    ghost use Rattle.board_journal.specs.Journals.{journal_view, IsJournal};

    ghost view = { λ j. journal_view j };

    ghost invariant = { IsJournal };
}

/// The room for what room there is and for two entries of each of so many items, if there are that many numbers.
fn entries_for(room: usize, items: usize) -> Option<usize>
    ensures { IfSome result (λ entries. entries ≡ room + 2 * items) }
{
    let claims = room.checked_add(items)?;
    claims.checked_add(items)
}

impl Journal {
    ghost use Rattle.board_rules.specs.declared.entry.Entry.TheVariants as entry;
    ghost use Rattle.board_journal.specs.View.{entry_told, path_at};

    /// No entries, and room for none. Those that are entered can be read.
    pub fn new(alloc: Global) -> Journal
        ensures { result ≡ record { paths = []; entries = []; room = 0; readable = true } }
    {
        Journal {
            history: History::new(),
            kept: Some(Entries::new(alloc)),
            paths: 0,
            entries: 0,
            room: 0,
        }
    }

    /// No entries, and room for none. Those that are entered can't be read: contracts alone see them. The journal takes no memory,
    /// however many there are.
    pub fn unreadable() -> Journal
        ensures { result ≡ record { paths = []; entries = []; room = 0; readable = false } }
    {
        Journal {
            history: History::new(),
            kept: None,
            paths: 0,
            entries: 0,
            room: 0,
        }
    }

    /// Whether its entries can be read.
    pub fn is_readable(&self) -> bool
        ensures { result ≡ self.now.readable }
    {
        self.kept.is_some()
    }

    /// Puts in the path of a job, and gives the number by which entries name it.
    ///
    /// # Errors
    ///
    /// Want of memory. The journal is as before.
    pub fn add_path(&mut self, path: Path) -> Result<usize, AllocError>
        ensures number { IfOk result (λ number. number ≡ length self.old.paths) }
        ensures added { OnOk result (self.new ≡ record self.old { paths = self.old.paths ++ path ∷ [] }) }
        ensures refused { OnErr result (self.new ≡ self.old) }
    {
        let number = self.paths;
        let Some(paths) = number.checked_add(1) else {
            return Err(AllocError);
        };
        let shown = Snapshot::of(&path);
        keep_path(&mut self.kept, path)?;
        self.history.add_path(shown);
        self.paths = paths;
        Ok(number)
    }

    /// Takes room for the claims and the finishes of so many items more.
    ///
    /// # Errors
    ///
    /// Want of memory, also where there would be more entries than numbers. The journal is as before.
    pub fn reserve(&mut self, items: usize) -> Result<(), AllocError>
        ensures room { OnOk result (self.new.room ≡ self.old.room + 2 * items) }
        ensures kept { (self.new.paths ≡ self.old.paths) × (self.new.entries ≡ self.old.entries) }
        ensures more { self.old.room ≤ self.new.room }
        ensures refused { OnErr result (self.new ≡ self.old) }
    {
        let Some(room) = entries_for(self.room, items) else {
            return Err(AllocError);
        };
        let Some(_all) = self.entries.checked_add(room) else {
            return Err(AllocError);
        };
        keep_room(&mut self.kept, room)?;
        self.room = room;
        Ok(())
    }

    /// Enters that a worker claims an item of the job with the path of this number.
    pub fn claim(&mut self, worker: u32, path: usize, item: ItemName)
        requires path { path < length self.old.paths }
        requires room { 0 < self.old.room }
        ensures { self.new ≡ record self.old { entries = self.old.entries ++ entry.Claim worker (path_at self.old.paths path) item ∷ []; room = self.old.room - 1 } }
    {
        keep_claim(&mut self.kept, worker, path, item);
        self.history.claim(worker, path, item);
        self.entries += 1;
        self.room -= 1;
    }

    /// Enters that a worker finishes what it runs.
    pub fn finish(&mut self, worker: u32)
        requires { 0 < self.old.room }
        ensures { self.new ≡ record self.old { entries = self.old.entries ++ entry.Finish worker ∷ []; room = self.old.room - 1 } }
    {
        keep_finish(&mut self.kept, worker);
        self.history.finish(worker);
        self.entries += 1;
        self.room -= 1;
    }

    /// How many entries there are.
    pub fn len(&self) -> usize
        ensures { result ≡ length self.now.entries }
    {
        self.entries
    }

    /// The entry with this number, in the order in which they were entered.
    pub fn entry(&self, number: usize) -> EntryAt<'_>
        requires number { number < length self.now.entries }
        requires readable { self.now.readable ≡ true }
        ensures { slice_get self.now.entries number ≡ Some (entry_told result) }
    {
        match &self.kept {
            Some(entries) => entries.entry(number),
            None => unreachable!(),
        }
    }
}
