// What is put in is put into the entries that can be read, if there are such.
ghost use Rattle.std.specs.Prelude.{◌≡◌, ◌-◌, ◌<◌, ◌∷◌, [], ◌++◌, IfSome, OnErr, OnOk, length};
ghost use Rattle.std.specs.Option.{option_map};
ghost use Rattle.board_rules.specs.declared.entry.Entry.TheVariants as entry;
ghost use Rattle.board_journal.specs.View.{EntriesView, path_at};

use crate::kept::Entries;
use board_rules::ItemName;
use pisdf_meaning::Path;
use std::alloc::AllocError;

/// Puts in the path of a job.
///
/// # Errors
///
/// Want of memory. Nothing is put in.
pub(crate) fn keep_path(kept: &mut Option<Entries>, path: Path) -> Result<(), AllocError>
    ensures added { OnOk result (kept.new ≡ option_map (λ (e : EntriesView). record e { paths = e.paths ++ path ∷ [] }) kept.old) }
    ensures refused { OnErr result (kept.new ≡ kept.old) }
{
    match kept {
        Some(entries) => entries.add_path(path),
        None => Ok(()),
    }
}

/// Takes room for so many entries more.
///
/// # Errors
///
/// Want of memory. The room is as before.
pub(crate) fn keep_room(kept: &mut Option<Entries>, room: usize) -> Result<(), AllocError>
    ensures taken { OnOk result (kept.new ≡ option_map (λ (e : EntriesView). record e { room = room }) kept.old) }
    ensures refused { OnErr result (kept.new ≡ kept.old) }
{
    match kept {
        Some(entries) => entries.reserve(room),
        None => Ok(()),
    }
}

/// Enters that a worker claims an item of the job with the path of this number.
pub(crate) fn keep_claim(kept: &mut Option<Entries>, worker: u32, path: usize, item: ItemName)
    requires path { IfSome kept.old (λ e. path < length e.paths) }
    requires room { IfSome kept.old (λ e. 0 < e.room) }
    ensures { kept.new ≡ option_map (λ (e : EntriesView). record e { entries = e.entries ++ entry.Claim worker (path_at e.paths path) item ∷ []; room = e.room - 1 }) kept.old }
{
    match kept {
        Some(entries) => entries.claim(worker, path, item),
        None => {}
    }
}

/// Enters that a worker finishes what it runs.
pub(crate) fn keep_finish(kept: &mut Option<Entries>, worker: u32)
    requires { IfSome kept.old (λ e. 0 < e.room) }
    ensures { kept.new ≡ option_map (λ (e : EntriesView). record e { entries = e.entries ++ entry.Finish worker ∷ []; room = e.room - 1 }) kept.old }
{
    match kept {
        Some(entries) => entries.finish(worker),
        None => {}
    }
}
