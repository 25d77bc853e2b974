ghost use Rattle.std.specs.Prelude.{◌≡◌, ◌≢◌, ◌↔◌, ◌+◌, ◌<◌, ◌≤◌, ℕ, List, Some, length, vec_len, IfOk, OnErr};
ghost use Rattle.outer_world.specs.Counts.{count_of};
ghost use Rattle.outer_world.specs.Faults.{one_more};
ghost use Rattle.outer_world.specs.Shelf.{Loads};

use crate::counts::{Counts, make_room, raise};
use crate::folder::{Folder, SystemFiles};
use crate::shelf::{LoadFault, Shelf};
use std::alloc::Global;
use std::collections::BTreeMap;
use std::fs::Files;
use std::io;
use std::io::{ErrorKind, Read};
use std::marker::Model;

/// The files of a folder as a shelf. It tells what the folder tells.
#[derive(Drop)]
pub struct FolderShelf<F> {
    alloc: Global,
    folder: F,
    faults: Counts,
}

/// The files of the system as a shelf, by path. It tells nothing of their contents.
pub type FileShelf<'r, R> = FolderShelf<SystemFiles<'r, R>>;

impl<F> Model for FolderShelf<F> {
    ghost use Rattle.outer_world.specs.Counts.{pairs_of};
    ghost use Rattle.outer_world.specs.Folder.{ShelfOverFolder};

    ghost Value = { ShelfOverFolder F };

    ghost view = { λ s. record { folder = s.folder; faults = pairs_of s.faults } };
}

impl<'r, R: Files> FolderShelf<SystemFiles<'r, R>> {
    /// The files that this runtime reaches. Each Err of the system while a file is opened or read
    /// raises the count of that file's name, but for one that is want of memory.
    pub fn new(alloc: Global, files: &'r R) -> FileShelf<'r, R>
        ensures { (name : List ℕ) → count_of result.faults name ≡ 0 }
    {
        FolderShelf {
            alloc,
            folder: SystemFiles { files },
            faults: BTreeMap::new(alloc),
        }
    }
}

impl<F: Folder> Shelf for FolderShelf<F> {
    ghost holds = { λ s name. F.holds s.folder name };

    ghost faults = { λ s. count_of s.faults };

    fn load(&mut self, name: &str, most: usize) -> Result<Vec<u8>, LoadFault>
        ensures loads { Loads (F.holds self.old.folder) (F.holds self.new.folder) (count_of self.old.faults) (count_of self.new.faults) name.now most result }
        ensures counted { result ≡ Err LoadFault.Failed → count_of self.new.faults name.now ≡ one_more (count_of self.old.faults name.now) }
        ensures uncounted { result ≢ Err LoadFault.Failed → count_of self.new.faults name.now ≡ count_of self.old.faults name.now }
        ensures folder { self.new.folder ≡ self.old.folder }
    {
        if make_room(self.alloc, &mut self.faults, name).is_err() {
            return Err(LoadFault::Memory);
        }
        match read_file(self.alloc, &self.folder, name, most) {
            Ok(bytes) => limited(bytes, most),
            Err(error) if error.kind() == ErrorKind::OutOfMemory => Err(LoadFault::Memory),
            Err(_) => {
                raise(&mut self.faults, name);
                Err(LoadFault::Failed)
            }
        }
    }
}

/// The bytes, of which there are at most `most`.
fn limited(bytes: Vec<u8>, most: usize) -> Result<Vec<u8>, LoadFault>
    ensures ok { IfOk result (λ same. same.items ≡ bytes.items) }
    ensures too_long { (result ≡ Err LoadFault.TooLong) ↔ (most < vec_len bytes) }
    ensures only { OnErr result (result ≡ Err LoadFault.TooLong) }
{
    if bytes.len() > most {
        return Err(LoadFault::TooLong);
    }
    Ok(bytes)
}

/// The bytes of the file of that name, of which it takes at most `most` and one more.
fn read_file<F: Folder>(alloc: Global, folder: &F, name: &str, most: usize) -> io::Result<Vec<u8>>
    ensures at_most { IfOk result (λ bytes. vec_len bytes ≤ most + 1) }
    ensures as_told { (told : List ℕ) → F.holds folder.now name.now ≡ Some told → IfOk result (λ bytes. vec_len bytes ≤ most → bytes.items ≡ told) }
    ensures too_long { (told : List ℕ) → F.holds folder.now name.now ≡ Some told → IfOk result (λ bytes. most < vec_len bytes → most < length told) }
{
    let mut file = folder.open(name)?;
    read_one_past(alloc, &mut file, most)
}

/// How many bytes are asked for at once.
const CHUNK: usize = 16384;

/// The bytes that a reader has left, to its end, of which it takes at most `most` and one more. Each
/// turn takes at least one byte, or is the last.
fn read_one_past<R: Read>(alloc: Global, reader: &mut R, most: usize) -> io::Result<Vec<u8>>
    ensures at_most { IfOk result (λ bytes. vec_len bytes ≤ most + 1) }
    ensures as_told { (told : List ℕ) → R.remaining reader.old ≡ Some told → IfOk result (λ bytes. vec_len bytes ≤ most → bytes.items ≡ told) }
    ensures too_long { (told : List ℕ) → R.remaining reader.old ≡ Some told → IfOk result (λ bytes. most < vec_len bytes → most < length told) }
{
    let mut bytes = Vec::new(alloc);
    let mut chunk = [0; CHUNK];
    while bytes.len() <= most {
        let wanted = (most - bytes.len()).min(CHUNK - 1) + 1;
        bytes.reserve(wanted)?;
        let taken = reader.read(&mut chunk[..wanted])?;
        if taken == 0 {
            break;
        }
        bytes.extend_from_slice(&chunk[..taken])?;
    }
    Ok(bytes)
}
