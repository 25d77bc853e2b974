ghost use Rattle.std.specs.Prelude.{◌≡◌, ◌≢◌, ◌↔◌, ◌<◌, ◌==◌, ℕ, List, length, IsTrue, IfOk};
ghost use Rattle.std.specs.List.{list_any};
ghost use Rattle.std.specs.Option.{option_copied};
ghost use Rattle.outer_world.specs.Counts.{count_of};
ghost use Rattle.outer_world.specs.MemoryShelf.{file_of, given_of, NextFails};
ghost use Rattle.outer_world.specs.Faults.{one_more};
ghost use Rattle.outer_world.specs.Shelf.{Loads};

use crate::counts::{Counts, make_room, next_count, raise};
use crate::shelf::{LoadFault, Shelf};
use std::alloc::Global;
use std::collections::BTreeMap;
use std::marker::Model;

/// A shelf in memory. It tells its contents, and fails where it was told to.
#[derive(Debug, Drop)]
pub struct MemoryShelf {
    alloc: Global,
    files: Vec<(String, Vec<u8>)>,
    failing: Vec<u64>,
    next: u64,
    faults: Counts,
}

impl Model for MemoryShelf {
    ghost use Rattle.outer_world.specs.Counts.{pairs_of};
    ghost use Rattle.outer_world.specs.MemoryShelf.{ShelfInMemory};

    ghost Value = { ShelfInMemory };

    ghost view = { λ s. record { files = s.files.items; failing = s.failing.items; next = s.next; faults = pairs_of s.faults } };
}

/// The bytes of the first file of a name.
fn find<'a>(files: &'a [(String, Vec<u8>)], name: &str) -> Option<&'a [u8]>
    ensures { option_copied result ≡ file_of files.now name.now }
{
    files
        .iter()
        .find(|file| file.0.as_str() == name)
        .map(|file| file.1.as_slice())
}

/// The file that the load with this number gives, none where it fails.
fn given<'a>(
    files: &'a [(String, Vec<u8>)],
    failing: &[u64],
    number: u64,
    name: &str,
) -> Option<&'a [u8]>
    ensures { option_copied result ≡ given_of files.now failing.now number name.now }
{
    if is_listed(failing, number) {
        return None;
    }
    find(files, name)
}

fn is_listed(failing: &[u64], number: u64) -> bool
    ensures { result ≡ list_any (λ listed. listed == number) failing.now }
{
    failing.iter().any(|listed| *listed == number)
}

impl MemoryShelf {
    /// A shelf with these files, each a name with its bytes; of two with one name, the first stands.
    /// The loads with the numbers in `failing`, from 0, answer Failed and raise the count of the name
    /// loaded, and so does a load of a name that no file has.
    pub fn new(alloc: Global, files: Vec<(String, Vec<u8>)>, failing: Vec<u64>) -> MemoryShelf
        ensures files { result.files ≡ files.items }
        ensures failing { result.failing ≡ failing.items }
        ensures next { result.next ≡ 0 }
        ensures faults { (name : List ℕ) → count_of result.faults name ≡ 0 }
    {
        MemoryShelf {
            alloc,
            files,
            failing,
            next: 0,
            faults: BTreeMap::new(alloc),
        }
    }
}

impl Shelf for MemoryShelf {
    ghost holds = { λ s name. file_of s.files name };

    ghost faults = { λ s. count_of s.faults };

    fn load(&mut self, name: &str, most: usize) -> Result<Vec<u8>, LoadFault>
        ensures loads { Loads (file_of self.old.files) (file_of self.new.files) (count_of self.old.faults) (count_of self.new.faults) name.now most result }

        // Failed comes exactly at the loads that fail, want of memory aside, and is counted.
        ensures failed { result ≢ Err LoadFault.Memory → ((result ≡ Err LoadFault.Failed) ↔ NextFails self.old name.now) }
        ensures counted { result ≡ Err LoadFault.Failed → count_of self.new.faults name.now ≡ one_more (count_of self.old.faults name.now) }
        ensures uncounted { result ≢ Err LoadFault.Failed → count_of self.new.faults name.now ≡ count_of self.old.faults name.now }

        ensures next { self.new.next ≡ one_more self.old.next }
        ensures files { self.new.files ≡ self.old.files }
        ensures failing { self.new.failing ≡ self.old.failing }
    {
        let room = make_room(self.alloc, &mut self.faults, name);
        let number = self.next;
        self.next = next_count(number);
        if room.is_err() {
            return Err(LoadFault::Memory);
        }
        match given(self.files.as_slice(), self.failing.as_slice(), number, name) {
            Some(bytes) => copied(self.alloc, bytes, most),
            None => {
                raise(&mut self.faults, name);
                Err(LoadFault::Failed)
            }
        }
    }
}

/// A copy of a file's bytes, of which there are at most `most`.
fn copied(alloc: Global, bytes: &[u8], most: usize) -> Result<Vec<u8>, LoadFault>
    ensures ok { IfOk result (λ copy. copy.items ≡ bytes.now) }
    ensures too_long { (result ≡ Err LoadFault.TooLong) ↔ (most < length bytes.now) }
    ensures read { result ≢ Err LoadFault.Failed }
{
    if bytes.len() > most {
        return Err(LoadFault::TooLong);
    }
    Vec::from_slice(alloc, bytes).map_err(|_| LoadFault::Memory)
}
