ghost use Rattle.std.specs.Prelude.{ℕ, List, Option};
ghost use Rattle.outer_world.specs.Shelf.{Loads};

use thiserror::Error;

/// Why a load gave no bytes.
#[derive(Clone, Copy, Debug, PartialEq, Eq, Error)]
pub enum LoadFault {
    /// The file couldn't be opened or read. The shelf's count of faults of that name rose.
    #[error("the file couldn't be read")]
    Failed,
    /// The file has more bytes than were asked for.
    #[error("the file is too long")]
    TooLong,
    /// There was no memory for the file's bytes, or for the count of its faults.
    #[error("out of memory")]
    Memory,
}

/// Files by name.
pub trait Shelf {
    /// The bytes of a file by its name, where the shelf tells them.
    ghost holds: { Self → List ℕ → Option (List ℕ) };

    /// How often a load of a name failed: a count that never falls.
    ghost faults: { Self → List ℕ → ℕ };

    /// All bytes of the file of that name, of which there are at most `most`.
    fn load(&mut self, name: &str, most: usize) -> Result<Vec<u8>, LoadFault>
        ensures { Loads (holds self.old) (holds self.new) (faults self.old) (faults self.new) name.now most result };
}
