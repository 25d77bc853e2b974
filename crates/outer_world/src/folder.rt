ghost use Rattle.std.specs.Prelude.{◌≡◌, ℕ, List, Option, None, IfOk};
ghost use Rattle.outer_world.specs.Folder.{Gives};

use std::fs::Files;
use std::io::Read;
use std::{fs, io};

/// What opens files by name.
pub trait Folder {
    /// An opened file.
    type File: Read + Drop;

    /// The bytes of a file by its name, where the folder tells them.
    ghost holds: { Self → List ℕ → Option (List ℕ) };

    /// Opens the file of that name, from its first byte.
    fn open(&self, name: &str) -> io::Result<Self::File>
        ensures { IfOk result (λ file. Gives (holds self.now name.now) (Self.File.remaining file)) };
}

/// The files of the system, by path. It tells nothing of their contents: this is the trusted edge.
#[derive(Drop)]
pub struct SystemFiles<'r, R> {
    pub(crate) files: &'r R,
}

impl<R: Files> Folder for SystemFiles<'_, R> {
    type File = R::File;

    ghost holds = { λ _ _. None };

    fn open(&self, name: &str) -> io::Result<R::File> {
        fs::open(self.files, name)
    }
}
