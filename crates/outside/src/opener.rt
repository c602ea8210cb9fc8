// What opens files to be read.
ghost use Rattle.std.specs.Prelude.{ℕ, List, Option, None, IfOk};
ghost use Rattle.outside.specs.Streams.{HasLeft};

use std::fs::File;
use std::io::Read;
use std::{io, rt};

/// Opens files by their names. A runtime does, and tells nothing of them.
pub trait Opener {
    type Opened: Read + Drop;

    /// For each name nothing, or the bytes that its file gives.
    ghost told: { Self → List ℕ → Option (List ℕ) };

    /// Opens the file of this name, as the name stands.
    fn open(&self, name: &str) -> io::Result<Self::Opened>
        ensures { IfOk result (λ file. HasLeft (told self.now name.now) (Self.Opened.Read.remaining file)) };
}

impl<R: rt::Files> Opener for R {
    type Opened = R::File;

    ghost told = { λ _ _. None };

    fn open(&self, name: &str) -> io::Result<R::File> {
        File::open(self, name)
    }
}
