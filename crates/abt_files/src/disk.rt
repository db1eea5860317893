//! Where files are opened.

ghost use Rattle.std.specs.Prelude.{◌≡◌, ℕ, List, Option, IfOk, OnOk};
ghost use Rattle.std.specs.Io.KnownBytes.{IsAtEnd};

use dcsp_outside::FolderError;
use std::io::{Read, Seek, Write};

/// Which regular file it is, whatever its names.
#[derive(Clone, Copy, PartialEq, Eq)]
pub struct FileId {
    pub device: u64,
    pub number: u64,
}

/// A system that opens files by their names.
pub trait Disk {
    ghost use Rattle.abt_files.specs.declared.disk.FileId.{FileId};

    type File: Read + Write + Seek + Drop;

    /// The name that a file was opened under.
    ghost opened_as: { Self.File → List ℕ };

    /// Which regular file it is. A device or a pipe is none.
    ghost identity: { Self.File → Option FileId };

    /// Opens a name, to be read.
    fn open(&self, name: &str) -> Result<Self::File, FolderError>
        ensures { IfOk result (λ file. opened_as file ≡ name.now) };

    /// Opens a name, to be written. A missing file is made, and one that is there keeps its bytes.
    fn open_to_write(&self, name: &str) -> Result<Self::File, FolderError>
        ensures { IfOk result (λ file. opened_as file ≡ name.now) };

    /// Which regular file it is, if it is one.
    fn identity(&self, file: &Self::File) -> Option<FileId>
        ensures { result ≡ identity file.now };

    /// Takes all bytes from a regular file.
    fn empty(&self, file: &mut Self::File) -> Result<(), FolderError>
        ensures opened { opened_as file.new ≡ opened_as file.old }
        ensures same { identity file.new ≡ identity file.old }
        ensures empty { OnOk result (IsAtEnd (Self.File.contents file.new)) };
}
