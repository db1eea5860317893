//! The folder that the program runs in.

ghost use Rattle.std.specs.Prelude.{◌≡◌, ◌≤◌, []};
ghost use Rattle.dcsp_outside.specs.Outside.{AddsPiece, AddsUpTo};
ghost use Rattle.abt_files.specs.Faults.{CountsFault};

use crate::disk::Disk;
use crate::open_files::OpenFiles;
use dcsp_outside::{Fetched, Folder, FolderError, Piece, Transcript};
use std::alloc::Global;
use std::cell::RefCell;

/// The files of a system, by their paths.
///
/// Any error of the system is `Failed`, and is counted at every name: a file that is missing or
/// cannot be read, and a write that takes nothing. What the files hold is not told; what was read of
/// them is. The open files are shared with the output, which lets nothing wait.
#[derive(Drop)]
pub struct RealFolder<'c, D, W> {
    alloc: Global,
    open: &'c RefCell<OpenFiles<D, W>>,
    handed: Transcript,
    created: Vec<String>,
    faults: u64,
}

impl<'c, D, W> RealFolder<'c, D, W> {
    /// The folder as it stands. No name was created in it by this program, and no fault is counted.
    pub fn new(alloc: Global, open: &'c RefCell<OpenFiles<D, W>>) -> RealFolder<'c, D, W>
        ensures handed { result.handed.answers ≡ [] }
        ensures created { result.created.items ≡ [] }
        ensures faults { result.faults ≡ 0 }
    {
        RealFolder {
            alloc,
            open,
            handed: Transcript::new(),
            created: Vec::new(alloc),
            faults: 0,
        }
    }

    /// Counts a fault, if this is one.
    fn counted(&mut self, error: FolderError) -> FolderError
        ensures same { result ≡ error }
        ensures handed { self.new.handed ≡ self.old.handed }
        ensures created { self.new.created ≡ self.old.created }
        ensures counts { CountsFault error self.old.faults self.new.faults }
        ensures never_falls { self.old.faults ≤ self.new.faults }
    {
        if error == FolderError::Failed {
            self.faults = self.faults.saturating_add(1);
        }
        error
    }
}

impl<'c, D: Disk> RealFolder<'c, D, D::File> {
    /// Opens a name for reading, and reads it.
    fn read(&self, name: &str, most: u64, into: &mut Vec<u8>) -> Result<Fetched, FolderError>
        ensures { AddsUpTo most into.old.items into.new.items result }
    {
        match self.open.try_borrow_mut() {
            Ok(mut open) => open.read(name, most, into),
            Err(_) => Err(FolderError::Failed),
        }
    }

    fn piece(
        &self,
        name: &str,
        from: u64,
        most: usize,
        into: &mut Vec<u8>,
    ) -> Result<Piece, FolderError>
        requires { most ≤ 65536 }
        ensures { AddsPiece most into.old.items into.new.items result }
    {
        match self.open.try_borrow_mut() {
            Ok(mut open) => open.read_piece(name, from, most, into),
            Err(_) => Err(FolderError::Failed),
        }
    }

    fn make(&self, name: &str) -> Result<(), FolderError> {
        match self.open.try_borrow_mut() {
            Ok(mut open) => open.create(name),
            Err(_) => Err(FolderError::Failed),
        }
    }

    fn add(&self, name: &str, bytes: &[u8]) -> Result<(), FolderError> {
        match self.open.try_borrow_mut() {
            Ok(mut open) => open.append(name, bytes),
            Err(_) => Err(FolderError::Failed),
        }
    }
}

impl<'c, D: Disk> Folder for RealFolder<'c, D, D::File> {
    ghost use Rattle.std.specs.Prelude.{None, map, string_bytes};

    ghost place = { λ folder. record {
      held = None;
      handed = folder.handed.answers;
      created = map string_bytes folder.created.items;
      reads = λ _. folder.faults;
      writes = λ _. folder.faults;
    } };

    fn fetch(&mut self, name: &str, most: u64, into: &mut Vec<u8>) -> Result<Fetched, FolderError> {
        let start = into.len();
        let found = self.read(name, most, into);
        self.handed.fetched(name, most, &into[start..], found);
        match found {
            Ok(fetched) => Ok(fetched),
            Err(error) => Err(self.counted(error)),
        }
    }

    fn fetch_piece(
        &mut self,
        name: &str,
        from: u64,
        most: usize,
        into: &mut Vec<u8>,
    ) -> Result<Piece, FolderError> {
        let start = into.len();
        let found = self.piece(name, from, most, into);
        self.handed.fetched_piece(name, from, &into[start..], found);
        match found {
            Ok(piece) => Ok(piece),
            Err(error) => Err(self.counted(error)),
        }
    }

    fn create(&mut self, name: &str) -> Result<(), FolderError> {
        let key = String::from_str(self.alloc, name)?;
        self.created.push(key)?;
        match self.make(name) {
            Ok(()) => Ok(()),
            Err(error) => {
                self.created.pop();
                Err(self.counted(error))
            }
        }
    }

    fn append(&mut self, name: &str, bytes: &[u8]) -> Result<(), FolderError> {
        match self.add(name, bytes) {
            Ok(()) => Ok(()),
            Err(error) => Err(self.counted(error)),
        }
    }
}
