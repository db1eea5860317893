//! A folder in memory that never fails.

ghost use Rattle.std.specs.Prelude.{◌≡◌, ◌≤◌, ℕ, [], ◌∷◌, ◌++◌, OnOk, OnErr, IsErrOf};
ghost use Rattle.std.specs.Option.{option_copied};
ghost use Rattle.std.specs.FinMap as map;
ghost use Rattle.dcsp_outside.specs.Outside.{ChangesName, Fetches, FetchesPiece, bytes_of, gained, handed_by, handed_piece};

use crate::folder::{Fetched, Folder, FolderError, Piece};
use crate::handing::Transcript;
use crate::kept_files::{KeptFiles, fetch_bytes, fetch_piece_of};
use dcsp_common::Memory;
use std::alloc::Global;
use std::marker::Model;

/// A folder in memory that never fails: a name that is not held reads as empty.
#[derive(Drop)]
pub struct SureFolder {
    kept: KeptFiles,
    handed: Transcript,
}

impl Model for SureFolder {
    ghost use Rattle.dcsp_outside.specs.Memory.{SureState, sure_code};

    ghost Value = { SureState };

    ghost coded = { sure_code };

    ghost view = { λ folder. record { files = folder.kept.files; created = folder.kept.created; handed = folder.handed.answers } };
}

impl SureFolder {
    /// A folder that holds nothing.
    pub fn new(alloc: Global) -> SureFolder
        ensures { result ≡ record { files = map.empty; created = []; handed = [] } }
    {
        SureFolder {
            kept: KeptFiles::new(alloc),
            handed: Transcript::new(),
        }
    }

    /// Lets the name hold these bytes alone.
    pub fn place(&mut self, name: &str, bytes: &[u8]) -> Result<(), Memory>
        ensures ok { OnOk result (ChangesName name.now (λ old new. new ≡ Some bytes.now)
            (map.get self.old.files) (map.get self.new.files)) }
        ensures err { OnErr result (self.new ≡ self.old) }
        ensures created { self.new.created ≡ self.old.created }
        ensures handed { self.new.handed ≡ self.old.handed }
    {
        self.kept.place(name, bytes)
    }

    /// The bytes of the name, `None` exactly if it is not held.
    pub fn file(&self, name: &str) -> Option<&[u8]>
        ensures { option_copied result ≡ map.get self.now.files name.now }
    {
        self.kept.file(name)
    }
}

impl Folder for SureFolder {
    ghost use Rattle.std.specs.Prelude.{Some};
    ghost use Rattle.std.specs.FinMap as map;

    ghost place = { λ folder. record {
      held = Some (λ name. map.get folder.files name);
      handed = folder.handed;
      created = folder.created;
      reads = λ _. 0;
      writes = λ _. 0;
    } };

    fn fetch(&mut self, name: &str, most: u64, into: &mut Vec<u8>) -> Result<Fetched, FolderError>
        ensures bytes { Fetches (bytes_of (map.get self.old.files name.now)) most
            into.old.items into.new.items result }
        ensures never_fails { IsErrOf result FolderError.Failed → ⊥ }
        ensures kept { self.new ≡ record self.old { handed = self.new.handed } }
        ensures handed { self.new.handed ≡ self.old.handed
            ++ handed_by name.now most (gained into.old.items into.new.items) result }
    {
        let start = into.len();
        let found = fetch_bytes(self.kept.file(name).unwrap_or(&[]), most, into);
        self.handed.fetched(name, most, &into[start..], found);
        found
    }

    fn fetch_piece(
        &mut self,
        name: &str,
        from: u64,
        most: usize,
        into: &mut Vec<u8>,
    ) -> Result<Piece, FolderError>
        requires some { 1 ≤ most }
        ensures bytes { FetchesPiece (bytes_of (map.get self.old.files name.now)) from most
            into.old.items into.new.items result }
        ensures never_fails { IsErrOf result FolderError.Failed → ⊥ }
        ensures kept { self.new ≡ record self.old { handed = self.new.handed } }
        ensures handed { self.new.handed ≡ self.old.handed
            ++ handed_piece name.now from (gained into.old.items into.new.items) result }
    {
        let start = into.len();
        let found = fetch_piece_of(self.kept.file(name).unwrap_or(&[]), from, most, into);
        self.handed.fetched_piece(name, from, &into[start..], found);
        found
    }

    fn create(&mut self, name: &str) -> Result<(), FolderError>
        ensures ok { OnOk result (ChangesName name.now (λ old new. new ≡ Some [])
            (map.get self.old.files) (map.get self.new.files)) }
        ensures created { OnOk result (self.new.created ≡ self.old.created ++ name.now ∷ []) }
        ensures err { OnErr result (self.new ≡ self.old) }
        ensures handed { self.new.handed ≡ self.old.handed }
        ensures never_fails { IsErrOf result FolderError.Failed → ⊥ }
    {
        self.kept.create(name)?;
        Ok(())
    }

    fn append(&mut self, name: &str, bytes: &[u8]) -> Result<(), FolderError>
        ensures ok { OnOk result (ChangesName name.now (λ old new. new ≡ Some (bytes_of old ++ bytes.now))
            (map.get self.old.files) (map.get self.new.files)) }
        ensures created { self.new.created ≡ self.old.created }
        ensures handed { self.new.handed ≡ self.old.handed }
        ensures err { OnErr result (self.new ≡ self.old) }
        ensures never_fails { IsErrOf result FolderError.Failed → ⊥ }
    {
        self.kept.append(name, bytes)?;
        Ok(())
    }
}
