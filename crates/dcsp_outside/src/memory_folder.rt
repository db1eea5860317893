//! A folder in memory whose calls can be made to fail.

ghost use Rattle.std.specs.Prelude.{◌≡◌, ℕ, ◌≤◌, ◌↔◌, [], ◌∷◌, ◌++◌, ◌||◌, OnOk, OnErr, IsErrOf, IsTrue, Some, false};
ghost use Rattle.std.specs.Option.{option_copied};
ghost use Rattle.std.specs.FinMap as map;
ghost use Rattle.dcsp_outside.specs.Outside.{ChangesName, AppendsExactly, AppendsPartOf, Fetches, FetchesPiece, bytes_of, gained, handed_by, handed_piece};
ghost use Rattle.dcsp_outside.specs.Memory.{fails_next, fails_fetch, kept_of, is_failure, after_call};

use crate::call_plan::{CallPlan, Failure};
use crate::folder::{Fetched, Folder, FolderError, Piece};
use crate::handing::Transcript;
use crate::kept_files::{KeptFiles, fetch_bytes, fetch_piece_of, first_of};
use dcsp_common::Memory;
use std::alloc::Global;
use std::marker::Model;

/// A folder in memory whose calls can be made to fail.
///
/// Calls of `fetch`, `fetch_piece`, `create` and `append` are counted together, from 1 up to
/// `2^64 - 1`, where the number stays. A call fails exactly where [`MemoryFolder::fail_at`] or
/// [`MemoryFolder::fail_after`] named its number, or where it fetches a name that is not held. It
/// then changes nothing but the counts, but for the bytes that `fail_after` lets an append keep.
#[derive(Drop)]
pub struct MemoryFolder {
    kept: KeptFiles,
    calls: CallPlan,
    handed: Transcript,
}

impl Model for MemoryFolder {
    ghost use Rattle.dcsp_outside.specs.Memory.{FolderState, folder_code};

    ghost Value = { FolderState };

    ghost coded = { folder_code };

    ghost view = { λ folder. record { kept = folder.kept; calls = folder.calls; handed = folder.handed.answers } };
}

impl MemoryFolder {
    /// A folder that holds nothing and was not called.
    pub fn new(alloc: Global) -> MemoryFolder
        ensures kept { result.kept ≡ record { files = map.empty; created = [] } }
        ensures calls { result.calls ≡ record { made = 0; failing = []; faults = 0 } }
        ensures handed { result.handed ≡ [] }
    {
        MemoryFolder {
            kept: KeptFiles::new(alloc),
            calls: CallPlan::new(alloc),
            handed: Transcript::new(),
        }
    }

    /// Lets the name hold these bytes alone. It is no call of the trait, and is not counted.
    pub fn place(&mut self, name: &str, bytes: &[u8]) -> Result<(), Memory>
        ensures ok { OnOk result (ChangesName name.now (λ old new. new ≡ Some bytes.now)
            (map.get self.old.kept.files) (map.get self.new.kept.files)) }
        ensures err { OnErr result (self.new.kept ≡ self.old.kept) }
        ensures created { self.new.kept.created ≡ self.old.kept.created }
        ensures calls { self.new.calls ≡ self.old.calls }
        ensures handed { self.new.handed ≡ self.old.handed }
    {
        self.kept.place(name, bytes)
    }

    /// The bytes of the name, `None` exactly if it is not held.
    pub fn file(&self, name: &str) -> Option<&[u8]>
        ensures { option_copied result ≡ map.get self.now.kept.files name.now }
    {
        self.kept.file(name)
    }

    /// Lets call number `call` fail, counted from 1.
    pub fn fail_at(&mut self, call: u64) -> Result<(), Memory>
        ensures ok { OnOk result (self.new.calls ≡ record self.old.calls {
          failing = self.old.calls.failing ++ record { call = call; kept = 0 } ∷ [];
        }) }
        ensures err { OnErr result (self.new.calls ≡ self.old.calls) }
        ensures kept { self.new.kept ≡ self.old.kept }
        ensures handed { self.new.handed ≡ self.old.handed }
    {
        self.fail_after(call, 0)
    }

    /// Lets call number `call` fail, counted from 1. Where it is an append, the first `kept` bytes of
    /// its piece go last, or all where they are fewer; for want of memory for these it answers `Memory`.
    /// Where a call is named twice, the first counts.
    pub fn fail_after(&mut self, call: u64, kept: usize) -> Result<(), Memory>
        ensures ok { OnOk result (self.new.calls ≡ record self.old.calls {
          failing = self.old.calls.failing ++ record { call = call; kept = kept } ∷ [];
        }) }
        ensures err { OnErr result (self.new.calls ≡ self.old.calls) }
        ensures kept { self.new.kept ≡ self.old.kept }
        ensures handed { self.new.handed ≡ self.old.handed }
    {
        self.calls.add(Failure { call, kept })
    }

    /// How many calls have failed, up to `2^64 - 1`, where the number stays.
    pub fn faults(&self) -> u64
        ensures { result ≡ self.now.calls.faults }
    {
        self.calls.faults()
    }

    /// Counts a call that reads the name, and tells whether it fails.
    fn fails_fetch(&mut self, name: &str) -> bool
        ensures fails { result ≡ fails_fetch self.old name.now }
        ensures calls { self.new.calls ≡ after_call self.old.calls (fails_fetch self.old name.now) }
        ensures never_falls { self.old.calls.faults ≤ self.new.calls.faults }
        ensures kept { self.new.kept ≡ self.old.kept }
        ensures handed { self.new.handed ≡ self.old.handed }
    {
        let is_named = self.calls.count_call().is_some();
        if is_named || self.kept.file(name).is_none() {
            self.calls.count_fault();
            return true;
        }
        false
    }

    /// Lets these bytes go last in the name. Where there are none, it stays as it was.
    fn add_part(&mut self, name: &str, bytes: &[u8]) -> Result<(), FolderError>
        ensures ok { OnOk result (ChangesName name.now (AppendsExactly bytes.now)
            (map.get self.old.kept.files) (map.get self.new.kept.files)) }
        ensures err { OnErr result (self.new.kept ≡ self.old.kept) }
        ensures memory { IsErrOf result FolderError.Failed → ⊥ }
        ensures created { self.new.kept.created ≡ self.old.kept.created }
        ensures calls { self.new.calls ≡ self.old.calls }
        ensures handed { self.new.handed ≡ self.old.handed }
    {
        if bytes.is_empty() {
            return Ok(());
        }
        self.add(name, bytes)
    }

    /// Lets these bytes go last in the name.
    fn add(&mut self, name: &str, bytes: &[u8]) -> Result<(), FolderError>
        ensures ok { OnOk result (ChangesName name.now (λ old new. new ≡ Some (bytes_of old ++ bytes.now))
            (map.get self.old.kept.files) (map.get self.new.kept.files)) }
        ensures err { OnErr result (self.new.kept ≡ self.old.kept) }
        ensures memory { IsErrOf result FolderError.Failed → ⊥ }
        ensures created { self.new.kept.created ≡ self.old.kept.created }
        ensures calls { self.new.calls ≡ self.old.calls }
        ensures handed { self.new.handed ≡ self.old.handed }
    {
        self.kept.append(name, bytes)?;
        Ok(())
    }
}

impl Folder for MemoryFolder {
    ghost use Rattle.std.specs.Prelude.{Some};
    ghost use Rattle.std.specs.FinMap as map;

    ghost place = { λ folder. record {
      held = Some (λ name. map.get folder.kept.files name);
      handed = folder.handed;
      created = folder.kept.created;
      reads = λ _. folder.calls.faults;
      writes = λ _. folder.calls.faults;
    } };

    fn fetch(&mut self, name: &str, most: u64, into: &mut Vec<u8>) -> Result<Fetched, FolderError>
        ensures bytes { Fetches (bytes_of (map.get self.old.kept.files name.now)) most
            into.old.items into.new.items result }
        ensures fails { IsErrOf result FolderError.Failed ↔ IsTrue (fails_fetch self.old name.now) }
        ensures calls { self.new.calls ≡ after_call self.old.calls (fails_fetch self.old name.now) }
        ensures never_falls { self.old.calls.faults ≤ self.new.calls.faults }
        ensures kept { self.new.kept ≡ self.old.kept }
        ensures handed { self.new.handed ≡ self.old.handed
            ++ handed_by name.now most (gained into.old.items into.new.items) result }
    {
        if self.fails_fetch(name) {
            return Err(FolderError::Failed);
        }
        let start = into.len();
        let found = fetch_bytes(self.kept.file(name).unwrap_or(&[]), most, into);
        self.handed.fetched(name, most, &into[start..], found);
        found
    }

    fn fetch_piece(
        &mut self,
        name: &str,
        from: u64,
        most: usize,
        into: &mut Vec<u8>,
    ) -> Result<Piece, FolderError>
        requires some { 1 ≤ most }
        ensures bytes { FetchesPiece (bytes_of (map.get self.old.kept.files name.now)) from most
            into.old.items into.new.items result }
        ensures fails { IsErrOf result FolderError.Failed ↔ IsTrue (fails_fetch self.old name.now) }
        ensures calls { self.new.calls ≡ after_call self.old.calls (fails_fetch self.old name.now) }
        ensures never_falls { self.old.calls.faults ≤ self.new.calls.faults }
        ensures kept { self.new.kept ≡ self.old.kept }
        ensures handed { self.new.handed ≡ self.old.handed
            ++ handed_piece name.now from (gained into.old.items into.new.items) result }
    {
        if self.fails_fetch(name) {
            return Err(FolderError::Failed);
        }
        let start = into.len();
        let found = fetch_piece_of(self.kept.file(name).unwrap_or(&[]), from, most, into);
        self.handed.fetched_piece(name, from, &into[start..], found);
        found
    }

    fn create(&mut self, name: &str) -> Result<(), FolderError>
        ensures fails { IsErrOf result FolderError.Failed ↔ IsTrue (fails_next self.old.calls) }
        ensures calls { self.new.calls ≡ after_call self.old.calls (fails_next self.old.calls) }
        ensures never_falls { self.old.calls.faults ≤ self.new.calls.faults }
        ensures ok { OnOk result (ChangesName name.now (λ old new. new ≡ Some [])
            (map.get self.old.kept.files) (map.get self.new.kept.files)) }
        ensures created { OnOk result
            (self.new.kept.created ≡ self.old.kept.created ++ name.now ∷ []) }
        ensures err { OnErr result (self.new.kept ≡ self.old.kept) }
        ensures handed { self.new.handed ≡ self.old.handed }
    {
        if self.calls.count_call().is_some() {
            self.calls.count_fault();
            return Err(FolderError::Failed);
        }
        self.kept.create(name)?;
        Ok(())
    }

    fn append(&mut self, name: &str, bytes: &[u8]) -> Result<(), FolderError>
        ensures goes_through { OnOk result (fails_next self.old.calls ≡ false) }
        ensures fails { IsErrOf result FolderError.Failed → IsTrue (fails_next self.old.calls) }
        ensures calls { self.new.calls ≡ after_call self.old.calls (is_failure result) }
        ensures never_falls { self.old.calls.faults ≤ self.new.calls.faults }
        ensures ok { OnOk result (ChangesName name.now (λ old new. new ≡ Some (bytes_of old ++ bytes.now))
            (map.get self.old.kept.files) (map.get self.new.kept.files)) }
        ensures created { self.new.kept.created ≡ self.old.kept.created }
        ensures failed { IsErrOf result FolderError.Failed
            → ChangesName name.now (AppendsExactly (kept_of self.old.calls bytes.now))
            (map.get self.old.kept.files) (map.get self.new.kept.files) }
        ensures part { IsErrOf result FolderError.Failed → ChangesName name.now (AppendsPartOf bytes.now)
            (map.get self.old.kept.files) (map.get self.new.kept.files) }
        ensures memory { IsErrOf result FolderError.Memory → self.new.kept ≡ self.old.kept }
        ensures handed { self.new.handed ≡ self.old.handed }
    {
        let Some(kept) = self.calls.count_call() else {
            return self.add(name, bytes);
        };
        self.add_part(name, first_of(bytes, kept))?;
        self.calls.count_fault();
        Err(FolderError::Failed)
    }
}
