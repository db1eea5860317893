//! What a folder in memory keeps, and how it changes.

ghost use Rattle.std.specs.Prelude.{◌≡◌, ℕ, ◌≤◌, [], ◌∷◌, ◌++◌, length, OnOk, OnErr, IsErrOf, take, drop};
ghost use Rattle.std.specs.Option.{option_copied};
ghost use Rattle.std.specs.FinMap as map;
ghost use Rattle.dcsp_outside.specs.Outside.{ChangesName, Fetches, FetchesPiece, bytes_of};

use crate::file_table::FileTable;
use crate::folder::{Fetched, FolderError, Piece};
use dcsp_common::Memory;
use std::alloc::Global;
use std::marker::Model;

/// Files, and the names that were created in them.
#[derive(Drop)]
pub struct KeptFiles {
    alloc: Global,
    files: FileTable,
    created: Vec<String>,
}

impl Model for KeptFiles {
    ghost use Rattle.std.specs.Prelude.{map, string_bytes};
    ghost use Rattle.dcsp_outside.specs.Memory.{Kept, kept_code};

    ghost Value = { Kept };

    ghost coded = { kept_code };

    ghost view = { λ kept. record { files = kept.files; created = map string_bytes kept.created.items } };
}

impl KeptFiles {
    /// No name is held, and none was created.
    pub fn new(alloc: Global) -> KeptFiles
        ensures { result ≡ record { files = map.empty; created = [] } }
    {
        KeptFiles {
            alloc,
            files: FileTable::new(alloc),
            created: Vec::new(alloc),
        }
    }

    /// The bytes of the name, if it is held.
    pub fn file(&self, name: &str) -> Option<&[u8]>
        ensures { option_copied result ≡ map.get self.now.files name.now }
    {
        self.files.file(name)
    }

    /// Lets the name hold these bytes alone.
    pub fn place(&mut self, name: &str, bytes: &[u8]) -> Result<(), Memory>
        ensures ok { OnOk result (ChangesName name.now (λ old new. new ≡ Some bytes.now)
            (map.get self.old.files) (map.get self.new.files)) }
        ensures err { OnErr result (self.new ≡ self.old) }
        ensures created { self.new.created ≡ self.old.created }
    {
        self.files.write(name, bytes)
    }

    /// Lets the name hold no bytes, and puts it last among those created.
    pub fn create(&mut self, name: &str) -> Result<(), Memory>
        ensures ok { OnOk result (ChangesName name.now (λ old new. new ≡ Some [])
            (map.get self.old.files) (map.get self.new.files)) }
        ensures created { OnOk result (self.new.created ≡ self.old.created ++ name.now ∷ []) }
        ensures err { OnErr result (self.new ≡ self.old) }
    {
        let key = String::from_str(self.alloc, name)?;
        self.created.push(key)?;
        if self.files.write(name, &[]).is_err() {
            self.created.pop();
            return Err(Memory);
        }
        Ok(())
    }

    /// Adds the bytes at the end of the name.
    pub fn append(&mut self, name: &str, bytes: &[u8]) -> Result<(), Memory>
        ensures ok { OnOk result (ChangesName name.now (λ old new. new ≡ Some (bytes_of old ++ bytes.now))
            (map.get self.old.files) (map.get self.new.files)) }
        ensures err { OnErr result (self.new ≡ self.old) }
        ensures created { self.new.created ≡ self.old.created }
    {
        self.files.append(name, bytes)
    }
}

/// Appends the bytes to `into`, if there are at most `most` of them.
pub fn fetch_bytes(bytes: &[u8], most: u64, into: &mut Vec<u8>) -> Result<Fetched, FolderError>
    ensures bytes { Fetches bytes.now most into.old.items into.new.items result }
    ensures never_fails { IsErrOf result FolderError.Failed → ⊥ }
{
    if bytes.len() as u64 > most {
        return Ok(Fetched::Long);
    }
    extend(into, bytes)?;
    Ok(Fetched::Whole)
}

/// Appends `most` of the bytes from place `from` on, or all that are left there where they are fewer.
pub fn fetch_piece_of(
    bytes: &[u8],
    from: u64,
    most: usize,
    into: &mut Vec<u8>,
) -> Result<Piece, FolderError>
    requires some { 1 ≤ most }
    ensures bytes { FetchesPiece bytes.now from most into.old.items into.new.items result }
    ensures never_fails { IsErrOf result FolderError.Failed → ⊥ }
{
    let rest = rest_from(bytes, from);
    if rest.len() < most {
        extend(into, rest)?;
        return Ok(Piece::End);
    }
    extend(into, &rest[..most])?;
    Ok(Piece::Part)
}

/// Appends the bytes.
fn extend(into: &mut Vec<u8>, bytes: &[u8]) -> Result<(), FolderError>
    ensures ok { OnOk result (into.new.items ≡ into.old.items ++ bytes.now) }
    ensures err { OnErr result (into.new.items ≡ into.old.items) }
    ensures never_fails { IsErrOf result FolderError.Failed → ⊥ }
{
    into.extend_from_slice(bytes)?;
    Ok(())
}

/// The bytes from a place on; none where there are fewer.
fn rest_from(bytes: &[u8], from: u64) -> &[u8]
    ensures { result.now ≡ drop from bytes.now }
{
    if from < bytes.len() as u64 {
        &bytes[from as usize..]
    } else {
        &[]
    }
}

/// The first bytes, as many as this or all where they are fewer.
pub fn first_of(bytes: &[u8], count: usize) -> &[u8]
    ensures { result.now ≡ take count bytes.now }
{
    if count < bytes.len() {
        &bytes[..count]
    } else {
        bytes
    }
}
