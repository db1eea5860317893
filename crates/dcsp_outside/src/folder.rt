//! A folder of named bytes.

ghost use Rattle.std.specs.Prelude.{◌≡◌, ◌^◌, ◌≤◌, [], ◌∷◌, ◌++◌, ◌⊎◌, IfSome, OnOk, IsErrOf, Contains, is_ok, if◌then◌else◌};
ghost use Rattle.dcsp_outside.specs.Outside.{Place, Rose, NoneFalls, SameCounts, UnlessFailed, Told, ChangesName, AppendsPartOf, Fetches, AddsUpTo, FetchesPiece, AddsPiece, bytes_of, gained, handed_by, handed_piece};

use std::alloc::{AllocError, AllocFailed};

/// What a fetch found.
#[derive(Clone, Copy, Debug, PartialEq, Eq)]
pub enum Fetched {
    /// All bytes of the name were appended.
    Whole,
    /// The name has more bytes than were asked for, and none was appended.
    Long,
}

/// What a fetch of a piece found.
#[derive(Clone, Copy, Debug, PartialEq, Eq)]
pub enum Piece {
    /// The name has as many bytes as were asked for, and these were appended.
    Part,
    /// Fewer are left, maybe none, and all of them were appended.
    End,
}

/// The most bytes that a fetch of a piece may ask for.
pub const MOST_PIECE: usize = 65536;

/// Why a call on a folder was refused.
#[derive(Clone, Copy, Debug, PartialEq, Eq)]
pub enum FolderError {
    /// The folder failed, and counted it at the name.
    Failed,
    /// Want of memory.
    Memory,
}

impl From<AllocError> for FolderError {
    ghost use Rattle.std.specs.Prelude.{◌≡◌};
    ghost use Rattle.dcsp_outside.specs.declared.folder.FolderError.TheVariants.{Memory};

    ghost from_gives = { λ _ e. e ≡ Memory };

    fn from(_: AllocError) -> FolderError {
        FolderError::Memory
    }
}

impl<T: Drop> From<AllocFailed<T>> for FolderError {
    ghost use Rattle.std.specs.Prelude.{◌≡◌};
    ghost use Rattle.dcsp_outside.specs.declared.folder.FolderError.TheVariants.{Memory};

    ghost from_gives = { λ _ e. e ≡ Memory };

    fn from(_: AllocFailed<T>) -> FolderError {
        FolderError::Memory
    }
}

/// A folder: bytes under names.
///
/// What it holds may be left untold, as a folder on disk leaves it; the clauses on bytes speak of
/// folders that tell it. What answered fetches handed over is told of each folder. A name that is not
/// held has no bytes. Counts of failures never fall, and
/// a call that does not answer `Failed` leaves each as it was.
pub trait Folder {
    /// The folder as contracts see it.
    ghost place: { Self → Place };

    /// Appends all bytes of the name to `into`, if there are at most `most` of them.
    ///
    /// A name that is not held reads as empty, or fails.
    fn fetch(&mut self, name: &str, most: u64, into: &mut Vec<u8>) -> Result<Fetched, FolderError>
        ensures bytes { IfSome (place self.old).held
            (λ files. Fetches (bytes_of (files name.now)) most into.old.items into.new.items result) }
        ensures adds { AddsUpTo most into.old.items into.new.items result }
        ensures handed { (place self.new).handed ≡ (place self.old).handed
            ++ handed_by name.now most (gained into.old.items into.new.items) result }
        ensures held { (place self.new).held ≡ (place self.old).held }
        ensures created { (place self.new).created ≡ (place self.old).created }
        ensures reads { NoneFalls (place self.old).reads (place self.new).reads }
        ensures writes { NoneFalls (place self.old).writes (place self.new).writes }
        ensures counts { UnlessFailed result (SameCounts (place self.old) (place self.new)) }
        ensures cause { IsErrOf result FolderError.Failed
            → Rose ((place self.old).reads name.now) ((place self.new).reads name.now) };

    /// Appends `most` bytes of the name, counted from place `from` on, to `into`; where fewer are left
    /// there, all of those.
    ///
    /// A name that is not held reads as empty, or fails.
    fn fetch_piece(
        &mut self,
        name: &str,
        from: u64,
        most: usize,
        into: &mut Vec<u8>,
    ) -> Result<Piece, FolderError>
        requires some { 1 ≤ most }
        requires few { most ≤ MOST_PIECE }
        requires place { from ≤ 2 ^ 62 }
        ensures bytes { IfSome (place self.old).held
            (λ files. FetchesPiece (bytes_of (files name.now)) from most into.old.items into.new.items result) }
        ensures adds { AddsPiece most into.old.items into.new.items result }
        ensures handed { (place self.new).handed ≡ (place self.old).handed
            ++ handed_piece name.now from (gained into.old.items into.new.items) result }
        ensures held { (place self.new).held ≡ (place self.old).held }
        ensures created { (place self.new).created ≡ (place self.old).created }
        ensures reads { NoneFalls (place self.old).reads (place self.new).reads }
        ensures writes { NoneFalls (place self.old).writes (place self.new).writes }
        ensures counts { UnlessFailed result (SameCounts (place self.old) (place self.new)) }
        ensures cause { IsErrOf result FolderError.Failed
            → Rose ((place self.old).reads name.now) ((place self.new).reads name.now) };

    /// Makes the name held with no bytes, also where it was held before.
    ///
    /// After `Failed` it is as before or held with no bytes.
    fn create(&mut self, name: &str) -> Result<(), FolderError>
        ensures ok { OnOk result (Told (place self.old).held (place self.new).held
            (ChangesName name.now (λ old new. new ≡ Some []))) }
        ensures failed { IsErrOf result FolderError.Failed → Told (place self.old).held (place self.new).held
            (ChangesName name.now (λ old new. (new ≡ old) ⊎ (new ≡ Some []))) }
        ensures memory { IsErrOf result FolderError.Memory → (place self.new).held ≡ (place self.old).held }
        ensures handed { (place self.new).handed ≡ (place self.old).handed }
        ensures created { (place self.new).created
            ≡ (if is_ok result then (place self.old).created ++ name.now ∷ [] else (place self.old).created) }
        ensures reads { NoneFalls (place self.old).reads (place self.new).reads }
        ensures writes { NoneFalls (place self.old).writes (place self.new).writes }
        ensures counts { UnlessFailed result (SameCounts (place self.old) (place self.new)) }
        ensures cause { IsErrOf result FolderError.Failed
            → Rose ((place self.old).writes name.now) ((place self.new).writes name.now) };

    /// Adds the bytes at the end of the name, which was created before.
    ///
    /// After `Failed` the name is as before, or some first bytes of the piece went last.
    fn append(&mut self, name: &str, bytes: &[u8]) -> Result<(), FolderError>
        requires { Contains (place self.old).created name.now }
        ensures ok { OnOk result (Told (place self.old).held (place self.new).held
            (ChangesName name.now (λ old new. new ≡ Some (bytes_of old ++ bytes.now)))) }
        ensures failed { IsErrOf result FolderError.Failed → Told (place self.old).held (place self.new).held
            (ChangesName name.now (AppendsPartOf bytes.now)) }
        ensures memory { IsErrOf result FolderError.Memory → (place self.new).held ≡ (place self.old).held }
        ensures handed { (place self.new).handed ≡ (place self.old).handed }
        ensures created { (place self.new).created ≡ (place self.old).created }
        ensures reads { NoneFalls (place self.old).reads (place self.new).reads }
        ensures writes { NoneFalls (place self.old).writes (place self.new).writes }
        ensures counts { UnlessFailed result (SameCounts (place self.old) (place self.new)) }
        ensures cause { IsErrOf result FolderError.Failed
            → Rose ((place self.old).writes name.now) ((place self.new).writes name.now) };
}
