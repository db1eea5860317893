//! The files that the program created. They stay open, and what is appended waits until it is much.

ghost use Rattle.std.specs.Prelude.{◌≡◌, ◌+◌, ◌<◌, ◌≤◌, [], ◌⊎◌, ◌↔◌, Contains, vec_len, string_bytes, IfOk, OnOk, IfSome, IsTrue, false, Some};
ghost use Rattle.std.specs.Bool.{OnTrue};
ghost use Rattle.std.specs.Io.KnownBytes.{Keeps, Appends, IsAtEnd};
ghost use Rattle.dcsp_outside.specs.Outside.{AddsPiece, AddsUpTo};

use crate::disk::{Disk, FileId};
use crate::transfer::{read_piece, read_up_to, write_to};
use dcsp_outside::{Fetched, FolderError, Piece};
use std::alloc::Global;
use std::io::{Seek, SeekFrom, Write};

/// How many bytes may wait for one file.
const MOST_WAITING: usize = 65536;

/// A name that was created, or that room was made for.
#[derive(Drop)]
pub(crate) struct OpenFile<W> {
    name: String,
    /// Which regular file it is, if it is one.
    id: Option<FileId>,
    /// The handle; none before the name is created.
    file: Option<W>,
    /// What is still to be written at the file's end.
    waiting: Vec<u8>,
    /// Whether a write has failed. Nothing more is written then, lest a piece be missing in the middle.
    broken: bool,
    ghost few: { vec_len waiting ≤ 65536 },
}

impl<W: Write + Drop> OpenFile<W> {
    ghost use Rattle.abt_files.specs.Waiting.{text_of};

    /// Room for a name, and for all that may wait for it.
    fn with_room(alloc: Global, name: &str) -> Result<OpenFile<W>, FolderError>
        ensures { IfOk result (λ file. string_bytes file.name ≡ name.now) }
    {
        let name = String::from_str(alloc, name)?;
        let waiting = Vec::with_capacity(alloc, MOST_WAITING)?;
        Ok(OpenFile {
            name,
            id: None,
            file: None,
            waiting,
            broken: false,
        })
    }

    /// Takes the handle of a file that has no bytes. What waited for an earlier one is dropped, and
    /// that one is closed.
    fn begin(&mut self, id: Option<FileId>, file: W)
        ensures name { self.new.name ≡ self.old.name }
        ensures id { self.new.id ≡ id }
        ensures file { self.new.file ≡ Some file }
        ensures waiting { self.new.waiting.items ≡ [] }
        ensures whole { self.new.broken ≡ false }
    {
        self.id = id;
        self.file = Some(file);
        self.waiting.clear();
        self.broken = false;
    }

    /// Writes what waits. Nothing does afterwards, also where that failed.
    fn write_waiting(&mut self) -> Result<(), FolderError>
        ensures waits { vec_len self.new.waiting ≡ 0 }
        ensures text { OnOk result (Keeps (text_of W.contents self.old) (text_of W.contents self.new)) }
        ensures name { self.new.name ≡ self.old.name }
    {
        if self.waiting.is_empty() {
            return Ok(());
        }
        let wrote = !self.broken && write_to(&mut self.file, &self.waiting);
        self.waiting.clear();
        self.told(wrote)
    }

    /// Adds bytes at the file's end. Few of them wait, behind what waits already where there is room.
    fn append(&mut self, bytes: &[u8]) -> Result<(), FolderError>
        ensures text { OnOk result (Appends (text_of W.contents self.old) (text_of W.contents self.new) bytes.now) }
        ensures name { self.new.name ≡ self.old.name }
    {
        self.spare(bytes.len())?;
        if self.broken {
            return Err(FolderError::Failed);
        }
        if bytes.len() > MOST_WAITING {
            let wrote = write_to(&mut self.file, bytes);
            return self.told(wrote);
        }
        self.waiting.extend_from_slice(bytes)?;
        Ok(())
    }

    /// Writes what waits, if so many bytes more would be too many.
    fn spare(&mut self, count: usize) -> Result<(), FolderError>
        ensures room { count ≤ MOST_WAITING → vec_len self.new.waiting + count ≤ MOST_WAITING }
        ensures much { MOST_WAITING < count → vec_len self.new.waiting ≡ 0 }
        ensures text { OnOk result (Keeps (text_of W.contents self.old) (text_of W.contents self.new)) }
        ensures name { self.new.name ≡ self.old.name }
    {
        if count <= MOST_WAITING - self.waiting.len() {
            return Ok(());
        }
        self.write_waiting()
    }

    /// Remembers a write that failed, and tells of it.
    fn told(&mut self, wrote: bool) -> Result<(), FolderError>
        ensures wrote { OnOk result (IsTrue wrote) }
        ensures waiting { self.new.waiting ≡ self.old.waiting }
        ensures file { self.new.file ≡ self.old.file }
        ensures name { self.new.name ≡ self.old.name }
    {
        if wrote {
            return Ok(());
        }
        self.broken = true;
        Err(FolderError::Failed)
    }
}

/// A file that is read in pieces.
#[derive(Drop)]
struct ReadFile<W> {
    name: String,
    file: W,
    /// Where the next piece begins if the file is read on.
    at: u64,
}

/// The files that the program created and read, over the files of a system.
///
/// Nothing is written to the system before much waits, another file is read or something is put on
/// the output; so a program that is killed may leave a file without its last appends. The file of the
/// last piece that was read stays open up to its end. A regular file that was read, or that another
/// name was created for, is not created: nothing that the program reads or writes is overwritten.
#[derive(Drop)]
pub struct OpenFiles<D, W> {
    alloc: Global,
    disk: D,
    files: Vec<OpenFile<W>>,
    reading: Option<ReadFile<W>>,
    /// The regular files that were read.
    seen: Vec<FileId>,
}

impl<D: Disk> OpenFiles<D, D::File> {
    ghost use Rattle.abt_files.specs.Waiting.{NoneWaits, IsAmong, IsNamed, KeepsFiles, KeepTexts, AppendsTo, MadeFresh};

    /// No file is open, and none was read.
    pub fn new(alloc: Global, disk: D) -> OpenFiles<D, D::File> {
        OpenFiles {
            alloc,
            disk,
            files: Vec::new(alloc),
            reading: None,
            seen: Vec::new(alloc),
        }
    }

    /// Makes the name a file without bytes, also where it was created before. Room is made first, so
    /// that a file is not emptied and then given up for want of memory.
    pub(crate) fn create(&mut self, name: &str) -> Result<(), FolderError>
        ensures fresh { OnOk result (MadeFresh D.File.contents name.now self.old.files.items self.new.files.items) }
    {
        let place = self.place_for(name)?;
        let file = self.open_fresh(place, name)?;
        let id = self.disk.identity(&file);
        self.files[place].begin(id, file);
        Ok(())
    }

    /// Opens the name without bytes, for the file at this place. A regular file that was read, or that is
    /// open at another place, is left as it is.
    fn open_fresh(&self, place: usize, name: &str) -> Result<D::File, FolderError>
        ensures opened { IfOk result (λ file. D.opened_as file ≡ name.now) }
        ensures empty { IfOk result (λ file. IsAtEnd (D.File.contents file)) }
        ensures unread { IfOk result (λ file. IsAmong (D.identity file) self.now.seen.items → ⊥) }
    {
        let mut file = self.disk.open_to_write(name)?;
        if self.is_taken(place, self.disk.identity(&file)) {
            return Err(FolderError::Failed);
        }
        self.disk.empty(&mut file)?;
        Ok(file)
    }

    /// Whether it is a regular file that was read, or that is open at another place.
    fn is_taken(&self, place: usize, id: Option<FileId>) -> bool
        ensures { IsAmong id self.now.seen.items → IsTrue result }
    {
        let Some(id) = id else {
            return false;
        };
        is_seen(&self.seen, id) || self.is_open_elsewhere(place, id)
    }

    /// Whether it is open at another place.
    fn is_open_elsewhere(&self, place: usize, id: FileId) -> bool {
        for other in 0..self.files.len() {
            if other != place && self.files[other].id == Some(id) {
                return true;
            }
        }
        false
    }

    /// Adds bytes at the end of a name that was created.
    pub(crate) fn append(&mut self, name: &str, bytes: &[u8]) -> Result<(), FolderError>
        ensures text { OnOk result (AppendsTo D.File.contents name.now bytes.now self.old.files.items self.new.files.items) }
    {
        match self.place_of(name) {
            Some(place) => self.files[place].append(bytes),
            None => Err(FolderError::Failed),
        }
    }

    /// Opens a name for reading, once all that waits was written, and remembers that it is read.
    fn open(&mut self, name: &str) -> Result<D::File, FolderError>
        ensures opened { IfOk result (λ file. D.opened_as file ≡ name.now) }
        ensures waits { OnOk result (NoneWaits self.new.files.items) }
        ensures seen { IfOk result (λ file. (id : FileId) → D.identity file ≡ Some id → IsAmong (Some id) self.new.seen.items) }
    {
        self.write_waiting()?;
        let file = self.disk.open(name)?;
        if let Some(id) = self.disk.identity(&file) {
            self.remember(id)?;
        }
        Ok(file)
    }

    /// Remembers a regular file that is read.
    fn remember(&mut self, id: FileId) -> Result<(), FolderError>
        ensures seen { OnOk result (IsAmong (Some id) self.new.seen.items) }
        ensures files { self.new.files ≡ self.old.files }
    {
        if is_seen(&self.seen, id) {
            return Ok(());
        }
        self.seen.push(id)?;
        Ok(())
    }

    /// Appends all bytes of a name, if there are at most `most`, once all that waits was written.
    pub(crate) fn read(
        &mut self,
        name: &str,
        most: u64,
        into: &mut Vec<u8>,
    ) -> Result<Fetched, FolderError>
        ensures adds { AddsUpTo most into.old.items into.new.items result }
        ensures waits { OnOk result (NoneWaits self.new.files.items) }
    {
        let mut file = self.open(name)?;
        read_up_to(&mut file, most, into)
    }

    /// Appends `most` bytes of a name from a place on, or all that are left there where they are fewer,
    /// once all that waits was written. The file is read on where this goes on from the last piece.
    pub(crate) fn read_piece(
        &mut self,
        name: &str,
        from: u64,
        most: usize,
        into: &mut Vec<u8>,
    ) -> Result<Piece, FolderError>
        requires { most ≤ 65536 }
        ensures adds { AddsPiece most into.old.items into.new.items result }
        ensures waits { OnOk result (NoneWaits self.new.files.items) }
    {
        let mut reading = self.reading_at(name, from)?;
        let piece = read_piece(&mut reading.file, most, into)?;
        if piece == Piece::Part {
            reading.at = from.saturating_add(most as u64);
            self.reading = Some(reading);
        }
        Ok(piece)
    }

    /// The name's file, which stands at this place: that of the last piece where it stands there.
    fn reading_at(&mut self, name: &str, from: u64) -> Result<ReadFile<D::File>, FolderError>
        ensures named { IfOk result (λ reading. string_bytes reading.name ≡ name.now) }
        ensures waits { OnOk result (NoneWaits self.new.files.items) }
    {
        let mut reading = match self.reading.take() {
            Some(reading) if reading.name.as_str() == name => {
                self.write_waiting()?;
                reading
            }
            _ => self.begin_reading(name)?,
        };
        if reading.at != from && reading.file.seek(SeekFrom::Start(from)).is_err() {
            return Err(FolderError::Failed);
        }
        Ok(reading)
    }

    fn begin_reading(&mut self, name: &str) -> Result<ReadFile<D::File>, FolderError>
        ensures named { IfOk result (λ reading. string_bytes reading.name ≡ name.now) }
        ensures opened { IfOk result (λ reading. D.opened_as reading.file ≡ name.now) }
        ensures waits { OnOk result (NoneWaits self.new.files.items) }
    {
        let file = self.open(name)?;
        let name = String::from_str(self.alloc, name)?;
        Ok(ReadFile { name, file, at: 0 })
    }

    /// The place of a name that was created, or that room was made for.
    #[inline(always)]
    fn place_of(&self, name: &str) -> Option<usize>
        ensures { IfSome result (IsNamed name.now self.now.files.items) }
    {
        for place in 0..self.files.len() {
            if self.files[place].name.as_str() == name {
                return Some(place);
            }
        }
        None
    }

    /// The place of a name, for which room is made where there is none.
    fn place_for(&mut self, name: &str) -> Result<usize, FolderError>
        ensures named { IfOk result (IsNamed name.now self.new.files.items) }
        ensures others { KeepsFiles self.old.files.items self.new.files.items }
    {
        match self.place_of(name) {
            Some(place) => Ok(place),
            None => self.make_room(name),
        }
    }

    /// Makes room for a further name, and tells its place.
    fn make_room(&mut self, name: &str) -> Result<usize, FolderError>
        ensures named { IfOk result (IsNamed name.now self.new.files.items) }
        ensures others { KeepsFiles self.old.files.items self.new.files.items }
    {
        let file = OpenFile::with_room(self.alloc, name)?;
        let place = self.files.len();
        self.files.push(file)?;
        Ok(place)
    }

    /// Writes all that waits, to each file that is not broken. `Failed` comes where some file is.
    pub(crate) fn write_waiting(&mut self) -> Result<(), FolderError>
        ensures waits { NoneWaits self.new.files.items }
        ensures texts { OnOk result (KeepTexts D.File.contents self.old.files.items self.new.files.items) }
    {
        let mut wrote = Ok(());
        for place in 0..self.files.len() {
            wrote = self.files[place].write_waiting().and(wrote);
        }
        wrote
    }
}

/// Whether it is one of these files.
fn is_seen(seen: &[FileId], id: FileId) -> bool
    ensures { IsTrue result ↔ Contains seen.now id }
{
    seen.contains(&id)
}
