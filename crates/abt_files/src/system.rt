//! The system's own files.

ghost use Rattle.std.specs.Prelude.{◌≡◌, string_bytes, IfOk};

use crate::disk::{Disk, FileId};
use dcsp_outside::FolderError;
use std::fs::{File, Metadata, OpenOptions};
use std::io;
use std::io::{Read, Seek, SeekFrom, Write};
use std::os::unix::fs::MetadataExt;

/// A file of the system, with the name that it was opened under.
#[derive(Drop)]
pub struct SystemFile {
    name: String,
    id: Option<FileId>,
    file: File,
}

impl Read for SystemFile {
    fn read(&mut self, buf: &mut [u8]) -> io::Result<usize> {
        self.file.read(buf)
    }
}

impl Write for SystemFile {
    fn write(&mut self, buf: &[u8]) -> io::Result<usize> {
        self.file.write(buf)
    }

    fn flush(&mut self) -> io::Result<()> {
        self.file.flush()
    }
}

impl Seek for SystemFile {
    fn seek(&mut self, to: SeekFrom) -> io::Result<u64> {
        self.file.seek(to)
    }
}

impl Disk for HostRuntime {
    type File = SystemFile;

    ghost opened_as = { λ file. string_bytes file.name };

    ghost identity = { λ file. file.id };

    fn open(&self, name: &str) -> Result<SystemFile, FolderError> {
        opened(self, name, OpenOptions::new().read(true))
    }

    fn open_to_write(&self, name: &str) -> Result<SystemFile, FolderError> {
        opened(self, name, OpenOptions::new().write(true).create(true))
    }

    fn identity(&self, file: &SystemFile) -> Option<FileId> {
        file.id
    }

    fn empty(&self, file: &mut SystemFile) -> Result<(), FolderError> {
        if file.id.is_some() && file.file.set_len(0).is_err() {
            return Err(FolderError::Failed);
        }
        Ok(())
    }
}

/// Opens a name in this way, and asks which file it is. Memory is taken first, so that no file is made and then given up.
fn opened(rt: &HostRuntime, name: &str, how: &OpenOptions) -> Result<SystemFile, FolderError>
    ensures { IfOk result (λ file. string_bytes file.name ≡ name.now) }
{
    let kept = String::from_str(rt.alloc(), name)?;
    let Ok(file) = how.open(rt, name) else {
        return Err(FolderError::Failed);
    };
    let Ok(found) = file.metadata() else {
        return Err(FolderError::Failed);
    };
    Ok(SystemFile {
        name: kept,
        id: id_of(&found),
        file,
    })
}

/// Which regular file it is, if it is one.
fn id_of(found: &Metadata) -> Option<FileId> {
    if !found.is_file() {
        return None;
    }
    Some(FileId {
        device: found.dev(),
        number: found.ino(),
    })
}
