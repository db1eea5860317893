//! One write each.

ghost use Rattle.std.specs.Prelude.{◌≡◌, [], ◌∷◌, ◌++◌, Contains, OnOk};
ghost use Rattle.dcsp_outside.specs.Outside.{Place, Stream};
ghost use Rattle.dcsp_script.specs.Scripts.{Create, Append, Put, outside};
ghost use Rattle.dcsp_script.specs.Ways.{Wrote};

use crate::stop::Stop;
use dcsp_outside::{Folder, FolderError, Sink, SinkError};

/// Makes the name held with no bytes, also where it was held before. No sink is touched.
pub fn create<F: Folder>(folder: &mut F, name: &str) -> Result<(), Stop>
    ensures wrote { (out : Stream) → Wrote (Create name.now ∷ [])
        (outside (F.place folder.old) out) (outside (F.place folder.new) out) result }
    ensures created { OnOk result
        ((F.place folder.new).created ≡ (F.place folder.old).created ++ name.now ∷ []) }
{
    match folder.create(name) {
        Ok(()) => Ok(()),
        Err(FolderError::Failed) => Err(Stop::Fault),
        Err(FolderError::Memory) => Err(Stop::Memory),
    }
}

/// Adds the bytes at the end of the name, which was created before. No sink is touched.
pub fn append<F: Folder>(folder: &mut F, name: &str, bytes: &[u8]) -> Result<(), Stop>
    requires { Contains (F.place folder.old).created name.now }
    ensures wrote { (out : Stream) → Wrote (Append name.now bytes.now ∷ [])
        (outside (F.place folder.old) out) (outside (F.place folder.new) out) result }
    ensures created { (F.place folder.new).created ≡ (F.place folder.old).created }
{
    match folder.append(name, bytes) {
        Ok(()) => Ok(()),
        Err(FolderError::Failed) => Err(Stop::Fault),
        Err(FolderError::Memory) => Err(Stop::Memory),
    }
}

/// Writes the bytes last. No folder is touched.
pub fn put<S: Sink>(out: &mut S, bytes: &[u8]) -> Result<(), Stop>
    ensures { (folder : Place) → Wrote (Put bytes.now ∷ [])
        (outside folder (S.stream out.old)) (outside folder (S.stream out.new)) result }
{
    match out.put(bytes) {
        Ok(()) => Ok(()),
        Err(SinkError::Failed) => Err(Stop::Fault),
        Err(SinkError::Memory) => Err(Stop::Memory),
    }
}
