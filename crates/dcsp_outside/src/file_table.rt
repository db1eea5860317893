//! The bytes under each name, in memory.

ghost use Rattle.std.specs.Prelude.{◌≡◌, ◌++◌, OnOk, OnErr};
ghost use Rattle.std.specs.Option.{option_copied};
ghost use Rattle.std.specs.FinMap as map;
ghost use Rattle.dcsp_outside.specs.Outside.{ChangesName, bytes_of};

use dcsp_common::Memory;
use std::alloc::Global;
use std::collections::BTreeMap;
use std::marker::Model;

/// A finite map from names to bytes.
#[derive(Drop)]
pub struct FileTable {
    alloc: Global,
    files: BTreeMap<String, Vec<u8>>,
}

impl Model for FileTable {
    ghost use Rattle.dcsp_outside.specs.Memory.{Files, files_code, files_of};

    ghost Value = { Files };

    ghost coded = { files_code };

    ghost view = { λ table. files_of table.files };
}

impl FileTable {
    /// No name is held.
    pub fn new(alloc: Global) -> FileTable
        ensures { result ≡ map.empty }
    {
        FileTable {
            alloc,
            files: BTreeMap::new(alloc),
        }
    }

    /// The bytes of the name, if it is held.
    pub fn file(&self, name: &str) -> Option<&[u8]>
        ensures { option_copied result ≡ map.get self.now name.now }
    {
        match self.files.get(name) {
            Some(bytes) => Some(bytes.as_slice()),
            None => None,
        }
    }

    /// Lets the name hold these bytes alone.
    pub fn write(&mut self, name: &str, bytes: &[u8]) -> Result<(), Memory>
        ensures ok { OnOk result
            (ChangesName name.now (λ old new. new ≡ Some bytes.now) (map.get self.old) (map.get self.new)) }
        ensures err { OnErr result (self.new ≡ self.old) }
    {
        let key = String::from_str(self.alloc, name)?;
        let copy = Vec::from_slice(self.alloc, bytes)?;
        self.files.insert(key, copy)?;
        Ok(())
    }

    /// Adds the bytes at the end of the name, which is held afterwards.
    pub fn append(&mut self, name: &str, bytes: &[u8]) -> Result<(), Memory>
        ensures ok { OnOk result (ChangesName name.now (λ old new. new ≡ Some (bytes_of old ++ bytes.now))
            (map.get self.old) (map.get self.new)) }
        ensures err { OnErr result (self.new ≡ self.old) }
    {
        let Some(file) = self.files.get_mut(name) else {
            return self.write(name, bytes);
        };
        file.extend_from_slice(bytes)?;
        Ok(())
    }
}
