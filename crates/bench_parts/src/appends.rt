//! Many appends to one file.

use abt_files::{OpenFiles, RealFolder, RealSink, Stream};
use dcsp_outside::{Folder, FolderError};
use std::alloc::Global;
use std::cell::RefCell;
use std::io::Stdout;

/// As long as a line of a log often is: 190 bytes.
const LINE: [u8; 190] = [b'x'; 190];

/// Makes a file of this folder, appends so many lines to it, each by a call of its own, and tells
/// whether all was written.
pub fn append_lines(alloc: Global, system: HostRuntime, output: Stdout, count: u32) -> bool {
    let open = RefCell::new(OpenFiles::new(alloc, system));
    let mut folder = RealFolder::new(alloc, &open);
    let out = RealSink::new(Stream::Output(output), &open);
    append_all(&mut folder, "appended.txt", count).is_ok() && out.write_waiting()
}

fn append_all<F: Folder>(folder: &mut F, name: &str, count: u32) -> Result<(), FolderError> {
    folder.create(name)?;
    for _made in 0..count {
        folder.append(name, &LINE)?;
    }
    Ok(())
}
