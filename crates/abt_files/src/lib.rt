//! The system's files and streams, as the program's folder and sinks.
//!
//! Files that were created stay open, and appends wait until they are many; whatever waits is
//! written before anything is put on standard output and before a file is read.
#![tactic(auto)]

mod disk;
mod folder;
mod open_files;
mod sink;
mod system;
mod transfer;

pub use disk::{Disk, FileId};
pub use folder::RealFolder;
pub use open_files::OpenFiles;
pub use sink::{RealSink, Stream};
pub use system::SystemFile;
