//! The outside as the program sees it: a folder of named bytes, and a sink that takes bytes.
//!
//! Each has a trait, one implementation in memory whose calls can be made to fail, and one that
//! never fails.
#![tactic(auto)]

mod call_plan;
mod file_table;
mod folder;
mod handing;
mod kept_files;
mod memory_folder;
mod memory_sink;
mod sink;
mod sure_folder;
mod sure_sink;

pub use dcsp_common::Memory;
pub use folder::{Fetched, Folder, FolderError, MOST_PIECE, Piece};
pub use handing::Transcript;
pub use memory_folder::MemoryFolder;
pub use memory_sink::MemorySink;
pub use sink::{Sink, SinkError};
pub use sure_folder::SureFolder;
pub use sure_sink::SureSink;
