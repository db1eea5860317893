//! Calls of folders and sinks, with the answers that they must have.
//!
//! What the trials call has hardly a contract, which keeps their proofs short.

ghost use Rattle.std.specs.Prelude.{◌≡◌, Contains};

use dcsp_outside::{Fetched, Folder, FolderError, MOST_PIECE, Piece, Sink, SinkError};
use std::process::Abort;

/// Creates the file.
pub fn create<F: Folder>(rt: &impl Abort, folder: &mut F, name: &str)
    ensures { Contains (F.place folder.new).created name.now }
{
    assert_eq!(rt; folder.create(name), Ok(()));
}

/// An append to a file that was created has this answer.
pub fn expect_append<F: Folder>(
    rt: &impl Abort,
    folder: &mut F,
    name: &str,
    bytes: &[u8],
    answer: Result<(), FolderError>,
)
    requires { Contains (F.place folder.old).created name.now }
    ensures { (F.place folder.new).created ≡ (F.place folder.old).created }
{
    assert_eq!(rt; folder.append(name, bytes), answer);
}

/// A fetch of at most so many bytes has this answer.
pub fn expect_fetch<F: Folder>(
    rt: &impl Abort,
    folder: &mut F,
    name: &str,
    most: u64,
    text: &mut Vec<u8>,
    answer: Result<Fetched, FolderError>,
) {
    assert_eq!(rt; folder.fetch(name, most, text), answer);
}

/// A piece from a place on has this answer.
pub fn expect_piece<F: Folder>(
    rt: &impl Abort,
    folder: &mut F,
    name: &str,
    from: u64,
    most: usize,
    text: &mut Vec<u8>,
    answer: Result<Piece, FolderError>,
) {
    assert!(rt; from < 1000);
    assert!(rt; most > 0);
    assert!(rt; most <= MOST_PIECE);
    assert_eq!(rt; folder.fetch_piece(name, from, most, text), answer);
}

/// A put has this answer.
pub fn expect_put<S: Sink>(
    rt: &impl Abort,
    sink: &mut S,
    bytes: &[u8],
    answer: Result<(), SinkError>,
) {
    assert_eq!(rt; sink.put(bytes), answer);
}

pub fn expect_bytes(rt: &impl Abort, found: &[u8], bytes: &[u8]) {
    assert_eq!(rt; found, bytes);
}
