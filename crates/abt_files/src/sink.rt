//! The streams that the program answers on.

ghost use Rattle.std.specs.Prelude.{◌≡◌, ◌⊎◌};
ghost use Rattle.std.specs.Bool.{OnTrue};
ghost use Rattle.std.specs.Io.KnownBytes.{Appends};
ghost use Rattle.abt_files.specs.Waiting.{NoneWaits};

use crate::disk::Disk;
use crate::open_files::OpenFiles;
use crate::transfer::write_whole;
use dcsp_outside::{Sink, SinkError};
use std::cell::RefCell;
use std::io::{Stderr, Stdout, Write};

/// One of the two standard streams.
#[derive(Clone, Copy)]
pub enum Stream {
    /// Standard output.
    Output(Stdout),
    /// Standard error.
    Error(Stderr),
}

/// A standard stream. Each piece is flushed.
///
/// Before a piece is put on the output, all that waits for a file is written: so what the output says
/// of a file is so. Errors are told whatever became of the files. Any error of the system, and a write
/// that takes nothing, is `Failed` and is counted. What was written is not told.
#[derive(Drop)]
pub struct RealSink<'c, D, W> {
    stream: Stream,
    open: &'c RefCell<OpenFiles<D, W>>,
    faults: u64,
}

impl<'c, D, W> RealSink<'c, D, W> {
    /// A sink over the stream. No fault is counted.
    pub fn new(stream: Stream, open: &'c RefCell<OpenFiles<D, W>>) -> RealSink<'c, D, W>
        ensures { result.faults ≡ 0 }
    {
        RealSink {
            stream,
            open,
            faults: 0,
        }
    }
}

impl<'c, D: Disk> RealSink<'c, D, D::File> {
    /// Writes all that waits for a file, and tells whether that went through.
    pub fn write_waiting(&self) -> bool {
        match self.open.try_borrow_mut() {
            Ok(mut open) => open.write_waiting().is_ok(),
            Err(_) => false,
        }
    }

    /// Writes and flushes all bytes, once all that waits was written, and tells whether that went through.
    fn put_behind<S: Write>(&self, stream: &mut S, bytes: &[u8]) -> bool
        ensures { OnTrue result (Appends (S.contents stream.old) (S.contents stream.new) bytes.now) }
    {
        match self.open.try_borrow_mut() {
            Ok(mut open) => put_after(&mut open, stream, bytes),
            Err(_) => false,
        }
    }
}

impl<'c, D: Disk> Sink for RealSink<'c, D, D::File> {
    ghost use Rattle.std.specs.Prelude.{None};

    ghost stream = { λ sink. record { written = None; faults = sink.faults; lacks = 0 } };

    fn put(&mut self, bytes: &[u8]) -> Result<(), SinkError> {
        let wrote = match self.stream {
            Stream::Output(mut stream) => self.put_behind(&mut stream, bytes),
            Stream::Error(mut stream) => put_on(&mut stream, bytes),
        };
        if wrote {
            return Ok(());
        }
        self.faults = self.faults.saturating_add(1);
        Err(SinkError::Failed)
    }
}

/// Writes all that waits, and then writes and flushes the bytes. Tells whether that went through. Nothing is put
/// while something waits.
fn put_after<D: Disk, S: Write>(
    files: &mut OpenFiles<D, D::File>,
    stream: &mut S,
    bytes: &[u8],
) -> bool
    ensures put { OnTrue result (Appends (S.contents stream.old) (S.contents stream.new) bytes.now) }
    ensures order { NoneWaits files.new.files.items ⊎ (S.contents stream.new ≡ S.contents stream.old) }
{
    files.write_waiting().is_ok() && put_on(stream, bytes)
}

/// Writes and flushes all bytes, and tells whether that went through.
fn put_on<W: Write>(stream: &mut W, bytes: &[u8]) -> bool
    ensures { OnTrue result (Appends (W.contents stream.old) (W.contents stream.new) bytes.now) }
{
    write_whole(stream, bytes) && stream.flush().is_ok()
}
