//! Folders and sinks in memory: each call once, and calls that are made to fail.

use crate::given::{expect_bytes, expect_fetch, expect_piece};
use dcsp_outside::{
    Fetched, Folder, FolderError, MemoryFolder, MemorySink, Piece, Sink, SinkError, SureFolder,
    SureSink,
};
use std::alloc::Global;
use std::process::Abort;

fn write_log<F: Folder>(folder: &mut F) -> Result<(), FolderError> {
    folder.create("log")?;
    folder.append("log", b"one ")?;
    folder.append("log", b"two")
}

fn put_twice<S: Sink>(sink: &mut S) -> Result<(), SinkError> {
    sink.put(b"one ")?;
    sink.put(b"two")
}

/// Writing the log has this answer.
fn expect_written<F: Folder>(rt: &impl Abort, folder: &mut F, answer: Result<(), FolderError>) {
    assert_eq!(rt; write_log(folder), answer);
}

/// Two puts have this answer.
fn expect_puts<S: Sink>(rt: &impl Abort, sink: &mut S, answer: Result<(), SinkError>) {
    assert_eq!(rt; put_twice(sink), answer);
}

fn folder_with(rt: &impl Abort, alloc: Global, name: &str, bytes: &[u8]) -> MemoryFolder {
    let mut folder = MemoryFolder::new(alloc);
    folder.place(name, bytes).expect(rt, "memory");
    folder
}

fn sure_folder_with(rt: &impl Abort, alloc: Global, name: &str, bytes: &[u8]) -> SureFolder {
    let mut folder = SureFolder::new(alloc);
    folder.place(name, bytes).expect(rt, "memory");
    folder
}

fn folder_failing_at(rt: &impl Abort, alloc: Global, call: u64) -> MemoryFolder {
    let mut folder = MemoryFolder::new(alloc);
    folder.fail_at(call).expect(rt, "memory");
    folder
}

fn folder_failing_after(rt: &impl Abort, alloc: Global, call: u64, kept: usize) -> MemoryFolder {
    let mut folder = MemoryFolder::new(alloc);
    folder.fail_after(call, kept).expect(rt, "memory");
    folder
}

fn sink_failing_at(rt: &impl Abort, alloc: Global, call: u64) -> MemorySink {
    let mut sink = MemorySink::new(alloc);
    sink.fail_at(call).expect(rt, "memory");
    sink
}

fn sink_failing_after(rt: &impl Abort, alloc: Global, call: u64, kept: usize) -> MemorySink {
    let mut sink = MemorySink::new(alloc);
    sink.fail_after(call, kept).expect(rt, "memory");
    sink
}

/// Lets a folder go. It is let go in a function of its own, where nothing else is known: its proof is long where
/// much is.
fn end(_folder: MemoryFolder) {}

/// Lets a folder of which no call fails go.
fn end_sure(_folder: SureFolder) {}

/// What was written of the log, and how many calls failed.
fn expect_log(rt: &impl Abort, folder: MemoryFolder, bytes: &[u8], faults: u64) {
    assert_eq!(rt; folder.file("log").unwrap_or(&[]), bytes);
    assert_eq!(rt; folder.faults(), faults);
}

fn expect_sure_log(rt: &impl Abort, folder: SureFolder, bytes: &[u8]) {
    assert_eq!(rt; folder.file("log").unwrap_or(&[]), bytes);
}

/// What was put, and how many calls failed.
fn expect_told(rt: &impl Abort, sink: MemorySink, bytes: &[u8], faults: u64) {
    assert_eq!(rt; sink.bytes(), bytes);
    assert_eq!(rt; sink.faults(), faults);
}

#[test]
fn a_fetch_is_whole_or_long(rt: HostRuntime) {
    let mut text = Vec::new(rt.alloc());
    let mut folder = folder_with(&rt, rt.alloc(), "model", b"abc");
    expect_fetch(&rt, &mut folder, "model", 2, &mut text, Ok(Fetched::Long));
    expect_fetch(&rt, &mut folder, "model", 3, &mut text, Ok(Fetched::Whole));
    end(folder);
    expect_bytes(&rt, &text, b"abc");
}

#[test]
fn a_name_that_is_not_held_fails(rt: HostRuntime) {
    let mut text = Vec::new(rt.alloc());
    let mut folder = MemoryFolder::new(rt.alloc());
    let failed = Err(FolderError::Failed);
    expect_fetch(&rt, &mut folder, "log", 9, &mut text, failed);
    expect_log(&rt, folder, b"", 1);
}

#[test]
fn a_name_that_is_not_held_reads_as_empty(rt: HostRuntime) {
    let mut text = Vec::new(rt.alloc());
    let mut sure = SureFolder::new(rt.alloc());
    expect_fetch(&rt, &mut sure, "log", 0, &mut text, Ok(Fetched::Whole));
    end_sure(sure);
    expect_bytes(&rt, &text, b"");
}

#[test]
fn folders_keep_what_is_appended(rt: HostRuntime) {
    let mut folder = MemoryFolder::new(rt.alloc());
    expect_written(&rt, &mut folder, Ok(()));
    expect_log(&rt, folder, b"one two", 0);
}

#[test]
fn a_file_that_is_created_anew_is_empty(rt: HostRuntime) {
    let mut sure = sure_folder_with(&rt, rt.alloc(), "log", b"before");
    expect_written(&rt, &mut sure, Ok(()));
    expect_sure_log(&rt, sure, b"one two");
}

#[test]
fn the_call_that_is_named_fails(rt: HostRuntime) {
    let mut folder = folder_failing_at(&rt, rt.alloc(), 3);
    expect_written(&rt, &mut folder, Err(FolderError::Failed));
    expect_log(&rt, folder, b"one ", 1);
}

#[test]
fn the_put_that_is_named_fails(rt: HostRuntime) {
    let mut sink = sink_failing_at(&rt, rt.alloc(), 2);
    expect_puts(&rt, &mut sink, Err(SinkError::Failed));
    expect_told(&rt, sink, b"one ", 1);
}

#[test]
fn a_sink_keeps_what_is_put(rt: HostRuntime) {
    let mut sure = SureSink::new(rt.alloc());
    expect_puts(&rt, &mut sure, Ok(()));
    expect_bytes(&rt, sure.bytes(), b"one two");
}

#[test]
fn pieces_end_where_the_bytes_end(rt: HostRuntime) {
    let mut text = Vec::new(rt.alloc());
    let mut folder = folder_with(&rt, rt.alloc(), "log", b"abcde");
    expect_piece(&rt, &mut folder, "log", 0, 2, &mut text, Ok(Piece::Part));
    expect_piece(&rt, &mut folder, "log", 2, 3, &mut text, Ok(Piece::Part));
    expect_piece(&rt, &mut folder, "log", 5, 1, &mut text, Ok(Piece::End));
    expect_piece(&rt, &mut folder, "log", 9, 65536, &mut text, Ok(Piece::End));
    expect_bytes(&rt, &text, b"abcde");
    expect_piece(&rt, &mut folder, "log", 4, 2, &mut text, Ok(Piece::End));
    expect_bytes(&rt, &text, b"abcdee");
    end(folder);
}

#[test]
fn pieces_of_a_name_that_is_not_held(rt: HostRuntime) {
    let mut text = Vec::new(rt.alloc());
    let mut folder = MemoryFolder::new(rt.alloc());
    let failed = Err(FolderError::Failed);
    expect_piece(&rt, &mut folder, "none", 0, 1, &mut text, failed);
    end(folder);
    let mut sure = SureFolder::new(rt.alloc());
    expect_piece(&rt, &mut sure, "none", 0, 1, &mut text, Ok(Piece::End));
    end_sure(sure);
}

#[test]
fn what_fails_keeps_first_bytes(rt: HostRuntime) {
    let mut folder = folder_failing_after(&rt, rt.alloc(), 3, 2);
    expect_written(&rt, &mut folder, Err(FolderError::Failed));
    expect_log(&rt, folder, b"one tw", 1);
    let mut sink = sink_failing_after(&rt, rt.alloc(), 2, 9);
    expect_puts(&rt, &mut sink, Err(SinkError::Failed));
    expect_told(&rt, sink, b"one two", 1);
}
