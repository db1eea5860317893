//! Real files and streams.

use crate::given::{create, expect_append, expect_bytes, expect_fetch, expect_piece, expect_put};
use abt_files::{OpenFiles, RealFolder, RealSink, Stream};
use dcsp_outside::{Fetched, FolderError, Piece, SinkError};
use std::cell::RefCell;
use std::fs;
use std::fs::Files;
use std::process::Abort;

/// The system's file has so many bytes.
fn expect_len(rt: &impl Abort, files: &impl Files, name: &str, len: u64) {
    match fs::metadata(files, name) {
        Ok(found) => assert_eq!(rt; found.len(), len),
        Err(_) => panic!(rt; "no file"),
    }
}

fn remove(rt: &impl Abort, files: &impl Files, name: &str) {
    assert!(rt; fs::remove_file(files, name).is_ok());
}

#[test]
fn what_is_appended_is_read_back(rt: HostRuntime) {
    let name = "read_back_test.txt";
    let alloc = rt.alloc();
    let mut text = Vec::new(alloc);
    let open = RefCell::new(OpenFiles::new(alloc, rt));
    let mut folder = RealFolder::new(alloc, &open);
    create(&rt, &mut folder, name);
    expect_append(&rt, &mut folder, name, b"one two", Ok(()));
    expect_fetch(&rt, &mut folder, name, 6, &mut text, Ok(Fetched::Long));
    expect_bytes(&rt, &text, b"");
    expect_fetch(&rt, &mut folder, name, 7, &mut text, Ok(Fetched::Whole));
    expect_bytes(&rt, &text, b"one two");
    remove(&rt, &rt, name);
    let failed = Err(FolderError::Failed);
    expect_fetch(&rt, &mut folder, name, 7, &mut text, failed);
}

#[test]
fn pieces_go_on_where_the_last_ended(rt: HostRuntime) {
    let name = "pieces_test.txt";
    let alloc = rt.alloc();
    let mut text = Vec::new(alloc);
    let open = RefCell::new(OpenFiles::new(alloc, rt));
    let mut folder = RealFolder::new(alloc, &open);
    create(&rt, &mut folder, name);
    expect_append(&rt, &mut folder, name, b"abcde", Ok(()));
    expect_piece(&rt, &mut folder, name, 0, 2, &mut text, Ok(Piece::Part));
    expect_piece(&rt, &mut folder, name, 2, 3, &mut text, Ok(Piece::Part));
    expect_piece(&rt, &mut folder, name, 5, 1, &mut text, Ok(Piece::End));
    expect_bytes(&rt, &text, b"abcde");
    expect_piece(&rt, &mut folder, name, 1, 2, &mut text, Ok(Piece::Part));
    expect_piece(&rt, &mut folder, name, 3, 9, &mut text, Ok(Piece::End));
    expect_bytes(&rt, &text, b"abcdebcde");
    remove(&rt, &rt, name);
    let failed = Err(FolderError::Failed);
    expect_piece(&rt, &mut folder, name, 0, 1, &mut text, failed);
}

#[test]
fn a_second_create_drops_what_waits(rt: HostRuntime) {
    let name = "second_create_test.txt";
    let alloc = rt.alloc();
    let mut text = Vec::new(alloc);
    let open = RefCell::new(OpenFiles::new(alloc, rt));
    let mut folder = RealFolder::new(alloc, &open);
    create(&rt, &mut folder, name);
    expect_append(&rt, &mut folder, name, b"lost", Ok(()));
    create(&rt, &mut folder, name);
    expect_len(&rt, &rt, name, 0);
    expect_append(&rt, &mut folder, name, b"kept", Ok(()));
    expect_fetch(&rt, &mut folder, name, 9, &mut text, Ok(Fetched::Whole));
    expect_bytes(&rt, &text, b"kept");
    remove(&rt, &rt, name);
}

#[test]
fn few_bytes_wait(rt: HostRuntime) {
    let name = "waiting_test.txt";
    let alloc = rt.alloc();
    let much = vec![in alloc; b'x'; 65536].expect(&rt, "memory");
    let more = vec![in alloc; b'x'; 70000].expect(&rt, "memory");
    let open = RefCell::new(OpenFiles::new(alloc, rt));
    let mut folder = RealFolder::new(alloc, &open);
    let mut out = RealSink::new(Stream::Output(rt.stdout()), &open);
    create(&rt, &mut folder, name);
    expect_append(&rt, &mut folder, name, &much, Ok(()));
    expect_len(&rt, &rt, name, 0);
    expect_append(&rt, &mut folder, name, b"z", Ok(()));
    expect_len(&rt, &rt, name, 65536);
    expect_put(&rt, &mut out, b"", Ok(()));
    expect_len(&rt, &rt, name, 65537);
    expect_append(&rt, &mut folder, name, &more, Ok(()));
    expect_len(&rt, &rt, name, 135_537);
    remove(&rt, &rt, name);
}

#[test]
fn a_full_disk_is_told_before_an_answer(rt: HostRuntime) {
    let name = "/dev/full";
    let alloc = rt.alloc();
    let open = RefCell::new(OpenFiles::new(alloc, rt));
    let mut folder = RealFolder::new(alloc, &open);
    let mut out = RealSink::new(Stream::Output(rt.stdout()), &open);
    let mut err = RealSink::new(Stream::Error(rt.stderr()), &open);
    create(&rt, &mut folder, name);
    expect_append(&rt, &mut folder, name, b"a step", Ok(()));
    expect_put(&rt, &mut out, b"an answer\n", Err(SinkError::Failed));
    let failed = Err(FolderError::Failed);
    expect_append(&rt, &mut folder, name, b"a step", failed);
    expect_put(&rt, &mut err, b"to standard error\n", Ok(()));
    expect_put(&rt, &mut out, b"to standard output\n", Ok(()));
}
