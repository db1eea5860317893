//! Memory that runs out in the folder.

use crate::given::run_words;
use dcsp_outside::{Fetched, Folder, FolderError, MemorySink, Piece};
use dcsp_script::Outside;
use std::alloc::Global;
use std::process::Abort;

/// A folder that wants memory at each call, and tells nothing of what it holds. One name counts as created,
/// so that there is one to which bytes may be appended.
#[derive(Drop)]
struct WantingFolder {
    calls: u64,
}

impl Folder for WantingFolder {
    ghost use Rattle.std.specs.Prelude.{None, [], ◌∷◌};

    ghost place = { λ _. record { held = None; handed = []; created = [] ∷ []; reads = λ _. 0; writes = λ _. 0 } };

    fn fetch(
        &mut self,
        _name: &str,
        _most: u64,
        _into: &mut Vec<u8>,
    ) -> Result<Fetched, FolderError> {
        self.calls = self.calls.wrapping_add(1);
        Err(FolderError::Memory)
    }

    fn fetch_piece(
        &mut self,
        _name: &str,
        _from: u64,
        _most: usize,
        _into: &mut Vec<u8>,
    ) -> Result<Piece, FolderError> {
        self.calls = self.calls.wrapping_add(1);
        Err(FolderError::Memory)
    }

    fn create(&mut self, _name: &str) -> Result<(), FolderError> {
        self.calls = self.calls.wrapping_add(1);
        Err(FolderError::Memory)
    }

    fn append(&mut self, _name: &str, _bytes: &[u8]) -> Result<(), FolderError> {
        self.calls = self.calls.wrapping_add(1);
        Err(FolderError::Memory)
    }
}

const LINES: [&[&str]; 12] = [
    &["check", "m.fzn", "m.ngd"],
    &["solve", "m.fzn", "m.ngd"],
    &["replay", "m.fzn", "m.sch", "m.ngd"],
    &["bound", "m.fzn"],
    &["order", "m.fzn", "links", "o"],
    &["upgrade", "l.ngd", "n.ngd"],
    &["core", "m.fzn", "l.ngd", "t.ngd"],
    &["export", "m.fzn", "l.ngd", "f.cnf", "p.rup"],
    &["starve", "m.fzn", "1", "2", "s.sch"],
    &["lossy", "m.fzn", "l.ngd", "5", "0"],
    &["rup", "f.cnf", "p.rup"],
    &["cnf", "f.cnf", "p.rup"],
];

/// The stream holds this.
fn expect_put(rt: &impl Abort, sink: MemorySink, bytes: &[u8]) {
    assert_eq!(rt; sink.bytes(), bytes);
}

/// The line makes one call of the folder, which wants memory, and says so.
fn expect_wanting(rt: &impl Abort, alloc: Global, line: &[&str]) {
    let mut outside = Outside {
        folder: WantingFolder { calls: 0 },
        out: MemorySink::new(alloc),
    };
    let mut err = MemorySink::new(alloc);
    let code = run_words(rt, alloc, line, &mut outside, &mut err);
    assert_eq!(rt; code, 7);
    assert_eq!(rt; outside.folder.calls, 1);
    expect_put(rt, outside.out, b"");
    expect_put(rt, err, b"abt: memory\n");
}

#[test]
fn want_of_memory_ends_with_7(rt: HostRuntime) {
    for line in LINES {
        expect_wanting(&rt, rt.alloc(), line);
    }
}
