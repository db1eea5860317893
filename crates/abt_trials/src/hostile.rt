//! Each call of the outside fails in turn, on every line of the program.

use crate::given::{
    File, Left, NO_FILE, PAIR, PAIR_LOG, folder_failing, folder_of, run_with, sink_failing,
};
use dcsp_outside::{MemoryFolder, MemorySink};
use std::alloc::Global;
use std::process::Abort;

/// A line, and the files that it reads and creates.
#[derive(Drop)]
struct Line {
    words: &'static [&'static str],
    files: [File; 2],
    creates: &'static [&'static str],
}

/// Each of the two literals, and neither.
const FORMULA: &[u8] = b"p cnf 2 3\n1 2 0\n-1 0\n-2 0\n";

const LINES: [Line; 25] = [
    Line {
        words: &["check", "m.fzn", "l.ngd"],
        files: [("m.fzn", PAIR), ("l.ngd", PAIR_LOG)],
        creates: &[],
    },
    Line {
        words: &["replay", "m.fzn", "s.sch", "l.ngd", "--trace"],
        files: [("m.fzn", PAIR), ("s.sch", b"schedule 1\n0\n1\n2\nend\n")],
        creates: &["l.ngd"],
    },
    Line {
        words: &["solve", "m.fzn", "l.ngd", "--record", "r.sch", "--trace"],
        files: [("m.fzn", PAIR), ("l.ngd", b"what stood here")],
        creates: &["l.ngd", "r.sch"],
    },
    Line {
        words: &["measure", "m.fzn", "s.sch"],
        files: [("m.fzn", PAIR), ("s.sch", b"schedule 1\n0\n1\n2\nend\n")],
        creates: &[],
    },
    Line {
        words: &["survey", "m.fzn", "3", "--from", "7", "--order", "o"],
        files: [("m.fzn", PAIR), ("o", b"order 1\n2\n1\nend\n")],
        creates: &[],
    },
    Line {
        words: &["bound", "m.fzn"],
        files: [("m.fzn", PAIR), NO_FILE],
        creates: &[],
    },
    Line {
        words: &["order", "m.fzn", "links", "o"],
        files: [("m.fzn", PAIR), NO_FILE],
        creates: &["o"],
    },
    Line {
        words: &["gen", "queens", "3"],
        files: [NO_FILE, NO_FILE],
        creates: &[],
    },
    Line {
        words: &["gen", "colouring", "4", "2", "7"],
        files: [NO_FILE, NO_FILE],
        creates: &[],
    },
    Line {
        words: &["gen", "sparse", "4", "7"],
        files: [NO_FILE, NO_FILE],
        creates: &[],
    },
    Line {
        words: &["gen", "pigeons", "3"],
        files: [NO_FILE, NO_FILE],
        creates: &[],
    },
    Line {
        words: &["gen", "binary", "3", "2", "2", "1", "7"],
        files: [NO_FILE, NO_FILE],
        creates: &[],
    },
    Line {
        words: &["gen", "meetings", "3", "2", "2", "3", "1", "7"],
        files: [NO_FILE, NO_FILE],
        creates: &[],
    },
    Line {
        words: &["gen", "sensors", "2", "2", "3", "7"],
        files: [NO_FILE, NO_FILE],
        creates: &[],
    },
    Line {
        words: &["drill", "7"],
        files: [NO_FILE, NO_FILE],
        creates: &[],
    },
    Line {
        words: &["upgrade", "l.ngd", "n.ngd"],
        files: [("l.ngd", PAIR_LOG), ("n.ngd", b"what stood here")],
        creates: &["n.ngd"],
    },
    Line {
        words: &["core", "m.fzn", "l.ngd", "t.ngd"],
        files: [("m.fzn", PAIR), ("l.ngd", PAIR_LOG)],
        creates: &["t.ngd"],
    },
    Line {
        words: &["export", "m.fzn", "l.ngd", "f.cnf", "p.rup", "--atoms"],
        files: [("m.fzn", PAIR), ("l.ngd", PAIR_LOG)],
        creates: &["f.cnf", "p.rup"],
    },
    Line {
        words: &["story", "m.fzn", "s.sch", "t.txt"],
        files: [("m.fzn", PAIR), ("s.sch", b"schedule 1\n0\n1\n2\nend\n")],
        creates: &["t.txt"],
    },
    Line {
        words: &["starve", "m.fzn", "1", "2", "s.sch"],
        files: [("m.fzn", PAIR), ("s.sch", b"what stood here")],
        creates: &["s.sch"],
    },
    Line {
        words: &["lossy", "m.fzn", "l.ngd", "5", "3", "--record", "r.sch"],
        files: [("m.fzn", PAIR), NO_FILE],
        creates: &["l.ngd", "r.sch"],
    },
    Line {
        words: &["rup", "f.cnf", "p.rup"],
        files: [("f.cnf", FORMULA), ("p.rup", b"0\n")],
        creates: &[],
    },
    Line {
        words: &["cnf", "f.cnf", "p.rup"],
        files: [("f.cnf", FORMULA), NO_FILE],
        creates: &["p.rup"],
    },
    Line {
        words: &["--help"],
        files: [NO_FILE, NO_FILE],
        creates: &[],
    },
    Line {
        words: &["--version"],
        files: [NO_FILE, NO_FILE],
        creates: &[],
    },
];

/// How many first bytes of its piece a failing call keeps: none, some, and all.
const KEPT: [usize; 3] = [0, 3, usize::MAX];

/// More calls than a line of the table makes.
const MANY: u64 = 40;

/// The file under this name is the same in both folders.
fn is_alike(one: &MemoryFolder, other: &MemoryFolder, name: &str) -> bool {
    one.file(name) == other.file(name)
}

/// Lets the folder go.
fn end(_folder: MemoryFolder) {}

impl Line {
    /// Runs the line. The calls of the folder and of `out` with these numbers fail, where they are not 0,
    /// and keep so many bytes.
    fn run(&self, rt: &impl Abort, alloc: Global, call: u64, put: u64, kept: usize) -> Left {
        let folder = folder_failing(rt, alloc, &self.files, call, kept);
        let out = sink_failing(rt, alloc, put, kept);
        run_with(rt, alloc, folder, out, MemorySink::new(alloc), self.words)
    }

    /// Of the files that the line creates each is the same in both folders.
    fn expect_created(&self, rt: &impl Abort, one: &MemoryFolder, other: &MemoryFolder) {
        for name in self.creates {
            assert!(rt; is_alike(one, other, name));
        }
    }

    /// Of the files of the line those that it does not create are the same in both folders.
    fn expect_kept(&self, rt: &impl Abort, one: &MemoryFolder, other: &MemoryFolder) {
        for (name, _) in &self.files {
            if !self.creates.contains(name) {
                assert!(rt; is_alike(one, other, name));
            }
        }
    }

    /// A first call that fails changes no file that the line creates.
    fn try_first(&self, rt: &impl Abort, alloc: Global) {
        let given = folder_of(rt, alloc, &self.files);
        let first = self.run(rt, alloc, 1, 0, 0);
        self.expect_created(rt, &first.folder, &given);
        first.end();
        end(given);
    }

    /// Each call of the folder fails in turn.
    fn try_calls(&self, rt: &impl Abort, alloc: Global) {
        let whole = self.run(rt, alloc, 0, 0, 0);
        for call in 1..MANY {
            let before = self.run(rt, alloc, call, 0, 0);
            let fails = self.fails(rt, alloc, call, &before, &whole);
            before.end();
            if !fails {
                whole.end();
                return;
            }
        }
        rt.panic("more calls than a line of the table makes");
    }

    /// Whether call number `call` of the folder fails, which left `before`. Where it fails it leaves first
    /// parts; else the line ends as the whole one does.
    fn fails(
        &self,
        rt: &impl Abort,
        alloc: Global,
        call: u64,
        before: &Left,
        whole: &Left,
    ) -> bool {
        if before.code != 6 {
            assert_eq!(rt; before.code, whole.code);
            return false;
        }
        assert!(rt; whole.out.bytes().starts_with(before.out.bytes()));
        self.try_call(rt, alloc, call, before);
        true
    }

    /// Call number `call` of the folder fails, and keeps more bytes than the failure that left `before`.
    fn try_call(&self, rt: &impl Abort, alloc: Global, call: u64, before: &Left) {
        let after = self.run(rt, alloc, call.wrapping_add(1), 0, 0);
        for kept in KEPT {
            let left = self.run(rt, alloc, call, 0, kept);
            self.expect_fault(rt, alloc, &left);
            self.expect_cut(rt, &left, before, &after.folder, kept);
            left.end();
        }
        after.end();
    }

    /// A failing call leaves what was put before it, and of what it would have led to the bytes that it keeps.
    fn expect_cut(
        &self,
        rt: &impl Abort,
        left: &Left,
        before: &Left,
        after: &MemoryFolder,
        kept: usize,
    ) {
        assert!(rt; left.out.bytes() == before.out.bytes());
        for name in self.creates {
            let wanted = cut(before.folder.file(name), after.file(name), kept);
            assert!(rt; left.folder.file(name) == wanted);
        }
    }

    /// Each piece that is put on `out` fails in turn.
    fn try_puts(&self, rt: &impl Abort, alloc: Global) {
        let whole = self.run(rt, alloc, 0, 0, 0);
        for put in 1..MANY {
            let before = self.run(rt, alloc, 0, put, 0);
            let fails = self.put_fails(rt, alloc, put, &before, &whole);
            before.end();
            if !fails {
                whole.end();
                return;
            }
        }
        rt.panic("more pieces than a line of the table puts");
    }

    /// Whether piece number `put` fails, which left `before`. Where it fails it leaves a first part; else all
    /// is put that the whole line puts.
    fn put_fails(
        &self,
        rt: &impl Abort,
        alloc: Global,
        put: u64,
        before: &Left,
        whole: &Left,
    ) -> bool {
        if before.code != 6 {
            assert!(rt; before.out.bytes() == whole.out.bytes());
            return false;
        }
        self.try_put(rt, alloc, put, before);
        true
    }

    /// Piece number `put` fails, and keeps more bytes than the failure that left `before`.
    fn try_put(&self, rt: &impl Abort, alloc: Global, put: u64, before: &Left) {
        let after = self.run(rt, alloc, 0, put.wrapping_add(1), 0);
        for kept in KEPT {
            let left = self.run(rt, alloc, 0, put, kept);
            self.expect_fault(rt, alloc, &left);
            expect_part(rt, &left, before, &after, kept);
            self.expect_created(rt, &left.folder, &before.folder);
            left.end();
        }
        after.end();
    }

    /// The line was stopped by a fault, which is said on `err`, and what it does not create is as it was.
    fn expect_fault(&self, rt: &impl Abort, alloc: Global, left: &Left) {
        assert_eq!(rt; left.code, 6);
        assert_eq!(rt; left.err.bytes(), b"abt: fault\n".as_slice());
        let given = folder_of(rt, alloc, &self.files);
        self.expect_kept(rt, &left.folder, &given);
        end(given);
    }
}

/// A failing piece leaves what was put before it, and of what it would have led to the bytes that it keeps.
fn expect_part(rt: &impl Abort, left: &Left, before: &Left, after: &Left, kept: usize) {
    let wanted = cut(Some(before.out.bytes()), Some(after.out.bytes()), kept);
    assert!(rt; Some(left.out.bytes()) == wanted);
}

/// What a failing call leaves that would have led from `before` to `after`: where it adds bytes, the first of
/// them that it keeps; else what was there.
fn cut<'b>(before: Option<&'b [u8]>, after: Option<&'b [u8]>, kept: usize) -> Option<&'b [u8]> {
    let Some(now) = after else {
        return before;
    };
    let Some(was) = before else {
        return None;
    };
    if !now.starts_with(was) {
        return before;
    }
    let len = was.len().saturating_add(kept);
    if now.len() <= len {
        return after;
    }
    Some(&now[..len])
}

#[test]
fn each_call_fails_in_turn(rt: HostRuntime) {
    for line in &LINES {
        line.try_first(&rt, rt.alloc());
        line.try_calls(&rt, rt.alloc());
        line.try_puts(&rt, rt.alloc());
    }
}
