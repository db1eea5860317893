//! Logs of both versions, checked in pieces.

ghost use Rattle.std.specs.Prelude.{◌≤◌};

use crate::given::{Left, PAIR, PAIR_LOG, expect_line, left_by, run_over};
use dcsp_outside::MemoryFolder;
use itoa::Buffer;
use ngd_log::{Entries, LogError, LogReader};
use std::alloc::Global;
use std::process::Abort;

/// The same with 200 values each: its log has between one and two pieces.
const WIDE_PAIR: &[u8] =
    b"var 0..199: x;\nvar 0..199: y;\nconstraint int_ne(x,y);\nconstraint int_eq(x,y);\nsolve satisfy;\n";

/// What a check of a log says, on `out` or on `err`.
#[derive(Drop)]
struct Case {
    log: &'static [u8],
    code: u8,
    said: &'static [u8],
}

impl Case {
    /// The number that the check ends with, and what it puts on `out` and `err`.
    fn told(&self) -> (u8, &[u8], &[u8]) {
        match self.code {
            0 | 1 => (self.code, self.said, b""),
            _ => (self.code, b"", self.said),
        }
    }
}

const CASES: [Case; 12] = [
    Case {
        log: b"ngd 2\n1 v2 [v1=0] <- c1 c2\n2 v2 [v1=1] <- c2 c1\n3 v1 [] <- n1 n2\nend\n",
        code: 0,
        said: b"verified\n",
    },
    Case {
        log: b"ngd 2\n1 v2 [v1=0] <- c1 c2\n2 v2 [v1=0] <- c1 c2\nd 1\n3 v2 [v1=1] <- c2 c1\n4 v1 [] <- n2 n3\nd 2 3\nend\n",
        code: 0,
        said: b"verified\n",
    },
    Case {
        log: b"ngd 2\n1 v2 [v1=0] <- c1 c2\nd 1\n2 v2 [v1=1] <- c2 c1\n3 v1 [] <- n1 n2\nend\n",
        code: 1,
        said: b"rejected step 3\n",
    },
    Case {
        log: b"ngd 2\n1 v2 [v1=0] <- c1 c2\nd 7\nend\n",
        code: 1,
        said: b"rejected deletion after step 1\n",
    },
    Case {
        log: b"ngd 2\nd 1\n1 v2 [v1=0] <- c1 c2\nend\n",
        code: 1,
        said: b"rejected deletion after step 0\n",
    },
    Case {
        log: b"ngd 2\n1 v2 [v1=0] <- c1 c2\nd 1\nd 1\nend\n",
        code: 1,
        said: b"rejected deletion after step 1\n",
    },
    Case {
        log: b"ngd 2\n1 v2 [v1=0] <- c1 c2\n2 v2 [v1=1] <- c2 c1\nd 2 1\nend\n",
        code: 4,
        said: b"abt: log: line 4\n",
    },
    Case {
        log: b"ngd 2\nd\nend\n",
        code: 4,
        said: b"abt: log: line 2\n",
    },
    // Version 1 has no deletions.
    Case {
        log: b"ngd 1\n1 v2 [v1=0] <- c1 c2\nd 1\nend\n",
        code: 4,
        said: b"abt: log: line 3\n",
    },
    Case {
        log: b"ngd 3\nend\n",
        code: 4,
        said: b"abt: log: line 1\n",
    },
    // A bad line is told before a wrong step.
    Case {
        log: b"ngd 2\n1 v2 [v1=0] <- c2 c2\nend\nend\n",
        code: 4,
        said: b"abt: log: line 4\n",
    },
    Case {
        log: b"ngd 2\nend",
        code: 4,
        said: b"abt: log: line 2\n",
    },
];

#[test]
fn logs_of_both_versions_are_checked(rt: HostRuntime) {
    for case in &CASES {
        let files = [("m.fzn", PAIR), ("l.ngd", case.log)];
        let words = ["check", "m.fzn", "l.ngd"];
        expect_line(&rt, rt.alloc(), &files, &words, case.told());
    }
}

/// A folder with the wide pair and the log of a run of it.
fn logged(rt: &impl Abort, alloc: Global) -> MemoryFolder {
    let files = [("m.fzn", WIDE_PAIR)];
    let left = left_by(rt, alloc, &files, &["solve", "m.fzn", "l.ngd"], 0);
    assert_eq!(rt; left.code, 1);
    left.into_folder()
}

/// Checks the log of a run whose folder this is. Call number `failing` of the check fails.
fn checked(rt: &impl Abort, alloc: Global, mut folder: MemoryFolder, failing: u64) -> Left {
    let made: u64 = 205;
    folder
        .fail_at(made.wrapping_add(failing))
        .expect(rt, "memory");
    run_over(rt, alloc, folder, &["check", "m.fzn", "l.ngd"])
}

/// The check ended with this number, and answered unless a call failed.
fn expect_checked(rt: &impl Abort, left: Left, code: u8) {
    assert_eq!(rt; left.code, code);
    assert_eq!(rt; left.out.bytes().is_empty(), code == 6);
}

/// One call reads the model, and two read the log: the run before makes 205 calls, for the model, the log's
/// creation, its two ends and 201 steps.
#[test]
fn a_log_is_read_in_two_pieces(rt: HostRuntime) {
    for (failing, code) in [(1, 6), (2, 6), (3, 6), (4, 0)] {
        let folder = logged(&rt, rt.alloc());
        let left = checked(&rt, rt.alloc(), folder, failing);
        expect_checked(&rt, left, code);
    }
}

/// What a check says of so many first bytes of a log.
fn said_of(count: usize) -> &'static [u8] {
    match count {
        0..=5 => b"abt: log: line 1\n",
        6..=26 => b"abt: log: line 2\n",
        27..=47 => b"abt: log: line 3\n",
        48..=64 => b"abt: log: line 4\n",
        65..=68 => b"abt: log: line 5\n",
        _ => b"",
    }
}

/// So many first bytes of a log were checked, of which all verify, and no fewer.
fn expect_part(rt: &impl Abort, left: Left, count: usize) {
    assert_eq!(rt; left.err.bytes(), said_of(count));
    assert_eq!(rt; left.code == 0, count == 69);
}

/// Row for row, the first bytes of a log are refused at their first bad line.
#[test]
fn first_parts_of_a_log_are_refused(rt: HostRuntime) {
    for count in 0..=PAIR_LOG.len() {
        let part = PAIR_LOG.get(..count).expect(&rt, "a part");
        let files = [("m.fzn", PAIR), ("l.ngd", part)];
        let left = left_by(&rt, rt.alloc(), &files, &["check", "m.fzn", "l.ngd"], 0);
        expect_part(&rt, left, count);
    }
}

/// What an upgrade of a log says and writes.
#[derive(Drop)]
struct Upgrade {
    log: &'static [u8],
    code: u8,
    out: &'static [u8],
    err: &'static [u8],
    /// The new log, if any bytes are there.
    new: &'static [u8],
}

impl Upgrade {
    /// An upgrade left this.
    fn expect(&self, rt: &impl Abort, left: Left) {
        left.expect(rt, self.code, self.out, self.err);
        left.expect_text(rt, "n.ngd", self.new);
    }
}

/// Three variables with two values each, no two alike.
const THREE_LOG: &[u8] = b"ngd 1\n1 v3 [v1=0,v2=1] <- c2 c3\n2 v2 [v1=0] <- c1 n1\n\
3 v3 [v1=1,v2=0] <- c3 c2\n4 v2 [v1=1] <- n3 c1\n5 v1 [] <- n2 n4\nend\n";

const UPGRADES: [Upgrade; 4] = [
    Upgrade {
        log: b"ngd 1\n1 v2 [v1=0] <- c1 c2\n2 v2 [v1=1] <- c2 c1\n3 v1 [] <- n1 n2\nend\n",
        code: 0,
        out: b"upgraded steps 3 deleted 0\n",
        err: b"",
        new: b"ngd 2\n1 v2 [v1=0] <- c1 c2\n2 v2 [v1=1] <- c2 c1\n3 v1 [] <- n1 n2\nend\n",
    },
    Upgrade {
        log: THREE_LOG,
        code: 0,
        out: b"upgraded steps 5 deleted 2\n",
        err: b"",
        new: b"ngd 2\n1 v3 [v1=0,v2=1] <- c2 c3\n2 v2 [v1=0] <- c1 n1\nd 1\n\
3 v3 [v1=1,v2=0] <- c3 c2\n4 v2 [v1=1] <- n3 c1\nd 3\n5 v1 [] <- n2 n4\nend\n",
    },
    Upgrade {
        log: b"ngd 1\nend\n",
        code: 0,
        out: b"upgraded steps 0 deleted 0\n",
        err: b"",
        new: b"ngd 2\nend\n",
    },
    Upgrade {
        log: b"ngd 2\nend\n",
        code: 4,
        out: b"",
        err: b"abt: log: line 1\n",
        new: b"",
    },
];

#[test]
fn logs_are_upgraded(rt: HostRuntime) {
    for case in &UPGRADES {
        let files = [("l.ngd", case.log)];
        let left = left_by(&rt, rt.alloc(), &files, &["upgrade", "l.ngd", "n.ngd"], 0);
        case.expect(&rt, left);
    }
}

/// A log of so many steps, of which the last line is this.
fn long_log(rt: &impl Abort, alloc: Global, steps: u32, last: &[u8]) -> Vec<u8> {
    let mut text = Vec::from_slice(alloc, b"ngd 1\n").expect(rt, "memory");
    let mut digits = Buffer::new();
    for step in 0..steps {
        let number = digits.format(step.wrapping_add(1));
        text.extend_from_slice(number.as_bytes())
            .expect(rt, "memory");
        text.extend_from_slice(b" v2 [v1=0] <- c1 c2\n")
            .expect(rt, "memory");
    }
    text.extend_from_slice(last).expect(rt, "memory");
    text
}

/// How many entries there were.
fn drained(entries: &mut Entries) -> u64 {
    let mut count: u64 = 0;
    while let Some(_entry) = entries.take_first() {
        count = count.wrapping_add(1);
    }
    count
}

/// How many entries are read of the text in pieces of `size` bytes, and how it ends.
fn read_in_pieces(alloc: Global, text: &[u8], size: usize) -> (u64, Result<(), LogError>)
    requires { 1 ≤ size }
{
    // The reader asks that a text has at most 2^63 bytes.
    if text.len() > 1 << 32 {
        return (0, Err(LogError::Memory));
    }
    let mut reader = LogReader::new(alloc);
    let mut entries = Entries::new(alloc);
    let mut count: u64 = 0;
    let mut rest = text;
    while !rest.is_empty() {
        let (piece, more) = rest.split_at(size.min(rest.len()));
        let _told = reader.feed(piece, &mut entries);
        count = count.wrapping_add(drained(&mut entries));
        rest = more;
    }
    (count, reader.finish())
}

/// So many entries are read of the text in pieces of each of these sizes, and it ends so.
fn expect_entries(
    rt: &impl Abort,
    alloc: Global,
    text: &[u8],
    sizes: &[usize],
    (count, end): (u64, Result<(), LogError>),
) {
    for size in sizes {
        assert!(rt; *size > 0);
        assert!(rt; read_in_pieces(alloc, text, *size) == (count, end));
    }
}

#[test]
fn a_long_log_is_read_however_it_is_cut(rt: HostRuntime) {
    let alloc = rt.alloc();
    let whole = long_log(&rt, alloc, 100_000, b"end\n");
    expect_entries(&rt, alloc, &whole, &[1, 7, 65_536], (100_000, Ok(())));
}

#[test]
fn a_long_log_without_an_end(rt: HostRuntime) {
    let alloc = rt.alloc();
    let cut = long_log(&rt, alloc, 100_000, b"100001 v2 [v1=0] <- c1 c2\n");
    let bad = Err(LogError::Line { number: 100_003 });
    expect_entries(&rt, alloc, &cut, &[7, 65_536], (100_001, bad));
}
