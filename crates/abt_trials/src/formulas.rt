//! The lines `cnf`, `rup` and `drill`.

use crate::given::{
    File, Left, NO_FILE, folder_failing, left_by, run_over, run_with, sink_failing,
};
use dcsp_outside::MemorySink;
use std::alloc::Global;
use std::process::Abort;

/// Each sign of two variables.
const FOUR: &[u8] = b"p cnf 2 4\n1 2 0\n1 -2 0\n-1 2 0\n-1 -2 0\n";

/// One of two variables.
const ONE: &[u8] = b"p cnf 2 1\n1 2 0\n";

/// A variable and its negation, each twice in its clause.
const TWICE: &[u8] = b"p cnf 1 2\n1 1 0\n-1 -1 0\n";

/// What came of a line.
#[derive(Drop)]
struct Case {
    words: &'static [&'static str],
    files: [File; 2],
    code: u8,
    out: &'static [u8],
    err: &'static [u8],
    /// The file under `p.rup`, if any bytes are there.
    proof: &'static [u8],
}

impl Case {
    /// The line leaves what the case says.
    fn expect(&self, rt: &impl Abort, alloc: Global) {
        let left = left_by(rt, alloc, &self.files, self.words, 0);
        left.expect(rt, self.code, self.out, self.err);
        left.expect_text(rt, "p.rup", self.proof);
        left.end();
    }
}

const CASES: [Case; 26] = [
    Case {
        words: &["cnf", "f.cnf", "p.rup"],
        files: [("f.cnf", FOUR), NO_FILE],
        code: 1,
        out: b"s UNSATISFIABLE\nc deliveries 4\n",
        err: b"",
        proof: b"1 0\n-1 0\n0\n",
    },
    Case {
        words: &["cnf", "f.cnf", "p.rup", "--seed", "0"],
        files: [("f.cnf", ONE), ("p.rup", b"what stood here")],
        code: 0,
        out: b"s SATISFIABLE\nv -1 2 0\nc deliveries 1\n",
        err: b"",
        proof: b"what stood here",
    },
    Case {
        words: &["cnf", "f.cnf", "p.rup"],
        files: [("f.cnf", b"p cnf 1 1\n0\n"), NO_FILE],
        code: 1,
        out: b"s UNSATISFIABLE\nc deliveries 0\n",
        err: b"",
        proof: b"0\n",
    },
    Case {
        words: &["cnf", "f.cnf", "p.rup"],
        files: [("f.cnf", b"p cnf 1 1\n2 0\n"), NO_FILE],
        code: 3,
        out: b"",
        err: b"abt: cnf: syntax at 10\n",
        proof: b"",
    },
    Case {
        words: &["cnf", "f.cnf", "p.rup"],
        files: [("f.cnf", b"p cnf 4097 0\n"), NO_FILE],
        code: 3,
        out: b"",
        err: b"abt: cnf: limit variables 4097 at 6\n",
        proof: b"",
    },
    Case {
        words: &["cnf", "f.cnf", "p.rup", "--seed", "0"],
        files: [("f.cnf", b"p cnf 1 1\n0"), NO_FILE],
        code: 1,
        out: b"s UNSATISFIABLE\nc deliveries 0\n",
        err: b"",
        proof: b"0\n",
    },
    Case {
        words: &["cnf", "f.cnf", "p.rup", "--seed", "0"],
        files: [("f.cnf", TWICE), NO_FILE],
        code: 1,
        out: b"s UNSATISFIABLE\nc deliveries 0\n",
        err: b"",
        proof: b"0\n",
    },
    Case {
        words: &["cnf", "f.cnf", "p.rup", "--seed", "0"],
        files: [("f.cnf", b"p cnf 0 0"), NO_FILE],
        code: 0,
        out: b"s SATISFIABLE\nv 0\nc deliveries 0\n",
        err: b"",
        proof: b"",
    },
    Case {
        words: &["cnf", "f.cnf", "p.rup", "--seed", "0"],
        files: [("f.cnf", b"p cnf 3 1\n2 0\n"), NO_FILE],
        code: 0,
        out: b"s SATISFIABLE\nv -1 2 -3 0\nc deliveries 0\n",
        err: b"",
        proof: b"",
    },
    Case {
        words: &["cnf", "f.cnf", "p.rup", "--seed", "0"],
        files: [("f.cnf", b"p cnf 1 1\n2 0"), NO_FILE],
        code: 3,
        out: b"",
        err: b"abt: cnf: syntax at 10\n",
        proof: b"",
    },
    Case {
        words: &["cnf", "f.cnf", "p.rup", "--seed", "0"],
        files: [("f.cnf", b"p cnf 4097 0"), NO_FILE],
        code: 3,
        out: b"",
        err: b"abt: cnf: limit variables 4097 at 6\n",
        proof: b"",
    },
    Case {
        words: &["cnf", "f.cnf", "p.rup", "--seed"],
        files: [("f.cnf", ONE), NO_FILE],
        code: 2,
        out: b"",
        err: b"abt: bad words\n",
        proof: b"",
    },
    Case {
        words: &["cnf", "f.cnf", "f.cnf"],
        files: [("f.cnf", ONE), NO_FILE],
        code: 2,
        out: b"",
        err: b"abt: bad words\n",
        proof: b"",
    },
    Case {
        words: &["rup", "f.cnf", "p.rup"],
        files: [("f.cnf", FOUR), ("p.rup", b"1 0\n-1 0\n0\n")],
        code: 0,
        out: b"verified\n",
        err: b"",
        proof: b"1 0\n-1 0\n0\n",
    },
    Case {
        words: &["rup", "f.cnf", "p.rup"],
        files: [("f.cnf", FOUR), ("p.rup", b"1 0\n-1 0\n")],
        code: 1,
        out: b"rejected not empty\n",
        err: b"",
        proof: b"1 0\n-1 0\n",
    },
    Case {
        words: &["rup", "f.cnf", "p.rup"],
        files: [("f.cnf", ONE), ("p.rup", b"1 0\n0\n")],
        code: 1,
        out: b"rejected clause 1\n",
        err: b"",
        proof: b"1 0\n0\n",
    },
    Case {
        words: &["rup", "f.cnf", "p.rup"],
        files: [("f.cnf", FOUR), ("p.rup", b"01 0\n")],
        code: 4,
        out: b"",
        err: b"abt: proof: line 1\n",
        proof: b"01 0\n",
    },
    Case {
        words: &["rup", "f.cnf", "p.rup"],
        files: [("f.cnf", TWICE), ("p.rup", b"0\n")],
        code: 0,
        out: b"verified\n",
        err: b"",
        proof: b"0\n",
    },
    Case {
        words: &["rup", "f.cnf", "p.rup"],
        files: [("f.cnf", FOUR), ("p.rup", b"")],
        code: 1,
        out: b"rejected not empty\n",
        err: b"",
        proof: b"",
    },
    Case {
        words: &["rup", "f.cnf", "p.rup"],
        files: [("f.cnf", b"p cnf 1 1\n2 0"), ("p.rup", b"1")],
        code: 3,
        out: b"",
        err: b"abt: cnf: syntax at 10\n",
        proof: b"1",
    },
    Case {
        words: &["rup", "f.cnf", "p.rup"],
        files: [("f.cnf", b"p cnf 4097 0"), ("p.rup", b"")],
        code: 3,
        out: b"",
        err: b"abt: cnf: limit variables 4097 at 6\n",
        proof: b"",
    },
    Case {
        words: &["rup", "f.cnf", "p.rup"],
        files: [("f.cnf", b"p cnf 0 0"), ("p.rup", b"0\n0")],
        code: 4,
        out: b"",
        err: b"abt: proof: line 2\n",
        proof: b"0\n0",
    },
    Case {
        words: &["rup", "f.cnf", "p.rup", "--seed", "1"],
        files: [("f.cnf", FOUR), NO_FILE],
        code: 2,
        out: b"",
        err: b"abt: bad words\n",
        proof: b"",
    },
    Case {
        words: &["drill", "7"],
        files: [NO_FILE, NO_FILE],
        code: 0,
        out: b"sparse 500 solved deliveries 13709\nqueens 6 solved deliveries 206\n\
pigeons 5 refuted deliveries 212 steps 77\npigeons 5 verified\n",
        err: b"",
        proof: b"",
    },
    Case {
        words: &["drill", "07"],
        files: [NO_FILE, NO_FILE],
        code: 2,
        out: b"",
        err: b"abt: bad words\n",
        proof: b"",
    },
    Case {
        words: &["drill"],
        files: [NO_FILE, NO_FILE],
        code: 2,
        out: b"",
        err: b"abt: bad words\n",
        proof: b"",
    },
];

#[test]
fn formulas_and_drills(rt: HostRuntime) {
    for case in &CASES {
        case.expect(&rt, rt.alloc());
    }
}

/// A line, which call of the folder and which piece that is put on `out` fail, the status, and the file under
/// `p.rup` then.
#[derive(Drop)]
struct Failing {
    words: &'static [&'static str],
    files: [File; 2],
    folder: u64,
    out: u64,
    code: u8,
    proof: Option<&'static [u8]>,
}

impl Failing {
    /// What the line leaves.
    fn left(&self, rt: &impl Abort, alloc: Global) -> Left {
        let folder = folder_failing(rt, alloc, &self.files, self.folder, 0);
        let out = sink_failing(rt, alloc, self.out, 0);
        run_with(rt, alloc, folder, out, MemorySink::new(alloc), self.words)
    }

    /// The line ends so.
    fn expect(&self, rt: &impl Abort, alloc: Global) {
        let left = self.left(rt, alloc);
        assert_eq!(rt; left.code, self.code);
        left.expect_file(rt, "p.rup", self.proof);
        left.end();
    }
}

const CHECKS_FAILING: [Failing; 4] = [
    Failing {
        words: &["rup", "f.cnf", "p.rup"],
        files: [("f.cnf", FOUR), ("p.rup", b"1 0\n-1 0\n0\n")],
        folder: 9,
        out: 9,
        code: 0,
        proof: Some(b"1 0\n-1 0\n0\n"),
    },
    Failing {
        words: &["rup", "f.cnf", "p.rup"],
        files: [("f.cnf", FOUR), ("p.rup", b"1 0\n-1 0\n0\n")],
        folder: 1,
        out: 9,
        code: 6,
        proof: Some(b"1 0\n-1 0\n0\n"),
    },
    Failing {
        words: &["rup", "f.cnf", "p.rup"],
        files: [("f.cnf", FOUR), ("p.rup", b"1 0\n-1 0\n0\n")],
        folder: 2,
        out: 9,
        code: 6,
        proof: Some(b"1 0\n-1 0\n0\n"),
    },
    Failing {
        words: &["rup", "f.cnf", "p.rup"],
        files: [("f.cnf", FOUR), ("p.rup", b"1 0\n-1 0\n0\n")],
        folder: 9,
        out: 1,
        code: 6,
        proof: Some(b"1 0\n-1 0\n0\n"),
    },
];

#[test]
fn a_check_of_a_proof_stops_at_the_first_fault(rt: HostRuntime) {
    for case in &CHECKS_FAILING {
        case.expect(&rt, rt.alloc());
    }
}

const RUNS_FAILING: [Failing; 7] = [
    Failing {
        words: &["cnf", "f.cnf", "p.rup"],
        files: [("f.cnf", FOUR), NO_FILE],
        folder: 9,
        out: 9,
        code: 1,
        proof: Some(b"1 0\n-1 0\n0\n"),
    },
    Failing {
        words: &["cnf", "f.cnf", "p.rup"],
        files: [("f.cnf", FOUR), NO_FILE],
        folder: 1,
        out: 9,
        code: 6,
        proof: None,
    },
    Failing {
        words: &["cnf", "f.cnf", "p.rup"],
        files: [("f.cnf", FOUR), NO_FILE],
        folder: 2,
        out: 9,
        code: 6,
        proof: None,
    },
    Failing {
        words: &["cnf", "f.cnf", "p.rup"],
        files: [("f.cnf", FOUR), NO_FILE],
        folder: 3,
        out: 9,
        code: 6,
        proof: Some(b""),
    },
    Failing {
        words: &["cnf", "f.cnf", "p.rup"],
        files: [("f.cnf", FOUR), NO_FILE],
        folder: 4,
        out: 9,
        code: 6,
        proof: Some(b"1 0\n"),
    },
    Failing {
        words: &["cnf", "f.cnf", "p.rup"],
        files: [("f.cnf", FOUR), NO_FILE],
        folder: 5,
        out: 9,
        code: 6,
        proof: Some(b"1 0\n-1 0\n"),
    },
    Failing {
        words: &["cnf", "f.cnf", "p.rup"],
        files: [("f.cnf", FOUR), NO_FILE],
        folder: 9,
        out: 1,
        code: 6,
        proof: Some(b"1 0\n-1 0\n0\n"),
    },
];

#[test]
fn an_answer_comes_after_the_proof(rt: HostRuntime) {
    for case in &RUNS_FAILING {
        case.expect(&rt, rt.alloc());
    }
}

/// Each sign of three variables.
const EIGHT: &[u8] =
    b"p cnf 3 8\n1 2 3 0\n1 2 -3 0\n1 -2 3 0\n1 -2 -3 0\n-1 2 3 0\n-1 2 -3 0\n-1 -2 3 0\n-1 -2 -3 0\n";

/// A run from this seed refutes the formula, and the proof that it writes is verified.
fn expect_verified(rt: &impl Abort, alloc: Global, seed: &str) {
    let words = ["cnf", "f.cnf", "p.rup", "--seed", seed];
    let left = left_by(rt, alloc, &[("f.cnf", EIGHT)], &words, 0);
    assert_eq!(rt; left.code, 1);
    let words = ["rup", "f.cnf", "p.rup"];
    let checked = run_over(rt, alloc, left.into_folder(), &words);
    assert_eq!(rt; checked.out.bytes(), b"verified\n".as_slice());
    checked.end();
}

#[test]
fn its_proofs_are_verified(rt: HostRuntime) {
    for seed in ["0", "1", "7"] {
        expect_verified(&rt, rt.alloc(), seed);
    }
}
