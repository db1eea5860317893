//! The lines `solve` and `replay`.

use crate::given::{
    APART, Case, LINKED, Left, NO_FILE, PAIR, PAIR_LOG, folder_failing, folder_of, left_by,
    run_over, run_with, sink_failing,
};
use dcsp_outside::MemorySink;
use std::process::Abort;

const PAIR_TRACE: &[u8] =
    b"% 1 v1>v2 ok 0\n% 2 v2>v1 nogood 1\n% 3 v1>v2 ok 1\n% 4 v2>v1 nogood 2\n\
=====UNSATISFIABLE=====\n% deliveries 4\n% steps 3\n";

/// The choice 0, nine times.
const NINE: &[u8] = b"schedule 1\n0\n0\n0\n0\n0\n0\n0\n0\n0\nend\n";

const CASES: [Case; 18] = [
    // The choices are used up before the last delivery, and with it.
    Case {
        words: &[
            "solve",
            "m.fzn",
            "l.ngd",
            "--choices",
            "3",
            "--record",
            "r.sch",
        ],
        files: [("m.fzn", PAIR), NO_FILE],
        code: 5,
        out: b"=====UNKNOWN=====\n% deliveries 3\n% steps 2\n",
        err: b"",
        log: b"ngd 1\n1 v2 [v1=0] <- c1 c2\n2 v2 [v1=1] <- c2 c1\nend\n",
        record: b"schedule 1\n0\n0\n0\nend\n",
    },
    Case {
        words: &["solve", "m.fzn", "l.ngd", "--choices", "4"],
        files: [("m.fzn", PAIR), NO_FILE],
        code: 1,
        out: b"=====UNSATISFIABLE=====\n% deliveries 4\n% steps 3\n",
        err: b"",
        log: PAIR_LOG,
        record: b"",
    },
    Case {
        words: &[
            "solve",
            "m.fzn",
            "l.ngd",
            "--trace",
            "--record",
            "r.sch",
            "--seed",
            "18446744073709551615",
        ],
        files: [("m.fzn", PAIR), NO_FILE],
        code: 1,
        out: PAIR_TRACE,
        err: b"",
        log: PAIR_LOG,
        record: b"schedule 1\n0\n0\n0\n0\nend\n",
    },
    Case {
        words: &["solve", "m.fzn", "l.ngd"],
        files: [("m.fzn", APART), ("l.ngd", b"what stood here")],
        code: 0,
        out: b"x = 0;\ny = 1;\n----------\n% deliveries 1\n% steps 0\n",
        err: b"",
        log: b"ngd 1\nend\n",
        record: b"",
    },
    Case {
        words: &["solve", "m.fzn", "l.ngd"],
        files: [
            ("m.fzn", b"constraint int_le(3,2);\nsolve satisfy;\n"),
            NO_FILE,
        ],
        code: 1,
        out: b"=====UNSATISFIABLE=====\n% deliveries 0\n% steps 1\n",
        err: b"",
        log: b"ngd 1\n1 - [] <- c1\nend\n",
        record: b"",
    },
    Case {
        words: &["solve", "m.fzn", "l.ngd", "--record", "r.sch"],
        files: [("m.fzn", b"solve satisfy;\n"), NO_FILE],
        code: 0,
        out: b"----------\n% deliveries 0\n% steps 0\n",
        err: b"",
        log: b"ngd 1\nend\n",
        record: b"schedule 1\nend\n",
    },
    Case {
        words: &["solve", "m.fzn", "l.ngd"],
        files: [("m.fzn", b"var 5..3: x;\nsolve satisfy;\n"), NO_FILE],
        code: 1,
        out: b"=====UNSATISFIABLE=====\n% deliveries 0\n% steps 1\n",
        err: b"",
        log: b"ngd 1\n1 v1 [] <-\nend\n",
        record: b"",
    },
    Case {
        words: &["replay", "m.fzn", "s.sch", "l.ngd", "--trace"],
        files: [("m.fzn", LINKED), ("s.sch", NINE)],
        code: 0,
        out: b"% 1 v1>v3 ok 0\n% 2 v2>v3 ok 1\n% 3 v3>v2 nogood 1\n% 4 v2>v1 link\n% 5 v1>v2 ok 0\n\
% 6 v2>v1 nogood 2\n% 7 v1>v2 ok 1\n% 8 v1>v3 ok 1\n% 9 v2>v3 ok 1\n\
x = 1;\ny = 1;\nz = 0;\n----------\n% deliveries 9\n% steps 2\n% unused 0\n",
        err: b"",
        log: b"ngd 1\n1 v3 [v1=0,v2=1] <- c1 c2\n2 v2 [v1=0] <- n1\nend\n",
        record: b"",
    },
    // The choices are used up while a message is in transit.
    Case {
        words: &["replay", "m.fzn", "s.sch", "l.ngd"],
        files: [("m.fzn", PAIR), ("s.sch", b"schedule 1\n7\n0\nend\n")],
        code: 5,
        out: b"=====UNKNOWN=====\n% deliveries 2\n% steps 1\n% unused 0\n",
        err: b"",
        log: b"ngd 1\n1 v2 [v1=0] <- c1 c2\nend\n",
        record: b"",
    },
    // More choices than the run takes.
    Case {
        words: &["replay", "m.fzn", "s.sch", "l.ngd"],
        files: [("m.fzn", PAIR), ("s.sch", NINE)],
        code: 1,
        out: b"=====UNSATISFIABLE=====\n% deliveries 4\n% steps 3\n% unused 5\n",
        err: b"",
        log: PAIR_LOG,
        record: b"",
    },
    Case {
        words: &["replay", "m.fzn", "s.sch", "l.ngd"],
        files: [("m.fzn", PAIR), ("s.sch", b"schedule 1\n07\nend\n")],
        code: 4,
        out: b"",
        err: b"abt: schedule: line 2\n",
        log: b"",
        record: b"",
    },
    Case {
        words: &["replay", "m.fzn", "s.sch", "l.ngd"],
        files: [("m.fzn", b"solve\n"), ("s.sch", b"schedule 2\n")],
        code: 3,
        out: b"",
        err: b"abt: model: syntax at 0\n",
        log: b"",
        record: b"",
    },
    Case {
        words: &["solve", "m.fzn", "l.ngd", "--seed", "01"],
        files: [("m.fzn", PAIR), NO_FILE],
        code: 2,
        out: b"",
        err: b"abt: bad words\n",
        log: b"",
        record: b"",
    },
    Case {
        words: &["solve", "m.fzn", "l.ngd", "--trace", "--trace"],
        files: [("m.fzn", PAIR), NO_FILE],
        code: 2,
        out: b"",
        err: b"abt: bad words\n",
        log: b"",
        record: b"",
    },
    Case {
        words: &["solve", "m.fzn", "l.ngd", "--record", "l.ngd"],
        files: [("m.fzn", PAIR), NO_FILE],
        code: 2,
        out: b"",
        err: b"abt: bad words\n",
        log: b"",
        record: b"",
    },
    Case {
        words: &["replay", "m.fzn", "m.fzn", "l.ngd"],
        files: [("m.fzn", PAIR), NO_FILE],
        code: 2,
        out: b"",
        err: b"abt: bad words\n",
        log: b"",
        record: b"",
    },
    Case {
        words: &["solve", "m.fzn", "l.ngd", "--seed", "18446744073709551616"],
        files: [("m.fzn", PAIR), NO_FILE],
        code: 2,
        out: b"",
        err: b"abt: bad words\n",
        log: b"",
        record: b"",
    },
    Case {
        words: &["replay", "m.fzn", "s.sch", "l.ngd", "--seed", "0"],
        files: [("m.fzn", PAIR), ("s.sch", NINE)],
        code: 2,
        out: b"",
        err: b"abt: bad words\n",
        log: b"",
        record: b"",
    },
];

#[test]
fn runs_answer_and_write(rt: HostRuntime) {
    for case in &CASES {
        case.expect(&rt, rt.alloc());
    }
}

/// Which call of the folder fails, and what is left then of `out` and of the log of a traced run with a record.
#[derive(Drop)]
struct Stopped {
    failing: u64,
    out: &'static [u8],
    log: &'static [u8],
    record: &'static [u8],
}

impl Stopped {
    /// A run that was stopped left this.
    fn expect(&self, rt: &impl Abort, left: Left) {
        left.expect(rt, 6, self.out, b"abt: fault\n");
        left.expect_text(rt, "l.ngd", self.log);
        left.expect_text(rt, "r.sch", self.record);
    }
}

/// The calls: the model, the log's creation and head, three steps and the log's end, the record's creation and text.
const STOPPED: [Stopped; 9] = [
    Stopped {
        failing: 1,
        out: b"",
        log: b"",
        record: b"",
    },
    Stopped {
        failing: 2,
        out: b"",
        log: b"",
        record: b"",
    },
    Stopped {
        failing: 3,
        out: b"",
        log: b"",
        record: b"",
    },
    Stopped {
        failing: 4,
        out: b"",
        log: b"ngd 1\n",
        record: b"",
    },
    Stopped {
        failing: 5,
        out: b"% 1 v1>v2 ok 0\n% 2 v2>v1 nogood 1\n",
        log: b"ngd 1\n1 v2 [v1=0] <- c1 c2\n",
        record: b"",
    },
    Stopped {
        failing: 6,
        out: b"% 1 v1>v2 ok 0\n% 2 v2>v1 nogood 1\n% 3 v1>v2 ok 1\n",
        log: b"ngd 1\n1 v2 [v1=0] <- c1 c2\n2 v2 [v1=1] <- c2 c1\n",
        record: b"",
    },
    Stopped {
        failing: 7,
        out: b"% 1 v1>v2 ok 0\n% 2 v2>v1 nogood 1\n% 3 v1>v2 ok 1\n% 4 v2>v1 nogood 2\n",
        log: b"ngd 1\n1 v2 [v1=0] <- c1 c2\n2 v2 [v1=1] <- c2 c1\n3 v1 [] <- n1 n2\n",
        record: b"",
    },
    Stopped {
        failing: 8,
        out: b"% 1 v1>v2 ok 0\n% 2 v2>v1 nogood 1\n% 3 v1>v2 ok 1\n% 4 v2>v1 nogood 2\n",
        log: PAIR_LOG,
        record: b"",
    },
    Stopped {
        failing: 9,
        out: b"% 1 v1>v2 ok 0\n% 2 v2>v1 nogood 1\n% 3 v1>v2 ok 1\n% 4 v2>v1 nogood 2\n",
        log: PAIR_LOG,
        record: b"",
    },
];

#[test]
fn each_call_of_a_run_fails_in_turn(rt: HostRuntime) {
    for case in &STOPPED {
        let words = ["solve", "m.fzn", "l.ngd", "--record", "r.sch", "--trace"];
        let files = [("m.fzn", PAIR), NO_FILE];
        let left = left_by(&rt, rt.alloc(), &files, &words, case.failing);
        case.expect(&rt, left);
    }
}

/// An append that fails may leave first bytes of its piece.
#[test]
fn a_failing_append_leaves_first_bytes(rt: HostRuntime) {
    let folder = folder_failing(&rt, rt.alloc(), &[("m.fzn", PAIR)], 4, 5);
    let left = run_over(&rt, rt.alloc(), folder, &["solve", "m.fzn", "l.ngd"]);
    left.expect(&rt, 6, b"", b"abt: fault\n");
    left.expect_file(&rt, "l.ngd", Some(b"ngd 1\n1 v2 "));
    left.end();
}

/// A stream that fails at its first piece, and keeps some bytes of it.
#[test]
fn a_stream_fails(rt: HostRuntime) {
    let alloc = rt.alloc();
    let folder = folder_of(&rt, alloc, &[("m.fzn", PAIR)]);
    let out = sink_failing(&rt, alloc, 1, 3);
    let words = ["solve", "m.fzn", "l.ngd"];
    let left = run_with(&rt, alloc, folder, out, MemorySink::new(alloc), &words);
    left.expect(&rt, 6, b"===", b"abt: fault\n");
    left.expect_file(&rt, "l.ngd", Some(PAIR_LOG));
    left.end();
}

/// The stream for what is said fails at its first piece.
#[test]
fn a_stream_of_refusals_fails(rt: HostRuntime) {
    let alloc = rt.alloc();
    let folder = folder_of(&rt, alloc, &[]);
    let err = sink_failing(&rt, alloc, 1, 0);
    let left = run_with(&rt, alloc, folder, MemorySink::new(alloc), err, &[]);
    left.expect(&rt, 2, b"", b"");
    left.end();
}

/// The replay answered as the run, whose number and answer these are, and wrote its log.
fn expect_replayed(rt: &impl Abort, again: Left, code: u8, out: &[u8]) {
    assert_eq!(rt; again.code, code);
    assert!(rt; again.out.bytes().starts_with(out));
    assert!(rt; again.out.bytes().ends_with(b"% unused 0\n"));
    again.expect_alike(rt, "again.ngd", "l.ngd");
    again.end();
}

/// A record, replayed, gives the same answer and log.
#[test]
fn a_record_is_replayed(rt: HostRuntime) {
    for model in [PAIR, APART, LINKED] {
        let words = [
            "solve", "m.fzn", "l.ngd", "--record", "r.sch", "--seed", "5",
        ];
        let first = left_by(&rt, rt.alloc(), &[("m.fzn", model)], &words, 0);
        let words = ["replay", "m.fzn", "r.sch", "again.ngd"];
        let again = run_over(&rt, rt.alloc(), first.folder, &words);
        expect_replayed(&rt, again, first.code, first.out.bytes());
    }
}
