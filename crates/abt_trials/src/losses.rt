//! Runs over a medium that loses, repeats and reorders.

use crate::given::{APART, Case, LINKED, Left, NO_FILE, PAIR, PAIR_LOG, STAR, left_by, run_over};
use itoa::Buffer;
use std::alloc::Global;
use std::process::Abort;

const CASES: [Case; 8] = [
    Case {
        words: &["lossy", "m.fzn", "l.ngd", "0", "18446744073709551615"],
        files: [("m.fzn", PAIR), NO_FILE],
        code: 1,
        out: b"=====UNSATISFIABLE=====\n% deliveries 4\n% steps 3\n% events 11\n",
        err: b"",
        log: PAIR_LOG,
        record: b"",
    },
    Case {
        words: &["lossy", "m.fzn", "l.ngd", "40", "7", "--record", "r.sch"],
        files: [("m.fzn", PAIR), ("l.ngd", b"what stood here")],
        code: 1,
        out: b"=====UNSATISFIABLE=====\n% deliveries 4\n% steps 3\n% events 52\n",
        err: b"",
        log: PAIR_LOG,
        record: b"schedule 1\n0\n0\n0\n0\nend\n",
    },
    Case {
        words: &["lossy", "m.fzn", "l.ngd", "1000000", "7"],
        files: [("m.fzn", PAIR), NO_FILE],
        code: 1,
        out: b"=====UNSATISFIABLE=====\n% deliveries 4\n% steps 3\n% events 48\n",
        err: b"",
        log: PAIR_LOG,
        record: b"",
    },
    Case {
        words: &["lossy", "m.fzn", "l.ngd", "0", "0"],
        files: [("m.fzn", APART), NO_FILE],
        code: 0,
        out: b"x = 0;\ny = 1;\n----------\n% deliveries 1\n% steps 0\n% events 2\n",
        err: b"",
        log: b"ngd 1\nend\n",
        record: b"",
    },
    // Under an order the log has the model's numbers, and refutes the model as it stands.
    Case {
        words: &["lossy", "m.fzn", "l.ngd", "0", "0", "--order", "o"],
        files: [("m.fzn", STAR), ("o", b"order 1\n2\n1\n3\n4\nend\n")],
        code: 1,
        out: b"=====UNSATISFIABLE=====\n% deliveries 12\n% steps 4\n% events 35\n",
        err: b"",
        log: b"ngd 1\n1 v4 [v1=0,v2=1,v3=2] <- c1 c2 c3\n2 v3 [v1=0,v2=1] <- n1\n3 v1 [v2=1] <- n2\n4 v2 [] <- n3\nend\n",
        record: b"",
    },
    // A world that is quiet at the start makes no event.
    Case {
        words: &["lossy", "m.fzn", "l.ngd", "9", "0", "--record", "r.sch"],
        files: [("m.fzn", b"solve satisfy;\n"), NO_FILE],
        code: 0,
        out: b"----------\n% deliveries 0\n% steps 0\n% events 0\n",
        err: b"",
        log: b"ngd 1\nend\n",
        record: b"schedule 1\nend\n",
    },
    Case {
        words: &["lossy", "m.fzn", "l.ngd", "1000001", "0"],
        files: [("m.fzn", APART), NO_FILE],
        code: 2,
        out: b"",
        err: b"abt: bad words\n",
        log: b"",
        record: b"",
    },
    Case {
        words: &["lossy", "m.fzn", "l.ngd", "5", "0"],
        files: [("m.fzn", b"var 0..1 x;\n"), NO_FILE],
        code: 3,
        out: b"",
        err: b"abt: model: syntax at 0\n",
        log: b"",
        record: b"",
    },
];

#[test]
fn losses_answer_and_write(rt: HostRuntime) {
    for case in &CASES {
        case.expect(&rt, rt.alloc());
    }
}

/// A run of the model over the medium, with a record, under the events of this seed.
fn lossy_run(rt: &impl Abort, alloc: Global, model: &'static [u8], seed: u32) -> Left {
    let mut digits = Buffer::new();
    let seed = digits.format(seed);
    let words = ["lossy", "m.fzn", "l.ngd", "60", seed, "--record", "r.sch"];
    left_by(rt, alloc, &[("m.fzn", model)], &words, 0)
}

/// A replay of the record that the run left has its answer, its log, and no choice more.
fn expect_replayed(rt: &impl Abort, alloc: Global, left: Left) {
    let code = left.code;
    let words = ["replay", "m.fzn", "r.sch", "again.ngd"];
    let again = run_over(rt, alloc, left.into_folder(), &words);
    assert_eq!(rt; again.code, code);
    assert!(rt; again.out.bytes().ends_with(b"% unused 0\n"));
    again.expect_alike(rt, "again.ngd", "l.ngd");
    again.end();
}

/// Runs over the medium under the events of 200 seeds end with this status, and their records replay.
fn expect_verdict(rt: &impl Abort, alloc: Global, model: &'static [u8], code: u8) {
    for seed in 0..200 {
        let left = lossy_run(rt, alloc, model, seed);
        assert_eq!(rt; left.code, code);
        expect_replayed(rt, alloc, left);
    }
}

/// Whatever the medium does, the verdict is that of a run over reliable links, and the record of what was
/// handed up gives such a run, with the same answer and log.
#[test]
fn losses_change_no_verdict(rt: HostRuntime) {
    for model in [PAIR, APART, LINKED] {
        let words = ["solve", "m.fzn", "l.ngd"];
        let reliable = left_by(&rt, rt.alloc(), &[("m.fzn", model)], &words, 0);
        let code = reliable.code;
        reliable.end();
        expect_verdict(&rt, rt.alloc(), model, code);
    }
}
