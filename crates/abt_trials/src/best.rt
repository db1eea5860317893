//! Models that ask for the least or the greatest value, and checks against better values.

use crate::given::{Case, NO_FILE, PAIR, PAIR_LOG, expect_line};
use std::alloc::Global;
use std::process::Abort;

/// Two variables of which the second is above the first, and is to be least.
const LEAST: &[u8] =
    b"var 1..3: x :: output_var;\nvar 1..3: y :: output_var;\nconstraint int_lt(x,y);\nsolve minimize y;\n";

/// The log of its last round.
const LEAST_LOG: &[u8] =
    b"ngd 1\n1 v2 [v1=1] <- c1\n2 v2 [v1=2] <- c1\n3 v2 [v1=3] <- c1\n4 v1 [] <- n1 n2 n3\nend\n";

/// Two variables of which the second is below the first, and is to be greatest.
const GREATEST: &[u8] =
    b"var -3..-1: x :: output_var;\nvar -3..3: y :: output_var;\nconstraint int_lt(y,x);\nsolve maximize y;\n";

/// Two variables that differ and are equal, the second of which is to be least.
const NONE: &[u8] =
    b"var 0..1: x;\nvar 0..1: y;\nconstraint int_ne(x,y);\nconstraint int_eq(x,y);\nsolve minimize y;\n";

/// A constant that is to be greatest.
const CONSTANT: &[u8] =
    b"var 0..1: x :: output_var;\nvar 0..1: y :: output_var;\nconstraint int_ne(x,y);\nsolve maximize 7;\n";

/// A variable that is to be greatest, up to 100, and the same up to 60.
const HUNDRED: &[u8] = b"var 1..100: x :: output_var;\nsolve maximize x;\n";

const SIXTY: &[u8] = b"var 1..100: x :: output_var;\nconstraint int_le(x,60);\nsolve maximize x;\n";

/// Two variables of which the second is to be greatest, and is at most 4 and the first.
const FOUR: &[u8] =
    b"var 1..4: x :: output_var;\nvar 1..8: y :: output_var;\nconstraint int_lt(y,5);\n\
constraint int_le(y,x);\nsolve maximize y;\n";

const CASES: [Case; 13] = [
    // By halves, each solution is better than those before it.
    Case {
        words: &["solve", "m.fzn", "l.ngd", "--halves", "--each"],
        files: [("m.fzn", HUNDRED), NO_FILE],
        code: 0,
        out: b"x = 1;\n----------\nx = 51;\n----------\nx = 76;\n----------\nx = 88;\n----------\n\
x = 94;\n----------\nx = 97;\n----------\nx = 99;\n----------\nx = 100;\n----------\n\
==========\n% rounds 9\n% deliveries 0\n% steps 1\n",
        err: b"",
        log: b"ngd 1\n1 v1 [] <-\nend\n",
        record: b"",
    },
    // A refuted half is asked for no more: 76 to 100, and then 63 to 75.
    Case {
        words: &["solve", "m.fzn", "l.ngd", "--each", "--halves"],
        files: [("m.fzn", SIXTY), NO_FILE],
        code: 0,
        out: b"x = 1;\n----------\nx = 51;\n----------\nx = 57;\n----------\nx = 60;\n----------\n\
==========\n% rounds 7\n% deliveries 0\n% steps 1\n",
        err: b"",
        log: b"ngd 1\n1 v1 [] <- c1 c1 c1 c1 c1 c1 c1 c1 c1 c1 c1 c1 c1 c1 c1 c1 c1 c1 c1 c1 c1 c1 c1 \
c1 c1 c1 c1 c1 c1 c1 c1 c1 c1 c1 c1 c1 c1 c1 c1 c1\nend\n",
        record: b"",
    },
    // The third round uses its choice up, the second one was refuted: the solution is the first one's.
    Case {
        words: &["solve", "m.fzn", "l.ngd", "--halves", "--choices", "1"],
        files: [("m.fzn", FOUR), NO_FILE],
        code: 5,
        out: b"x = 1;\ny = 1;\n----------\n% rounds 3\n% deliveries 2\n% steps 1\n",
        err: b"",
        log: b"ngd 1\n1 v2 [v1=1] <- c2 c2 c1 c1 c1 c1\nend\n",
        record: b"",
    },
    // Each solution is put when it is found, and the last one not once more.
    Case {
        words: &["solve", "m.fzn", "l.ngd", "--each"],
        files: [("m.fzn", GREATEST), NO_FILE],
        code: 0,
        out: b"x = -2;\ny = -3;\n----------\nx = -1;\ny = -2;\n----------\n\
==========\n% rounds 3\n% deliveries 14\n% steps 4\n",
        err: b"",
        log: b"ngd 1\n1 v2 [v1=-3] <- c1 c1 c1 c1 c1\n2 v2 [v1=-2] <- c1 c1 c1 c1 c1\n\
3 v2 [v1=-1] <- c1 c1 c1 c1 c1\n4 v1 [] <- n1 n2 n3\nend\n",
        record: b"",
    },
    // Each round has five choices, and the second one uses them up.
    Case {
        words: &["solve", "m.fzn", "l.ngd", "--choices", "5", "--each"],
        files: [("m.fzn", LEAST), NO_FILE],
        code: 5,
        out: b"x = 1;\ny = 2;\n----------\n% rounds 2\n% deliveries 6\n% steps 3\n",
        err: b"",
        log: b"ngd 1\n1 v2 [v1=1] <- c1\n2 v2 [v1=2] <- c1\n3 v2 [v1=3] <- c1\nend\n",
        record: b"",
    },
    Case {
        words: &["solve", "m.fzn", "l.ngd", "--choices", "0"],
        files: [("m.fzn", LEAST), NO_FILE],
        code: 5,
        out: b"=====UNKNOWN=====\n% rounds 1\n% deliveries 0\n% steps 0\n",
        err: b"",
        log: b"ngd 1\nend\n",
        record: b"",
    },
    Case {
        words: &["solve", "m.fzn", "l.ngd"],
        files: [("m.fzn", LEAST), ("l.ngd", b"what stood here")],
        code: 0,
        out: b"x = 1;\ny = 2;\n----------\n==========\n% rounds 2\n% deliveries 7\n% steps 4\n",
        err: b"",
        log: LEAST_LOG,
        record: b"",
    },
    // The record is that of the first round.
    Case {
        words: &["solve", "m.fzn", "l.ngd", "--record", "r.sch"],
        files: [("m.fzn", LEAST), NO_FILE],
        code: 0,
        out: b"x = 1;\ny = 2;\n----------\n==========\n% rounds 2\n% deliveries 7\n% steps 4\n",
        err: b"",
        log: LEAST_LOG,
        record: b"schedule 1\n0\nend\n",
    },
    Case {
        words: &["solve", "m.fzn", "l.ngd", "--trace", "--seed", "5"],
        files: [("m.fzn", LEAST), NO_FILE],
        code: 0,
        out: b"% round 1\n% 1 v1>v2 ok 1\n% round 2\n% 1 v1>v2 ok 1\n% 2 v2>v1 nogood 1\n\
% 3 v1>v2 ok 2\n% 4 v2>v1 nogood 2\n% 5 v1>v2 ok 3\n% 6 v2>v1 nogood 3\n\
x = 1;\ny = 2;\n----------\n==========\n% rounds 2\n% deliveries 7\n% steps 4\n",
        err: b"",
        log: LEAST_LOG,
        record: b"",
    },
    Case {
        words: &["solve", "m.fzn", "l.ngd"],
        files: [("m.fzn", GREATEST), NO_FILE],
        code: 0,
        out: b"x = -1;\ny = -2;\n----------\n==========\n% rounds 3\n% deliveries 14\n% steps 4\n",
        err: b"",
        log: b"ngd 1\n1 v2 [v1=-3] <- c1 c1 c1 c1 c1\n2 v2 [v1=-2] <- c1 c1 c1 c1 c1\n\
3 v2 [v1=-1] <- c1 c1 c1 c1 c1\n4 v1 [] <- n1 n2 n3\nend\n",
        record: b"",
    },
    Case {
        words: &["solve", "m.fzn", "l.ngd", "--record", "r.sch"],
        files: [("m.fzn", NONE), NO_FILE],
        code: 1,
        out: b"=====UNSATISFIABLE=====\n% rounds 1\n% deliveries 4\n% steps 3\n",
        err: b"",
        log: PAIR_LOG,
        record: b"schedule 1\n0\n0\n0\n0\nend\n",
    },
    // One round is all that an aim at a constant takes.
    Case {
        words: &["solve", "m.fzn", "l.ngd"],
        files: [("m.fzn", CONSTANT), NO_FILE],
        code: 0,
        out: b"x = 0;\ny = 1;\n----------\n==========\n% rounds 1\n% deliveries 1\n% steps 0\n",
        err: b"",
        log: b"ngd 1\nend\n",
        record: b"",
    },
    // The second round has no value left, and is refuted at its start.
    Case {
        words: &["solve", "m.fzn", "l.ngd", "--trace"],
        files: [
            ("m.fzn", b"var 5..5: x :: output_var;\nsolve maximize x;\n"),
            NO_FILE,
        ],
        code: 0,
        out: b"% round 1\n% round 2\nx = 5;\n----------\n==========\n% rounds 2\n% deliveries 0\n% steps 1\n",
        err: b"",
        log: b"ngd 1\n1 v1 [] <-\nend\n",
        record: b"",
    },
];

#[test]
fn best_values_are_found(rt: HostRuntime) {
    for case in &CASES {
        case.expect(&rt, rt.alloc());
    }
}

/// Other lines take such a model as if it asked for any solution.
#[test]
fn other_lines_look_at_no_aim(rt: HostRuntime) {
    let files = [
        ("m.fzn", LEAST),
        ("r.sch", b"schedule 1\n0\n0\nend\n".as_slice()),
    ];
    let replay = ["replay", "m.fzn", "r.sch", "l.ngd"];
    let out = b"x = 1;\ny = 2;\n----------\n% deliveries 1\n% steps 0\n% unused 1\n";
    let alloc = rt.alloc();
    expect_line(&rt, alloc, &files, &replay, (0, out, b""));
    expect_line(
        &rt,
        alloc,
        &files,
        &["bound", "m.fzn"],
        (0, b"bound 6\n", b""),
    );
}

/// A check of the log against this model with these words at its end.
#[derive(Drop)]
struct Trial {
    model: &'static [u8],
    log: &'static [u8],
    bound: &'static str,
    code: u8,
    out: &'static [u8],
    err: &'static [u8],
}

impl Trial {
    fn expect(&self, rt: &impl Abort, alloc: Global) {
        let words = ["check", "m.fzn", "l.ngd", "--better", self.bound];
        let files = [("m.fzn", self.model), ("l.ngd", self.log)];
        let told = (self.code, self.out, self.err);
        expect_line(rt, alloc, &files, &words, told);
    }
}

/// A check of the log of the least value.
fn of_least(bound: &'static str, code: u8, out: &'static [u8], err: &'static [u8]) -> Trial {
    Trial {
        model: LEAST,
        log: LEAST_LOG,
        bound,
        code,
        out,
        err,
    }
}

#[test]
fn logs_are_checked_against_better_values(rt: HostRuntime) {
    let alloc = rt.alloc();
    of_least("2", 0, b"verified\n", b"").expect(&rt, alloc);
    of_least("3", 1, b"rejected step 1\n", b"").expect(&rt, alloc);
    let least = "-9223372036854775808";
    of_least(least, 1, b"rejected step 1\n", b"").expect(&rt, alloc);
}

#[test]
fn bounds_are_integers(rt: HostRuntime) {
    for bound in ["-0", "02", "+2", "9223372036854775808"] {
        of_least(bound, 2, b"", b"abt: bad words\n").expect(&rt, rt.alloc());
    }
}

/// Models that aim at nothing, whose logs are not looked at, and a log that is none.
const REFUSED: [Trial; 3] = [
    Trial {
        model: PAIR,
        log: PAIR_LOG,
        bound: "0",
        code: 3,
        out: b"",
        err: b"abt: model: no aim\n",
    },
    Trial {
        model: CONSTANT,
        log: b"ngd 3\n",
        bound: "7",
        code: 3,
        out: b"",
        err: b"abt: model: no aim\n",
    },
    Trial {
        model: LEAST,
        log: b"ngd 3\n",
        bound: "2",
        code: 4,
        out: b"",
        err: b"abt: log: line 1\n",
    },
];

#[test]
fn checks_against_better_values_are_refused(rt: HostRuntime) {
    for trial in &REFUSED {
        trial.expect(&rt, rt.alloc());
    }
}

/// A model whose goal is refused, and what is said of it.
type Refused = (&'static [u8], &'static [u8]);

const GOALS: [Refused; 5] = [
    (
        b"var 0..1: x;\nsolve minimize z;",
        b"abt: model: undeclared at 28\n",
    ),
    (
        b"var 0..1: x;\nsolve maximize [x];",
        b"abt: model: ill-typed at 28\n",
    ),
    (
        b"var bool: x;\nsolve maximize x;",
        b"abt: model: ill-typed at 28\n",
    ),
    (
        b"var 0..1: x;\nsolve minimize true;",
        b"abt: model: ill-typed at 28\n",
    ),
    (
        b"var 0..1: x;\nsolve minimize 1..2;",
        b"abt: model: ill-typed at 28\n",
    ),
];

#[test]
fn goals_are_refused_at_their_expressions(rt: HostRuntime) {
    for (model, said) in &GOALS {
        let files = [("m.fzn", *model)];
        expect_line(&rt, rt.alloc(), &files, &["bound", "m.fzn"], (3, b"", said));
    }
}
