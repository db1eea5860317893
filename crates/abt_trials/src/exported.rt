//! The line `export`.

use crate::given::{Left, PAIR, PAIR_LOG, left_by, run_over};
use std::alloc::Global;
use std::process::Abort;

/// The log of the pair, in version 2.
const PAIR_LOG_2: &[u8] =
    b"ngd 2\n1 v2 [v1=0] <- c1 c2\n2 v2 [v1=1] <- c2 c1\n3 v1 [] <- n1 n2\nd 1 2\nend\n";

/// The least value of one that is above another. It is 2.
const LEAST: &[u8] =
    b"var 0..2: x;\nvar {-3,1}: y;\nconstraint int_lt(y,x);\nconstraint int_ne(y,-3);\nsolve minimize x;\n";

/// No value below 2 will do.
const LEAST_LOG: &[u8] =
    b"ngd 1\n1 v2 [v1=0] <- c2 c1\n2 v2 [v1=1] <- c2 c1\n3 v1 [] <- n1 n2\nend\n";

/// Domains with gaps, and a sum over three variables.
const SPREAD: &[u8] = b"var {5,-5,0}: a;\nvar 0..1: b;\nvar 2..2: c;\n\
constraint int_lin_eq([1,1,1],[c,a,b],9);\nconstraint int_lt(b,a);\nsolve satisfy;\n";

/// Its refutation.
const SPREAD_LOG: &[u8] = b"ngd 1
1 v2 [v1=-5] <- c2 c2
2 v2 [v1=0] <- c2 c2
3 v3 [v1=5,v2=0] <- c1
4 v3 [v1=5,v2=1] <- c1
5 v2 [v1=5] <- n3 n4
6 v1 [] <- n1 n2 n5
end
";

/// One constraint that no value satisfies, and one without variables that is false.
const FALSE: &[u8] =
    b"var {7,-2}: x;\nvar 4..4: y;\nconstraint int_ne(x,x);\nconstraint bool_eq(true,false);\nsolve satisfy;\n";

/// It is refuted twice.
const FALSE_LOG: &[u8] = b"ngd 1\n1 v1 [] <- c1 c1\n2 - [] <- c2\nend\n";

/// More atoms than formulas have, and a constraint that is false.
const LARGE: &[u8] = b"var 1..4097: x;\nconstraint bool_eq(true,false);\nsolve satisfy;\n";

/// What came of a line that exports `l.ngd`, the log of `m.fzn`, as `f.cnf` and `p.rup`.
#[derive(Drop)]
struct Case {
    model: &'static [u8],
    log: &'static [u8],
    words: &'static [&'static str],
    code: u8,
    out: &'static [u8],
    err: &'static [u8],
    cnf: Option<&'static [u8]>,
    proof: Option<&'static [u8]>,
}

impl Case {
    /// The line leaves what the case says, and `rup` verifies what it wrote.
    fn expect(&self, rt: &impl Abort, alloc: Global) {
        let left = self.left(rt, alloc);
        left.expect(rt, self.code, self.out, self.err);
        left.expect_file(rt, "f.cnf", self.cnf);
        left.expect_file(rt, "p.rup", self.proof);
        if self.code == 0 {
            verify(rt, alloc, left);
        } else {
            left.end();
        }
    }

    fn left(&self, rt: &impl Abort, alloc: Global) -> Left {
        let files = [("m.fzn", self.model), ("l.ngd", self.log)];
        left_by(rt, alloc, &files, self.words, 0)
    }
}

/// `rup` verifies what was left.
fn verify(rt: &impl Abort, alloc: Global, left: Left) {
    let words = ["rup", "f.cnf", "p.rup"];
    let checked = run_over(rt, alloc, left.into_folder(), &words);
    checked.expect(rt, 0, b"verified\n", b"");
    checked.end();
}

const PLAIN: &[&str] = &["export", "m.fzn", "l.ngd", "f.cnf", "p.rup"];

const TOLD: &[&str] = &["export", "m.fzn", "l.ngd", "f.cnf", "p.rup", "--atoms"];

const BETTER: &[&str] = &[
    "export", "m.fzn", "l.ngd", "f.cnf", "p.rup", "--better", "2", "--atoms",
];

const CASES: [Case; 14] = [
    Case {
        model: PAIR,
        log: PAIR_LOG,
        words: PLAIN,
        code: 0,
        out: b"% variables 4\n% clauses 6\n% steps 3\n",
        err: b"",
        cnf: Some(b"p cnf 4 6\n1 2 0\n3 4 0\n-1 -3 0\n-1 -4 0\n-2 -3 0\n-2 -4 0\n"),
        proof: Some(b"-1 0\n-2 0\n0\n"),
    },
    Case {
        model: PAIR,
        log: PAIR_LOG,
        words: TOLD,
        code: 0,
        out: b"% variables 4\n% clauses 6\n% steps 3\n",
        err: b"",
        cnf: Some(
            b"c v1=0 is 1\nc v1=1 is 2\nc v2=0 is 3\nc v2=1 is 4\n\
p cnf 4 6\n1 2 0\n3 4 0\n-1 -3 0\n-1 -4 0\n-2 -3 0\n-2 -4 0\n",
        ),
        proof: Some(b"-1 0\n-2 0\n0\n"),
    },
    Case {
        model: PAIR,
        log: PAIR_LOG_2,
        words: PLAIN,
        code: 0,
        out: b"% variables 4\n% clauses 6\n% steps 3\n",
        err: b"",
        cnf: Some(b"p cnf 4 6\n1 2 0\n3 4 0\n-1 -3 0\n-1 -4 0\n-2 -3 0\n-2 -4 0\n"),
        proof: Some(b"-1 0\n-2 0\n0\n"),
    },
    Case {
        model: LEAST,
        log: LEAST_LOG,
        words: BETTER,
        code: 0,
        out: b"% variables 4\n% clauses 5\n% steps 3\n",
        err: b"",
        cnf: Some(
            b"c v1=0 is 1\nc v1=1 is 2\nc v2=-3 is 3\nc v2=1 is 4\n\
p cnf 4 5\n1 2 0\n3 4 0\n-3 0\n-1 -4 0\n-2 -4 0\n",
        ),
        proof: Some(b"-1 0\n-2 0\n0\n"),
    },
    Case {
        model: LEAST,
        log: LEAST_LOG,
        words: PLAIN,
        code: 1,
        out: b"rejected step 3\n",
        err: b"",
        cnf: None,
        proof: None,
    },
    Case {
        model: FALSE,
        log: FALSE_LOG,
        words: PLAIN,
        code: 0,
        out: b"% variables 3\n% clauses 5\n% steps 2\n",
        err: b"",
        cnf: Some(b"p cnf 3 5\n1 2 0\n3 0\n-1 0\n-2 0\n0\n"),
        proof: Some(b"0\n0\n"),
    },
    Case {
        model: b"var 3..2: x;\nvar 0..1: y;\nsolve satisfy;\n",
        log: b"ngd 1\n1 v1 [] <-\nend\n",
        words: TOLD,
        code: 0,
        out: b"% variables 2\n% clauses 2\n% steps 1\n",
        err: b"",
        cnf: Some(b"c v2=0 is 1\nc v2=1 is 2\np cnf 2 2\n0\n1 2 0\n"),
        proof: Some(b"0\n"),
    },
    Case {
        model: SPREAD,
        log: SPREAD_LOG,
        words: TOLD,
        code: 0,
        out: b"% variables 6\n% clauses 9\n% steps 6\n",
        err: b"",
        cnf: Some(
            b"c v1=-5 is 1\nc v1=0 is 2\nc v1=5 is 3\nc v2=0 is 4\nc v2=1 is 5\nc v3=2 is 6\n\
p cnf 6 9\n1 2 3 0\n4 5 0\n6 0\n-1 -4 0\n-1 -5 0\n-2 -4 0\n-2 -5 0\n-3 -4 -6 0\n-3 -5 -6 0\n",
        ),
        proof: Some(b"-1 0\n-2 0\n-3 -4 0\n-3 -5 0\n-3 0\n0\n"),
    },
    Case {
        model: PAIR,
        log: b"ngd 1\n1 v2 [v1=0] <- c1 c2\nend\n",
        words: PLAIN,
        code: 1,
        out: b"rejected not empty\n",
        err: b"",
        cnf: None,
        proof: None,
    },
    Case {
        model: PAIR,
        log: b"ngd 1\n1 v2 [v1=0] <- c2 c1\nend\n",
        words: TOLD,
        code: 1,
        out: b"rejected step 1\n",
        err: b"",
        cnf: None,
        proof: None,
    },
    Case {
        model: PAIR,
        log: b"no log",
        words: BETTER,
        code: 3,
        out: b"",
        err: b"abt: model: no aim\n",
        cnf: None,
        proof: None,
    },
    Case {
        model: PAIR,
        log: b"ngd 1\n1 v2 [v1=0]<- c1 c2\nend\n",
        words: PLAIN,
        code: 4,
        out: b"",
        err: b"abt: log: line 2\n",
        cnf: None,
        proof: None,
    },
    Case {
        model: LARGE,
        log: b"ngd 1\n1 - [] <- c1\nend\n",
        words: PLAIN,
        code: 3,
        out: b"",
        err: b"abt: cnf: limit variables 4097\n",
        cnf: None,
        proof: None,
    },
    Case {
        model: LARGE,
        log: b"ngd 1\nend\n",
        words: PLAIN,
        code: 1,
        out: b"rejected not empty\n",
        err: b"",
        cnf: None,
        proof: None,
    },
];

#[test]
fn refutations_become_formulas_and_proofs(rt: HostRuntime) {
    for case in &CASES {
        case.expect(&rt, rt.alloc());
    }
}
