//! The line `check`: what it answers and refuses, and what comes of calls that fail.

use crate::given::{Left, PAIR, PAIR_LOG, expect_line, folder_failing, run_with, sink_failing};
use std::alloc::Global;
use std::process::Abort;

/// Three variables in a row of differences. The log of one case has a pair that it does not need.
const CHAIN: &[u8] =
    b"var 0..1: x;\nvar 0..0: y;\nvar 0..0: z;\nconstraint int_ne(x,y);\nconstraint int_ne(y,z);\nsolve satisfy;\n";

/// Three pigeons in two holes: an array whose element type is a range, and a constraint over it.
const HOLES: &[u8] = b"% Three pigeons in two holes.
var 1..2: X_INTRODUCED_0_;
var 1..2: X_INTRODUCED_1_;
var 1..2: X_INTRODUCED_2_;
array [1..3] of var 1..2: hole:: output_array([1..3]) = [X_INTRODUCED_0_,X_INTRODUCED_1_,X_INTRODUCED_2_];
constraint fzn_all_different_int(hole);
solve :: int_search(hole,input_order,indomain_min) satisfy;
";

/// Its refutation.
const HOLES_LOG: &[u8] = b"ngd 1
1 v3 [v1=1,v2=1] <- c4 c4
2 v3 [v1=1,v2=2] <- c4 c4
3 v2 [v1=1] <- n1 n2
4 v3 [v1=2,v2=2] <- c4 c4
5 v3 [v1=2,v2=2] <- c4 c4
6 v3 [v1=2,v2=1] <- c4 c4
7 v2 [v1=2] <- n6 n4
8 v1 [] <- n3 n7
end
";

/// Switches: Booleans, reified constraints and a sum of Booleans.
const SWITCHES: &[u8] =
    b"% Three switches, an odd number of them on: each two are alike, and the first tells whether at least 2 are on.
array [1..3] of int: X_INTRODUCED_1_ = [-1,-1,-1];
var bool: p:: output_var;
var bool: q:: output_var;
var bool: r:: output_var;
var 0..1: X_INTRODUCED_2_ ::var_is_introduced :: is_defined_var;
var bool: X_INTRODUCED_3_ ::var_is_introduced :: is_defined_var = true;
constraint array_bool_xor([p,q,r]);
constraint bool_eq_reif(p,q,X_INTRODUCED_3_);
constraint bool_xor(q,r,false);
constraint bool2int(p,X_INTRODUCED_2_):: defines_var(X_INTRODUCED_2_);
constraint bool_lin_le(X_INTRODUCED_1_,[p,q,r],-2);
constraint int_lt(X_INTRODUCED_2_,1);
solve satisfy;
";

/// Its refutation.
const SWITCHES_LOG: &[u8] = b"ngd 1
1 v3 [v1=0,v2=0] <- c2 c4
2 v3 [v1=0,v2=1] <- c4 c2
3 v5 [v1=0,v2=1] <- c1 c3
4 v2 [v1=0] <- n1 n3
5 v3 [v1=0,v2=1] <- c4 c2
6 v4 [v1=1] <- c5 c7
7 v1 [] <- n4 n6
end
";

/// Shifts: introduced names, reified constraints that define variables, and clauses.
const SHIFTS: &[u8] =
    b"% Three shifts on two days, of which no two that follow each other may be on one day, and the first and last differ.
array [1..2] of int: X_INTRODUCED_2_ = [1,-1];
var 1..2: first:: output_var;
var 1..2: second:: output_var;
var 1..2: third:: output_var;
var bool: X_INTRODUCED_0_ ::var_is_introduced :: is_defined_var;
var bool: X_INTRODUCED_1_ ::var_is_introduced :: is_defined_var;
constraint int_eq_reif(first,second,X_INTRODUCED_0_):: defines_var(X_INTRODUCED_0_);
constraint int_lin_eq_reif(X_INTRODUCED_2_,[second,third],0,X_INTRODUCED_1_):: defines_var(X_INTRODUCED_1_);
constraint bool_clause([],[X_INTRODUCED_0_]);
constraint bool_clause([],[X_INTRODUCED_1_]);
constraint int_ne(first,third);
solve satisfy;
";

/// Its refutation.
const SHIFTS_LOG: &[u8] = b"ngd 1
1 v5 [v2=1,v3=1] <- c2 c4
2 v4 [v1=1,v2=1] <- c1 c3
3 v5 [v2=2,v3=2] <- c2 c4
4 v3 [v1=1,v2=2] <- c5 n3
5 v2 [v1=1] <- n2 n4
6 v4 [v1=2,v2=2] <- c1 c3
7 v5 [v2=2,v3=2] <- c2 c4
8 v4 [v1=2,v2=2] <- c1 c3
9 v5 [v2=1,v3=1] <- c2 c4
10 v3 [v1=2,v2=1] <- n9 c5
11 v2 [v1=2] <- n10 n6
12 v1 [] <- n5 n11
end
";

/// Prices: arrays and a set of parameters, a listed domain and element constraints. Its log says nothing here.
const PRICES: &[u8] =
    b"% Two goods of a price list whose prices add up to 10, though no two of them do.
array [1..4] of int: price = [3,5,9,4];
array [1..3] of int: X_INTRODUCED_3_ = [1,1,-1];
set of int: X_INTRODUCED_4_ = {1,3};
var {1,2,4}: a:: output_var;
var 1..4: b:: output_var;
var 3..9: X_INTRODUCED_0_ ::var_is_introduced :: is_defined_var;
var 3..9: X_INTRODUCED_1_ ::var_is_introduced :: is_defined_var;
constraint array_int_element(a,price,X_INTRODUCED_0_):: defines_var(X_INTRODUCED_0_);
constraint array_int_element(b,price,X_INTRODUCED_1_):: defines_var(X_INTRODUCED_1_);
constraint set_in(b,X_INTRODUCED_4_);
constraint int_lin_eq(X_INTRODUCED_3_,[X_INTRODUCED_0_,X_INTRODUCED_1_,10],0);
solve satisfy;
";

/// Four queens of which one stands in the first two rows: it has a solution.
const QUEENS: &[u8] = b"array [1..2] of int: X_INTRODUCED_4_ = [1,-1];
var 1..4: X_INTRODUCED_0_ :: var_is_introduced;
var 1..4: X_INTRODUCED_1_ :: var_is_introduced;
var 1..4: X_INTRODUCED_2_ :: var_is_introduced;
var 1..4: X_INTRODUCED_3_ :: var_is_introduced;
array [1..4] of var int: q:: output_array([1..4]) = [X_INTRODUCED_0_,X_INTRODUCED_1_,X_INTRODUCED_2_,X_INTRODUCED_3_];
constraint int_le(X_INTRODUCED_0_,2);
constraint int_ne(X_INTRODUCED_0_,X_INTRODUCED_1_);
constraint int_lin_ne(X_INTRODUCED_4_,[X_INTRODUCED_0_,X_INTRODUCED_1_],1);
constraint int_lin_ne(X_INTRODUCED_4_,[X_INTRODUCED_0_,X_INTRODUCED_1_],-1);
constraint int_ne(X_INTRODUCED_0_,X_INTRODUCED_2_);
constraint int_lin_ne(X_INTRODUCED_4_,[X_INTRODUCED_0_,X_INTRODUCED_2_],2);
constraint int_lin_ne(X_INTRODUCED_4_,[X_INTRODUCED_0_,X_INTRODUCED_2_],-2);
constraint int_ne(X_INTRODUCED_0_,X_INTRODUCED_3_);
constraint int_lin_ne(X_INTRODUCED_4_,[X_INTRODUCED_0_,X_INTRODUCED_3_],3);
constraint int_lin_ne(X_INTRODUCED_4_,[X_INTRODUCED_0_,X_INTRODUCED_3_],-3);
constraint int_ne(X_INTRODUCED_1_,X_INTRODUCED_2_);
constraint int_lin_ne(X_INTRODUCED_4_,[X_INTRODUCED_1_,X_INTRODUCED_2_],1);
constraint int_lin_ne(X_INTRODUCED_4_,[X_INTRODUCED_1_,X_INTRODUCED_2_],-1);
constraint int_ne(X_INTRODUCED_1_,X_INTRODUCED_3_);
constraint int_lin_ne(X_INTRODUCED_4_,[X_INTRODUCED_1_,X_INTRODUCED_3_],2);
constraint int_lin_ne(X_INTRODUCED_4_,[X_INTRODUCED_1_,X_INTRODUCED_3_],-2);
constraint int_ne(X_INTRODUCED_2_,X_INTRODUCED_3_);
constraint int_lin_ne(X_INTRODUCED_4_,[X_INTRODUCED_2_,X_INTRODUCED_3_],1);
constraint int_lin_ne(X_INTRODUCED_4_,[X_INTRODUCED_2_,X_INTRODUCED_3_],-1);
solve :: int_search(q,first_fail,indomain_min,complete) satisfy;
";

/// What the check of a log says.
#[derive(Drop)]
struct Case {
    model: &'static [u8],
    log: &'static [u8],
    code: u8,
    out: &'static [u8],
    err: &'static [u8],
}

const CASES: [Case; 17] = [
    Case {
        model: PAIR,
        log: PAIR_LOG,
        code: 0,
        out: b"verified\n",
        err: b"",
    },
    Case {
        model: PAIR,
        log: b"ngd 1\n1 v2 [v1=0] <- c1 c2\n2 v2 [v1=1] <- c2 c1\nend\n",
        code: 1,
        out: b"rejected not empty\n",
        err: b"",
    },
    Case {
        model: PAIR,
        log: b"ngd 1\n1 v2 [v1=0] <- c1\n2 v2 [v1=1] <- c2 c1\n3 v1 [] <- n1 n2\nend\n",
        code: 1,
        out: b"rejected step 1\n",
        err: b"",
    },
    Case {
        model: PAIR,
        log: b"ngd 1\n1 v2 [v1=0] <- c1 n1\n2 v2 [v1=1] <- c2 c1\n3 v1 [] <- n1 n2\nend\n",
        code: 1,
        out: b"rejected step 1\n",
        err: b"",
    },
    Case {
        model: PAIR,
        log: b"ngd 1\n1 v2 [v1=0] <- c2 c1\n2 v2 [v1=1] <- c2 c1\n3 v1 [] <- n1 n2\nend\n",
        code: 1,
        out: b"rejected step 1\n",
        err: b"",
    },
    Case {
        model: PAIR,
        log: b"ngd 1\nend\n",
        code: 1,
        out: b"rejected not empty\n",
        err: b"",
    },
    Case {
        model: CHAIN,
        log: b"ngd 1\n1 v3 [v1=1,v2=0] <- c2\n2 v2 [v1=1] <- n1\n3 v2 [v1=0] <- c1\n4 v1 [] <- n3 n2\nend\n",
        code: 0,
        out: b"verified\n",
        err: b"",
    },
    Case {
        model: PAIR,
        log: b"ngd 1\n1 v2 [v1=0] <- c1 c2\n2 v2 [v1=1] <- c2 c1\n3 v1 [] <- n1 n2\n",
        code: 4,
        out: b"",
        err: b"abt: log: line 5\n",
    },
    Case {
        model: b"constraint int_le(3,2);\nsolve satisfy;\n",
        log: b"ngd 1\n1 - [] <- c1\nend\n",
        code: 0,
        out: b"verified\n",
        err: b"",
    },
    Case {
        model: HOLES,
        log: HOLES_LOG,
        code: 0,
        out: b"verified\n",
        err: b"",
    },
    Case {
        model: SWITCHES,
        log: SWITCHES_LOG,
        code: 0,
        out: b"verified\n",
        err: b"",
    },
    Case {
        model: SHIFTS,
        log: SHIFTS_LOG,
        code: 0,
        out: b"verified\n",
        err: b"",
    },
    Case {
        model: PRICES,
        log: b"ngd 1\nend\n",
        code: 1,
        out: b"rejected not empty\n",
        err: b"",
    },
    Case {
        model: QUEENS,
        log: b"ngd 1\nend\n",
        code: 1,
        out: b"rejected not empty\n",
        err: b"",
    },
    Case {
        model: b"var 0..1: x;\nvar 0..1: x;\nsolve satisfy;\n",
        log: PAIR_LOG,
        code: 3,
        out: b"",
        err: b"abt: model: duplicate at 23\n",
    },
    Case {
        model: b"var 0..65536: x;\nsolve satisfy;\n",
        log: PAIR_LOG,
        code: 3,
        out: b"",
        err: b"abt: model: limit domain-size 65537 at 0\n",
    },
    Case {
        model: b"",
        log: PAIR_LOG,
        code: 3,
        out: b"",
        err: b"abt: model: no solve item\n",
    },
];

#[test]
fn checks_answer_with_one_line(rt: HostRuntime) {
    for case in &CASES {
        let files = [("m.fzn", case.model), ("m.ngd", case.log)];
        let words = ["check", "m.fzn", "m.ngd"];
        let told = (case.code, case.out, case.err);
        expect_line(&rt, rt.alloc(), &files, &words, told);
    }
}

/// Which calls of the folder, of `out` and of `err` fail, counted from 1, and what comes of it.
#[derive(Drop)]
struct Failing {
    model: &'static [u8],
    folder: u64,
    out: u64,
    err: u64,
    code: u8,
    told: &'static [u8],
    said: &'static [u8],
}

/// With a log that verifies. There is no third call of the folder, and no second one of a sink.
const FAILING: [Failing; 8] = [
    Failing {
        model: PAIR,
        folder: 3,
        out: 2,
        err: 1,
        code: 0,
        told: b"verified\n",
        said: b"",
    },
    Failing {
        model: PAIR,
        folder: 1,
        out: 2,
        err: 2,
        code: 6,
        told: b"",
        said: b"abt: fault\n",
    },
    Failing {
        model: PAIR,
        folder: 2,
        out: 2,
        err: 2,
        code: 6,
        told: b"",
        said: b"abt: fault\n",
    },
    Failing {
        model: PAIR,
        folder: 3,
        out: 1,
        err: 2,
        code: 6,
        told: b"",
        said: b"abt: fault\n",
    },
    Failing {
        model: PAIR,
        folder: 1,
        out: 2,
        err: 1,
        code: 6,
        told: b"",
        said: b"",
    },
    Failing {
        model: b"",
        folder: 2,
        out: 1,
        err: 2,
        code: 3,
        told: b"",
        said: b"abt: model: no solve item\n",
    },
    Failing {
        model: b"",
        folder: 1,
        out: 1,
        err: 2,
        code: 6,
        told: b"",
        said: b"abt: fault\n",
    },
    Failing {
        model: b"",
        folder: 2,
        out: 1,
        err: 1,
        code: 3,
        told: b"",
        said: b"",
    },
];

/// No call failed.
fn expect_no_faults(rt: &impl Abort, left: &Left) {
    assert_eq!(rt; left.folder.faults(), 0);
    assert_eq!(rt; left.out.faults(), 0);
    assert_eq!(rt; left.err.faults(), 0);
}

impl Failing {
    /// What the check of a log leaves.
    fn left(&self, rt: &impl Abort, alloc: Global) -> Left {
        let files = [("m.fzn", self.model), ("m.ngd", PAIR_LOG)];
        let folder = folder_failing(rt, alloc, &files, self.folder, 0);
        let out = sink_failing(rt, alloc, self.out, 0);
        let err = sink_failing(rt, alloc, self.err, 0);
        run_with(rt, alloc, folder, out, err, &["check", "m.fzn", "m.ngd"])
    }

    /// The check of a log ends so, and none of its calls fails where it ends well.
    fn expect(&self, rt: &impl Abort, alloc: Global) {
        let left = self.left(rt, alloc);
        left.expect(rt, self.code, self.told, self.said);
        if left.code == 0 {
            expect_no_faults(rt, &left);
        }
        left.end();
    }
}

#[test]
fn each_call_of_a_check_fails_in_turn(rt: HostRuntime) {
    for case in &FAILING {
        case.expect(&rt, rt.alloc());
    }
}
