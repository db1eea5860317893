//! The line `story`.

use crate::given::{File, LINKED, PAIR, STAR, left_by};

const NINE: &[u8] = b"schedule 1\n0\n0\n0\n0\n0\n0\n0\n0\n0\nend\n";

const TWO: &[u8] = b"schedule 1\n7\n0\nend\n";

const NONE: &[u8] = b"schedule 1\nend\n";

const FALSE: &[u8] = b"var 0..1: x;\nconstraint bool_eq(true,false);\nsolve satisfy;\n";

const ALONE: &[u8] = b"var 0..1: x :: output_var;\nsolve satisfy;\n";

const EMPTY: &[u8] = b"var 1..0: x;\nvar 0..1: y;\nsolve satisfy;\n";

const NOBODY: &[u8] = b"solve satisfy;\n";

/// A run whose story is told.
#[derive(Drop)]
struct Told {
    files: [File; 2],
    code: u8,
    out: &'static [u8],
    story: &'static [u8],
}

const RUNS: [Told; 7] = [
    // A refutation, with choices to spare.
    Told {
        files: [("m.fzn", PAIR), ("s.sch", NINE)],
        code: 0,
        out: b"story refuted deliveries 4\n",
        story: b"story 1\n0 v1 takes 0\n0 v1 sends v2 ok 0\n0 v2 takes 0\n1 v1>v2 ok 0\n1 v2 knows v1=0\n\
1 v2 out 0:c1 1:c2\n1 v2 makes n1\n1 v2 sends v1 nogood 1\n2 v2>v1 nogood 1\n2 v1 keeps n1\n\
2 v1 out 0:n1\n2 v1 takes 1\n2 v1 sends v2 ok 1\n3 v1>v2 ok 1\n3 v2 knows v1=1\n3 v2 out 0:c2 1:c1\n\
3 v2 makes n2\n3 v2 sends v1 nogood 2\n4 v2>v1 nogood 2\n4 v1 keeps n2\n4 v1 out 0:n1 1:n2\n\
4 v1 makes n3\nend refuted\n",
    },
    // A link is asked for, a nogood is dropped, and a value enters anew.
    Told {
        files: [("m.fzn", LINKED), ("s.sch", NINE)],
        code: 0,
        out: b"story solved deliveries 9\n",
        story: b"story 1\n0 v1 takes 0\n0 v1 sends v3 ok 0\n0 v2 takes 1\n0 v2 sends v3 ok 1\n0 v3 takes 0\n\
1 v1>v3 ok 0\n1 v3 knows v1=0\n1 v3 out 0:c1\n1 v3 takes 1\n2 v2>v3 ok 1\n2 v3 knows v2=1\n\
2 v3 out 0:c1 1:c2\n2 v3 makes n1\n2 v3 sends v2 nogood 1\n3 v3>v2 nogood 1\n3 v2 knows v1=0\n\
3 v2 keeps n1\n3 v2 out 1:n1\n3 v2 makes n2\n3 v2 sends v1 link\n3 v2 sends v1 nogood 2\n4 v2>v1 link\n\
4 v1 sends v2 ok 0\n5 v1>v2 ok 0\n6 v2>v1 nogood 2\n6 v1 keeps n2\n6 v1 out 0:n2\n6 v1 takes 1\n\
6 v1 sends v2 ok 1\n6 v1 sends v3 ok 1\n7 v1>v2 ok 1\n7 v2 knows v1=1\n7 v2 forgets n1\n7 v2 out\n\
7 v2 takes 1\n7 v2 sends v3 ok 1\n8 v1>v3 ok 1\n8 v3 knows v1=1\n8 v3 out 1:c1\n8 v3 takes 0\n\
9 v2>v3 ok 1\n9 v3 knows v2=1\nend solved\n",
    },
    // The choices are used up while a message is in transit.
    Told {
        files: [("m.fzn", PAIR), ("s.sch", TWO)],
        code: 5,
        out: b"story open deliveries 2\n",
        story: b"story 1\n0 v1 takes 0\n0 v1 sends v2 ok 0\n0 v2 takes 0\n1 v1>v2 ok 0\n1 v2 knows v1=0\n\
1 v2 out 0:c1 1:c2\n1 v2 makes n1\n1 v2 sends v1 nogood 1\n2 v2>v1 nogood 1\n2 v1 keeps n1\n\
2 v1 out 0:n1\n2 v1 takes 1\n2 v1 sends v2 ok 1\nend open\n",
    },
    // A constraint without variables is false, so no agent settles.
    Told {
        files: [("m.fzn", FALSE), ("s.sch", NONE)],
        code: 0,
        out: b"story refuted deliveries 0\n",
        story: b"story 1\n0 - makes n1\nend refuted\n",
    },
    // One agent, and no message.
    Told {
        files: [("m.fzn", ALONE), ("s.sch", NONE)],
        code: 0,
        out: b"story solved deliveries 0\n",
        story: b"story 1\n0 v1 takes 0\nend solved\n",
    },
    // The first agent has no value, and refutes as it settles.
    Told {
        files: [("m.fzn", EMPTY), ("s.sch", NONE)],
        code: 0,
        out: b"story refuted deliveries 0\n",
        story: b"story 1\n0 v1 makes n1\nend refuted\n",
    },
    // No agent, so the start has no line.
    Told {
        files: [("m.fzn", NOBODY), ("s.sch", NONE)],
        code: 0,
        out: b"story solved deliveries 0\n",
        story: b"story 1\nend solved\n",
    },
];

#[test]
fn runs_are_told(rt: HostRuntime) {
    for run in &RUNS {
        let words = ["story", "m.fzn", "s.sch", "t.txt"];
        let left = left_by(&rt, rt.alloc(), &run.files, &words, 0);
        left.expect(&rt, run.code, run.out, b"");
        left.expect_text(&rt, "t.txt", run.story);
        left.end();
    }
}

/// The second variable goes first.
const ORDER: &[u8] = b"order 1\n2\n1\n3\n4\nend\n";

const ELEVEN: &[u8] = b"schedule 1\n1\n1\n0\n0\n1\n1\n0\n0\n0\n0\n1\nend\n";

/// The story of its run under the order: agents have the model's numbers, and stand and send in the order's.
const ORDERED: &[u8] =
    b"story 1\n0 v2 takes 1\n0 v2 sends v4 ok 1\n0 v1 takes 0\n0 v1 sends v4 ok 0\n0 v3 takes 2\n0 v3 sends v4 ok 2\n\
0 v4 takes 0\n1 v1>v4 ok 0\n1 v4 knows v1=0\n1 v4 out 0:c1\n1 v4 takes 1\n2 v3>v4 ok 2\n2 v4 knows v3=2\n2 v4 out 0:c1 2:c3\n\
3 v2>v4 ok 1\n3 v4 knows v2=1\n3 v4 out 0:c1 1:c2 2:c3\n3 v4 makes n1\n3 v4 sends v3 nogood 1\n4 v4>v3 nogood 1\n\
4 v3 knows v1=0\n4 v3 knows v2=1\n4 v3 keeps n1\n4 v3 out 2:n1\n4 v3 makes n2\n4 v3 sends v2 link\n4 v3 sends v1 link\n\
4 v3 sends v1 nogood 2\n5 v3>v1 link\n5 v1 sends v3 ok 0\n6 v3>v2 link\n6 v2 sends v3 ok 1\n7 v2>v3 ok 1\n8 v1>v3 ok 0\n\
9 v3>v1 nogood 2\n9 v1 knows v2=1\n9 v1 keeps n2\n9 v1 out 0:n2\n9 v1 makes n3\n9 v1 sends v2 link\n9 v1 sends v2 nogood 3\n\
10 v1>v2 link\n10 v2 sends v1 ok 1\n11 v1>v2 nogood 3\n11 v2 keeps n3\n11 v2 out 1:n3\n11 v2 makes n4\nend refuted\n";

#[test]
fn a_run_under_an_order_is_told(rt: HostRuntime) {
    let files = [("m.fzn", STAR), ("s.sch", ELEVEN), ("o", ORDER)];
    let words = ["story", "m.fzn", "s.sch", "t.txt", "--order", "o"];
    let left = left_by(&rt, rt.alloc(), &files, &words, 0);
    left.expect(&rt, 0, b"story refuted deliveries 11\n", b"");
    left.expect_text(&rt, "t.txt", ORDERED);
    left.end();
}
