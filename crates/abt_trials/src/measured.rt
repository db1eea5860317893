//! The lines `measure` and `survey`.

use crate::given::{Case, LINKED, NO_FILE, PAIR};

const NINE: &[u8] = b"schedule 1\n0\n0\n0\n0\n0\n0\n0\n0\n0\nend\n";

const TWO: &[u8] = b"schedule 1\n7\n0\nend\n";

const NONE: &[u8] = b"schedule 1\nend\n";

const FALSE: &[u8] = b"var 0..1: x;\nconstraint bool_eq(true,false);\nsolve satisfy;\n";

const ALONE: &[u8] = b"var 0..1: x :: output_var;\nsolve satisfy;\n";

const EMPTY: &[u8] = b"var 1..0: x;\nvar 0..1: y;\nsolve satisfy;\n";

const CASES: [Case; 8] = [
    // A refutation, with choices to spare.
    Case {
        words: &["measure", "m.fzn", "s.sch"],
        files: [("m.fzn", PAIR), ("s.sch", NINE)],
        code: 0,
        out: b"measures 1\nend refuted\ndeliveries 4 ok 2 nogood 2 link 0\nsteps 3\nchecks 9 constraints 6 nogoods 3\n\
concurrent-checks 9 constraints 6\nlongest-chain 4\nrecorded 2\ntransit 1\nlinks-added 0\n\
v1 sent 2 0 0 got 0 2 0 checks 0 3 recorded 2 values 2\n\
v2 sent 0 2 0 got 2 0 0 checks 6 0 recorded 0 values 1\nv2 learned v1 2 of 2\nend\n",
        err: b"",
        log: b"",
        record: b"",
    },
    // A solution, for which a link was asked.
    Case {
        words: &["measure", "m.fzn", "s.sch"],
        files: [("m.fzn", LINKED), ("s.sch", NINE)],
        code: 0,
        out: b"measures 1\nend solved\ndeliveries 9 ok 6 nogood 2 link 1\nsteps 2\nchecks 12 constraints 10 nogoods 2\n\
concurrent-checks 12 constraints 10\nlongest-chain 5\nrecorded 2\ntransit 2\nlinks-added 1\n\
v1 sent 4 0 0 got 0 1 1 checks 0 1 recorded 1 values 2\n\
v2 sent 2 1 1 got 2 1 0 checks 0 1 recorded 1 values 2\n\
v3 sent 0 1 0 got 4 0 0 checks 10 0 recorded 0 values 3\nv2 learned v1 2 of 2\nv3 learned v1 2 of 2\n\
v3 learned v2 1 of 1\nend\n",
        err: b"",
        log: b"",
        record: b"",
    },
    // The choices are used up while a message is in transit.
    Case {
        words: &["measure", "m.fzn", "s.sch"],
        files: [("m.fzn", PAIR), ("s.sch", TWO)],
        code: 5,
        out: b"measures 1\nend open\ndeliveries 2 ok 1 nogood 1 link 0\nsteps 1\nchecks 4 constraints 3 nogoods 1\n\
concurrent-checks 4 constraints 3\nlongest-chain 2\nrecorded 1\ntransit 1\nlinks-added 0\n\
v1 sent 2 0 0 got 0 1 0 checks 0 1 recorded 1 values 2\n\
v2 sent 0 1 0 got 1 0 0 checks 3 0 recorded 0 values 1\nv2 learned v1 1 of 2\nend\n",
        err: b"",
        log: b"",
        record: b"",
    },
    // A constraint without variables is false, so no agent settles.
    Case {
        words: &["measure", "m.fzn", "s.sch"],
        files: [("m.fzn", FALSE), ("s.sch", NONE)],
        code: 0,
        out: b"measures 1\nend refuted\ndeliveries 0 ok 0 nogood 0 link 0\nsteps 1\nchecks 0 constraints 0 nogoods 0\n\
concurrent-checks 0 constraints 0\nlongest-chain 0\nrecorded 0\ntransit 0\nlinks-added 0\n\
v1 sent 0 0 0 got 0 0 0 checks 0 0 recorded 0 values 0\nend\n",
        err: b"",
        log: b"",
        record: b"",
    },
    // One agent, and no message.
    Case {
        words: &["measure", "m.fzn", "s.sch"],
        files: [("m.fzn", ALONE), ("s.sch", NONE)],
        code: 0,
        out: b"measures 1\nend solved\ndeliveries 0 ok 0 nogood 0 link 0\nsteps 0\nchecks 0 constraints 0 nogoods 0\n\
concurrent-checks 0 constraints 0\nlongest-chain 0\nrecorded 0\ntransit 0\nlinks-added 0\n\
v1 sent 0 0 0 got 0 0 0 checks 0 0 recorded 0 values 1\nend\n",
        err: b"",
        log: b"",
        record: b"",
    },
    // The first agent has no value, and refutes as it settles.
    Case {
        words: &["measure", "m.fzn", "s.sch"],
        files: [("m.fzn", EMPTY), ("s.sch", NONE)],
        code: 0,
        out: b"measures 1\nend refuted\ndeliveries 0 ok 0 nogood 0 link 0\nsteps 1\nchecks 0 constraints 0 nogoods 0\n\
concurrent-checks 0 constraints 0\nlongest-chain 0\nrecorded 0\ntransit 0\nlinks-added 0\n\
v1 sent 0 0 0 got 0 0 0 checks 0 0 recorded 0 values 0\n\
v2 sent 0 0 0 got 0 0 0 checks 0 0 recorded 0 values 0\nend\n",
        err: b"",
        log: b"",
        record: b"",
    },
    // Two seeds.
    Case {
        words: &["survey", "m.fzn", "2", "--from", "3"],
        files: [("m.fzn", PAIR), NO_FILE],
        code: 0,
        out: b"seed,end,deliveries,ok,nogood,link,steps,longest_chain,constraint_checks,nogood_checks,concurrent_checks,recorded,transit,links_added\n\
3,refuted,4,2,2,0,3,4,6,3,9,2,1,0\n4,refuted,4,2,2,0,3,4,6,3,9,2,1,0\n",
        err: b"",
        log: b"",
        record: b"",
    },
    // One seed, from 0 on.
    Case {
        words: &["survey", "m.fzn", "1"],
        files: [("m.fzn", LINKED), NO_FILE],
        code: 0,
        out: b"seed,end,deliveries,ok,nogood,link,steps,longest_chain,constraint_checks,nogood_checks,concurrent_checks,recorded,transit,links_added\n\
0,solved,9,6,2,1,2,5,8,2,10,2,3,1\n",
        err: b"",
        log: b"",
        record: b"",
    },
];

#[test]
fn runs_are_measured(rt: HostRuntime) {
    for case in &CASES {
        case.expect(&rt, rt.alloc());
    }
}
