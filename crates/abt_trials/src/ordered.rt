//! The line `order`, and lines under an order.

use crate::given::{LINKED, left_by};

/// Six variables: a path of three, three in one sum, and two edges more, one of them between both.
const MODEL: &[u8] =
    b"var 1..3: x1;\nvar 1..3: x2;\nvar 1..3: x3;\nvar 1..3: x4;\nvar 1..3: x5;\nvar 1..3: x6;\nconstraint int_ne(x1,x2);\nconstraint int_ne(x2,x3);\nconstraint int_lin_le([1,1,1],[x4,x5,x6],9);\nconstraint int_ne(x3,x6);\nconstraint int_ne(x5,x6);\nsolve satisfy;\n";

/// Each rule, the order that it gives, and what is put.
const CASES: [(&str, &[u8], &[u8]); 3] = [
    (
        "degree",
        b"order 1\n6\n2\n3\n4\n5\n1\nend\n",
        b"order degree variables 6\n",
    ),
    (
        "links",
        b"order 1\n6\n3\n2\n4\n5\n1\nend\n",
        b"order links variables 6\n",
    ),
    (
        "reverse",
        b"order 1\n6\n5\n4\n3\n2\n1\nend\n",
        b"order reverse variables 6\n",
    ),
];

#[test]
fn each_rule_gives_its_order(rt: HostRuntime) {
    for (rule, order, told) in CASES {
        let words = ["order", "m.fzn", rule, "o"];
        let left = left_by(&rt, rt.alloc(), &[("m.fzn", MODEL)], &words, 0);
        left.expect(&rt, 0, told, b"");
        left.expect_file(&rt, "o", Some(order));
        left.end();
    }
}

/// A model without variables has the one order without numbers.
#[test]
fn an_order_of_nothing(rt: HostRuntime) {
    let words = ["order", "m.fzn", "links", "o"];
    let left = left_by(&rt, rt.alloc(), &[("m.fzn", b"solve satisfy;")], &words, 0);
    left.expect(&rt, 0, b"order links variables 0\n", b"");
    left.expect_file(&rt, "o", Some(b"order 1\nend\n"));
    left.end();
}

/// An order of three variables: the last has the highest priority.
const LAST_FIRST: &[u8] = b"order 1\n3\n1\n2\nend\n";

/// A line under that order, and what is put.
const UNDER: [(&[&str], &[u8]); 4] = [
    (&["bound", "m.fzn", "--order", "o"], b"bound 21\n"),
    (
        &["measure", "m.fzn", "s.sch", "--order", "o"],
        b"measures 1\nend solved\ndeliveries 2 ok 2 nogood 0 link 0\nsteps 0\nchecks 3 constraints 3 nogoods 0\n\
concurrent-checks 2 constraints 2\nlongest-chain 1\nrecorded 0\ntransit 2\nlinks-added 0\n\
v1 sent 0 0 0 got 1 0 0 checks 2 0 recorded 0 values 2\n\
v2 sent 0 0 0 got 1 0 0 checks 1 0 recorded 0 values 1\n\
v3 sent 2 0 0 got 0 0 0 checks 0 0 recorded 0 values 1\nv1 learned v3 1 of 2\nv2 learned v3 1 of 2\nend\n",
    ),
    (
        &["survey", "m.fzn", "2", "--order", "o", "--from", "3"],
        b"seed,end,deliveries,ok,nogood,link,steps,longest_chain,constraint_checks,nogood_checks,concurrent_checks,recorded,transit,links_added\n\
3,solved,2,2,0,0,0,1,3,0,2,0,2,0\n4,solved,2,2,0,0,0,1,3,0,2,0,2,0\n",
    ),
    (
        &["starve", "m.fzn", "3", "1", "f.sch", "--order", "o"],
        b"starved solved deliveries 2\n",
    ),
];

#[test]
fn lines_are_under_an_order(rt: HostRuntime) {
    for (words, told) in UNDER {
        let files: [(&str, &[u8]); 3] = [
            ("m.fzn", LINKED),
            ("o", LAST_FIRST),
            ("s.sch", b"schedule 1\n0\n0\n0\nend\n"),
        ];
        let left = left_by(&rt, rt.alloc(), &files, words, 0);
        left.expect(&rt, 0, told, b"");
        if words[0] == "starve" {
            left.expect_file(&rt, "f.sch", Some(b"schedule 1\n1\n0\nend\n"));
        }
        left.end();
    }
}

/// The order is refused before the schedule is read, and after the model.
#[test]
fn a_bad_order_is_refused(rt: HostRuntime) {
    let words = ["measure", "m.fzn", "s.sch", "--order", "o"];
    let files: [(&str, &[u8]); 3] = [
        ("m.fzn", LINKED),
        ("o", b"order 1\n3\n3\n2\nend\n"),
        ("s.sch", b"no schedule"),
    ];
    let left = left_by(&rt, rt.alloc(), &files, &words, 0);
    left.expect(&rt, 4, b"", b"abt: order: line 3\n");
    left.end();
}
