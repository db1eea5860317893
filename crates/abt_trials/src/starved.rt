//! The line `starve`.

use crate::given::{PAIR, left_by};

/// A link of a variable with itself is never used.
#[test]
fn starves_nothing(rt: HostRuntime) {
    let words = ["starve", "m.fzn", "2", "2", "s.sch"];
    let left = left_by(&rt, rt.alloc(), &[("m.fzn", PAIR)], &words, 0);
    left.expect(&rt, 0, b"starved refuted deliveries 4\n", b"");
    let choices = b"schedule 1\n0\n0\n0\n0\nend\n";
    left.expect_file(&rt, "s.sch", Some(choices));
    left.end();
}

/// The third call of the folder appends the choices, after the model is read and the file created.
#[test]
fn the_file_stands_before_the_line(rt: HostRuntime) {
    let words = ["starve", "m.fzn", "1", "2", "s.sch"];
    let left = left_by(&rt, rt.alloc(), &[("m.fzn", PAIR)], &words, 3);
    left.expect(&rt, 6, b"", b"abt: fault\n");
    left.expect_file(&rt, "s.sch", Some(b""));
    left.end();
}
