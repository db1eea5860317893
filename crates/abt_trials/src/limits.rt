//! Each limit is met at its number, and refused one beyond.

use crate::given::{Left, PAIR, expect_line, folder_of, left_by, run_over};
use dcsp_outside::MemoryFolder;
use itoa::Buffer;
use std::alloc::Global;
use std::process::Abort;

const SATISFY: &[u8] = b"solve satisfy;\n";

/// The first two variables differ from the third, which has one value.
const STARVED: &[u8] =
    b"var 0..1: x :: output_var;\nvar 0..1: y :: output_var;\nvar 0..0: z :: output_var;\n\
constraint int_ne(x,z);\nconstraint int_ne(y,z);\nsolve satisfy;\n";

/// Adds the line so many times.
fn add_many(rt: &impl Abort, alloc: Global, text: &mut Vec<u8>, line: &[u8], count: u32) {
    let mut block = Vec::new(alloc);
    for _ in 0..1000 {
        block.extend_from_slice(line).expect(rt, "memory");
    }
    for _ in 0..count / 1000 {
        text.extend_from_slice(&block).expect(rt, "memory");
    }
    for _ in 0..count % 1000 {
        text.extend_from_slice(line).expect(rt, "memory");
    }
}

/// The lines of variables `x1` to `xN`, which begin so.
fn variables(rt: &impl Abort, alloc: Global, head: &[u8], count: u32) -> Vec<u8> {
    let mut text = Vec::new(alloc);
    let mut digits = Buffer::new();
    for number in 0..count {
        text.extend_from_slice(head).expect(rt, "memory");
        text.extend_from_slice(digits.format(number.wrapping_add(1)).as_bytes())
            .expect(rt, "memory");
        text.extend_from_slice(b";\n").expect(rt, "memory");
    }
    text
}

/// The line of an array of so many zeros.
fn zeros(rt: &impl Abort, alloc: Global, head: &[u8], count: u32) -> Vec<u8> {
    let mut text = Vec::from_slice(alloc, head).expect(rt, "memory");
    add_many(rt, alloc, &mut text, b"0,", count.saturating_sub(1));
    text.extend_from_slice(b"0];\n").expect(rt, "memory");
    text
}

/// The line ended with this number, and said this.
fn expect_said(rt: &impl Abort, left: Left, code: u8, said: &[u8]) {
    assert_eq!(rt; left.code, code);
    assert_eq!(rt; left.err.bytes(), said);
}

/// A model with this text and this last part must be answered so by `bound`.
fn expect(rt: &impl Abort, alloc: Global, text: &[u8], last: &[u8], code: u8, said: &[u8]) {
    let mut model = Vec::from_slice(alloc, text).expect(rt, "memory");
    model.extend_from_slice(last).expect(rt, "memory");
    let mut folder = MemoryFolder::new(alloc);
    folder.place("m.fzn", &model).expect(rt, "memory");
    drop(model);
    let left = run_over(rt, alloc, folder, &["bound", "m.fzn"]);
    expect_said(rt, left, code, said);
}

#[test]
fn variables_and_values(rt: HostRuntime) {
    let alloc = rt.alloc();
    let many = variables(&rt, alloc, b"var 0..0: x", 4096);
    expect(&rt, alloc, &many, SATISFY, 0, b"");
    let said = b"abt: model: limit variables 4097 at 68535\n";
    expect(
        &rt,
        alloc,
        &many,
        b"var 0..0: x4097;\nsolve satisfy;\n",
        3,
        said,
    );
    let wide = variables(&rt, alloc, b"var 0..65535: x", 16);
    expect(&rt, alloc, &wide, SATISFY, 0, b"");
    let said = b"abt: model: limit domain-values 1048577 at 305\n";
    expect(
        &rt,
        alloc,
        &wide,
        b"var 0..0: x17;\nsolve satisfy;\n",
        3,
        said,
    );
}

#[test]
fn rules_terms_and_elements(rt: HostRuntime) {
    let alloc = rt.alloc();
    let mut rules = Vec::new(alloc);
    add_many(
        &rt,
        alloc,
        &mut rules,
        b"constraint int_le(0,0);\n",
        262_144,
    );
    expect(&rt, alloc, &rules, SATISFY, 0, b"");
    let one_more = b"constraint int_le(0,0);\nsolve satisfy;\n";
    let said = b"abt: model: limit rules 262145 at 6291467\n";
    expect(&rt, alloc, &rules, one_more, 3, said);
    let mut terms = zeros(&rt, alloc, b"array [1..65536] of int: a = [", 65_536);
    let all = b"constraint fzn_all_different_int(a);\n";
    add_many(&rt, alloc, &mut terms, all, 16);
    expect(&rt, alloc, &terms, SATISFY, 0, b"");
    let said = b"abt: model: limit terms 1048578 at 131707\n";
    expect(&rt, alloc, &terms, one_more, 3, said);
    let elements = zeros(&rt, alloc, b"array [1..65537] of int: a = [", 65_537);
    let said = b"abt: model: limit elements 65537 at 25\n";
    expect(&rt, alloc, &elements, SATISFY, 3, said);
}

/// A model with this text must be answered so by the check of an empty log.
fn expect_checked(rt: &impl Abort, alloc: Global, text: &[u8], code: u8, said: &[u8]) {
    let mut folder = MemoryFolder::new(alloc);
    folder.place("m.fzn", text).expect(rt, "memory");
    folder.place("m.ngd", b"ngd 1\nend\n").expect(rt, "memory");
    let left = run_over(rt, alloc, folder, &["check", "m.fzn", "m.ngd"]);
    expect_said(rt, left, code, said);
}

#[test]
fn lengths_of_models(rt: HostRuntime) {
    let alloc = rt.alloc();
    let mut model = Vec::from_slice(alloc, b"solve satisfy;").expect(&rt, "memory");
    add_many(&rt, alloc, &mut model, b" ", 16_777_202);
    expect(&rt, alloc, &model, b"", 0, b"");
    expect_checked(&rt, alloc, &model, 1, b"");
    model.push(b' ').expect(&rt, "memory");
    let said = b"abt: model: too long\n";
    expect(&rt, alloc, &model, b"", 3, said);
    expect_checked(&rt, alloc, &model, 3, said);
}

/// What a replay of the choice 10 and of so many choices 0 leaves.
fn replayed(rt: &impl Abort, alloc: Global, zeros: u32) -> Left {
    let mut schedule = Vec::from_slice(alloc, b"schedule 1\n10\n").expect(rt, "memory");
    add_many(rt, alloc, &mut schedule, b"0\n", zeros);
    schedule.extend_from_slice(b"end\n").expect(rt, "memory");
    let mut folder = folder_of(rt, alloc, &[("m.fzn", PAIR)]);
    folder.place("s.sch", &schedule).expect(rt, "memory");
    drop(schedule);
    run_over(rt, alloc, folder, &["replay", "m.fzn", "s.sch", "l.ngd"])
}

/// The line ended with this number, and what it put ends so.
fn expect_end(rt: &impl Abort, left: Left, code: u8, end: &[u8]) {
    assert_eq!(rt; left.code, code);
    assert!(rt; left.out.bytes().ends_with(end));
}

/// The longest schedule has 67,108,864 bytes.
#[test]
fn lengths_of_schedules(rt: HostRuntime) {
    let alloc = rt.alloc();
    let left = replayed(&rt, alloc, 33_554_423);
    expect_end(&rt, left, 1, b"% unused 33554420\n");
    let left = replayed(&rt, alloc, 33_554_424);
    expect_said(&rt, left, 4, b"abt: schedule: too long\n");
}

/// A run meets its bound.
#[test]
fn a_run_at_its_bound(rt: HostRuntime) {
    let alloc = rt.alloc();
    let model =
        b"var 0..99: x;\nvar 0..99: y;\nconstraint int_ne(x,y);\nconstraint int_eq(x,y);\nsolve satisfy;\n";
    let files = [("m.fzn", model.as_slice())];
    let said = b"=====UNSATISFIABLE=====\n% deliveries 200\n% steps 101\n";
    expect_line(
        &rt,
        alloc,
        &files,
        &["solve", "m.fzn", "l.ngd"],
        (1, said, b""),
    );
    expect_line(
        &rt,
        alloc,
        &files,
        &["bound", "m.fzn"],
        (0, b"bound 200\n", b""),
    );
}

/// A run starves a link.
#[test]
fn a_run_that_starves(rt: HostRuntime) {
    let words = ["starve", "m.fzn", "1", "3", "s.sch"];
    let left = left_by(&rt, rt.alloc(), &[("m.fzn", STARVED)], &words, 0);
    left.expect(&rt, 0, b"starved solved deliveries 6\n", b"");
    let choices = b"schedule 1\n1\n1\n1\n0\n0\n0\nend\n";
    left.expect_file(&rt, "s.sch", Some(choices));
    left.end();
}
