//! Rows of the table, worked out by hand from its words.

use dcsp_meaning::{ConstraintKind, Ground, holds, shape_ok};
use std::process::Abort;

/// The values of a constraint's arguments.
#[derive(Drop)]
struct Arguments<'a> {
    scalars: &'a [i64],
    first: &'a [i64],
    second: &'a [i64],
    members: &'a [i64],
}

impl Ground for Arguments<'_> {
    ghost use Rattle.std.specs.List.{list_any};
    ghost use Rattle.std.specs.Ordering.{int_eq};

    ghost scalar_values = { λ a. a.scalars.now };

    ghost first_values = { λ a. a.first.now };

    ghost second_values = { λ a. a.second.now };

    ghost is_member = { λ a value. list_any (λ x. int_eq x value) a.members.now };

    fn scalars(&self) -> usize {
        self.scalars.len()
    }

    fn scalar(&self, place: usize) -> i64 {
        self.scalars[place]
    }

    fn first_len(&self) -> usize {
        self.first.len()
    }

    fn first(&self, place: usize) -> i64 {
        self.first[place]
    }

    fn second_len(&self) -> usize {
        self.second.len()
    }

    fn second(&self, place: usize) -> i64 {
        self.second[place]
    }

    fn member(&self, value: i64) -> bool {
        self.members.contains(&value)
    }
}

/// Whether the constraint holds, its set being 1 and 2; `None` where it does not take so many arguments.
fn truth(kind: ConstraintKind, scalars: &[i64], first: &[i64], second: &[i64]) -> Option<bool> {
    if !shape_ok(kind, scalars.len(), first.len(), second.len()) {
        return None;
    }
    let arguments = Arguments {
        scalars,
        first,
        second,
        members: &[1, 2],
    };
    Some(holds(kind, &arguments))
}

/// A constraint without lists, the values of its arguments, and whether it holds.
type Plain = (ConstraintKind, &'static [i64], bool);

fn expect_truths(rt: &impl Abort, rows: &[Plain]) {
    for (kind, scalars, held) in rows {
        assert!(rt; truth(*kind, scalars, &[], &[]) == Some(*held));
    }
}

const COMPARISONS_AND_SETS: &[Plain] = &[
    (ConstraintKind::IntEq, &[3, 3], true),
    (ConstraintKind::IntEq, &[3, -3], false),
    (ConstraintKind::IntEqReif, &[3, 3, 1], true),
    (ConstraintKind::IntEqReif, &[3, 3, 0], false),
    (ConstraintKind::IntNe, &[3, -3], true),
    (ConstraintKind::IntNe, &[3, 3], false),
    (ConstraintKind::IntNeReif, &[3, -3, 1], true),
    (ConstraintKind::IntNeReif, &[3, 3, 1], false),
    (ConstraintKind::IntLe, &[-4, -4], true),
    (ConstraintKind::IntLe, &[5, 4], false),
    (ConstraintKind::IntLeReif, &[5, 4, 0], true),
    (ConstraintKind::IntLeReif, &[5, 4, 1], false),
    (ConstraintKind::IntLt, &[-5, -4], true),
    (ConstraintKind::IntLt, &[4, 4], false),
    (ConstraintKind::IntLtReif, &[4, 4, 0], true),
    (ConstraintKind::IntLtReif, &[1, 2, 0], false),
    (ConstraintKind::SetIn, &[2], true),
    (ConstraintKind::SetIn, &[3], false),
    (ConstraintKind::SetInReif, &[3, 0], true),
    (ConstraintKind::SetInReif, &[2, 0], false),
];

#[test]
fn comparisons_and_sets(rt: HostRuntime) {
    expect_truths(&rt, COMPARISONS_AND_SETS);
}

const MOST: i64 = i64::MAX;

const LEAST: i64 = i64::MIN;

const ARITHMETIC: &[Plain] = &[
    (ConstraintKind::IntPlus, &[2, -5, -3], true),
    (ConstraintKind::IntPlus, &[2, 5, 8], false),
    (ConstraintKind::IntPlus, &[LEAST, MOST, -1], true),
    (ConstraintKind::IntPlus, &[MOST, MOST, -2], false),
    (ConstraintKind::IntTimes, &[-3, 4, -12], true),
    (ConstraintKind::IntTimes, &[3, 4, 7], false),
    (
        ConstraintKind::IntTimes,
        &[MOST, -1, -9223372036854775807],
        true,
    ),
    (ConstraintKind::IntTimes, &[LEAST, -1, LEAST], false),
    (ConstraintKind::IntMin, &[3, -7, -7], true),
    (ConstraintKind::IntMin, &[LEAST, MOST, MOST], false),
    (ConstraintKind::IntMax, &[LEAST, MOST, MOST], true),
    (ConstraintKind::IntMax, &[3, -7, -7], false),
    (ConstraintKind::IntDiv, &[-7, 2, -3], true),
    (ConstraintKind::IntDiv, &[-7, 2, -4], false),
    (ConstraintKind::IntDiv, &[1, 0, 0], false),
    (ConstraintKind::IntDiv, &[LEAST, 1, LEAST], true),
    (ConstraintKind::IntDiv, &[LEAST, -1, MOST], false),
    (ConstraintKind::IntDiv, &[LEAST, -1, LEAST], false),
    (ConstraintKind::IntMod, &[-7, 2, -1], true),
    (ConstraintKind::IntMod, &[7, -2, 1], true),
    (ConstraintKind::IntMod, &[7, 0, 7], false),
    (ConstraintKind::IntMod, &[LEAST, -1, 0], true),
    (ConstraintKind::IntMod, &[LEAST, MOST, -1], true),
];

#[test]
fn arithmetic(rt: HostRuntime) {
    expect_truths(&rt, ARITHMETIC);
}

const ABSOLUTE_VALUES: &[Plain] = &[
    (ConstraintKind::IntAbs, &[-7, 7], true),
    (ConstraintKind::IntAbs, &[-7, -7], false),
    (ConstraintKind::IntAbs, &[MOST, MOST], true),
    (ConstraintKind::IntAbs, &[LEAST, LEAST], false),
];

#[test]
fn absolute_values(rt: HostRuntime) {
    expect_truths(&rt, ABSOLUTE_VALUES);
}

const BOOLEANS: &[Plain] = &[
    (ConstraintKind::BoolEq, &[1, 1], true),
    (ConstraintKind::BoolEq, &[0, 1], false),
    (ConstraintKind::BoolEqReif, &[0, 1, 0], true),
    (ConstraintKind::BoolEqReif, &[0, 1, 1], false),
    (ConstraintKind::BoolLe, &[0, 0], true),
    (ConstraintKind::BoolLe, &[1, 0], false),
    (ConstraintKind::BoolLeReif, &[1, 0, 0], true),
    (ConstraintKind::BoolLeReif, &[0, 1, 0], false),
    (ConstraintKind::BoolLt, &[0, 1], true),
    (ConstraintKind::BoolLt, &[1, 1], false),
    (ConstraintKind::BoolLtReif, &[0, 0, 0], true),
    (ConstraintKind::BoolLtReif, &[0, 1, 0], false),
    (ConstraintKind::BoolNot, &[0, 1], true),
    (ConstraintKind::BoolNot, &[1, 1], false),
    (ConstraintKind::BoolAnd, &[1, 1, 1], true),
    (ConstraintKind::BoolAnd, &[1, 0, 1], false),
    (ConstraintKind::BoolOr, &[0, 1, 1], true),
    (ConstraintKind::BoolOr, &[0, 0, 1], false),
    (ConstraintKind::BoolXor, &[1, 0, 1], true),
    (ConstraintKind::BoolXor, &[1, 1, 1], false),
    (ConstraintKind::BoolXor, &[1, 0], true),
    (ConstraintKind::BoolXor, &[0, 0], false),
    (ConstraintKind::Bool2int, &[1, 1], true),
    (ConstraintKind::Bool2int, &[0, 1], false),
];

#[test]
fn booleans(rt: HostRuntime) {
    expect_truths(&rt, BOOLEANS);
}

/// A constraint, the values of its arguments and of both lists, and whether it holds.
type Listed = (
    ConstraintKind,
    &'static [i64],
    &'static [i64],
    &'static [i64],
    bool,
);

const LISTS: &[Listed] = &[
    (ConstraintKind::BoolClause, &[], &[0], &[0], true),
    (ConstraintKind::BoolClause, &[], &[0], &[1], false),
    (ConstraintKind::BoolClause, &[], &[], &[], false),
    (ConstraintKind::BoolClauseReif, &[0], &[0], &[1], true),
    (ConstraintKind::BoolClauseReif, &[0], &[0, 1], &[1], false),
    (ConstraintKind::ArrayBoolAnd, &[1], &[], &[], true),
    (ConstraintKind::ArrayBoolAnd, &[0], &[1, 1], &[], false),
    (ConstraintKind::ArrayBoolOr, &[0], &[], &[], true),
    (ConstraintKind::ArrayBoolOr, &[1], &[0, 0], &[], false),
    (ConstraintKind::ArrayBoolXor, &[], &[1, 0], &[], true),
    (ConstraintKind::ArrayBoolXor, &[], &[], &[], false),
    (ConstraintKind::ArrayIntElement, &[1, 5], &[5], &[], true),
    (ConstraintKind::ArrayIntElement, &[0, 5], &[5], &[], false),
    (
        ConstraintKind::ArrayVarIntElement,
        &[2, 7],
        &[5, 7],
        &[],
        true,
    ),
    (
        ConstraintKind::ArrayVarIntElement,
        &[3, 7],
        &[5, 7],
        &[],
        false,
    ),
    (
        ConstraintKind::ArrayBoolElement,
        &[2, 0],
        &[1, 0],
        &[],
        true,
    ),
    (
        ConstraintKind::ArrayBoolElement,
        &[1, 0],
        &[1, 0],
        &[],
        false,
    ),
    (
        ConstraintKind::ArrayVarBoolElement,
        &[1, 1],
        &[1, 0],
        &[],
        true,
    ),
    (
        ConstraintKind::ArrayVarBoolElement,
        &[-1, 1],
        &[1],
        &[],
        false,
    ),
    (ConstraintKind::FznAllDifferentInt, &[], &[], &[], true),
    (
        ConstraintKind::FznAllDifferentInt,
        &[],
        &[3, 1, 2],
        &[],
        true,
    ),
    (
        ConstraintKind::FznAllDifferentInt,
        &[],
        &[3, 1, 3],
        &[],
        false,
    ),
];

/// The last row of a table fits, a row fits from its second entry on, a column fits; two equal rows; no row; a row of one.
const TABLES: &[Listed] = &[
    (
        ConstraintKind::FznTableInt,
        &[],
        &[3, 1],
        &[1, 2, 2, 3, 3, 1],
        true,
    ),
    (
        ConstraintKind::FznTableInt,
        &[],
        &[2, 2],
        &[1, 2, 2, 3, 3, 1],
        false,
    ),
    (
        ConstraintKind::FznTableInt,
        &[],
        &[1, 3],
        &[1, 2, 3, 1],
        false,
    ),
    (
        ConstraintKind::FznTableInt,
        &[],
        &[1, 2],
        &[1, 2, 1, 2],
        true,
    ),
    (ConstraintKind::FznTableInt, &[], &[1, 2], &[], false),
    (ConstraintKind::FznTableInt, &[], &[5], &[1, 5], true),
    (ConstraintKind::FznTableIntReif, &[0], &[1, 2], &[], true),
    (
        ConstraintKind::FznTableIntReif,
        &[1],
        &[2, 1],
        &[1, 2],
        false,
    ),
    (
        ConstraintKind::FznTableIntReif,
        &[1],
        &[1, 2],
        &[0, 0, 1, 2],
        true,
    ),
    (
        ConstraintKind::FznTableBool,
        &[],
        &[0, 1],
        &[1, 0, 0, 1],
        true,
    ),
    (
        ConstraintKind::FznTableBool,
        &[],
        &[1, 1],
        &[1, 0, 0, 1],
        false,
    ),
    (ConstraintKind::FznTableBoolReif, &[0], &[1], &[1], false),
    (ConstraintKind::FznTableBoolReif, &[1], &[0], &[1, 0], true),
];

#[test]
fn lists(rt: HostRuntime) {
    for (kind, scalars, first, second, held) in LISTS {
        assert!(rt; truth(*kind, scalars, first, second) == Some(*held));
    }
    for (kind, scalars, first, second, held) in TABLES {
        assert!(rt; truth(*kind, scalars, first, second) == Some(*held));
    }
}

#[test]
fn names_and_shapes(rt: HostRuntime) {
    assert_eq!(rt;
        ConstraintKind::from_name(b"bool2int"),
        Some(ConstraintKind::Bool2int)
    );
    assert_eq!(rt;
        ConstraintKind::from_name(b"set_in_reif"),
        Some(ConstraintKind::SetInReif)
    );
    assert_eq!(rt; ConstraintKind::from_name(b"int_lin_eq"), None);
    assert_eq!(rt;
        ConstraintKind::ArrayVarIntElement.name(),
        b"array_var_int_element".as_slice()
    );
    assert!(rt; shape_ok(ConstraintKind::BoolClauseReif, 1, 2, 3));
    assert!(rt; !shape_ok(ConstraintKind::BoolClauseReif, 0, 2, 3));
    assert!(rt; !shape_ok(ConstraintKind::BoolXor, 4, 0, 0));
    assert!(rt; shape_ok(ConstraintKind::FznTableBoolReif, 1, 3, 6));
    assert!(rt; !shape_ok(ConstraintKind::FznTableInt, 0, 3, 7));
    assert!(rt; !shape_ok(ConstraintKind::FznTableInt, 0, 0, 0));
}
