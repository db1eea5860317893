//! Bounds and generated models, over a folder in memory.

use crate::given::Looked;
use abt_input::CommandError;
use dcsp_gen::{pigeons, queens};
use dcsp_outside::{MemoryFolder, MemorySink};
use dcsp_script::{Outside, Status};
use line_model::{Bound, run_bound, run_colouring, run_queens};
use std::alloc::Global;
use std::process::Abort;
use std::test::Fail;

/// Two variables that differ and are equal.
const PAIR: &[u8] =
    b"var 0..1: x;\nvar 0..1: y;\nconstraint int_ne(x,y);\nconstraint int_eq(x,y);\nsolve satisfy;\n";

/// Three variables, of which the last differs from the others.
const CHAIN: &[u8] =
    b"var 0..1: x;\nvar 1..1: y;\nvar 0..1: z;\nconstraint int_ne(x,z);\nconstraint int_ne(y,z);\nsolve satisfy;\n";

/// A model, which call of the folder and of `out` fails, and what comes of telling its bound.
#[derive(Drop)]
struct Case {
    model: &'static [u8],
    folder: u64,
    out: u64,
    came: Result<Status, CommandError>,
    told: &'static [u8],
}

const CASES: [Case; 5] = [
    Case {
        model: PAIR,
        folder: 9,
        out: 9,
        came: Ok(Status::Good),
        told: b"bound 4\n",
    },
    Case {
        model: CHAIN,
        folder: 9,
        out: 9,
        came: Ok(Status::Good),
        told: b"bound 15\n",
    },
    Case {
        model: b"solve satisfy;",
        folder: 9,
        out: 9,
        came: Ok(Status::Good),
        told: b"bound 0\n",
    },
    Case {
        model: PAIR,
        folder: 1,
        out: 9,
        came: Err(CommandError::Fault),
        told: b"",
    },
    Case {
        model: PAIR,
        folder: 9,
        out: 1,
        came: Err(CommandError::Fault),
        told: b"",
    },
];

/// What comes of telling a bound.
fn bound(
    alloc: Global,
    outside: &mut Outside<MemoryFolder, MemorySink>,
) -> Result<Status, CommandError> {
    let line = Bound {
        model: "m.fzn",
        order_file: None,
    };
    run_bound(alloc, outside, line)
}

/// Telling the bound of this model comes to this, where these calls of the folder and of `out` fail.
fn expect_bound(
    rt: &impl Abort,
    alloc: Global,
    model: &[u8],
    failing: (u64, u64),
    came: Result<Status, CommandError>,
    told: &[u8],
) {
    let mut outside = Looked::with_file(rt, alloc, ("m.fzn", model), failing);
    assert!(rt; bound(alloc, &mut outside.at) == came);
    outside.expect_told(rt, told);
    outside.end();
}

#[test]
fn tells_bounds(rt: HostRuntime) {
    for case in &CASES {
        let failing = (case.folder, case.out);
        expect_bound(&rt, rt.alloc(), case.model, failing, case.came, case.told);
    }
}

#[test]
fn tells_bounds_of_generated_models(rt: HostRuntime) -> Result<(), Fail> {
    let alloc = rt.alloc();
    let good = Ok(Status::Good);
    let queens = queens(alloc, 6)?;
    expect_bound(&rt, alloc, &queens, (0, 0), good, b"bound 39204\n");
    let pigeons = pigeons(alloc, 5)?;
    expect_bound(&rt, alloc, &pigeons, (0, 0), good, b"bound 1552\n");
    Ok(())
}

/// The stream holds this.
fn expect_put(rt: &impl Abort, out: MemorySink, text: &str) {
    assert_eq!(rt; out.bytes(), text.as_bytes());
}

#[test]
fn prints_generated_models(rt: HostRuntime) {
    let mut out = MemorySink::new(rt.alloc());
    assert!(rt; run_queens(rt.alloc(), 1, &mut out) == Ok(Status::Good));
    assert!(rt; run_colouring(rt.alloc(), 1, 3, 5, &mut out) == Ok(Status::Good));
    let text =
        "var 1..1: q1;\narray [1..1] of var int: q :: output_array([1..1]) = [q1];\nsolve satisfy;\nvar 1..3: c1;\narray [1..1] of var int: c :: output_array([1..1]) = [c1];\nsolve satisfy;\n";
    expect_put(&rt, out, text);
}
