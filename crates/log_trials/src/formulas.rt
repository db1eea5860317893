//! Trials of formulas as texts, as problems and as clauses.

ghost use Rattle.std.specs.Prelude.{◌≤◌, IfOk, All, length};
ghost use Rattle.cnf_front.specs.Clauses.{IsClauseRule};

use cnf_front::{CnfError, cnf_of, formula_of, write_clause};
use dcsp_defs::{Nogood, Pair};
use dcsp_problem::{Problem, Which};
use rup_check::{ClauseList, Rup, check_rup, read_proof};
use std::alloc::Global;
use std::process::Abort;
use std::test::Fail;

/// The problem of a short text.
fn read(alloc: Global, text: &[u8]) -> Result<Problem, CnfError>
    ensures { IfOk result (λ problem. All IsClauseRule problem.rules) }
{
    if text.len() > 1000 {
        return Err(CnfError::Memory);
    }
    cnf_of(alloc, Vec::from_slice(alloc, text)?)
}

/// The clauses of the problem of formula.
fn clauses(rt: &impl Abort, alloc: Global, problem: &Problem) -> ClauseList
    requires { All IsClauseRule problem.now.rules }
{
    assert!(rt; problem.rules() <= 1000);
    let mut formula = ClauseList::new(alloc);
    formula_of(alloc, problem, &mut formula).expect(rt, "memory");
    formula
}

/// The answer on a proof.
fn verdict(rt: &impl Abort, alloc: Global, formula: ClauseList, proof: ClauseList) -> Rup {
    check_rup(alloc, &formula, &proof).expect(rt, "memory")
}

/// A formula, a proof, the number of variables, and the answer on the proof.
type Row = (&'static [u8], &'static [u8], u32, Rup);

const ROWS: [Row; 7] = [
    (
        b"p cnf 2 4\n1 2 0\n1 -2 0\n-1 2 0\n-1 -2 0\n",
        b"1 0\n-1 0\n0\n",
        2,
        Rup::Verified,
    ),
    (
        b"p cnf 2 1\n1 2 0\n",
        b"1 0\n0\n",
        2,
        Rup::BadClause { number: 1 },
    ),
    (b"p cnf 1 1\n0", b"0\n", 1, Rup::Verified),
    (b"p cnf 1 2\n1 1 0\n-1 -1 0\n", b"0\n", 1, Rup::Verified),
    (b"p cnf 0 0", b"", 0, Rup::NotEmpty),
    (
        b"cnf\np cnf 1 9\nc 5\n 1\r\n0\t-01 % x",
        b"0\n",
        1,
        Rup::Verified,
    ),
    (
        b"p cnf 4096 1\n4096 -4096\n",
        b"4096 0\n",
        4096,
        Rup::BadClause { number: 1 },
    ),
];

/// The formula has so many variables, and this is the answer on the proof.
fn expect_row(rt: &impl Abort, alloc: Global, row: &Row) {
    let problem = read(alloc, row.0).expect(rt, "a problem");
    assert_eq!(rt; problem.vars(), row.2);
    let formula = clauses(rt, alloc, &problem);
    end(problem);
    let proof = read_proof(alloc, row.1).expect(rt, "a proof");
    assert_eq!(rt; verdict(rt, alloc, formula, proof), row.3);
}

/// Lets the problem go.
fn end(_problem: Problem) {}

#[test]
fn reads(rt: HostRuntime) {
    for row in &ROWS {
        expect_row(&rt, rt.alloc(), row);
    }
}

/// The text is no formula, for this reason.
fn expect_refused(rt: &impl Abort, alloc: Global, text: &[u8], error: CnfError) {
    match read(alloc, text) {
        Ok(_) => panic!(rt; "{text:?}"),
        Err(found) => assert_eq!(rt; found, error),
    }
}

#[test]
fn names_the_place_of_a_syntax_error(rt: HostRuntime) {
    for (text, place) in [
        // the text's end
        (b"".as_slice(), 0),
        (b"c only\n".as_slice(), 7),
        (b"c p cnf 1 1".as_slice(), 11),
        (b"p".as_slice(), 1),
        (b"p cnf".as_slice(), 5),
        (b"p cnf 1".as_slice(), 7),
        (b"p cnf 1 ".as_slice(), 8),
        // the token that ends the text
        (b"% p cnf 1 1".as_slice(), 0),
        (b"p %".as_slice(), 2),
        (b"p cnf %".as_slice(), 6),
        (b"p cnf 1 %".as_slice(), 8),
        // `p` and `cnf`
        (b"q cnf 1 1".as_slice(), 0),
        (b"pcnf 1 1".as_slice(), 0),
        (b"p dnf 1 1".as_slice(), 2),
        (b"p\ncnf 1 1".as_slice(), 9),
        // the number of variables
        (b"p cnf -1 0".as_slice(), 6),
        (b"p cnf 1x 0".as_slice(), 6),
        (b"p cnf 18446744073709551616 0".as_slice(), 6),
        // the number of clauses
        (b"p cnf 1 x".as_slice(), 8),
        (b"p cnf 1 -1".as_slice(), 8),
        (b"p cnf 1 1%".as_slice(), 8),
        // a literal or 0
        (b"p cnf 1 1\n2 0".as_slice(), 10),
        (b"p cnf 0 1\n1".as_slice(), 10),
        (b"p cnf 1 1\n18446744073709551617".as_slice(), 10),
        (b"p cnf  1\t1\r\n-2".as_slice(), 12),
        (b"p cnf 1 1\n1 -00".as_slice(), 12),
        (b"p cnf 1 1\n-0 0".as_slice(), 10),
        (b"p cnf 1 1\n+1 0".as_slice(), 10),
        (b"p cnf 1 1\n- 1".as_slice(), 10),
        (b"p cnf 1 1\n --1".as_slice(), 11),
        (b"p cnf 1 1\n0x".as_slice(), 10),
        (b"p cnf 1 1\n1%".as_slice(), 10),
        (b"p cnf 1 1\n1 0\n1 %0".as_slice(), 16),
        (b"p cnf 1 1\n 1 c 0".as_slice(), 13),
        (b"p cnf 2 1\nc x\n3".as_slice(), 14),
    ] {
        expect_refused(&rt, rt.alloc(), text, CnfError::Syntax { at: place });
    }
}

#[test]
fn names_a_limit(rt: HostRuntime) {
    for (text, count) in [
        (b"p cnf 4097 0".as_slice(), 4097u128),
        (
            b"p cnf 18446744073709551615 0".as_slice(),
            18_446_744_073_709_551_615,
        ),
    ] {
        let which = Which::Variables;
        let error = CnfError::Limit {
            which,
            count,
            at: 6,
        };
        expect_refused(&rt, rt.alloc(), text, error);
    }
}

#[test]
fn writes(rt: HostRuntime) -> Result<(), Fail> {
    let alloc = rt.alloc();
    let pairs = [
        Pair { var: 0, value: 1 },
        Pair {
            var: 4095,
            value: 0,
        },
    ];
    let nogood = Nogood::from_pairs(alloc, &pairs).ok().ok_or("a nogood")?;
    let empty = Nogood::from_pairs(alloc, &[])
        .ok()
        .ok_or("the empty nogood")?;
    let mut text = Vec::new(alloc);
    assert_eq!(rt; write_clause(&nogood, &mut text), Ok(()));
    assert_eq!(rt; write_clause(&empty, &mut text), Ok(()));
    assert_eq!(rt; text.as_slice(), b"-1 4096 0\n0\n".as_slice());
    Ok(())
}
