//! Trials of proofs of formulas, as texts.

use rup_check::{ClauseList, ProofError, Rup, check_rup, read_proof};
use std::alloc::Global;
use std::process::Abort;

/// The clauses of all signs over two variables.
const SQUARE: &[u8] = b"1 2 0\n1 -2 0\n-1 2 0\n-1 -2 0\n";

/// The clauses of these lines.
fn clauses(rt: &impl Abort, alloc: Global, text: &[u8]) -> ClauseList {
    read_proof(alloc, text).expect(rt, "clauses")
}

/// The answer on a proof.
fn answer(rt: &impl Abort, alloc: Global, formula: ClauseList, proof: ClauseList) -> Rup {
    check_rup(alloc, &formula, &proof).expect(rt, "memory")
}

/// The answer on a proof, where formula and proof stand in lines, must be this one.
fn expect_answer(rt: &impl Abort, alloc: Global, formula: &[u8], proof: &[u8], wanted: Rup) {
    let formula = clauses(rt, alloc, formula);
    let proof = clauses(rt, alloc, proof);
    assert_eq!(rt; answer(rt, alloc, formula, proof), wanted);
}

#[test]
fn verifies(rt: HostRuntime) {
    let alloc = rt.alloc();
    expect_answer(&rt, alloc, SQUARE, b"1 0\n-1 0\n0\n", Rup::Verified);
    expect_answer(
        &rt,
        alloc,
        SQUARE,
        b"3 -3 0\n2 0\n3 0\n1 0\n0\n",
        Rup::Verified,
    );
    expect_answer(
        &rt,
        alloc,
        b"1 1 2 0\n-1 -1 0\n-2 -2 0\n",
        b"0\n",
        Rup::Verified,
    );
    expect_answer(&rt, alloc, b"0\n", b"5 0\n0\n", Rup::Verified);
}

#[test]
fn wants_the_empty_clause(rt: HostRuntime) {
    let alloc = rt.alloc();
    expect_answer(&rt, alloc, SQUARE, b"1 0\n-1 0\n", Rup::NotEmpty);
    expect_answer(&rt, alloc, b"", b"", Rup::NotEmpty);
    expect_answer(&rt, alloc, b"1 0\n", b"2 -2 0\n", Rup::NotEmpty);
}

#[test]
fn names_the_first_bad_clause(rt: HostRuntime) {
    let alloc = rt.alloc();
    expect_answer(&rt, alloc, b"", b"0\n", Rup::BadClause { number: 1 });
    expect_answer(
        &rt,
        alloc,
        b"1 2 0\n",
        b"1 0\n0\n",
        Rup::BadClause { number: 1 },
    );
    expect_answer(
        &rt,
        alloc,
        b"1 2 0\n-1 2 0\n",
        b"2 0\n1 0\n0\n",
        Rup::BadClause { number: 2 },
    );
    expect_answer(
        &rt,
        alloc,
        b"1 2 3 0\n-1 0\n-2 0\n",
        b"3 0\n-3 0\n",
        Rup::BadClause { number: 2 },
    );
    expect_answer(
        &rt,
        alloc,
        b"4096 -4096 0\n",
        b"4096 -4096 0\n4096 0\n",
        Rup::BadClause { number: 2 },
    );
}

/// The text must be so many clauses.
fn expect_clauses(rt: &impl Abort, alloc: Global, text: &[u8], clauses: usize) {
    match read_proof(alloc, text) {
        Ok(proof) => assert_eq!(rt; proof.len(), clauses),
        Err(error) => panic!(rt; "{error:?}"),
    }
}

#[test]
fn reads(rt: HostRuntime) {
    let alloc = rt.alloc();
    expect_clauses(&rt, alloc, b"", 0);
    expect_clauses(&rt, alloc, b"0\n", 1);
    expect_clauses(&rt, alloc, b"1 1 -1 0\n", 1);
    expect_clauses(&rt, alloc, b"-4096 4096 0\n0\n", 2);
}

/// The first bad line of the text must have this number.
fn expect_bad_line(rt: &impl Abort, alloc: Global, text: &[u8], number: u64) {
    match read_proof(alloc, text) {
        Ok(_) => panic!(rt; "line {number}"),
        Err(error) => assert_eq!(rt; error, ProofError::Line { number }),
    }
}

#[test]
fn names_the_first_bad_line(rt: HostRuntime) {
    let alloc = rt.alloc();
    expect_bad_line(&rt, alloc, b"01 0\n", 1);
    expect_bad_line(&rt, alloc, b"-01 0\n", 1);
    expect_bad_line(&rt, alloc, b"1 0\n-0 0\n", 2);
    expect_bad_line(&rt, alloc, b"0 0\n", 1);
    expect_bad_line(&rt, alloc, b"+1 0\n", 1);
    expect_bad_line(&rt, alloc, b"- 1 0\n", 1);
    expect_bad_line(&rt, alloc, b"4097 0\n", 1);
    expect_bad_line(&rt, alloc, b"18446744073709551617 0\n", 1);
    expect_bad_line(&rt, alloc, b"1  0\n", 1);
    expect_bad_line(&rt, alloc, b" 0\n", 1);
    expect_bad_line(&rt, alloc, b"1\t2 0\n", 1);
    expect_bad_line(&rt, alloc, b"1\n", 1);
    expect_bad_line(&rt, alloc, b"1 \n", 1);
    expect_bad_line(&rt, alloc, b"1 0 \n", 1);
    expect_bad_line(&rt, alloc, b"0\r\n", 1);
    expect_bad_line(&rt, alloc, b"\n", 1);
    expect_bad_line(&rt, alloc, b"1 0\n\n", 2);
    expect_bad_line(&rt, alloc, b"1 0", 1);
    expect_bad_line(&rt, alloc, b"1 0\n0", 2);
}

#[test]
fn grows(rt: HostRuntime) {
    let mut list = ClauseList::new(rt.alloc());
    assert_eq!(rt; list.push(&[3, -4096]), Ok(()));
    assert_eq!(rt; list.push(&[]), Ok(()));
    assert_eq!(rt; list.len(), 2);
}
