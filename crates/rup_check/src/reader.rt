//! Proofs as text.
ghost use Rattle.std.specs.Prelude.{◌≡◌, ℕ, ℤ, [], ◌∷◌, ◌++◌, ◌<◌, ◌≤◌, List, length, MatchOption, OnOk, IfOk, IfErr, IfSome, IsErrOf, Ok, Err};
ghost use Rattle.rup_check.specs.ProofText.{IsProofOf, IsFirstBadLine, IsUnlessMemory, IsCause, IsNextClause, BeginsWithClause, ProofOrBadLine};
ghost use Rattle.rup_check.specs.Reading.{after_byte, variable_at, literal_at, after_end};
ghost use Rattle.dcsp_common.specs.Reading.{Reads};

use crate::clauses::ClauseList;
use dcsp_common::{Memory, number_at};
use std::alloc::Global;

/// Why a text gives no proof.
#[derive(Clone, Copy, Debug, PartialEq, Eq)]
pub enum ProofError {
    /// The text's first bad line, counted from 1.
    Line { number: u64 },
    Memory,
}

/// The greatest number of a variable.
const VARIABLES: u64 = 4096;

/// The number of the first line that is bad whatever it says.
const CLAUSES: u64 = 1 << 32;

/// Reads a proof: one line for each clause, which has its literals in their order and then 0, with one space between
/// and without leading zeros, and is ended by one line feed.
///
/// `ProofError::Line` comes exactly where a line is not so, or would be that of clause number 2^32, and names the
/// first such line; a last piece without its line feed is one where it is not empty.
pub fn read_proof(alloc: Global, text: &[u8]) -> Result<ClauseList, ProofError>
    ensures proof { IfOk result (λ proof. IsProofOf text.now proof) }
    ensures line { (number : ℕ) → IsErrOf result (ProofError.Line number) → IsFirstBadLine text.now number }
    ensures accepts { (proof : List (List ℤ)) → IsProofOf text.now proof → IsUnlessMemory (Ok proof) result }
    ensures refuses { (number : ℕ) → IsFirstBadLine text.now number → IsUnlessMemory (Err (ProofError.Line number)) result }
{
    proof_of(alloc, text)
}

/// A law of the format: each text is that of one proof, or has one first bad line, and never both.
pub fn proofs_are_exact()
    ensures { (text : List ℕ) → ProofOrBadLine text }
{}

/// Reads the lines one after the other.
fn proof_of(alloc: Global, text: &[u8]) -> Result<ClauseList, ProofError>
    ensures proof { IfOk result (λ proof. IsProofOf text.now proof) }
    ensures cause { IfErr result (IsCause text.now) }
{
    let mut proof = ClauseList::new(alloc);
    let mut clause = Vec::new(alloc);
    let mut rest = text;
    while !rest.is_empty() {
        let number = proof.len() as u64 + 1;
        if number >= CLAUSES {
            return Err(ProofError::Line { number });
        }
        clause.clear();
        let Ok(next) = read_clause(rest, &mut clause) else {
            return Err(ProofError::Memory);
        };
        let Some(others) = next else {
            return Err(ProofError::Line { number });
        };
        if proof.push(&clause).is_err() {
            return Err(ProofError::Memory);
        }
        rest = others;
    }
    Ok(proof)
}

/// Reads the line of a clause into an empty list: what stands after it, or none where no clause's line is next.
fn read_clause<'t>(text: &'t [u8], clause: &mut Vec<i32>) -> Result<Option<&'t [u8]>, Memory>
    requires { clause.old.items ≡ [] }
    ensures { IfOk result (λ next. MatchOption next (BeginsWithClause text.now → ⊥) (λ rest. IsNextClause text.now clause.new.items rest.now)) }
{
    let mut rest = text;
    loop {
        if let Some(others) = after_end(rest) {
            return Ok(Some(others));
        }
        let Some((literal, others)) = literal_at(rest) else {
            return Ok(None);
        };
        add_literal(clause, literal)?;
        rest = others;
    }
}

/// Adds a literal at the end.
fn add_literal(clause: &mut Vec<i32>, literal: i32) -> Result<(), Memory>
    ensures { OnOk result (clause.new.items ≡ clause.old.items ++ literal ∷ []) }
{
    clause.push(literal)?;
    Ok(())
}

/// What stands after `0` and a line feed.
#[tactic(auto, unfolding(crate::specs::Reading::after_end))]
fn after_end(bytes: &[u8]) -> Option<&[u8]>
    ensures { Reads (λ x. x.now) result (after_end bytes.now) }
{
    let rest = after_byte(b'0', bytes)?;
    after_byte(b'\n', rest)
}

/// What stands after this byte.
#[tactic(auto, unfolding(crate::specs::Reading::after_byte))]
fn after_byte(byte: u8, bytes: &[u8]) -> Option<&[u8]>
    ensures reads { Reads (λ x. x.now) result (after_byte byte bytes.now) }
    ensures shorter { IfSome result (λ x. length x.now < length bytes.now) }
{
    match bytes {
        [first, rest @ ..] => { if *first == byte { Some(rest) } else { None } }
        [] => None,
    }
}

/// A literal and a space.
#[tactic(auto, unfolding(crate::specs::Reading::literal_at, crate::specs::Reading::negated, crate::specs::Reading::itself))]
fn literal_at(bytes: &[u8]) -> Option<(i32, &[u8])>
    ensures reads { Reads (λ x. (x.0, x.1.now)) result (literal_at bytes.now) }
    ensures shorter { IfSome result (λ x. length x.1.now < length bytes.now) }
{
    match bytes {
        [b'-', unsigned @ ..] => {
            let (variable, rest) = variable_at(unsigned)?;
            Some((-i32::from(variable), rest))
        }
        [_, ..] => {
            let (variable, rest) = variable_at(bytes)?;
            Some((i32::from(variable), rest))
        }
        [] => None,
    }
}

/// The number of a variable, and a space.
#[tactic(auto, unfolding(crate::specs::Reading::variable_at, crate::specs::Reading::spaced))]
fn variable_at(bytes: &[u8]) -> Option<(u16, &[u8])>
    ensures reads { Reads (λ x. (x.0, x.1.now)) result (variable_at bytes.now) }
    ensures shorter { IfSome result (λ x. length x.1.now < length bytes.now) }
    ensures small { IfSome result (λ x. x.0 ≤ 4096) }
{
    let (number, rest) = number_at(bytes)?;
    if number == 0 || number > VARIABLES {
        return None;
    }
    let others = after_byte(b' ', rest)?;
    Some((number as u16, others))
}
