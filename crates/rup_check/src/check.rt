//! The check of a proof.
ghost use Rattle.rup_check.specs.Kept.{IsReady};
ghost use Rattle.std.specs.Prelude.{◌≡◌, ◌<◌, ◌+◌, ◌-◌, ◌^◌, [], ◌++◌, length, not, OnOk, IfOk, IsTrue, ◌↔◌};
ghost use Rattle.rup_check.specs.Propagation.{EndsEmpty};
ghost use Rattle.rup_check.specs.Assignments.{flipped};
ghost use Rattle.rup_check.specs.Verdicts.{FirstBad, IsVerdict};
ghost use Rattle.std.specs.Prelude.{neg_ℤ};
ghost use Rattle.rup_check.specs.Literals.{IsUnsatisfiable};
ghost use Rattle.rup_check.specs.declared.check.Rup.TheVariants.{Verified};

use crate::assignment::Assignment;
use crate::clauses::ClauseList;
use crate::places::{Known, PlaceList};
use crate::propagation::{add_clause, add_found, has_property};
use crate::watches::Watches;
use dcsp_common::Memory;
use std::alloc::Global;

/// The answer on a proof.
#[derive(Clone, Copy, Debug, PartialEq, Eq)]
pub enum Rup {
    /// Each clause has the property, and the last is empty.
    Verified,
    /// The first clause without the property, counted from 1.
    BadClause { number: u64 },
    /// Each clause has the property, and there is none or the last is not empty.
    NotEmpty,
}

/// Watches the formula's clauses.
fn add_formula(
    alloc: Global,
    formula: &PlaceList,
    proof: &PlaceList,
    watches: &mut Watches,
    assignment: &mut Assignment,
) -> Result<(), Memory>
    requires fits { length (formula.now ++ proof.now) < 2 ^ 64 }
    requires ready { IsReady [] watches.old assignment.old }
    ensures { OnOk result (IsReady formula.now watches.new assignment.new) }
{
    for count in 0..formula.len() {
        let known = Known {
            formula,
            proof,
            count,
        };
        add_clause(alloc, &known, watches, assignment)?;
    }
    Ok(())
}

/// The first clause of the proof without the property.
fn first_bad(
    alloc: Global,
    formula: &PlaceList,
    proof: &PlaceList,
    watches: &mut Watches,
    assignment: &mut Assignment,
) -> Result<Option<usize>, Memory>
    requires fits { length (formula.now ++ proof.now) < 2 ^ 64 }
    requires ready { IsReady formula.now watches.old assignment.old }
    ensures { IfOk result (FirstBad flipped formula.now proof.now) }
{
    let first = formula.len();
    for number in 0..proof.len() {
        let known = Known {
            formula,
            proof,
            count: first + number,
        };
        let clause = proof.clause(number);
        let found = has_property(alloc, &known, clause, watches, assignment)?;
        let good = found.is_good();
        if !good {
            return Ok(Some(number));
        }
        add_found(alloc, &known, found, watches, assignment)?;
    }
    Ok(None)
}

/// Whether the last clause is empty.
fn ends_empty(proof: &PlaceList) -> bool
    ensures { IsTrue result ↔ EndsEmpty proof.now }
{
    let count = proof.len();
    count > 0 && proof.clause(count - 1).is_empty()
}

/// The answer, from the first clause without the property.
#[tactic(auto, using(crate::proofs::VerdictLaws::bad_verdict))]
fn verdict_of(formula: &PlaceList, proof: &PlaceList, bad: Option<usize>) -> Rup
    requires bad { FirstBad flipped formula.now proof.now bad }
    requires fits { length proof.now < 2 ^ 64 }
    ensures { IsVerdict flipped formula.now proof.now result }
{
    match bad {
        Some(number) => Rup::BadClause {
            number: number as u64 + 1,
        },
        None => {
            if ends_empty(proof) {
                Rup::Verified
            } else {
                Rup::NotEmpty
            }
        }
    }
}

/// The answer on a proof, where literals stand as places.
fn verdict(alloc: Global, formula: &PlaceList, proof: &PlaceList) -> Result<Rup, Memory>
    requires fits { length (formula.now ++ proof.now) < 2 ^ 64 }
    ensures { IfOk result (IsVerdict flipped formula.now proof.now) }
{
    let mut assignment = Assignment::new(alloc)?;
    let mut watches = Watches::new(alloc)?;
    add_formula(alloc, formula, proof, &mut watches, &mut assignment)?;
    let bad = first_bad(alloc, formula, proof, &mut watches, &mut assignment)?;
    Ok(verdict_of(formula, proof, bad))
}

/// Checks a proof of unsatisfiability: each of its clauses has the property of reverse unit propagation under the
/// formula and the clauses before it, and the last is empty.
///
/// A clause has the property if unit propagation from the negations of its literals comes to a conflict. The answer
/// names the first clause without it. A formula with a verified proof is satisfied by no assignment. Where formula and
/// proof have more than 2^32 clauses together, that counts as want of memory.
pub fn check_rup(alloc: Global, formula: &ClauseList, proof: &ClauseList) -> Result<Rup, Memory>
    ensures exact { IfOk result (IsVerdict neg_ℤ formula.now proof.now) }
    ensures refutes { IfOk result (λ answer. answer ≡ Verified → IsUnsatisfiable formula.now) }
{
    let answer = verdict(alloc, &formula.places, &proof.places)?;
    Ok(answer)
}
