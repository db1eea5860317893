//! The line `rup CNF PROOF`.

ghost use Rattle.std.specs.Prelude.{◌≡◌, [], ◌∷◌, All, IfOk, neg_ℤ};
ghost use Rattle.dcsp_outside.specs.Outside.{Place};
ghost use Rattle.dcsp_script.specs.Outsides.{world};
ghost use Rattle.dcsp_script.specs.Scripts.{Put, outside};
ghost use Rattle.dcsp_script.specs.Ways.{Wrote};
ghost use Rattle.rup_check.specs.Literals.{IsUnsatisfiable};
ghost use Rattle.rup_check.specs.Verdicts.{IsVerdict};
ghost use Rattle.rup_check.specs.declared.check.Rup.TheVariants.{Verified};
ghost use Rattle.cnf_front.specs.Clauses.{IsClauseRule};
ghost use Rattle.dcsp_script.specs.declared.status.Status.TheVariants.{Good};
ghost use Rattle.dcsp_script.specs.Runs.{CameIn};
ghost use Rattle.abt_input.specs.Errors.{way_of};
ghost use Rattle.line_cnf.specs.Satisfying.{clauses_of};
ghost use Rattle.line_cnf.specs.RupPromise.{rup_status, rup_text, rup_promise, HoldsRefuted, TellsExactly};

use abt_input::{AnswerLine, CommandError, read_formula, read_proof};
use cnf_front::formula_of;
use dcsp_outside::{Folder, Sink};
use dcsp_problem::Problem;
use dcsp_script::{Outside, Status, Stop, put};
use rup_check::{ClauseList, Rup, check_rup};
use std::alloc::{AllocError, Global};

/// Checks the proof against the formula, which is read first, and puts the line of what was found.
///
/// The status is `Good` exactly where the proof is accepted: unit propagation from the negations of each of its
/// clauses comes to a conflict under the formula and the clauses before it, and its last clause is empty. Then no
/// assignment satisfies the formula.
pub fn run_rup<F: Folder, S: Sink>(
    alloc: Global,
    outside: &mut Outside<F, S>,
    cnf: &str,
    proof: &str,
) -> Result<Status, CommandError>
    ensures came { CameIn (rup_promise cnf.now proof.now)
        (world F.place S.stream outside.old) (world F.place S.stream outside.new) (way_of result) }
    ensures exact { IfOk result (TellsExactly (F.place outside.old.folder).held cnf.now proof.now) }
    ensures refutes { IfOk result (λ status. status ≡ Good → HoldsRefuted (F.place outside.old.folder).held cnf.now) }
{
    let problem = read_formula(alloc, &mut outside.folder, cnf)?;
    let clauses = read_proof(alloc, &mut outside.folder, proof)?;
    let answer = check(alloc, &problem, &clauses)?;
    tell(answer, &mut outside.out)?;
    Ok(rup_status(answer))
}

/// The answer on a proof about the problem's clauses.
fn check(alloc: Global, problem: &Problem, proof: &ClauseList) -> Result<Rup, AllocError>
    requires { All IsClauseRule problem.now.rules }
    ensures verdict { IfOk result (IsVerdict neg_ℤ (clauses_of problem.now) proof.now) }
    ensures refutes { IfOk result (λ answer. answer ≡ Verified → IsUnsatisfiable (clauses_of problem.now)) }
{
    let _few = problem.rules();
    let mut formula = ClauseList::new(alloc);
    let Ok(()) = formula_of(alloc, problem, &mut formula) else {
        return Err(AllocError);
    };
    match check_rup(alloc, &formula, proof) {
        Ok(answer) => Ok(answer),
        Err(_) => Err(AllocError),
    }
}

/// The status of an answer.
fn rup_status(answer: Rup) -> Status
    ensures { result ≡ rup_status answer }
{
    match answer {
        Rup::Verified => Status::Good,
        Rup::BadClause { .. } | Rup::NotEmpty => Status::No,
    }
}

/// The line that tells an answer.
fn rup_line(answer: Rup) -> AnswerLine
    ensures { result ≡ rup_text answer }
{
    match answer {
        Rup::Verified => AnswerLine::of(b"verified\n"),
        Rup::BadClause { number } => AnswerLine::numbered(b"rejected clause ", number),
        Rup::NotEmpty => AnswerLine::of(b"rejected not empty\n"),
    }
}

/// Puts the line of an answer on `out`, in one piece.
fn tell<S: Sink>(answer: Rup, out: &mut S) -> Result<(), Stop>
    ensures { (folder : Place) → Wrote (Put (rup_text answer) ∷ [])
        (outside folder (S.stream out.old)) (outside folder (S.stream out.new)) result }
{
    let line = rup_line(answer);
    put(out, line.bytes())
}
