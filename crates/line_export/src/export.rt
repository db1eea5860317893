//! The line `export MODEL LOG CNF PROOF [--atoms] [--better N]`.

ghost use Rattle.std.specs.Prelude.{◌≡◌, ◌≢◌, All, IfOk, Ok};
ghost use Rattle.dcsp_script.specs.Outsides.{world};
ghost use Rattle.dcsp_script.specs.Ways.{Wrote};
ghost use Rattle.dcsp_script.specs.Runs.{CameIn};
ghost use Rattle.abt_input.specs.Errors.{way_of};
ghost use Rattle.line_check.specs.Taking.{taking_of};
ghost use Rattle.line_rewrite.specs.Trimming.{CreatesNothing};
ghost use Rattle.line_export.specs.Atoms.{AreAtoms};
ghost use Rattle.line_export.specs.Clauses.{formula as the_formula, IsStepIn};
ghost use Rattle.line_export.specs.Texts.{export_script};
ghost use Rattle.line_export.specs.ExportPromise.{export_promise};
ghost use Rattle.line_export.specs.Exporting.{HoldsExport};

use crate::atoms::Atoms;
use crate::formula::Formula;
use crate::limits::formula_within;
use crate::write::{tell, write_cnf, write_proof};
use abt_input::CommandError;
use dcsp_defs::Derivation;
use dcsp_outside::{Folder, Sink};
use dcsp_script::{Outside, Status, Stop};
use line_check::{check_and_keep, is_verified, take_problem, tell as tell_finding};
use ngd_check::KeptSteps;
use std::alloc::{AllocError, Global};

/// The words of `export`.
#[derive(Clone, Copy)]
pub struct ExportLine<'w> {
    /// The name of the model.
    pub model: &'w str,
    /// The name of the log.
    pub log: &'w str,
    /// The name that the formula is written under.
    pub cnf: &'w str,
    /// The name that the proof is written under.
    pub proof: &'w str,
    /// Whether the formula tells what each atom says.
    pub atoms: bool,
    /// The value at the model's aim than which the log says that there is no better one, where one is given.
    pub better: Option<i64>,
}

/// Checks the log against the problem that is taken of the model. Where it refutes it, a formula and a proof are
/// written that checkers of clauses read, and their sizes are told. Else the finding is told, and nothing is written.
///
/// A refusal is that of the model or else of the log, as `check` has it, or else that of a formula that passes a
/// limit; else an error is a fault or want of memory.
pub fn run_export<F: Folder, S: Sink>(
    alloc: Global,
    outside: &mut Outside<F, S>,
    line: ExportLine<'_>,
) -> Result<Status, CommandError>
    ensures came { CameIn (export_promise (taking_of line.entry.better) line.entry.model.now line.entry.log.now line.entry.cnf.now line.entry.proof.now line.entry.atoms)
        (world F.place S.stream outside.old) (world F.place S.stream outside.new) (way_of result) }
    ensures exports { result ≡ Ok Status.Good → line.entry.cnf.now ≢ line.entry.proof.now
        → HoldsExport (taking_of line.entry.better) line.entry.model.now line.entry.log.now line.entry.cnf.now line.entry.proof.now line.entry.atoms
        (world F.place S.stream outside.old) (world F.place S.stream outside.new) }
    ensures rejects { result ≡ Ok Status.No
        → CreatesNothing (world F.place S.stream outside.old) (world F.place S.stream outside.new) }
{
    let problem = take_problem(alloc, &mut outside.folder, line.model, line.better)?;
    problem.denotes_csp();
    let checked = check_and_keep(alloc, &mut outside.folder, &problem, line.log)?;
    if !is_verified(checked.finding) {
        tell_finding(checked.finding, &mut outside.out)?;
        return Ok(Status::No);
    }
    let copy = copied(alloc, checked.steps)?;
    let atoms = Atoms::of(alloc, &problem)?;
    let clauses = formula_within(alloc, &atoms, copy.steps())?;
    let formula = Formula {
        atoms,
        steps: copy,
        clauses,
    };
    write(alloc, outside, line, &formula)?;
    Ok(Status::Good)
}

/// The same steps, each in lists of its own; the others go.
fn copied(alloc: Global, steps: KeptSteps<'_>) -> Result<Derivation, AllocError>
    ensures { IfOk result (λ copy. copy ≡ steps.entry) }
{
    match steps.derivation(alloc) {
        Ok(copy) => Ok(copy),
        Err(_) => Err(AllocError),
    }
}

/// Writes formula and proof under their names, and tells their sizes.
fn write<F: Folder, S: Sink>(
    alloc: Global,
    outside: &mut Outside<F, S>,
    line: ExportLine<'_>,
    formula: &Formula<'_>,
) -> Result<(), Stop>
    requires atoms { AreAtoms formula.now.atoms }
    requires steps { All (IsStepIn formula.now.atoms.problem.now) formula.now.steps }
    requires clauses { formula.now.clauses ≡ the_formula formula.now.atoms.problem.now formula.now.steps }
    ensures { Wrote (export_script line.entry.cnf.now line.entry.proof.now line.entry.atoms formula.now.atoms.problem.now formula.now.steps)
        (world F.place S.stream outside.old) (world F.place S.stream outside.new) result }
{
    let atoms = &formula.atoms;
    let steps = &formula.steps;
    write_cnf(alloc, &mut outside.folder, line.cnf, formula, line.atoms)?;
    write_proof(alloc, &mut outside.folder, line.proof, atoms, steps.steps())?;
    let variables = u64::from(atoms.count);
    let clauses = formula.clauses.len() as u64;
    tell(alloc, variables, clauses, steps.len(), &mut outside.out)
}
