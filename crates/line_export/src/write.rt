//! Writing a formula and a proof.

ghost use Rattle.std.specs.Prelude.{◌≡◌, ◌<◌, [], ◌∷◌, ◌++◌, map, flat_map, length, All, Contains};
ghost use Rattle.dcsp_outside.specs.Outside.{Place, Stream};
ghost use Rattle.dcsp_defs.specs.Words.{below};
ghost use Rattle.dcsp_defs.specs.declared.Step.{Step as A_step};
ghost use Rattle.dcsp_rule.specs.Problems.{csp_of, value_count};
ghost use Rattle.dcsp_script.specs.Scripts.{Append, Put, outside};
ghost use Rattle.dcsp_script.specs.Ways.{Wrote};
ghost use Rattle.rup_check.specs.ProofText.{clause_line};
ghost use Rattle.line_rewrite.specs.UpgradePromise.{appends, file_script};
ghost use Rattle.line_export.specs.Atoms.{AreAtoms};
ghost use Rattle.line_export.specs.Clauses.{proof, IsStepIn};
ghost use Rattle.line_export.specs.Texts.{atom_line, variable_lines, atom_lines, cnf_lines, counts_text};

use crate::atoms::Atoms;
use crate::clauses::ClauseSet;
use crate::formula::{Formula, nogood_clause};
use crate::lines::{atom_line, counts, header, push_clause};
use dcsp_defs::{Pair, Step};
use dcsp_outside::{Folder, Sink};
use dcsp_script::{Stop, append, create, put};
use std::alloc::Global;

/// Writes the formula under the name, each line by itself. Where `told` is set, comments first tell what each atom
/// says.
pub fn write_cnf<F: Folder>(
    alloc: Global,
    folder: &mut F,
    name: &str,
    formula: &Formula<'_>,
    told: bool,
) -> Result<(), Stop>
    requires { AreAtoms formula.now.atoms }
    ensures { (out : Stream) → Wrote (file_script name.now (cnf_lines formula.now.atoms.problem.now told formula.now.clauses))
        (outside (F.place folder.old) out) (outside (F.place folder.new) out) result }
{
    let clauses = &formula.clauses;
    create(folder, name)?;
    append_atoms(alloc, folder, name, &formula.atoms, told)?;
    let line = header(alloc, u64::from(formula.atoms.count), clauses.len() as u64)?;
    append(folder, name, &line)?;
    append_clauses(alloc, folder, name, clauses)
}

/// Appends the line of each atom, if they are wanted.
fn append_atoms<F: Folder>(
    alloc: Global,
    folder: &mut F,
    name: &str,
    atoms: &Atoms<'_>,
    wanted: bool,
) -> Result<(), Stop>
    requires created { Contains (F.place folder.old).created name.now }
    requires atoms { AreAtoms atoms.now }
    ensures wrote { (out : Stream) → Wrote (appends name.now (atom_lines (csp_of atoms.now.problem.now) wanted))
        (outside (F.place folder.old) out) (outside (F.place folder.new) out) result }
    ensures created { (F.place folder.new).created ≡ (F.place folder.old).created }
{
    if !wanted {
        return Ok(());
    }
    for var in 0..atoms.problem.vars() {
        append_variable(alloc, folder, name, atoms, var)?;
    }
    Ok(())
}

/// Appends the lines of a variable's atoms.
fn append_variable<F: Folder>(
    alloc: Global,
    folder: &mut F,
    name: &str,
    atoms: &Atoms<'_>,
    var: u32,
) -> Result<(), Stop>
    requires created { Contains (F.place folder.old).created name.now }
    requires atoms { AreAtoms atoms.now }
    requires var { var < length atoms.now.problem.now.domains }
    ensures wrote { (out : Stream) → Wrote (appends name.now (variable_lines (csp_of atoms.now.problem.now) var))
        (outside (F.place folder.old) out) (outside (F.place folder.new) out) result }
    ensures created { (F.place folder.new).created ≡ (F.place folder.old).created }
{
    let domain = atoms.problem.domain(var);
    for place in 0..domain.len() {
        let value = domain.value(place);
        let line = atom_line(alloc, atoms, Pair { var, value })?;
        append(folder, name, &line)?;
    }
    Ok(())
}

/// Appends the line of each clause.
fn append_clauses<F: Folder>(
    alloc: Global,
    folder: &mut F,
    name: &str,
    clauses: &ClauseSet,
) -> Result<(), Stop>
    requires created { Contains (F.place folder.old).created name.now }
    ensures wrote { (out : Stream) → Wrote (appends name.now (map clause_line clauses.now))
        (outside (F.place folder.old) out) (outside (F.place folder.new) out) result }
    ensures created { (F.place folder.new).created ≡ (F.place folder.old).created }
{
    let mut line = Vec::new(alloc);
    for place in 0..clauses.len() {
        append_clause(folder, name, clauses.clause(place), &mut line)?;
    }
    Ok(())
}

/// Appends the line of a clause. It is made in `line`.
fn append_clause<F: Folder>(
    folder: &mut F,
    name: &str,
    clause: &[i32],
    line: &mut Vec<u8>,
) -> Result<(), Stop>
    requires created { Contains (F.place folder.old).created name.now }
    ensures wrote { (out : Stream) → Wrote (Append name.now (clause_line clause.now) ∷ [])
        (outside (F.place folder.old) out) (outside (F.place folder.new) out) result }
    ensures created { (F.place folder.new).created ≡ (F.place folder.old).created }
{
    line.clear();
    push_clause(clause, line)?;
    append(folder, name, line)
}

/// Writes the proof under the name: the clause of each step's nogood, each line by itself.
pub fn write_proof<F: Folder>(
    alloc: Global,
    folder: &mut F,
    name: &str,
    atoms: &Atoms<'_>,
    steps: &[Step],
) -> Result<(), Stop>
    requires atoms { AreAtoms atoms.now }
    requires steps { All (IsStepIn atoms.now.problem.now) steps.now }
    ensures { (out : Stream) → Wrote (file_script name.now (map clause_line (proof atoms.now.problem.now steps.now)))
        (outside (F.place folder.old) out) (outside (F.place folder.new) out) result }
{
    create(folder, name)?;
    append_steps(alloc, folder, name, atoms, steps)
}

/// Appends the line of each step's clause.
fn append_steps<F: Folder>(
    alloc: Global,
    folder: &mut F,
    name: &str,
    atoms: &Atoms<'_>,
    steps: &[Step],
) -> Result<(), Stop>
    requires created { Contains (F.place folder.old).created name.now }
    requires atoms { AreAtoms atoms.now }
    requires steps { All (IsStepIn atoms.now.problem.now) steps.now }
    ensures { (out : Stream) → Wrote (appends name.now (map clause_line (proof atoms.now.problem.now steps.now)))
        (outside (F.place folder.old) out) (outside (F.place folder.new) out) result }
{
    let mut line = Vec::new(alloc);
    for step in steps {
        let clause = nogood_clause(alloc, atoms, &step.nogood)?;
        append_clause(folder, name, &clause, &mut line)?;
    }
    Ok(())
}

/// Puts what tells how many atoms, clauses and steps there are on `out`, in one piece.
pub fn tell<S: Sink>(
    alloc: Global,
    atoms: u64,
    clauses: u64,
    steps: u64,
    out: &mut S,
) -> Result<(), Stop>
    ensures { (folder : Place) → Wrote (Put (counts_text atoms clauses steps) ∷ [])
        (outside folder (S.stream out.old)) (outside folder (S.stream out.new)) result }
{
    let text = counts(alloc, atoms, clauses, steps)?;
    put(out, &text)
}
