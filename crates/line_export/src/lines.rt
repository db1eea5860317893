//! The lines of a formula and of a proof.

ghost use Rattle.std.specs.Prelude.{◌≡◌, ◌<◌, ◌++◌, length, OnOk, IfOk};
ghost use Rattle.dcsp_rule.specs.Problems.{csp_of};
ghost use Rattle.rup_check.specs.ProofText.{clause_line, literal_text};
ghost use Rattle.line_export.specs.Atoms.{AreAtoms};
ghost use Rattle.line_export.specs.Texts.{atom_line, header_line, counts_text};

use crate::atoms::Atoms;
use dcsp_common::{push_number, push_signed};
use dcsp_defs::Pair;
use std::alloc::{AllocError, Global};

/// Adds the line of a clause: its literals in their order, and then 0.
pub fn push_clause(literals: &[i32], line: &mut Vec<u8>) -> Result<(), AllocError>
    ensures { OnOk result (line.new.items ≡ line.old.items ++ clause_line literals.now) }
{
    for literal in literals {
        push_literal(literal, line)?;
    }
    line.extend_from_slice(b"0\n")
}

/// Adds a literal and a space.
fn push_literal(literal: &i32, line: &mut Vec<u8>) -> Result<(), AllocError>
    ensures { OnOk result (line.new.items ≡ line.old.items ++ literal_text literal.now) }
{
    push_signed(line, i64::from(*literal))?;
    line.extend_from_slice(b" ")
}

/// The comment that tells which atom says that the pair holds.
pub fn atom_line(alloc: Global, atoms: &Atoms<'_>, pair: Pair) -> Result<Vec<u8>, AllocError>
    requires atoms { AreAtoms atoms.now }
    requires var { pair.var < length atoms.now.problem.now.domains }
    ensures { IfOk result (λ line. line.items ≡ atom_line (csp_of atoms.now.problem.now) pair.var pair.value) }
{
    let mut line = Vec::from_slice(alloc, b"c v")?;
    push_number(&mut line, u64::from(pair.var) + 1)?;
    line.extend_from_slice(b"=")?;
    push_signed(&mut line, pair.value)?;
    line.extend_from_slice(b" is ")?;
    push_number(&mut line, u64::from(atoms.number(pair)))?;
    line.extend_from_slice(b"\n")?;
    Ok(line)
}

/// The line that tells how many atoms and clauses there are.
pub fn header(alloc: Global, atoms: u64, clauses: u64) -> Result<Vec<u8>, AllocError>
    ensures { IfOk result (λ line. line.items ≡ header_line atoms clauses) }
{
    let mut line = Vec::from_slice(alloc, b"p cnf ")?;
    push_number(&mut line, atoms)?;
    line.extend_from_slice(b" ")?;
    push_number(&mut line, clauses)?;
    line.extend_from_slice(b"\n")?;
    Ok(line)
}

/// The lines that tell how many atoms, clauses and steps there are.
pub fn counts(alloc: Global, atoms: u64, clauses: u64, steps: u64) -> Result<Vec<u8>, AllocError>
    ensures { IfOk result (λ text. text.items ≡ counts_text atoms clauses steps) }
{
    let mut text = Vec::from_slice(alloc, b"% variables ")?;
    push_number(&mut text, atoms)?;
    text.extend_from_slice(b"\n% clauses ")?;
    push_number(&mut text, clauses)?;
    text.extend_from_slice(b"\n% steps ")?;
    push_number(&mut text, steps)?;
    text.extend_from_slice(b"\n")?;
    Ok(text)
}
