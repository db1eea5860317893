//! Writing a refutation as a proof.

ghost use Rattle.std.specs.Prelude.{◌≡◌, ◌↔◌, [], ◌∷◌, ◌++◌, List, Option, IsTrue, OnOk, Contains, codes, pos};
ghost use Rattle.std.specs.Option.{option_map};
ghost use Rattle.dcsp_defs.specs.declared.Step.{Step};
ghost use Rattle.dcsp_outside.specs.Outside.{Place, Stream};
ghost use Rattle.dcsp_script.specs.Scripts.{Append, outside};
ghost use Rattle.dcsp_script.specs.Ways.{Wrote};
ghost use Rattle.rup_check.specs.ProofText.{literal_text};
ghost use Rattle.line_cnf.specs.ClauseRows.{clause_writes, clauses_in, steps_row};
ghost use Rattle.line_cnf.specs.CnfRuns.{proof_script};

use crate::clause_row::ClauseRow;
use dcsp_common::push_signed;
use dcsp_outside::Folder;
use dcsp_script::{Stop, append, create};
use std::alloc::{AllocError, Global};

/// Writes a refutation as a proof: the name is created, and the line of each step's clause is appended by itself.
/// Where there is none, nothing is written.
pub fn write_proof<F: Folder>(
    alloc: Global,
    folder: &mut F,
    name: &str,
    refutation: &Option<ClauseRow>,
) -> Result<(), Stop>
    ensures { (out : Stream) (steps : Option (List Step)) → refutation.now ≡ option_map steps_row steps → Wrote (proof_script name.now steps)
        (outside (F.place folder.old) out) (outside (F.place folder.new) out) result }
{
    let Some(clauses) = refutation else {
        return Ok(());
    };
    create(folder, name)?;
    append_clauses(alloc, folder, name, clauses.items())
}

/// Appends the line of each clause of a row.
fn append_clauses<F: Folder>(
    alloc: Global,
    folder: &mut F,
    name: &str,
    row: &[i16],
) -> Result<(), Stop>
    requires { Contains (F.place folder.old).created name.now }
    ensures { (out : Stream) → Wrote (clause_writes name.now (clauses_in row.now))
        (outside (F.place folder.old) out) (outside (F.place folder.new) out) result }
{
    let mut line = Vec::new(alloc);
    for literal in row {
        if is_end(*literal) {
            append_line(folder, name, &mut line)?;
        } else {
            push_literal(*literal, &mut line)?;
        }
    }
    Ok(())
}

/// Whether this is the 0 behind a clause, and no literal.
fn is_end(literal: i16) -> bool
    ensures { IsTrue result ↔ (literal ≡ pos 0) }
{
    literal == 0
}

/// Adds a literal to a line, and a space.
fn push_literal(literal: i16, line: &mut Vec<u8>) -> Result<(), AllocError>
    ensures { OnOk result (line.new.items ≡ line.old.items ++ literal_text literal) }
{
    push_signed(line, i64::from(literal))?;
    line.extend_from_slice(b" ")
}

/// Appends the line that has these literals, and empties it.
fn append_line<F: Folder>(folder: &mut F, name: &str, line: &mut Vec<u8>) -> Result<(), Stop>
    requires { Contains (F.place folder.old).created name.now }
    ensures wrote { (out : Stream) → Wrote (Append name.now (line.old.items ++ codes "0\n") ∷ [])
        (outside (F.place folder.old) out) (outside (F.place folder.new) out) result }
    ensures created { (F.place folder.new).created ≡ (F.place folder.old).created }
    ensures emptied { OnOk result (line.new.items ≡ []) }
{
    line.extend_from_slice(b"0\n")?;
    append(folder, name, line)?;
    line.clear();
    Ok(())
}
