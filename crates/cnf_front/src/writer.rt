//! A nogood as a line of a proof.
ghost use Rattle.std.specs.Prelude.{◌≡◌, ◌∷◌, ◌++◌, flat_map, codes, IfOk, OnOk, OnErr, All};
ghost use Rattle.rup_check.specs.ProofText.{clause_line, literal_text};
ghost use Rattle.cnf_front.specs.Clauses.{clause_of, literal_against, IsBinary};

use dcsp_common::{Memory, push_signed};
use dcsp_defs::{Nogood, Pair};
use std::alloc::{AllocError, Global};

/// Appends the line of a nogood's clause: `-N` for each pair of variable N, counted from 1, and 1, and `N` for each
/// pair with 0, and then `0`. A refusal leaves `into` as it was.
///
/// The nogood's variables are below 4,096, counted from 0, and its values 0 or 1.
pub fn write_clause(nogood: &Nogood, into: &mut Vec<u8>) -> Result<(), Memory>
    requires { All IsBinary nogood.now }
    ensures ok { OnOk result (into.new.items ≡ into.old.items ++ clause_line (clause_of nogood.now)) }
    ensures err { OnErr result (into.new.items ≡ into.old.items) }
{
    // The line is made apart, so that a refusal in its middle leaves nothing of it.
    let alloc = *into.allocator();
    let line = line_of(alloc, nogood.pairs())?;
    into.extend_from_slice(&line)
}

/// The line of the clause.
fn line_of(alloc: Global, pairs: &[Pair]) -> Result<Vec<u8>, AllocError>
    requires { All IsBinary pairs.now }
    ensures { IfOk result (λ line. line.items ≡ clause_line (clause_of pairs.now)) }
{
    let mut line = Vec::new(alloc);
    for pair in pairs {
        push_literal(&mut line, *pair)?;
    }
    line.extend_from_slice(b"0\n")?;
    Ok(line)
}

/// Appends the literal that says that the pair does not hold, and a space.
fn push_literal(line: &mut Vec<u8>, pair: Pair) -> Result<(), AllocError>
    requires { IsBinary pair }
    ensures { OnOk result (line.new.items ≡ line.old.items ++ literal_text (literal_against pair.var pair.value)) }
{
    push_signed(line, literal_against(pair))?;
    line.extend_from_slice(b" ")
}

/// The literal that says that the pair does not hold.
fn literal_against(pair: Pair) -> i64
    requires { IsBinary pair }
    ensures { result ≡ literal_against pair.var pair.value }
{
    let variable = i64::from(pair.var) + 1;
    if pair.value == 0 { variable } else { -variable }
}
