//! Clauses that are kept.

ghost use Rattle.std.specs.Prelude.{◌≡◌, ◌++◌, ◌∷◌, [], All, OnOk};
ghost use Rattle.cnf_front.specs.Clauses.{clause_of, literal_against, IsBinary};
ghost use Rattle.line_cnf.specs.ClauseRows.{ended};

use dcsp_common::ItemList;
use dcsp_defs::{Nogood, Pair};
use std::alloc::AllocError;

/// Clauses in their order, in one row: the literals of each, and 0 behind them.
///
/// A literal takes two bytes: N says that variable N is true, counted from 1, and -N that it is false.
pub type ClauseRow = ItemList<i16>;

/// Adds the clause that a nogood says: one of its pairs does not hold. After want of memory a first part of it may be
/// there.
pub fn push_clause(nogood: &Nogood, row: &mut ClauseRow) -> Result<(), AllocError>
    requires { All IsBinary nogood.now }
    ensures { OnOk result (row.new ≡ row.old ++ ended (clause_of nogood.now)) }
{
    for pair in nogood.pairs() {
        push_literal(literal_against(*pair), row)?;
    }
    push_literal(0, row)
}

/// Adds a literal, or the 0 behind a clause.
fn push_literal(literal: i16, row: &mut ClauseRow) -> Result<(), AllocError>
    ensures { OnOk result (row.new ≡ row.old ++ literal ∷ []) }
{
    match row.push(literal) {
        Ok(()) => Ok(()),
        Err(_) => Err(AllocError),
    }
}

/// The literal that says that the pair does not hold.
fn literal_against(pair: Pair) -> i16
    requires { IsBinary pair }
    ensures { result ≡ literal_against pair.var pair.value }
{
    let variable = pair.var as i16 + 1;
    if pair.value == 0 { variable } else { -variable }
}
