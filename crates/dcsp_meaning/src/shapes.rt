//! Which arguments a constraint takes.

ghost use Rattle.std.specs.Prelude.{◌≡◌};
ghost use Rattle.dcsp_meaning.specs.Rows.{is_table};
ghost use Rattle.dcsp_meaning.specs.Table.{is_shape, is_plain_shape, is_reified, plain_of};

use crate::kinds::ConstraintKind;

/// Whether a constraint of this kind may have so many scalars and lists of these lengths.
///
/// Scalars are the arguments that are no lists and no set, in order; a reified form's `r` is the last.
pub fn shape_ok(kind: ConstraintKind, scalars: usize, first: usize, second: usize) -> bool
    ensures { result ≡ is_shape kind scalars first second }
{
    if is_reified(kind) {
        0 < scalars && plain_shape_ok(plain_of(kind), scalars - 1, first, second)
    } else {
        plain_shape_ok(kind, scalars, first, second)
    }
}

/// The constraint that a reified form speaks of; any other is its own.
pub(crate) fn plain_of(kind: ConstraintKind) -> ConstraintKind
    ensures { result ≡ plain_of kind }
{
    match kind {
        ConstraintKind::IntEqReif => ConstraintKind::IntEq,
        ConstraintKind::IntNeReif => ConstraintKind::IntNe,
        ConstraintKind::IntLeReif => ConstraintKind::IntLe,
        ConstraintKind::IntLtReif => ConstraintKind::IntLt,
        ConstraintKind::BoolEqReif => ConstraintKind::BoolEq,
        ConstraintKind::BoolLeReif => ConstraintKind::BoolLe,
        ConstraintKind::BoolLtReif => ConstraintKind::BoolLt,
        ConstraintKind::BoolClauseReif => ConstraintKind::BoolClause,
        ConstraintKind::SetInReif => ConstraintKind::SetIn,
        ConstraintKind::FznTableIntReif => ConstraintKind::FznTableInt,
        ConstraintKind::FznTableBoolReif => ConstraintKind::FznTableBool,
        other => other,
    }
}

/// Whether it is a reified form.
pub(crate) fn is_reified(kind: ConstraintKind) -> bool
    ensures { result ≡ is_reified kind }
{
    matches!(
        kind,
        ConstraintKind::IntEqReif
            | ConstraintKind::IntNeReif
            | ConstraintKind::IntLeReif
            | ConstraintKind::IntLtReif
            | ConstraintKind::BoolEqReif
            | ConstraintKind::BoolLeReif
            | ConstraintKind::BoolLtReif
            | ConstraintKind::BoolClauseReif
            | ConstraintKind::SetInReif
            | ConstraintKind::FznTableIntReif
            | ConstraintKind::FznTableBoolReif
    )
}

/// Whether a constraint that is not reified may have so many scalars and lists of these lengths.
fn plain_shape_ok(kind: ConstraintKind, scalars: usize, first: usize, second: usize) -> bool
    ensures { result ≡ is_plain_shape kind scalars first second }
{
    match kind {
        ConstraintKind::IntEq
        | ConstraintKind::IntNe
        | ConstraintKind::IntLe
        | ConstraintKind::IntLt
        | ConstraintKind::IntAbs
        | ConstraintKind::BoolEq
        | ConstraintKind::BoolLe
        | ConstraintKind::BoolLt
        | ConstraintKind::BoolNot
        | ConstraintKind::Bool2int => scalars == 2 && first == 0 && second == 0,
        ConstraintKind::IntPlus
        | ConstraintKind::IntTimes
        | ConstraintKind::IntMin
        | ConstraintKind::IntMax
        | ConstraintKind::IntDiv
        | ConstraintKind::IntMod
        | ConstraintKind::BoolAnd
        | ConstraintKind::BoolOr => scalars == 3 && first == 0 && second == 0,
        ConstraintKind::BoolXor => (scalars == 2 || scalars == 3) && first == 0 && second == 0,
        ConstraintKind::BoolClause => scalars == 0,
        ConstraintKind::ArrayBoolAnd | ConstraintKind::ArrayBoolOr => scalars == 1 && second == 0,
        ConstraintKind::ArrayBoolXor | ConstraintKind::FznAllDifferentInt => scalars == 0
            && second == 0,
        ConstraintKind::ArrayIntElement
        | ConstraintKind::ArrayVarIntElement
        | ConstraintKind::ArrayBoolElement
        | ConstraintKind::ArrayVarBoolElement => scalars == 2 && second == 0,
        ConstraintKind::SetIn => scalars == 1 && first == 0 && second == 0,
        ConstraintKind::FznTableInt | ConstraintKind::FznTableBool => scalars == 0
            && is_table(first, second),
        _ => false,
    }
}

/// Whether so many entries are a table of whole rows that are so long, and have at least one entry.
pub fn is_table(width: usize, entries: usize) -> bool
    ensures { result ≡ is_table width entries }
{
    0 < width && entries % width == 0
}
