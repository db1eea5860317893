//! Laws of the table's definitions.

ghost use Rattle.dcsp_meaning.specs.Rows.{RowsAreThePieces};
ghost use Rattle.dcsp_meaning.specs.Division.{DividesTowardsZero, HasOneQuotient};

/// The quotients of `int_div` and the remainders of `int_mod` are those of division that truncates towards zero:
/// the dividend is the divisor times the quotient and a remainder, which is smaller than the divisor, and is 0
/// or has the dividend's sign; and no other quotient will do.
pub fn division_truncates()
    ensures divided { DividesTowardsZero }
    ensures one { HasOneQuotient }
{}

/// A table has a row exactly where the row is one of the pieces, each as long as it is, into which the table is cut.
pub fn rows_are_pieces()
    ensures { RowsAreThePieces }
{}
