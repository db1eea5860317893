//! The names of constraints.

ghost use Rattle.std.specs.Prelude.{◌≡◌, IfSome, IsTrue, Some};
ghost use Rattle.dcsp_meaning.specs.declared.kinds.ConstraintKind.{ConstraintKind};
ghost use Rattle.dcsp_meaning.specs.Table.{is_reified};
ghost use Rattle.dcsp_meaning.specs.Names.{name_of, kind_among, kind_named};

/// A constraint's name: the builtin constraints of the MiniZinc Handbook's chapter on FlatZinc that need no
/// sums, `fzn_all_different_int`, and the tables `fzn_table_int` and `fzn_table_bool` with their reified forms.
#[derive(Clone, Copy, Debug, PartialEq, Eq)]
pub enum ConstraintKind {
    /// `int_eq(a, b)`: `a` is equal to `b`.
    IntEq,
    /// `int_eq_reif(a, b, r)`: `r` tells whether `a` is equal to `b`.
    IntEqReif,
    /// `int_ne(a, b)`: `a` differs from `b`.
    IntNe,
    /// `int_ne_reif(a, b, r)`: `r` tells whether `a` differs from `b`.
    IntNeReif,
    /// `int_le(a, b)`: `a` is at most `b`.
    IntLe,
    /// `int_le_reif(a, b, r)`: `r` tells whether `a` is at most `b`.
    IntLeReif,
    /// `int_lt(a, b)`: `a` is below `b`.
    IntLt,
    /// `int_lt_reif(a, b, r)`: `r` tells whether `a` is below `b`.
    IntLtReif,
    /// `int_plus(a, b, c)`: `a + b` is `c`.
    IntPlus,
    /// `int_times(a, b, c)`: `a * b` is `c`.
    IntTimes,
    /// `int_min(a, b, c)`: `c` is the lesser of `a` and `b`.
    IntMin,
    /// `int_max(a, b, c)`: `c` is the greater of `a` and `b`.
    IntMax,
    /// `int_abs(a, b)`: `b` is the absolute value of `a`.
    IntAbs,
    /// `int_div(a, b, c)`: `c` is `a / b` truncated towards zero; false where `b` is 0.
    IntDiv,
    /// `int_mod(a, b, c)`: `c` is the remainder of `a / b`, with the sign of `a`; false where `b` is 0.
    IntMod,
    /// `bool_eq(a, b)`: `a` is `b`.
    BoolEq,
    /// `bool_eq_reif(a, b, r)`: `r` tells whether `a` is `b`.
    BoolEqReif,
    /// `bool_le(a, b)`: `a` is at most `b`, with false below true.
    BoolLe,
    /// `bool_le_reif(a, b, r)`: `r` tells whether `a` is at most `b`.
    BoolLeReif,
    /// `bool_lt(a, b)`: `a` is false and `b` is true.
    BoolLt,
    /// `bool_lt_reif(a, b, r)`: `r` tells whether `a` is false and `b` is true.
    BoolLtReif,
    /// `bool_not(a, b)`: `a` is not `b`.
    BoolNot,
    /// `bool_and(a, b, r)`: `r` tells whether both are true.
    BoolAnd,
    /// `bool_or(a, b, r)`: `r` tells whether at least one is true.
    BoolOr,
    /// `bool_xor(a, b, r)` or `bool_xor(a, b)`: `r` tells whether exactly one is true; without `r` exactly one is.
    BoolXor,
    /// `bool2int(a, b)`: `b` is 1 where `a` is true, and 0 where it is false.
    Bool2int,
    /// `bool_clause(xs, ys)`: some element of `xs` is true or some element of `ys` is false.
    BoolClause,
    /// `bool_clause_reif(xs, ys, r)`: `r` tells whether the clause holds.
    BoolClauseReif,
    /// `array_bool_and(xs, r)`: `r` tells whether all elements are true.
    ArrayBoolAnd,
    /// `array_bool_or(xs, r)`: `r` tells whether at least one element is true.
    ArrayBoolOr,
    /// `array_bool_xor(xs)`: an odd number of elements is true.
    ArrayBoolXor,
    /// `array_int_element(a, xs, b)`: the element at `a`, counted from 1, is `b`; false out of range.
    ArrayIntElement,
    /// `array_var_int_element(a, xs, b)`: the same, with variables in `xs`.
    ArrayVarIntElement,
    /// `array_bool_element(a, xs, b)`: the same for Booleans.
    ArrayBoolElement,
    /// `array_var_bool_element(a, xs, b)`: the same for Booleans, with variables in `xs`.
    ArrayVarBoolElement,
    /// `set_in(a, S)`: `a` is in the set.
    SetIn,
    /// `set_in_reif(a, S, r)`: `r` tells whether `a` is in the set.
    SetInReif,
    /// `fzn_all_different_int(xs)`: the elements are pairwise different. This profile's own addition.
    ///
    /// Of `n` elements it compares at most `n * (n - 1) / 2` pairs, up to the first equal one, and takes no memory.
    FznAllDifferentInt,
    /// `fzn_table_int(xs, t)`: some row of the table `t` is `xs`. The table is written row after row, and each row is as
    /// long as `xs`, which has at least one element. A table without rows is false, and two equal rows are as one.
    ///
    /// It goes through the rows, of each up to the first entry that differs, and takes no memory.
    FznTableInt,
    /// `fzn_table_int_reif(xs, t, r)`: `r` tells whether some row of the table is `xs`.
    FznTableIntReif,
    /// `fzn_table_bool(xs, t)`: the same for Booleans.
    FznTableBool,
    /// `fzn_table_bool_reif(xs, t, r)`: `r` tells whether some row of the table is `xs`.
    FznTableBoolReif,
}

/// Every name, in the table's order.
const KINDS: [ConstraintKind; 42] = [
    ConstraintKind::IntEq,
    ConstraintKind::IntEqReif,
    ConstraintKind::IntNe,
    ConstraintKind::IntNeReif,
    ConstraintKind::IntLe,
    ConstraintKind::IntLeReif,
    ConstraintKind::IntLt,
    ConstraintKind::IntLtReif,
    ConstraintKind::IntPlus,
    ConstraintKind::IntTimes,
    ConstraintKind::IntMin,
    ConstraintKind::IntMax,
    ConstraintKind::IntAbs,
    ConstraintKind::IntDiv,
    ConstraintKind::IntMod,
    ConstraintKind::BoolEq,
    ConstraintKind::BoolEqReif,
    ConstraintKind::BoolLe,
    ConstraintKind::BoolLeReif,
    ConstraintKind::BoolLt,
    ConstraintKind::BoolLtReif,
    ConstraintKind::BoolNot,
    ConstraintKind::BoolAnd,
    ConstraintKind::BoolOr,
    ConstraintKind::BoolXor,
    ConstraintKind::Bool2int,
    ConstraintKind::BoolClause,
    ConstraintKind::BoolClauseReif,
    ConstraintKind::ArrayBoolAnd,
    ConstraintKind::ArrayBoolOr,
    ConstraintKind::ArrayBoolXor,
    ConstraintKind::ArrayIntElement,
    ConstraintKind::ArrayVarIntElement,
    ConstraintKind::ArrayBoolElement,
    ConstraintKind::ArrayVarBoolElement,
    ConstraintKind::SetIn,
    ConstraintKind::SetInReif,
    ConstraintKind::FznAllDifferentInt,
    ConstraintKind::FznTableInt,
    ConstraintKind::FznTableIntReif,
    ConstraintKind::FznTableBool,
    ConstraintKind::FznTableBoolReif,
];

impl ConstraintKind {
    /// The name's bytes.
    pub fn name(self) -> &'static [u8]
        ensures { result.now ≡ name_of self }
    {
        match self {
            ConstraintKind::IntEq => b"int_eq",
            ConstraintKind::IntNe => b"int_ne",
            ConstraintKind::IntLe => b"int_le",
            ConstraintKind::IntLt => b"int_lt",
            ConstraintKind::IntPlus => b"int_plus",
            ConstraintKind::IntTimes => b"int_times",
            ConstraintKind::IntMin => b"int_min",
            ConstraintKind::IntMax => b"int_max",
            ConstraintKind::IntAbs => b"int_abs",
            ConstraintKind::IntDiv => b"int_div",
            ConstraintKind::IntMod => b"int_mod",
            ConstraintKind::BoolEq => b"bool_eq",
            ConstraintKind::BoolLe => b"bool_le",
            ConstraintKind::BoolLt => b"bool_lt",
            ConstraintKind::BoolNot => b"bool_not",
            ConstraintKind::BoolAnd => b"bool_and",
            ConstraintKind::BoolOr => b"bool_or",
            ConstraintKind::BoolXor => b"bool_xor",
            ConstraintKind::Bool2int => b"bool2int",
            ConstraintKind::BoolClause => b"bool_clause",
            ConstraintKind::ArrayBoolAnd => b"array_bool_and",
            ConstraintKind::ArrayBoolOr => b"array_bool_or",
            ConstraintKind::ArrayBoolXor => b"array_bool_xor",
            ConstraintKind::ArrayIntElement => b"array_int_element",
            ConstraintKind::ArrayVarIntElement => b"array_var_int_element",
            ConstraintKind::ArrayBoolElement => b"array_bool_element",
            ConstraintKind::ArrayVarBoolElement => b"array_var_bool_element",
            ConstraintKind::SetIn => b"set_in",
            ConstraintKind::FznAllDifferentInt => b"fzn_all_different_int",
            ConstraintKind::FznTableInt => b"fzn_table_int",
            ConstraintKind::FznTableBool => b"fzn_table_bool",
            reified => reified.reified_name(),
        }
    }

    fn reified_name(self) -> &'static [u8]
        requires { IsTrue (is_reified self) }
        ensures { result.now ≡ name_of self }
    {
        match self {
            ConstraintKind::IntEqReif => b"int_eq_reif",
            ConstraintKind::IntNeReif => b"int_ne_reif",
            ConstraintKind::IntLeReif => b"int_le_reif",
            ConstraintKind::IntLtReif => b"int_lt_reif",
            ConstraintKind::BoolEqReif => b"bool_eq_reif",
            ConstraintKind::BoolLeReif => b"bool_le_reif",
            ConstraintKind::BoolLtReif => b"bool_lt_reif",
            ConstraintKind::BoolClauseReif => b"bool_clause_reif",
            ConstraintKind::SetInReif => b"set_in_reif",
            ConstraintKind::FznTableIntReif => b"fzn_table_int_reif",
            ConstraintKind::FznTableBoolReif => b"fzn_table_bool_reif",
            _ => unreachable!(),
        }
    }

    /// The kind with this name; `None` where no kind has it.
    pub fn from_name(name: &[u8]) -> Option<ConstraintKind>
        ensures named { IfSome result (λ kind. name_of kind ≡ name.now) }
        ensures every { (kind : ConstraintKind) → name_of kind ≡ name.now → result ≡ Some kind }
        ensures first { result ≡ kind_named name.now }
    {
        first_named(name)
    }
}

/// The first kind with this name.
fn first_named(name: &[u8]) -> Option<ConstraintKind>
    ensures { result ≡ kind_among name.now KINDS }
{
    for kind in KINDS.as_slice() {
        if name == kind.name() {
            return Some(*kind);
        }
    }
    None
}
