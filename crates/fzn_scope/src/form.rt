//! How constraints are called, and what their arguments are.

ghost use Rattle.std.specs.Prelude.{◌≡◌, [], ◌∷◌, IfSome, Some};
ghost use Rattle.fzn_scope.specs.Forms.{form_among, sums, form_named, whole, coefficients, others, plain_places, reified_places, places_of};
ghost use Rattle.dcsp_meaning.specs.Table.{plain_of, is_reified};

use crate::place::Wanted;
use dcsp_meaning::{ConstraintKind, Rel};

/// What the place of an argument asks for.
#[derive(Clone, Copy, Debug, PartialEq, Eq)]
pub enum Place {
    /// An integer or a Boolean.
    Scalar { boolean: bool },
    /// A list of integers or of Booleans, which is the constraint's first.
    First(Wanted),
    /// A list of integers or of Booleans, which is the constraint's second.
    Second(Wanted),
    /// A set of integers.
    Set,
}

/// A constraint that the MiniZinc Handbook's chapter on FlatZinc lists, `fzn_all_different_int`, or a table.
#[derive(Clone, Copy, Debug, PartialEq, Eq)]
pub enum Form {
    /// One that needs no sum.
    Plain(ConstraintKind),
    /// A sum of constants times integers or Booleans, and how it stands to a total. A reified sum has one
    /// Boolean more.
    Sum {
        rel: Rel,
        boolean: bool,
        reified: bool,
    },
}

const WHOLE: Place = Place::Scalar { boolean: false };

const TRUTH: Place = Place::Scalar { boolean: true };

const WHOLES: Place = Place::First(Wanted {
    boolean: false,
    constant: false,
});

const TRUTHS: Place = Place::First(Wanted {
    boolean: true,
    constant: false,
});

const COEFFICIENTS: Place = Place::First(Wanted {
    boolean: false,
    constant: true,
});

const OTHER_WHOLES: Place = Place::Second(Wanted {
    boolean: false,
    constant: false,
});

const OTHER_TRUTHS: Place = Place::Second(Wanted {
    boolean: true,
    constant: false,
});

const WHOLE_ROWS: Place = Place::Second(Wanted {
    boolean: false,
    constant: true,
});

const TRUTH_ROWS: Place = Place::Second(Wanted {
    boolean: true,
    constant: true,
});

impl Form {
    /// The form of a constraint's name; `None` where no constraint has it.
    pub fn from_name(name: &[u8]) -> Option<Form>
        ensures { result ≡ form_named name.now }
    {
        // Names that most constraints have come first, and sums, whose names no kind has.
        if let Some(form) = often_named(name) {
            return Some(form);
        }
        if let Some(sum) = sum_named(name) {
            return Some(sum);
        }
        match ConstraintKind::from_name(name) {
            Some(kind) => Some(Form::Plain(kind)),
            None => None,
        }
    }

    /// What the arguments are, from left to right, where so many are given: only `bool_xor` asks how many,
    /// and takes two or three.
    pub fn places(self, count: usize) -> &'static [Place]
        ensures { result.now ≡ places_of self count }
    {
        match self {
            Form::Plain(kind) => kind_places(kind, count),
            Form::Sum {
                boolean,
                reified,
                ..
            } => sum_places(boolean, reified),
        }
    }
}

/// The form of a name that many constraints have, if it is one: it is found without a walk through all names.
fn often_named(name: &[u8]) -> Option<Form>
    ensures { IfSome result (λ form. form_named name.now ≡ Some form) }
{
    match name {
        b"int_eq" => Some(Form::Plain(ConstraintKind::IntEq)),
        b"int_ne" => Some(Form::Plain(ConstraintKind::IntNe)),
        b"int_le" => Some(Form::Plain(ConstraintKind::IntLe)),
        b"int_lt" => Some(Form::Plain(ConstraintKind::IntLt)),
        b"int_plus" => Some(Form::Plain(ConstraintKind::IntPlus)),
        b"bool_clause" => Some(Form::Plain(ConstraintKind::BoolClause)),
        _ => None,
    }
}

/// The form of a sum's name.
fn sum_named(name: &[u8]) -> Option<Form>
    ensures { result ≡ form_among name.now sums }
{
    match name {
        b"int_lin_eq" => Some(sum(Rel::Equal, false, false)),
        b"int_lin_eq_reif" => Some(sum(Rel::Equal, false, true)),
        b"int_lin_ne" => Some(sum(Rel::Differ, false, false)),
        b"int_lin_ne_reif" => Some(sum(Rel::Differ, false, true)),
        b"int_lin_le" => Some(sum(Rel::AtMost, false, false)),
        b"int_lin_le_reif" => Some(sum(Rel::AtMost, false, true)),
        b"bool_lin_eq" => Some(sum(Rel::Equal, true, false)),
        b"bool_lin_le" => Some(sum(Rel::AtMost, true, false)),
        _ => None,
    }
}

/// A sum: how it stands to its total, whether its terms are Booleans, and whether it is reified.
fn sum(rel: Rel, boolean: bool, reified: bool) -> Form
    ensures { result ≡ Form.Sum rel boolean reified }
{
    Form::Sum {
        rel,
        boolean,
        reified,
    }
}

fn sum_places(boolean: bool, reified: bool) -> &'static [Place]
    ensures { result.now ≡ reified_places reified (coefficients ∷ others boolean ∷ whole ∷ []) }
{
    match (boolean, reified) {
        (false, false) => &[COEFFICIENTS, OTHER_WHOLES, WHOLE],
        (false, true) => &[COEFFICIENTS, OTHER_WHOLES, WHOLE, TRUTH],
        (true, false) => &[COEFFICIENTS, OTHER_TRUTHS, WHOLE],
        (true, true) => &[COEFFICIENTS, OTHER_TRUTHS, WHOLE, TRUTH],
    }
}

fn kind_places(kind: ConstraintKind, count: usize) -> &'static [Place]
    ensures { result.now ≡ reified_places (is_reified kind) (plain_places (plain_of kind) count) }
{
    match kind {
        ConstraintKind::IntEq
        | ConstraintKind::IntNe
        | ConstraintKind::IntLe
        | ConstraintKind::IntLt
        | ConstraintKind::IntAbs => &[WHOLE, WHOLE],
        ConstraintKind::IntEqReif
        | ConstraintKind::IntNeReif
        | ConstraintKind::IntLeReif
        | ConstraintKind::IntLtReif => { &[WHOLE, WHOLE, TRUTH] }
        ConstraintKind::IntPlus
        | ConstraintKind::IntTimes
        | ConstraintKind::IntMin
        | ConstraintKind::IntMax
        | ConstraintKind::IntDiv
        | ConstraintKind::IntMod => &[WHOLE, WHOLE, WHOLE],
        ConstraintKind::BoolEq
        | ConstraintKind::BoolLe
        | ConstraintKind::BoolLt
        | ConstraintKind::BoolNot => &[TRUTH, TRUTH],
        ConstraintKind::BoolEqReif
        | ConstraintKind::BoolLeReif
        | ConstraintKind::BoolLtReif
        | ConstraintKind::BoolAnd
        | ConstraintKind::BoolOr => { &[TRUTH, TRUTH, TRUTH] }
        ConstraintKind::BoolXor if count == 2 => &[TRUTH, TRUTH],
        ConstraintKind::BoolXor => &[TRUTH, TRUTH, TRUTH],
        ConstraintKind::Bool2int => &[TRUTH, WHOLE],
        ConstraintKind::BoolClause => &[TRUTHS, OTHER_TRUTHS],
        ConstraintKind::BoolClauseReif => &[TRUTHS, OTHER_TRUTHS, TRUTH],
        ConstraintKind::ArrayBoolAnd | ConstraintKind::ArrayBoolOr => &[TRUTHS, TRUTH],
        ConstraintKind::ArrayBoolXor => &[TRUTHS],
        ConstraintKind::ArrayIntElement | ConstraintKind::ArrayVarIntElement => &[
            WHOLE, WHOLES, WHOLE,
        ],
        ConstraintKind::ArrayBoolElement | ConstraintKind::ArrayVarBoolElement => &[
            WHOLE, TRUTHS, TRUTH,
        ],
        ConstraintKind::SetIn => &[WHOLE, Place::Set],
        ConstraintKind::SetInReif => &[WHOLE, Place::Set, TRUTH],
        ConstraintKind::FznAllDifferentInt => &[WHOLES],
        ConstraintKind::FznTableInt => &[WHOLES, WHOLE_ROWS],
        ConstraintKind::FznTableIntReif => &[WHOLES, WHOLE_ROWS, TRUTH],
        ConstraintKind::FznTableBool => &[TRUTHS, TRUTH_ROWS],
        ConstraintKind::FznTableBoolReif => &[TRUTHS, TRUTH_ROWS, TRUTH],
    }
}
