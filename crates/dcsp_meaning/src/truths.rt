//! When a constraint holds.

ghost use Rattle.std.specs.Prelude.{◌≡◌, ◌<◌, ◌≤◌, IsTrue, length, []};
ghost use Rattle.std.specs.Ordering.{int_eq};
ghost use Rattle.dcsp_meaning.specs.declared.kinds.ConstraintKind.TheVariants as ConstraintKind;
ghost use Rattle.dcsp_meaning.specs.Table.{is_shape, plain_truth, truth};
ghost use Rattle.dcsp_meaning.specs.Suits.{Suits};
ghost use Rattle.dcsp_meaning.specs.Words.{argument, is_one, same, is_found, element_at};

use crate::arithmetic::{
    is_absolute, is_greatest, is_least, is_product, is_quotient, is_remainder, is_sum,
};
use crate::ground::Ground;
use crate::kinds::ConstraintKind;
use crate::lists::{all_different, all_true, element, odd_true, some_false, some_true};
use crate::shapes::{is_reified, plain_of};
use crate::tables::has_row;

/// Whether the constraint holds for these values.
///
/// A number in the place of a Boolean counts as true exactly where it is 1.
pub fn holds<G: Ground>(kind: ConstraintKind, ground: &G) -> bool
    requires { IsTrue (is_shape kind (length (G.scalar_values ground.now)) (length (G.first_values ground.now)) (length (G.second_values ground.now))) }
    ensures { result ≡ truth kind (G.scalar_values ground.now) (G.first_values ground.now) (G.second_values ground.now) (G.is_member ground.now) }
{
    if is_reified(kind) {
        plain_holds(plain_of(kind), ground) == (ground.scalar(ground.scalars() - 1) == 1)
    } else {
        plain_holds(kind, ground)
    }
}

/// Whether a constraint that is not reified holds for these values.
fn plain_holds<G: Ground>(kind: ConstraintKind, ground: &G) -> bool
    requires { Suits kind (length (G.scalar_values ground.now)) (length (G.first_values ground.now)) (length (G.second_values ground.now)) }
    ensures { result ≡ plain_truth kind (G.scalar_values ground.now) (G.first_values ground.now) (G.second_values ground.now) (G.is_member ground.now) }
{
    match kind {
        ConstraintKind::IntEq => ground.scalar(0) == ground.scalar(1),
        ConstraintKind::IntNe => ground.scalar(0) != ground.scalar(1),
        ConstraintKind::IntLe => ground.scalar(0) <= ground.scalar(1),
        ConstraintKind::IntLt => ground.scalar(0) < ground.scalar(1),
        ConstraintKind::IntPlus => is_sum(ground.scalar(0), ground.scalar(1), ground.scalar(2)),
        ConstraintKind::IntTimes => is_product(
            ground.scalar(0),
            ground.scalar(1),
            ground.scalar(2),
        ),
        ConstraintKind::IntMin => is_least(ground.scalar(0), ground.scalar(1), ground.scalar(2)),
        ConstraintKind::IntMax => is_greatest(ground.scalar(0), ground.scalar(1), ground.scalar(2)),
        ConstraintKind::IntAbs => is_absolute(ground.scalar(0), ground.scalar(1)),
        ConstraintKind::IntDiv => is_quotient(ground.scalar(0), ground.scalar(1), ground.scalar(2)),
        ConstraintKind::IntMod => is_remainder(
            ground.scalar(0),
            ground.scalar(1),
            ground.scalar(2),
        ),
        ConstraintKind::BoolEq => is_true(ground, 0) == is_true(ground, 1),
        ConstraintKind::BoolLe => !is_true(ground, 0) || is_true(ground, 1),
        ConstraintKind::BoolLt => !is_true(ground, 0) && is_true(ground, 1),
        ConstraintKind::BoolNot => is_true(ground, 0) != is_true(ground, 1),
        ConstraintKind::BoolAnd => (is_true(ground, 0) && is_true(ground, 1)) == is_true(ground, 2),
        ConstraintKind::BoolOr => (is_true(ground, 0) || is_true(ground, 1)) == is_true(ground, 2),
        ConstraintKind::BoolXor => xor_holds(ground),
        ConstraintKind::Bool2int => i64::from(is_true(ground, 0)) == ground.scalar(1),
        ConstraintKind::BoolClause => some_true(ground) || some_false(ground),
        ConstraintKind::ArrayBoolAnd => all_true(ground) == is_true(ground, 0),
        ConstraintKind::ArrayBoolOr => some_true(ground) == is_true(ground, 0),
        ConstraintKind::ArrayBoolXor => odd_true(ground),
        ConstraintKind::ArrayIntElement | ConstraintKind::ArrayVarIntElement => int_element_holds(
            ground,
        ),
        ConstraintKind::ArrayBoolElement | ConstraintKind::ArrayVarBoolElement =>
            bool_element_holds(ground),
        ConstraintKind::SetIn => ground.member(ground.scalar(0)),
        ConstraintKind::FznAllDifferentInt => all_different(ground),
        ConstraintKind::FznTableInt => has_row(ground, false),
        ConstraintKind::FznTableBool => has_row(ground, true),
        // a reified form has no row of its own
        _ => false,
    }
}

/// Whether the scalar at the place is true.
fn is_true<G: Ground>(ground: &G, place: usize) -> bool
    requires { place < length (G.scalar_values ground.now) }
    ensures { result ≡ is_one (argument (G.scalar_values ground.now) place) }
{
    ground.scalar(place) == 1
}

/// Whether exactly one of the first two scalars is true, or whether the third tells that.
fn xor_holds<G: Ground>(ground: &G) -> bool
    requires { 2 ≤ length (G.scalar_values ground.now) }
    ensures { result ≡ plain_truth ConstraintKind.BoolXor (G.scalar_values ground.now) [] [] (G.is_member ground.now) }
{
    let exactly_one = is_true(ground, 0) != is_true(ground, 1);
    if ground.scalars() == 2 {
        exactly_one
    } else {
        exactly_one == is_true(ground, 2)
    }
}

/// Whether the element at the first scalar, counted from 1, is the second scalar.
fn int_element_holds<G: Ground>(ground: &G) -> bool
    requires { 2 ≤ length (G.scalar_values ground.now) }
    ensures { result ≡ is_found (λ x. int_eq x (argument (G.scalar_values ground.now) 1)) (element_at (G.first_values ground.now) (argument (G.scalar_values ground.now) 0)) }
{
    match element(ground, ground.scalar(0)) {
        Some(value) => value == ground.scalar(1),
        None => false,
    }
}

/// The same for Booleans.
fn bool_element_holds<G: Ground>(ground: &G) -> bool
    requires { 2 ≤ length (G.scalar_values ground.now) }
    ensures { result ≡ is_found (λ x. same (is_one x) (is_one (argument (G.scalar_values ground.now) 1))) (element_at (G.first_values ground.now) (argument (G.scalar_values ground.now) 0)) }
{
    match element(ground, ground.scalar(0)) {
        Some(value) => (value == 1) == is_true(ground, 1),
        None => false,
    }
}
