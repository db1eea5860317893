//! What is printed for variables and arrays.

ghost use Rattle.std.specs.Prelude.{◌≡◌, ◌<◌, ◌≤◌, ◌^◌, ◌+◌, ◌*◌, length, true, All, OnOk, Ok, Some};
ghost use Rattle.dcsp_domain.specs.Ranges.{count_between};
ghost use Rattle.dcsp_rule.specs.Rules.{IsTermOf};
ghost use Rattle.dcsp_problem.specs.Outputs.{range_product, IsOutputOf};
ghost use Rattle.fzn_scope.specs.Checks.{Leaves};
ghost use Rattle.fzn_model.specs.Building.{with_output};
ghost use Rattle.fzn_model.specs.Declarations.{is_shaped};
ghost use Rattle.fzn_model.specs.Reading.{HasRoom, at_most_many, shape_by, variable_output_by, array_output_by};

use crate::declaration::{Declaration, is_boolean};
use dcsp_domain::RangeList;
use dcsp_problem::{BuildError, NameText, Output, ProblemBuilder, Shape, Term, TermList};
use fzn_item::Marked;
use fzn_token::{ModelError, Refusal};
use std::alloc::Global;

/// More than any array has elements.
const MANY: u128 = 1 << 63;

/// Whether an array of so many elements can be printed as its mark says.
fn is_shaped(marked: &Marked, count: usize) -> bool
    requires { count < 2 ^ 63 }
    ensures { result ≡ is_shaped marked.now count }
{
    match marked {
        Marked::Nothing | Marked::Variable => true,
        Marked::Wrong => false,
        Marked::Ranges(ranges) => {
            let ranges = ranges.items();
            1 <= ranges.len() && ranges.len() <= 6 && product(ranges) == count as u128
        }
    }
}

/// The product of the ranges' sizes, or `MANY` where it is greater.
fn product(ranges: &[(i64, i64)]) -> u128
    ensures { result ≡ at_most_many (range_product ranges.now) }
{
    match ranges.split_first() {
        Some((first, rest)) => times(size(first.0, first.1), product(rest)),
        None => 1,
    }
}

/// How many numbers there are in a range.
fn size(low: i64, high: i64) -> u128
    ensures is { result ≡ count_between low high }
    ensures fits { result ≤ 2 ^ 64 }
{
    if low > high {
        return 0;
    }
    u128::from(high.abs_diff(low)) + 1
}

/// The product, or `MANY` where it is greater.
fn times(size: u128, product: u128) -> u128
    requires size { size ≤ 2 ^ 64 }
    requires product { product ≤ 2 ^ 63 }
    ensures { result ≡ at_most_many (size * product) }
{
    let product = size * product;
    if product > MANY { MANY } else { product }
}

/// Refuses an array of variables, of so many elements, that cannot be printed as its mark says.
pub(crate) fn check_shape(declaration: Declaration<'_, '_>, count: usize) -> Result<(), Refusal>
    requires { count < 2 ^ 63 }
    ensures is { result ≡ shape_by declaration.entry count }
    ensures shaped { OnOk result (declaration.entry.variable ≡ true → is_shaped declaration.entry.marked.now count ≡ true) }
{
    if declaration.variable && !is_shaped(declaration.marked, count) {
        return Err(Refusal::OutputShape {
            at: declaration.name_at,
        });
    }
    Ok(())
}

/// Adds what is printed for the variable of this number, if it is marked by `output_var`.
pub(crate) fn add_variable_output(
    alloc: Global,
    builder: &mut ProblemBuilder,
    declaration: Declaration<'_, '_>,
    number: u32,
) -> Result<(), ModelError>
    requires number { number < length builder.old.domains }
    requires room { HasRoom builder.old }
    ensures added { Leaves builder.new result (Ok (with_output builder.old (variable_output_by declaration.entry number))) }
    ensures domains { OnOk result (builder.new.domains ≡ builder.old.domains) }
    ensures outputs { OnOk result (length builder.new.outputs ≤ length builder.old.outputs + 1) }
{
    match declaration.marked {
        Marked::Nothing | Marked::Ranges(_) | Marked::Wrong => Ok(()),
        Marked::Variable => add_output(
            builder,
            Output {
                name: NameText::from_vec(Vec::from_slice(alloc, declaration.name)?),
                boolean: is_boolean(declaration.base),
                shape: Shape::One,
                terms: TermList::from_vec(vec![in alloc; Term::Var(number)]?),
            },
        ),
    }
}

/// Adds what is printed for an array of these elements, if it is of variables and marked by `output_array`.
pub(crate) fn add_array_output(
    alloc: Global,
    builder: &mut ProblemBuilder,
    declaration: Declaration<'_, '_>,
    terms: &[Term],
) -> Result<(), ModelError>
    requires known { All (IsTermOf (length builder.old.domains)) terms.now }
    requires elements { length terms.now ≤ 65536 }
    requires shaped { declaration.variable ≡ true → is_shaped declaration.marked.now (length terms.now) ≡ true }
    requires room { HasRoom builder.old }
    ensures added { Leaves builder.new result (Ok (with_output builder.old (array_output_by declaration.entry terms.now))) }
    ensures domains { OnOk result (builder.new.domains ≡ builder.old.domains) }
    ensures outputs { OnOk result (length builder.new.outputs ≤ length builder.old.outputs + 1) }
{
    match declaration.marked {
        Marked::Nothing | Marked::Variable | Marked::Wrong => Ok(()),
        Marked::Ranges(ranges) => {
            if !declaration.variable {
                return Ok(());
            }
            let shape = Shape::Ranges(RangeList::from_vec(Vec::from_slice(alloc, ranges.items())?));
            add_output(
                builder,
                Output {
                    name: NameText::from_vec(Vec::from_slice(alloc, declaration.name)?),
                    boolean: is_boolean(declaration.base),
                    shape,
                    terms: TermList::from_vec(Vec::from_slice(alloc, terms)?),
                },
            )
        }
    }
}

/// Adds what is printed.
fn add_output(builder: &mut ProblemBuilder, output: Output) -> Result<(), ModelError>
    requires fits { IsOutputOf (length builder.old.domains) output }
    requires room { HasRoom builder.old }
    ensures added { Leaves builder.new result (Ok (with_output builder.old (Some output))) }
    ensures domains { OnOk result (builder.new.domains ≡ builder.old.domains) }
    ensures outputs { OnOk result (length builder.new.outputs ≤ length builder.old.outputs + 1) }
{
    match builder.add_output(output) {
        Ok(()) => Ok(()),
        Err(_) => Err(ModelError::Memory),
    }
}
