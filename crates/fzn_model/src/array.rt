//! Arrays: their elements, and the sets that these are in.

ghost use Rattle.std.specs.Prelude.{◌≡◌, ℕ, ◌≤◌, length, All, OnOk, IfOk, Ok};
ghost use Rattle.std.specs.Option.{option_map};
ghost use Rattle.dcsp_rule.specs.Lent.{lent_members};
ghost use Rattle.dcsp_rule.specs.Rules.{IsTermOf};
ghost use Rattle.dcsp_common.specs.Limits.{most};
ghost use Rattle.fzn_scope.specs.Checks.{Gives, Leaves};
ghost use Rattle.fzn_scope.specs.Known.{AreKnown};
ghost use Rattle.fzn_model.specs.Building.{with_rule};
ghost use Rattle.fzn_model.specs.Declarations.{check_element, element_set, is_index, within, with_member, with_set};
ghost use Rattle.fzn_model.specs.Reading.{elements_by};

use crate::building::add_rule;
use crate::declaration::{Declaration, is_boolean};
use dcsp_problem::{ConstraintKind, MembersRef, ProblemBuilder, RuleRef, Term, TermList, Which};
use fzn_item::{Base, Expr};
use fzn_scope::{Context, Wanted};
use fzn_token::{ModelError, Refusal};

/// Refuses arrays of floats and of sets.
pub(crate) fn check_element(at: u32, base: &Base) -> Result<(), Refusal>
    ensures { result ≡ check_element at base.now }
{
    match base {
        Base::Float | Base::Set => Err(Refusal::Unsupported { at }),
        Base::Bool | Base::Int | Base::Range { .. } | Base::Listed(_) => Ok(()),
    }
}

/// Refuses a count above its limit.
pub(crate) fn within(which: Which, count: usize, at: u32) -> Result<(), Refusal>
    ensures is { result ≡ within which count at }
    ensures few { OnOk result (count ≤ most which) }
{
    if count > which.most() {
        return Err(Refusal::Limit {
            which,
            count: count as u128,
            at,
        });
    }
    Ok(())
}

/// Whether an index goes from 1 to so many.
fn is_index(index: (i64, i64), count: usize) -> bool
    ensures { result ≡ is_index index count }
{
    index.0 == 1 && i128::from(index.1) == count as i128
}

/// The elements of an array, as many as its index says, each of the element type.
#[tactic(auto, unfolding(crate::specs::Declarations::elements))]
pub(crate) fn elements(
    context: Context<'_, '_>,
    declaration: Declaration<'_, '_>,
    index: (i64, i64),
    right: &Expr,
) -> Result<TermList, ModelError>
    ensures gives { Gives result (elements_by context.entry.text.now context.entry.names.now declaration.entry index right.now) }
    ensures known { IfOk result (λ terms. (variables : ℕ) → AreKnown variables context.entry.names.now → All (IsTermOf variables) terms) }
{
    let count = context.count_of(right)?;
    if !is_index(index, count) {
        return Err(ModelError::Refused(Refusal::IllTyped {
            at: declaration.name_at,
        }));
    }
    let wanted = Wanted {
        boolean: is_boolean(declaration.base),
        constant: !declaration.variable,
    };
    context.list_of(wanted, right)
}

/// The set that elements are in, if the element type says one.
fn element_set(base: &Base) -> Option<MembersRef<'_>>
    ensures { option_map lent_members result ≡ element_set base.now }
{
    match base {
        Base::Range { low, high } => Some(MembersRef::Between {
            low: *low,
            high: *high,
        }),
        Base::Listed(values) => Some(MembersRef::Listed(values.items())),
        Base::Bool | Base::Int | Base::Float | Base::Set => None,
    }
}

/// Adds the rule that an element is in the set of its type, if that says one.
fn add_member(
    builder: &mut ProblemBuilder,
    declaration: Declaration<'_, '_>,
    term: Term,
) -> Result<(), ModelError>
    requires { IsTermOf (length builder.old.domains) term }
    ensures added { Leaves builder.new result (with_member declaration.entry.name_at builder.old (element_set declaration.entry.base.now) term) }
    ensures domains { OnOk result (builder.new.domains ≡ builder.old.domains) }
    ensures outputs { OnOk result (builder.new.outputs ≡ builder.old.outputs) }
{
    let Some(members) = element_set(declaration.base) else {
        return Ok(());
    };
    let rule = RuleRef::Plain {
        kind: ConstraintKind::SetIn,
        scalars: &[term],
        first: &[],
        second: &[],
        members,
    };
    add_rule(builder, declaration.name_at, rule)
}

/// Adds the rules that the elements of an array of variables are in the set of their type, in order, if that says one.
pub(crate) fn add_members(
    builder: &mut ProblemBuilder,
    declaration: Declaration<'_, '_>,
    terms: &[Term],
) -> Result<(), ModelError>
    requires { All (IsTermOf (length builder.old.domains)) terms.now }
    ensures added { Leaves builder.new result (with_set declaration.entry.variable declaration.entry.name_at builder.old (element_set declaration.entry.base.now) terms.now) }
    ensures domains { OnOk result (builder.new.domains ≡ builder.old.domains) }
    ensures outputs { OnOk result (builder.new.outputs ≡ builder.old.outputs) }
{
    if !declaration.variable {
        return Ok(());
    }
    for term in terms {
        add_member(builder, declaration, *term)?;
    }
    Ok(())
}
