//! Parameters and variables: what their declarations say.

ghost use Rattle.std.specs.Prelude.{◌≡◌, ℕ, ◌<◌, length, OnOk, IfOk, IfErr, IfSome, Ok, Err};
ghost use Rattle.fzn_item.specs.declared.item.Base.TheVariants as base;
ghost use Rattle.dcsp_rule.specs.Rules.{IsTermOf};
ghost use Rattle.fzn_scope.specs.Checks.{Gives, Leaves};
ghost use Rattle.fzn_scope.specs.Known.{AreKnown};
ghost use Rattle.fzn_model.specs.Building.{with_rule};
ghost use Rattle.fzn_model.specs.Declarations.{is_boolean, right_side, constant, value_of, domain_of, source_of, equality, with_source};

use crate::building::add_rule;
use dcsp_problem::{ConstraintKind, MembersRef, ProblemBuilder, RuleRef, Term, Which};
use fzn_item::{Base, Expr, Marked};
use fzn_scope::{Context, Declared, Wanted};
use fzn_token::{ModelError, Refusal};

/// What a declaration says of its name.
#[derive(Clone, Copy)]
pub(crate) struct Declaration<'i, 't> {
    pub(crate) at: u32,
    pub(crate) variable: bool,
    /// The first and the last number of an array's elements.
    pub(crate) index: Option<(i64, i64)>,
    pub(crate) base: &'i Base,
    pub(crate) name_at: u32,
    pub(crate) name: &'t [u8],
    pub(crate) marked: &'i Marked,
    pub(crate) right: &'i Option<Expr>,
}

/// Whether values are Booleans.
pub(crate) fn is_boolean(base: &Base) -> bool
    ensures { result ≡ is_boolean base.now }
{
    match base {
        Base::Bool => true,
        Base::Int | Base::Float | Base::Set | Base::Range { .. } | Base::Listed(_) => false,
    }
}

/// A right side that there must be. Where there is none, the refusal is at the name.
pub(crate) fn right_side(name_at: u32, right: &Option<Expr>) -> Result<&Expr, Refusal>
    ensures ok { IfOk result (λ expr. right_side name_at right.now ≡ Ok expr.now) }
    ensures err { IfErr result (λ e. right_side name_at right.now ≡ Err e) }
{
    match right {
        Some(expr) => Ok(expr),
        None => Err(Refusal::IllTyped { at: name_at }),
    }
}

/// The constant of a right side.
fn constant(context: Context<'_, '_>, boolean: bool, expr: &Expr) -> Result<Declared, Refusal>
    ensures { result ≡ constant context.entry.text.now context.entry.names.now boolean expr.now }
{
    let wanted = Wanted {
        boolean,
        constant: true,
    };
    let term = context.one_of(wanted, expr)?;
    Ok(Declared::One { boolean, term })
}

/// A parameter's value.
pub(crate) fn value_of(
    context: Context<'_, '_>,
    at: u32,
    base: &Base,
    expr: &Expr,
) -> Result<Declared, ModelError>
    ensures { Gives result (value_of context.entry.text.now context.entry.names.now at base.now expr.now) }
{
    match base {
        Base::Bool => Ok(constant(context, true, expr)?),
        Base::Int | Base::Range { .. } | Base::Listed(_) => { Ok(constant(context, false, expr)?) }
        Base::Float => Err(ModelError::Refused(Refusal::Unsupported { at })),
        Base::Set => Ok(Declared::Set(context.set_of(expr)?)),
    }
}

/// What a variable is equal to, if it has a right side.
pub(crate) fn source_of(
    context: Context<'_, '_>,
    boolean: bool,
    right: &Option<Expr>,
) -> Result<Option<Term>, Refusal>
    ensures is { result ≡ source_of context.entry.text.now context.entry.names.now boolean right.now }
    ensures known { IfOk result (λ source. (variables : ℕ) → AreKnown variables context.entry.names.now → IfSome source (IsTermOf variables)) }
{
    let Some(expr) = right else {
        return Ok(None);
    };
    let wanted = Wanted {
        boolean,
        constant: false,
    };
    Ok(Some(context.one_of(wanted, expr)?))
}

/// Equality of integers or of Booleans.
fn equality(boolean: bool) -> ConstraintKind
    ensures { result ≡ equality boolean }
{
    if boolean {
        ConstraintKind::BoolEq
    } else {
        ConstraintKind::IntEq
    }
}

impl<'i, 't> Declaration<'i, 't> {
    /// Adds the rule that the variable of this number is equal to its right side, if it has one.
    pub(crate) fn add_source(
        self,
        builder: &mut ProblemBuilder,
        number: u32,
        source: Option<Term>,
    ) -> Result<(), ModelError>
        requires number { number < length builder.old.domains }
        requires known { IfSome source (IsTermOf (length builder.old.domains)) }
        ensures added { Leaves builder.new result (with_source self.entry.name_at builder.old (is_boolean self.entry.base.now) number source) }
        ensures domains { OnOk result (builder.new.domains ≡ builder.old.domains) }
        ensures outputs { OnOk result (builder.new.outputs ≡ builder.old.outputs) }
    {
        let Some(source) = source else {
            return Ok(());
        };
        let rule = RuleRef::Plain {
            kind: equality(is_boolean(self.base)),
            scalars: &[Term::Var(number), source],
            first: &[],
            second: &[],
            members: MembersRef::Listed(&[]),
        };
        add_rule(builder, self.name_at, rule)
    }
}
