//! A problem with one thing more, or the refusal at the place of the item that adds it.

ghost use Rattle.std.specs.Prelude.{◌≡◌, ◌+◌, length, All, IsTrue, IfOk, OnOk};
ghost use Rattle.dcsp_rule.specs.Lent.{lent_rule};
ghost use Rattle.dcsp_rule.specs.Rules.{IsTermOf, terms_of, has_shape};
ghost use Rattle.fzn_scope.specs.Checks.{Leaves};
ghost use Rattle.fzn_model.specs.Building.{with_variable, with_rule};
ghost use Rattle.fzn_model.specs.Reading.{error_at};

use dcsp_problem::{BuildError, Domain, ProblemBuilder, RuleRef};
use fzn_token::{ModelError, Refusal};

/// The builder's error, at a place.
fn error_at(at: u32, error: BuildError) -> ModelError
    ensures { result ≡ error_at at error }
{
    match error {
        BuildError::Limit { which, count } => ModelError::Refused(Refusal::Limit {
            which,
            count,
            at,
        }),
        BuildError::WideSum => ModelError::Refused(Refusal::WideSum { at }),
        BuildError::Memory => ModelError::Memory,
    }
}

/// Adds a variable, and gives its number.
pub(crate) fn add_variable(
    builder: &mut ProblemBuilder,
    at: u32,
    domain: Domain,
) -> Result<u32, ModelError>
    ensures number { IfOk result (λ number. number ≡ length builder.old.domains) }
    ensures added { Leaves builder.new result (with_variable at builder.old domain) }
    ensures domains { OnOk result (length builder.new.domains ≡ length builder.old.domains + 1) }
    ensures outputs { OnOk result (builder.new.outputs ≡ builder.old.outputs) }
{
    match builder.add_var(domain) {
        Ok(number) => Ok(number),
        Err(error) => Err(error_at(at, error)),
    }
}

/// Adds a rule, whose lists are copied.
#[inline(always)]
pub(crate) fn add_rule(
    builder: &mut ProblemBuilder,
    at: u32,
    rule: RuleRef<'_>,
) -> Result<(), ModelError>
    requires known { All (IsTermOf (length builder.old.domains)) (terms_of (lent_rule rule)) }
    requires shape { IsTrue (has_shape (lent_rule rule)) }
    ensures added { Leaves builder.new result (with_rule at builder.old (lent_rule rule.entry)) }
    ensures domains { OnOk result (builder.new.domains ≡ builder.old.domains) }
    ensures outputs { OnOk result (builder.new.outputs ≡ builder.old.outputs) }
{
    match builder.add_lent(rule) {
        Ok(_number) => Ok(()),
        Err(error) => Err(error_at(at, error)),
    }
}
