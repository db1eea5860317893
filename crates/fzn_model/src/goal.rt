//! Goals: what is wanted of a solution.

ghost use Rattle.std.specs.Prelude.{◌≡◌, ℕ, IfOk};
ghost use Rattle.dcsp_rule.specs.Rules.{IsAimOf};
ghost use Rattle.fzn_scope.specs.Known.{AreKnown};
ghost use Rattle.fzn_model.specs.Items.{aim_of};

use dcsp_problem::Aim;
use fzn_item::Goal;
use fzn_scope::{Context, Wanted};
use fzn_token::Refusal;

/// An integer, constant or not.
const AN_INTEGER: Wanted = Wanted {
    boolean: false,
    constant: false,
};

/// What a goal wants of a solution: any, or the least or the greatest value of an integer.
///
/// `Undeclared` and `IllTyped` come as at every integer's place, at the first byte of the goal's expression.
pub(crate) fn aim_of(context: Context<'_, '_>, goal: &Goal) -> Result<Aim, Refusal>
    ensures is { result ≡ aim_of context.entry.text.now context.entry.names.now goal.now }
    ensures known { IfOk result (λ aim. (variables : ℕ) → AreKnown variables context.entry.names.now →
        IsAimOf variables aim) }
{
    match goal {
        Goal::Satisfy => Ok(Aim::Satisfy),
        Goal::Minimize { what, .. } => Ok(Aim::Least(context.one_of(AN_INTEGER, what)?)),
        Goal::Maximize { what, .. } => Ok(Aim::Greatest(context.one_of(AN_INTEGER, what)?)),
    }
}
