//! Laws of the definitions.

ghost use Rattle.fzn_model.specs.Models.{HasOneAnswer};
ghost use Rattle.fzn_model.specs.Laws.{RefusesFirst};

/// A text has one problem or one refusal.
pub fn one_answer()
    ensures { HasOneAnswer }
{}

/// Items are refused for the first of them that cannot be resolved after all before it were, or else for
/// want of a solve item.
pub fn first_refusal()
    ensures { RefusesFirst }
{}
