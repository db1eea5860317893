//! Orders of a problem's variables, in which the first has the highest priority: their texts, orders by a rule, the problem
//! under an order, and what a run under it tells, in the problem's own numbers.
#![tactic(auto)]

mod by_rule;
mod order;
mod shared;
mod text;
mod told;
mod under;

ghost use Rattle.dcsp_order.specs.Laws.{DerivationsCome, RefutationsCome, SolutionsCome, SolutionsGo};

pub use by_rule::{OrderRule, one_order_by_rule};
pub use order::Order;
pub use text::{OrderError, one_answer, read_order};
pub use told::moved;

/// A problem and the problem under an order have the same solutions, told by numbers and by places.
pub fn solutions_stay()
    ensures by_place { SolutionsGo }
    ensures by_number { SolutionsCome }
{}

/// What derives and refutes under an order does so, renumbered, for the problem as it stands: a right step asks nothing of
/// priorities.
pub fn derivations_stay()
    ensures derivations { DerivationsCome }
    ensures refutations { RefutationsCome }
{}
