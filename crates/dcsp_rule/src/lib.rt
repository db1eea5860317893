//! What problems are made of: rules, which the constraints of a FlatZinc text become, and whether they hold where a
//! look-up gives their variables values; outputs, and what is wanted of a solution.
//!
//! A problem denotes an abstract constraint satisfaction problem, `csp_of` in `specs/`: a rule's scope is the set of
//! variables among its terms, and its test is the meaning of its kind, or of its sum, for its terms' values.
#![tactic(auto)]

mod aim;
mod flat;
mod form;
mod ground;
mod lent;
mod lookup;
mod members;
mod output;
mod pair;
mod parts;
mod rule;

pub use aim::Aim;
pub use flat::RuleTable;
pub use form::{Form, forms_of};
pub use ground::is_true_under;
pub use lent::{MembersRef, RuleRef};
pub use lookup::{Assignment, Lookup, WithinDomains};
pub use members::MemberSet;
pub use output::{NameText, Output, Shape};
pub use pair::BinaryRule;
pub use rule::{Members, NumberList, Rule, Term, TermList};
