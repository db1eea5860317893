//! Problems: variables with finite domains, rules over them, and what is told of a solution.
//!
//! Variables and rules are numbered from 0, in order of declaration. The variable of a rule's scope that is declared
//! last owns the rule. A builder tries each part against the limits, and a finished problem has the tables that are
//! read off its rules once.
#![tactic(auto)]

mod builder;
mod index;
mod limits;
mod lower;
mod problem;
mod table;
mod widths;

pub use builder::ProblemBuilder;
pub use dcsp_common::Which;
pub use dcsp_domain::{Domain, DomainError, IntList, Memory, RangeList};
pub use dcsp_meaning::{ConstraintKind, Rel};
pub use dcsp_rule::{
    Aim, BinaryRule, Lookup, Members, MembersRef, NameText, Output, Rule, RuleRef, RuleTable,
    Shape, Term, TermList,
};
pub use limits::BuildError;
pub use problem::Problem;
