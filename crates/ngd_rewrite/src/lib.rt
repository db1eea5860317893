//! Derivations written anew: cut down to what a refutation needs, or as entries with deletions of the steps that
//! nothing cites any more.
#![tactic(auto)]

mod append;
mod cores;
mod endings;
mod ends;
mod log;
mod needed;
mod rules;
mod trim;
mod upgrade;

pub use cores::{Core, RuleNumbers, core_of};
pub use dcsp_common::Memory;
pub use endings::Endings;
pub use trim::Trimmed;
pub use upgrade::{one_finding, upgraded, upgraded_have_text};
