//! Constraint satisfaction problems, nogoods, derivations and refutations, and the entries of logs: what speaks of no
//! agent.
//!
//! The definitions stand in `specs/`. A problem is abstract here: a domain for each variable, and
//! constraints, each of which is a scope and a test of values that looks at the scope alone.
#![tactic(auto)]

mod derivation;
mod entry;
mod lent;
mod nogood;

ghost use Rattle.dcsp_defs.specs.Csp.{Csp};
ghost use Rattle.dcsp_defs.specs.Derivation.{NogoodsExclude, RefutationsRefute};

use dcsp_common::ItemList;
pub use derivation::Derivation;
pub use entry::{Entries, Entry, NumberList};
pub use lent::{Lent, LentStep};
pub use nogood::{MergeError, Nogood, NogoodError, Pair, values_determine};

/// Why a step rules a value out.
#[derive(Clone, Copy, Debug, PartialEq, Eq)]
pub enum Reason {
    /// The rule with this number, counted from 0, is false.
    Rule(u32),
    /// The nogood of the step with this number, counted from 1, agrees.
    Earlier(u64),
}

/// A list of reasons.
pub type ReasonList = ItemList<Reason>;

/// A derivation step. It derives the nogood at a variable, with one reason for each value of its
/// domain, in rising order of the values; or it has no variable, the empty nogood, and one reason.
#[derive(Debug, Drop)]
pub struct Step {
    /// The variable, counted from 0.
    pub variable: Option<u32>,
    pub nogood: Nogood,
    pub reasons: ReasonList,
}

/// No solution extends the nogood of a right derivation's step.
pub fn nogoods_exclude()
    ensures { (p : Csp) → NogoodsExclude p }
{}

/// A problem with a refutation has no solution.
pub fn refutations_refute()
    ensures { (p : Csp) → RefutationsRefute p }
{}
