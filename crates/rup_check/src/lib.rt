//! Proofs of unsatisfiability, checked by unit propagation.
#![tactic(auto)]

mod assignment;
mod check;
mod clauses;
mod places;
mod propagation;
mod reader;
mod turns;
mod watches;

pub use check::{Rup, check_rup};
pub use clauses::ClauseList;
pub use dcsp_common::Memory;
pub use reader::{ProofError, proofs_are_exact, read_proof};
