//! The lines of words that are about formulas in conjunctive normal form: `cnf CNF PROOF [--seed N]` runs the
//! agents of a formula's problem and writes a proof where it cannot be satisfied, and `rup CNF PROOF` checks such
//! a proof.
#![tactic(auto)]

mod answer;
mod apart;
mod clause_row;
mod clause_run;
mod cnf;
mod laws;
mod proof;
mod rup;

pub use cnf::{Cnf, run_cnf};
pub use laws::{clauses_say_rules, promises_are_lawful, refutations_are_proofs};
pub use rup::run_rup;
