//! The line `export MODEL LOG CNF PROOF [--atoms] [--better N]`: a refutation of a model as a formula in conjunctive
//! normal form and a proof about it, which checkers of clauses read.
#![tactic(auto)]

mod atoms;
mod clauses;
mod export;
mod formula;
mod laws;
mod limits;
mod lines;
mod write;

pub use export::{ExportLine, run_export};
pub use laws::export_is_lawful;
