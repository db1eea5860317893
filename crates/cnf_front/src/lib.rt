//! Formulas in conjunctive normal form: problems as clauses, and nogoods as clauses.
#![tactic(auto)]

mod clauses;
mod formula;
mod header;
mod words;
mod writer;

pub use clauses::cnf_of;
pub use dcsp_common::Memory;
pub use formula::formula_of;
pub use header::CnfError;
pub use writer::write_clause;
