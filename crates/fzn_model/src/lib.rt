//! The problem of a FlatZinc text, or its first refusal.
//!
//! A text is refused for its tokens first, then for its items, and then by resolution: the items are taken
//! in the order of the file, and the checks of an item in a stated order, `specs/` has them. The accepted
//! part of FlatZinc (MiniZinc Handbook) has bounded integers, Booleans, parameters, sets as parameters and
//! arrays, and the constraints that `fzn_scope` lists.
#![tactic(auto)]

mod array;
mod building;
mod declaration;
mod domains;
mod goal;
mod in_turn;
mod laws;
mod output;
mod resolver;

pub use dcsp_common::Memory;
pub use dcsp_problem::{Problem, Which};
pub use fzn_token::{ModelError, Refusal};
pub use in_turn::problem_of;
pub use laws::{first_refusal, one_answer};
