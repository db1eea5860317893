//! Names in scope, and what the expressions of FlatZinc (MiniZinc Handbook) mean at the places that ask for
//! them: integers, Booleans, lists, sets, and the arguments of a constraint with the rule that they make.
//!
//! Each call answers what its definition in `specs/` gives: a value, or the first refusal from left to right.
#![tactic(auto)]

mod arguments;
mod bytes;
mod form;
mod lent;
mod lists;
mod names;
mod place;
mod variables;

pub use form::{Form, Place};
pub use lists::ArgumentLists;
pub use names::{Declared, Names, bytes_at};
pub use place::{Context, Wanted};
