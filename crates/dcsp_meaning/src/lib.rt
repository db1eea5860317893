//! What each constraint means for numbers: FlatZinc's table of builtin constraints, as the MiniZinc Handbook lists
//! it, `fzn_all_different_int`, and tables.
#![tactic(auto)]

mod arithmetic;
mod ground;
mod kinds;
mod laws;
mod linear;
mod lists;
mod shapes;
mod tables;
mod truths;

pub use ground::Ground;
pub use kinds::ConstraintKind;
pub use laws::{division_truncates, rows_are_pieces};
pub use linear::{Rel, WIDEST, Weighted, plus_greatest, plus_product, product, sum_holds, width};
pub use shapes::{is_table, shape_ok};
pub use truths::holds;
