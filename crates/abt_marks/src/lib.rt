//! Marks of agents, one for each of so many: in a row, and in the table that says which agents are linked.
#![tactic(auto)]

mod link_table;
mod marks;

pub use dcsp_common::Memory;
pub use link_table::LinkTable;
pub use marks::{make_blank, mark, mark_pairs, mark_variables, named_by};
