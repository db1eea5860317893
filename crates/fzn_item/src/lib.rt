//! The items of FlatZinc, as the MiniZinc Handbook's chapter on FlatZinc has them.
//!
//! The tokens of a text are cut after each `;`, and each piece is one item. Names and texts stay places
//! of the text. The productions stand in `specs/` as relations on token lists, one beside the other.
#![tactic(auto)]

mod annotation;
mod atom;
mod declaration;
mod element;
mod expr;
mod item;
mod lent;
mod lists;
mod marking;
mod reading;
mod single;

pub use dcsp_common::Memory;
pub use dcsp_domain::{IntList, RangeList};
pub use item::{Atom, AtomList, Base, Expr, ExprList, Goal, Item, ItemList, Marked};
pub use lent::{
    LentArguments, LentConstraint, LentExpr, LentItem, after_mark, next_atom, next_constraint,
    next_expr, next_lent,
};
pub use reading::{items, items_end_at_semicolons, items_stay_read, next_item, one_answer};
