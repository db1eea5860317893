//! Which values of one variable a rule rules out, in one pass over them.
//!
//! The values of the other variables are looked up once, and not for each value again.
#![tactic(auto)]

mod cut;
mod easy;
mod fill;
mod general;
mod known;
mod line;
mod marks;
mod row;
mod span;
mod sums;
mod tables;
mod walk;

pub use easy::has_span;
pub use fill::{fill_row, span_of};
pub use known::{OpenVariable, WithValue};
pub use marks::Marks;
pub use row::Row;
pub use span::Span;
pub use walk::Walk;
