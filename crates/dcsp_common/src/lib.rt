//! What every crate shares: lists that contracts see as lists, want of memory, items by number, numbers in decimal
//! digits, bits of words, and how large a problem may be.
#![tactic(auto)]

mod entries;
mod limits;
mod list;
mod number;
pub mod word;

pub use entries::{Entry, item_of, place_of, put, put_reserved};
pub use limits::Which;
pub use list::{ItemList, Memory};
pub use number::{digits_at, number_at, push_number, push_signed};
