//! Lines of words as rows of a table.
//!
//! A row says what a line of words is: its keyword, what each of its places and options may be, and its
//! sentence in the help. One parser, one usage and one help serve all rows.
#![tactic(auto)]

mod laws;
mod number;
mod row;
mod rows;
mod said;
mod texts;
mod value;

pub use laws::words_say_one_thing;
pub use row::{
    Access, Content, LineOption, OptionOf, Place, PlaceOf, Row, RowOf, WordKind, WordKindOf,
};
pub use rows::LineName;
pub use said::{MOST, Said, said_by, said_of};
pub use texts::{help, usage};
pub use value::Value;
