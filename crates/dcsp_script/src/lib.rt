//! What a line of words does to the outside, and what the program promises of it.
//!
//! A line's contract names one script, the writes in their order. It was made whole, or one of
//! its writes failed and nothing after it was tried, or memory was wanted after some first writes.
//! A line's promise names the files that it fetches, the names that it creates, and its report of
//! the files' bytes: a status, the writes in their order, and what goes to `err`. All that is said
//! of a run of any line is said here once.
#![tactic(auto)]

mod err;
mod order;
mod outside;
mod status;
mod step;
mod stop;
mod writes;

pub use err::say;
pub use order::parts_in_order;
pub use outside::Outside;
pub use status::Status;
pub use step::append_step;
pub use stop::Stop;
pub use writes::{append, create, put};
