//! The commands of the program, over a folder and two streams.
//!
//! Each line of words has a promise; `run_command` finds the line, runs it, and says what stopped
//! it. What holds of every line is said once, in its contract.
#![tactic(auto)]

mod command;
mod plain;
mod request;

pub use command::{lines_are_lawful, run_command};
pub use dcsp_script::Status;
pub use plain::VERSION;
pub use request::{Request, words_of};
