//! Reading the files of a command, and saying why one was refused.
//!
//! A model is read into its problem, a schedule into its choices, an order of a problem's variables into their
//! numbers, a formula into its problem and a proof into its clauses, each with the exact reason where it is refused, and each reason has its status and its line on
//! standard error. Of a log the bytes are read.
#![tactic(auto)]

mod clauses_error;
mod error;
mod line;
mod model_text;
mod order_error;
mod read;

pub use clauses_error::ClausesError;
pub use error::{CommandError, error_line, error_status, stop_error};
pub use line::AnswerLine;
pub use order_error::OrderRefusal;
pub use read::{read_choices, read_formula, read_log_text, read_model, read_order_of, read_proof};
