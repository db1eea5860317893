//! The line `check MODEL LOG [--better N]`: a log of either version is checked against a model as its pieces
//! come, and what was found is put in one line.
#![tactic(auto)]

mod asked;
mod check;
mod laws;
mod log_check;
mod pieces;

pub use asked::take_problem;
pub use check::{Check, finding_line, finding_status, is_verified, run_check, tell};
pub use laws::check_is_lawful;
pub use log_check::Checked;
pub use pieces::{check_and_keep, check_log};
