//! The line `drill SEED`: three generated problems are run, and the log of the last run is checked.
#![tactic(auto)]

mod drill;
mod laws;
mod run;
mod text;

pub use drill::run_drill;
pub use laws::drill_is_lawful;
