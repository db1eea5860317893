//! The lines of words that make a log of another: `upgrade LOG NEW` writes a log of version 1 as one of version 2,
//! in which each step is deleted after the last step that cites it; `core MODEL LOG TRIMMED [--better N]` writes the
//! steps that a refutation needs, and tells the rules that these cite.
#![tactic(auto)]

mod entries;
mod laws;
mod old_log;
mod steps;
mod trimming;
mod upgrade;

pub use laws::{core_is_lawful, new_is_upgraded, upgrade_is_lawful};
pub use trimming::{CoreLine, run_core};
pub use upgrade::run_upgrade;
