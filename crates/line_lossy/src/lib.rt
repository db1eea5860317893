//! The line `lossy`: the agents of a problem over a medium that loses, repeats and reorders packets, under events
//! from a seed, and then under calm ones until a verdict stands.
//!
//! A run writes its log as it goes on; then the record is written, and how the run ended is put last. So whatever
//! answer was seen has its log.
#![tactic(auto)]

mod ending;
mod laws;
mod line;
mod runner;

pub use laws::{lossy_is_lawful, lossy_runs_are_right, lossy_runs_are_whole};
pub use line::{Losses, run_lossy};
