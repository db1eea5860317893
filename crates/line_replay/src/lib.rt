//! Runs of the agents of a problem: the line `replay`, under recorded choices, and runs under those of a
//! seed.
//!
//! A run writes its log, and its trace where one is asked for, as it goes on; then the record is written,
//! and how the run ended is put last. So whatever answer was seen has its log.
#![tactic(auto)]

mod ending;
mod laws;
mod record;
mod replay;
mod solution;
mod solve;

pub use ending::{end_status, push_counts, push_outcome};
pub use laws::{records_are_schedules, records_are_whole, records_replay, texts_tell_values};
pub use record::write_record;
pub use replay::{Replay, run_replay};
pub use solution::{push_solution, write_solution};
pub use solve::{Options, Solve, run_seed};
