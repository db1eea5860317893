//! Whole runs of the agents of a problem, with the log that they write and what tells of their deliveries.
//!
//! A run goes from the start to the first of four stops: the problem is refuted; nothing is in transit,
//! and the values are a solution; the greatest number of deliveries was made; or the choices are used up
//! (Yokoo, Durfee, Ishida and Kuwabara, IEEE TKDE 10(5), 1998). Each step's line is appended to the log
//! as the step is made, and before a line that tells of its delivery is put, so that whatever was seen of
//! a run has its derivations in the log. A run that starves a link has no log, and nothing tells of its
//! deliveries: it gives how it ended, and its choices.
//!
//! A run may be that of the problem under an order of the model's variables. What is written and put of it, and the values
//! that it gives, have the model's own numbers.
#![tactic(auto)]

mod laws;
mod lines;
mod ordered;
mod outcome;
mod runner;
mod session;
mod starved_run;
mod telling;
mod told;
mod trace;

pub use abt_defs::End;
pub use dcsp_domain::IntList;
pub use dcsp_script::Stop as SessionError;
pub use laws::{lines_tell_deliveries, traces_tell_deliveries};
pub use lines::{append_begun, append_made};
pub use ordered::Ordered;
pub use outcome::Outcome;
pub use session::{RunTask, run};
pub use starved_run::{Starved, StarvingRun, starve};
pub use telling::Telling;
pub use told::{begun_told, step_told};
pub use trace::push_cargo;

/// The most deliveries of a run, as lines that run agents have it.
pub const MOST_DELIVERIES: u64 = 1 << 40;
