//! What is counted in a run while it is made: messages, checks, nogoods recorded, and clocks.
//!
//! A clock of a run is Lamport's (CACM 21(7), 1978): each agent has one, each message carries its sender's, and the
//! greatest in the end is the greatest weight of a causal chain. With checks as weights it counts checks that do not
//! wait for each other (Meisels, Kaplansky, Razgon and Zivan, 2002).
#![tactic(auto)]

mod carried;
mod clock;
mod counts;
mod delivery;
mod learned;
mod measures;
mod row;
mod run;
mod starting;
mod totals;
mod ways;

pub use clock::{RunClock, Weights};
pub use counts::{Came, Rows, count_by_clock};
pub use dcsp_common::Memory;
pub use delivery::{Coming, deliver_one};
pub use learned::Learned;
pub use measures::Measures;
pub use row::{Kinds, Row};
pub use run::{MeasuredRun, measure_run};
pub use starting::start;
pub use totals::{Totals, add_up};
