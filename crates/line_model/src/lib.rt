//! The lines of words that are about models alone: `bound MODEL [--order FILE]` tells how many messages a run can
//! deliver at most, `order MODEL RULE FILE` writes an order of a model's variables, `gen queens N`, `gen colouring N K SEED`,
//! `gen sparse N SEED`, `gen pigeons N`, `gen binary N D EDGES PAIRS SEED`, `gen meetings PEOPLE MEETINGS EACH HOURS
//! BUSY SEED` and `gen sensors SIDE TARGETS SEES SEED` print a model. No line here runs an agent.
#![tactic(auto)]

mod agents_bound;
mod bound;
mod generated;
mod laws;
mod order;
mod text;

pub use agents_bound::message_bound;
pub use bound::{Bound, run_bound};
pub use generated::{
    run_binary, run_colouring, run_meetings, run_pigeons, run_queens, run_sensors, run_sparse,
};
pub use laws::promises_are_lawful;
pub use order::{OrderLine, run_order};
pub use text::print;
