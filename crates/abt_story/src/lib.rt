//! The story of a run: what happened in each event, as lines that a reader can follow.
//!
//! An event is the start, or one delivery. Its lines say what was delivered, what the receiver learned, which nogoods it
//! dropped and recorded, which of its values are ruled out for which reason, which value it took, which step it made, and
//! what it sent: so the lines so far tell how all agents and all lists of messages stand.
#![tactic(auto)]

mod before;
mod deed;
mod delivery;
mod laws;
mod reasons;
mod start;
mod texts;

pub use dcsp_common::Memory;
pub use delivery::tell_delivery;
pub use laws::{deliveries_are_told, nothing_is_hidden, stories_differ, traces_differ};
pub use start::tell_start;
