//! The line `story MODEL SCHEDULE FILE [--order FILE]`: what happened in a run, event by event.
#![tactic(auto)]

mod laws;
mod story;
mod teller;

pub use laws::story_is_lawful;
pub use story::{Story, run_story};
