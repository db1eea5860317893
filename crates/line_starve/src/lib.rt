//! The line `starve MODEL FROM TO FILE [--order FILE]`: a run that delays one link as long as it can, told by its choices.
//!
//! Each delivery is from the first list of messages that is not the starved link's, and from that link's
//! only where it is the only one. The bound on deliveries holds for such runs too.
#![tactic(auto)]

mod laws;
mod starve;

pub use laws::starve_is_lawful;
pub use starve::{Starve, run_starve};
