//! A medium between agents that loses, repeats and reorders packets, and what keeps each link in
//! order all the same: numbered data, acknowledgements, and sending again.
//!
//! A packet carries no message here: the number of its data says which message of its sender's list
//! it is. The agents are those of a network with reliable links, in whose lists are the messages that
//! were sent and not handed up; to hand one up is to deliver it there.
#![tactic(auto)]

mod carrier;
mod counts;
mod lossy;
mod parts;
mod pool;

pub use abt_network::{Begun, Standing};
pub use dcsp_common::Memory;
pub use lossy::Lossy;
pub use ngd_log::Step;
pub use parts::Happened;
