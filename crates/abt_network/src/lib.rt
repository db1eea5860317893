//! All agents of a problem, and the messages in transit between them.
//!
//! The network is the machine of the definitions: one event is one delivery, in which the first message
//! of one list is handed to its receiver, and a choice says which list (Yokoo, Durfee, Ishida and
//! Kuwabara, IEEE TKDE 10(5), 1998). Whatever the choices are, a run ends, and in the end either a step
//! with the empty nogood was made or the agents' values are a solution.
#![tactic(auto)]

mod begin;
mod body;
mod deliver;
mod network;
mod post;
mod room;

pub use abt_parts::{MessageKind, SentTo};
pub use dcsp_common::Memory;
pub use network::Network;
pub use ngd_log::Step;
pub use room::DeliveryRoom;

/// How a start ends.
#[derive(Debug, Drop)]
pub enum Begun {
    /// Nothing is refuted, and no step was made.
    Running,
    /// This step refuted the problem: its nogood is empty.
    Refuted(Step),
}

/// How a network stands.
#[derive(Clone, Copy, Debug, PartialEq, Eq)]
pub enum Standing {
    /// A message is in transit, and nothing is refuted.
    Open,
    /// Nothing is in transit, and nothing is refuted: the values are a solution.
    Quiet,
    /// A step with the empty nogood was made: the problem has no solution.
    Refuted,
}

/// What a message carries, without stamps.
#[derive(Clone, Copy, Debug, PartialEq, Eq)]
pub enum Cargo {
    /// The sender's value.
    Tell { value: i64 },
    /// The nogood of the step with this number, counted from 1.
    Refuse { step: u64 },
    /// A request to be told the receiver's values.
    AddLink,
}

/// One delivery.
#[derive(Debug, Drop)]
pub struct Delivery {
    /// The number of the list among those that were ready, counted from 0.
    pub number: u32,
    /// The sender, counted from 0.
    pub from: u32,
    /// The receiver, counted from 0.
    pub to: u32,
    pub cargo: Cargo,
    /// The step that the receiver made, if it made one.
    pub step: Option<Step>,
}
