//! The parts of one agent: the messages that it sends and takes, what it believes of the agents above it, and the
//! nogoods that it keeps, with what tells fast which of them matter.
//!
//! They are those of asynchronous backtracking (Yokoo, Durfee, Ishida and Kuwabara, IEEE TKDE 10(5), 1998), with
//! stamps on values. An agent keeps at most one nogood for each of its own values, which a nogood's lowest pair
//! names, and forgets those that disagree with what it learns of agents above.
#![tactic(auto)]

mod checks;
mod listed;
mod message;
mod naming;
mod place_list;
mod recorded;
mod sending;
mod spare;
mod store;
mod taken;
mod told;
mod value_places;
mod view;

pub use checks::Checks;
pub use dcsp_common::Memory;
pub use listed::add_rising;
pub use message::{Message, MessageKind, Outbox, Sent, SentTo, StampList};
pub use recorded::Recorded;
pub use sending::{post, tell_all};
pub use store::Store;
pub use told::{add_told, has_value, is_news};
pub use view::{StampedValue, View};
