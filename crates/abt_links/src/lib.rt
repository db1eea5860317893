//! The messages in transit between agents, and which pairs of agents have some.
//!
//! Asynchronous backtracking (Yokoo, Durfee, Ishida and Kuwabara, IEEE TKDE 10(5), 1998) asks of the
//! medium that messages between two agents come in the order of their sending. `Links` keeps one list
//! for each ordered pair, first in and first out, and finds nonempty list number `k`, by sender and
//! then by receiver, without a look at the others. `PairSet` is the ordered set of pairs that it does
//! this with.
#![tactic(auto)]

mod links;
mod open_pairs;
mod pair_set;
mod queues;
mod receivers;
mod row;
mod sums;

pub use abt_parts::{Memory, Message};
pub use links::{Carried, Links};
pub use pair_set::PairSet;
