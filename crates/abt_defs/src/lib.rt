//! Asynchronous backtracking as a machine: the definitions of agents, links and runs, and how a run ends.
//!
//! The kinds of message, the fixed priorities and the sending of a nogood to its lowest-priority
//! variable are those of Yokoo, Durfee, Ishida and Kuwabara, IEEE TKDE 10(5), 1998. Values carry
//! stamps, and an agent keeps only nogoods that agree with its view.
#![tactic(auto)]

mod end;

pub use end::End;
