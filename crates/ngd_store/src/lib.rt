//! Nogoods and steps in little room: lists of pairs in one list of cells, and what steps have beside them in one list of words.
#![tactic(auto)]

mod arena;
mod freed;
mod reasons;
mod rests;

pub use arena::{Arena, NO_VAR, Placed};
pub use dcsp_common::Memory;
pub use reasons::Reasons;
pub use rests::{A_STEP, FAR_RULE, Rests};
