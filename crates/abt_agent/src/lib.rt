//! One agent of asynchronous backtracking.
//!
//! Each variable has an agent, and a lower number is a higher priority. An agent takes a value that
//! nothing rules out, tells it to lower agents, and answers values and nogoods that reach it; where
//! every value is ruled out it sends a nogood to the lowest agent that this names (Yokoo, Durfee,
//! Ishida and Kuwabara, IEEE TKDE 10(5), 1998). Values carry stamps, and an agent keeps only nogoods
//! that agree with its view, at most one for each of its values.
#![tactic(auto)]

ghost use Rattle.std.specs.Prelude.{◌≡◌};
ghost use Rattle.abt_agent.specs.Turns.{turn_with};

mod agent;
mod ask;
mod body;
mod checks;
mod knowledge;
mod learn;
mod receive;
mod refusal;
mod search;
mod settle;

pub use abt_parts::Checks;
pub use agent::Agent;
pub use dcsp_common::Memory;
pub use ngd_log::Step;
pub use refusal::no_step;

/// What an agent did.
#[derive(Debug, Drop)]
pub enum Turn {
    /// It has taken no value and made no step.
    Quiet,
    /// It has taken a value and told it.
    Announced,
    /// It has made this step, whose nogood is not empty, and sent the nogood.
    Derived(Step),
    /// It has made this step, whose nogood is empty: the problem has no solution.
    Empty(Step),
}

/// What an agent did, where the step that it made, if it made one, stands elsewhere.
#[derive(Clone, Copy, Debug, PartialEq, Eq)]
pub enum TurnKind {
    /// It has taken no value and made no step.
    Quiet,
    /// It has taken a value and told it.
    Announced,
    /// It has made a step, whose nogood is not empty, and sent the nogood.
    Derived,
    /// It has made a step, whose nogood is empty: the problem has no solution.
    Empty,
}

impl TurnKind {
    /// What the agent did, with the step that it made, if it made one.
    pub fn with_step(self, step: Step) -> Turn
        ensures { result ≡ turn_with self step }
    {
        match self {
            TurnKind::Quiet => Turn::Quiet,
            TurnKind::Announced => Turn::Announced,
            TurnKind::Derived => Turn::Derived(step),
            TurnKind::Empty => Turn::Empty(step),
        }
    }
}
