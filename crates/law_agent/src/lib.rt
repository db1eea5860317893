//! What always holds of agents and of the networks that they reach, what their steps are, and how much they keep.
#![tactic(auto)]

ghost use Rattle.std.specs.Prelude.{ℕ};
ghost use Rattle.law_agent.specs.Invariants.{InvariantsHold};
ghost use Rattle.law_agent.specs.Merges.{MergesAreUnions, SoundMerges};
ghost use Rattle.law_agent.specs.OneAgentSteps.{AgentsStepRight};
ghost use Rattle.law_agent.specs.Staying.{AgentsStartSound, AgentsStaySound, OnlyLearns};
ghost use Rattle.law_agent.specs.StepsRight.{StepsRight, RefutedRefutes};
ghost use Rattle.law_agent.specs.Stores.{BoundedStores, SoundStores};
ghost use Rattle.dcsp_defs.specs.Csp.{Csp};
ghost use Rattle.abt_defs.specs.Agents.{Agent};

/// The invariants hold of every network that a run reaches and that is not refuted, whatever the choices were.
pub fn invariants()
    ensures { (p : Csp) → InvariantsHold p }
{}

/// What always holds of an agent holds before its start.
pub fn agents_start_sound()
    ensures { (p : Csp) → AgentsStartSound p }
{}

/// Whatever an agent does leaves what always holds of it.
pub fn agents_stay_sound()
    ensures { (p : Csp) → AgentsStaySound p }
{}

/// A nogood that an agent heeds changes none of its stamps, and what it learns brings no nogood in.
pub fn agents_only_learn()
    ensures { (i : ℕ) (a : Agent) → OnlyLearns i a }
{}

/// Each step that a run makes is right after the steps before it.
pub fn steps_right()
    ensures { (p : Csp) → StepsRight p }
{}

/// The steps of a refuted run are a refutation.
pub fn refuted_refutes()
    ensures { (p : Csp) → RefutedRefutes p }
{}

/// The nogood that an agent derives is the union of what its reasons contribute, and these never clash.
pub fn merges_are_unions()
    ensures { (p : Csp) → MergesAreUnions p }
{}

/// So is that of each agent of which holds what always does.
pub fn sound_merges()
    ensures { (p : Csp) → SoundMerges p }
{}

/// A step that one agent makes is right after any steps of which those that its nogoods and the message name have
/// these nogoods.
pub fn agents_step_right()
    ensures { (p : Csp) → AgentsStepRight p }
{}

/// At every moment of a run each agent has recorded at most one nogood for each value of its domain.
pub fn bounded_stores()
    ensures { (p : Csp) → BoundedStores p }
{}

/// So has each agent of which holds what always does.
pub fn sound_stores()
    ensures { (p : Csp) → SoundStores p }
{}
