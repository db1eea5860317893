//! Agents over a medium that loses, repeats and reorders packets: the world of packets as definitions, and its laws.
//!
//! Each link between two agents is kept in order by numbered data, acknowledgements and sending
//! again. The agents are those of `abt_defs`.

ghost use Rattle.dcsp_defs.specs.Csp.{Csp};
ghost use Rattle.law_runs.specs.LossyLinks.{FactsHold, HandsUpInOrder, WorldIsSmall};
ghost use Rattle.law_runs.specs.LossyRuns.{IsRun, IsWhole, NumbersArePlaces, OneMoreEvent};
ghost use Rattle.law_runs.specs.LossyVerdicts.{HandedUpBounded, QuietIsSolved, StepsAreRight};
ghost use Rattle.law_runs.specs.CalmEvents.{CalmBudget, CalmEvents, NoVerdictYet};

/// No more is acknowledged than was handed up, no more is handed up than was sent, and the packets on
/// their way carry the messages and the acknowledgements that their numbers say.
pub fn facts_hold()
    ensures { (p : Csp) → FactsHold p }
{}

/// What was handed up on a pair is the first part of what was sent there: nothing is lost, repeated or
/// out of order.
pub fn hands_up_in_order()
    ensures { (p : Csp) → HandsUpInOrder p }
{}

/// The agents, their steps and the messages not yet handed up are those of a run over reliable links,
/// under the numbers of all that was handed up.
pub fn is_run()
    ensures { (p : Csp) → IsRun p }
{}

/// These numbers, as recorded choices, give the same run again, with the same end.
pub fn is_whole()
    ensures { (p : Csp) → IsWhole p }
{}

/// One event more hands up nothing, or it is one delivery.
pub fn one_more_event()
    ensures { (p : Csp) → OneMoreEvent p }
{}

/// The number of a pair among those whose list is not empty is its place there.
pub fn numbers_are_places()
    ensures { (p : Csp) → NumbersArePlaces p }
{}

/// In a quiet world that is not refuted the agents' values are a solution.
pub fn quiet_is_solved()
    ensures { (p : Csp) → QuietIsSolved p }
{}

/// The steps are a derivation, and those of a refuted world a refutation.
pub fn steps_are_right()
    ensures { (p : Csp) → StepsAreRight p }
{}

/// At most as many messages are handed up as the message bound says.
pub fn handed_up_bounded()
    ensures { (p : Csp) → HandedUpBounded p }
{}

/// After any events calm ones bring a verdict, and a stated number of them is enough.
pub fn calm_budget()
    ensures { (p : Csp) → CalmBudget p }
{}

/// How few calm events there were where no verdict stands.
pub fn no_verdict_yet()
    ensures { (p : Csp) → NoVerdictYet p }
{}

/// Calm events are the events of their words.
pub fn calm_events()
    ensures { (p : Csp) → CalmEvents p }
{}

/// Packets, deliveries and counts are at most the number of events.
pub fn world_is_small()
    ensures { (p : Csp) → WorldIsSmall p }
{}
