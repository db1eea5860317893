//! The laws of whole runs: none stalls, none is longer than its bound, each end means what it says, numbers replay it,
//! its counts are small, what is in transit can be taken, and its choices are all orders.
#![tactic(auto)]

pub mod lossy;
pub mod measures;
pub mod samples;

ghost use Rattle.dcsp_defs.specs.Csp.{Csp};
ghost use Rattle.law_runs.specs.Bounded.{Bounded, UnfinishedBelow};
ghost use Rattle.law_runs.specs.Deliverable.{AllDeliverable, LinksJoin};
ghost use Rattle.law_runs.specs.NoStall.{NoStall};
ghost use Rattle.law_runs.specs.Orders.{OrdersAreChoices, FirstInFirstOut};
ghost use Rattle.law_runs.specs.Replay.{AllVerdicts, Replays, Continues};
ghost use Rattle.law_runs.specs.Sizes.{SizesHold};
ghost use Rattle.law_runs.specs.Stops.{AllStop};

/// In a network that is not refuted and has nothing in transit, nobody waits and the values are a solution.
pub fn no_stall()
    ensures { (p : Csp) → NoStall p }
{}

/// No list of choices makes more deliveries than the bound.
pub fn bounded()
    ensures { (p : Csp) → Bounded p }
{}

/// While a message is in transit and nothing is refuted, fewer deliveries than the bound were made.
pub fn unfinished_below()
    ensures { (p : Csp) → UnfinishedBelow p }
{}

/// Every end of a run has its verdict.
pub fn verdicts()
    ensures { (p : Csp) → AllVerdicts p }
{}

/// The numbers of a run's deliveries give the same run.
pub fn replays()
    ensures { (p : Csp) → Replays p }
{}

/// A run goes on by one delivery: the next step is right, and the bound is not passed.
pub fn continues()
    ensures { (p : Csp) → Continues p }
{}

/// Each run is open before each of its deliveries, delivers by its choices in order, and ends exactly
/// by the first of the four stops that applies.
pub fn stops()
    ensures { (p : Csp) → AllStop p }
{}

/// A stamp is at most the deliveries and one, so are the steps, and after the start each agent has a value.
pub fn sizes()
    ensures { (p : Csp) → SizesHold p }
{}

/// In a reached network that is not refuted each message in transit is one that its receiver can take:
/// a value of its domain from a higher agent, a nogood whose lowest variable is the receiver's, or a link
/// request from a lower agent. Stamps are above 0, and nogoods are those of the steps that they name.
pub fn deliverable()
    ensures { (p : Csp) → AllDeliverable p }
{}

/// Whatever the choices were, a list that is not empty leads between two different agents of the problem.
pub fn receivers()
    ensures { (p : Csp) → LinksJoin p }
{}

/// Whatever list of messages delivers next at each moment, some list of choices delivers so.
pub fn orders_are_choices()
    ensures { (p : Csp) → OrdersAreChoices p }
{}

/// No delivery overtakes another on its link: what is sent on a link is delivered in its order.
pub fn first_in_first_out()
    ensures { (p : Csp) → FirstInFirstOut p }
{}
