//! The laws of measures: a run's acts are the run, its kinds of messages sum to its deliveries, and its clocks are the
//! greatest weights of its causal chains.

ghost use Rattle.dcsp_defs.specs.Csp.{Csp};
ghost use Rattle.law_runs.specs.ActRuns.{ActsMakeRuns};
ghost use Rattle.law_runs.specs.Starts.{StartsInOrder};
ghost use Rattle.law_runs.specs.Chains.{ClocksAreWeights};
ghost use Rattle.law_runs.specs.Keeping.{DeliversSent, NumbersMeasureAlike, RecordedFew};
ghost use Rattle.law_runs.specs.MeasureSums.{MeasuresCompare};

/// What the acts of a run leave of each agent and of each list of messages is what the run leaves.
pub fn acts_make_runs()
    ensures { (p : Csp) → ActsMakeRuns p }
{}

/// In the start each agent settles as if it were the first, in order, up to and with the one whose step refutes; none does
/// where a constraint without variables is false.
pub fn starts_in_order()
    ensures { (p : Csp) → StartsInOrder p }
{}

/// Whatever a check of a constraint, one of a nogood and the way of a message weigh, the clock of a run is the greatest weight of a causal chain.
pub fn clocks_are_weights()
    ensures { (p : Csp) → ClocksAreWeights p }
{}

/// The kinds of messages sum to the deliveries; no agent does more checks than the clock of checks counts, and that counts
/// at most all; no chain of messages is longer than the deliveries, so than the message bound; and messages that take time
/// make the clock of checks greater by no more than the longest chain of messages takes.
pub fn measures_compare()
    ensures { (p : Csp) → MeasuresCompare p }
{}

/// No agent has recorded more nogoods at once than its domain has values.
pub fn recorded_few()
    ensures { (p : Csp) → RecordedFew p }
{}

/// No more messages are delivered from an agent to another than were sent, and all of them where none is in transit.
pub fn delivers_sent()
    ensures { (p : Csp) → DeliversSent p }
{}

/// A run that is made again by the numbers of its lists, as a record has them, is measured alike.
pub fn numbers_measure_alike()
    ensures { (p : Csp) → NumbersMeasureAlike p }
{}
