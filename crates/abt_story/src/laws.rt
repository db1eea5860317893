//! The laws of stories: the lines hide nothing of agents and lists, and runs with different deliveries have different texts.

ghost use Rattle.std.specs.Prelude.{ℕ, List, Option};
ghost use Rattle.dcsp_defs.specs.Csp.{Csp};
ghost use Rattle.abt_story.specs.Differing.{StoriesDiffer, TracesDiffer};
ghost use Rattle.abt_story.specs.Retelling.{DeliveriesAreTold, NothingIsHidden};

/// After each event of a run the lines so far tell how the lists of messages stand, and of each agent that has settled
/// its value, its mark, what it knows of others, which nogoods it has recorded, and which of its values are ruled out for
/// which reason; each agent by its own number, where the run is one under an order.
pub fn nothing_is_hidden()
    ensures { (order : Option (List ℕ)) (p : Csp) → NothingIsHidden order p }
{}

/// The deliveries of a run can be read off its lines.
pub fn deliveries_are_told()
    ensures { (order : Option (List ℕ)) (p : Csp) → DeliveriesAreTold order p }
{}

/// Runs of a problem with different deliveries have different stories, as texts.
pub fn stories_differ()
    ensures { (order : Option (List ℕ)) (p : Csp) → StoriesDiffer order p }
{}

/// Runs of a problem with different deliveries have different traces, as texts, whatever answers stand behind them.
pub fn traces_differ()
    ensures { TracesDiffer }
{}
