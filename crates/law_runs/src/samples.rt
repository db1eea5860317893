//! Small runs, over reliable links and over a medium that loses, repeats and reorders packets, computed from the
//! definitions alone. They are the tests of the definitions.

ghost use Rattle.law_runs.specs.Rows.{RefutedPair, LinkAskedFor, InOrder, StarvedLink, NogoodWhileWaiting, Triangle, FourQueens, OneAgentsReasons, ToldOnce, News};
ghost use Rattle.law_runs.specs.MeasuredRows.{RefutedPairMeasured, LinkAskedForMeasured};
ghost use Rattle.law_runs.specs.LossyRows.{CalmRefuted, CalmSolved, FourWords, LostAcknowledgement, Reordered, RepeatedAcknowledgement};

/// Two variables that are to differ and to agree.
pub fn refuted_pair()
    ensures { RefutedPair }
{}

/// A link that is asked for, and a waiting agent that takes its value anew.
pub fn link_asked_for()
    ensures { LinkAskedFor }
{}

/// Two rules over one variable, each link in turn.
pub fn in_order()
    ensures { InOrder }
{}

/// The same with the link from the first variable to the third starved.
pub fn starved_link()
    ensures { StarvedLink }
{}

/// A nogood that comes to an agent that waits.
pub fn nogood_while_waiting()
    ensures { NogoodWhileWaiting }
{}

/// Three variables with two values, all different.
pub fn triangle()
    ensures { Triangle }
{}

/// Four queens, one for each row.
pub fn four_queens()
    ensures { FourQueens }
{}

/// One agent: the reasons of its values, in order, and which values it has a nogood for.
pub fn one_agents_reasons()
    ensures { OneAgentsReasons }
{}

/// An agent that is told a value, and sends a nogood with its stamp.
pub fn told_once()
    ensures { ToldOnce }
{}

/// What is news to a view.
pub fn news()
    ensures { News }
{}

/// Data that is sent, delivered and repeated, delivered again, and an acknowledgement that is lost.
pub fn four_words()
    ensures { FourWords }
{}

/// An acknowledgement that is lost, and data that is sent again for it.
pub fn lost_acknowledgement()
    ensures { LostAcknowledgement }
{}

/// An acknowledgement that is repeated.
pub fn repeated_acknowledgement()
    ensures { RepeatedAcknowledgement }
{}

/// Data of two pairs, the later one delivered first.
pub fn reordered()
    ensures { Reordered }
{}

/// The calm run of two variables that are to differ and to agree.
pub fn calm_refuted()
    ensures { CalmRefuted }
{}

/// The calm run of two variables that are to differ.
pub fn calm_solved()
    ensures { CalmSolved }
{}

/// The measures of the first of these runs.
pub fn refuted_pair_measured()
    ensures { RefutedPairMeasured }
{}

/// The measures of the run in which a link is asked for.
pub fn link_asked_for_measured()
    ensures { LinkAskedForMeasured }
{}
