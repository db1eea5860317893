//! All that is counted in a run.

ghost use Rattle.std.specs.Prelude.{◌≡◌, ◌<◌, ◌∷◌, ◌++◌, [], All, List, IfOk, OnOk, length};
ghost use Rattle.dcsp_defs.specs.Csp.{Csp, count};
ghost use Rattle.abt_defs.specs.Events.{Act};
ghost use Rattle.abt_defs.specs.Clocks.{clock, all_checks, constraints_alone, messages_alone};
ghost use Rattle.abt_parts.specs.declared.message.SentTo.{SentTo as TheSentTo};
ghost use Rattle.abt_measure.specs.Measuring.{received_in, EndsEvent, HasNoEvents, IsCounted, SameEvents};
ghost use Rattle.abt_measure.specs.Counting.{IsDeed};

use crate::clock::{RunClock, Weights, greater, plus};
use crate::counts::{Came, Deed, Rows, count_by_clock};
use crate::row::Row;
use dcsp_common::Memory;
use std::alloc::Global;
use std::marker::Model;

/// The weights of checks of both kinds.
const ALL_CHECKS: Weights = Weights {
    constraint: 1,
    nogood: 1,
    latency: 0,
};

/// The weights of checks of constraints.
const CONSTRAINTS_ALONE: Weights = Weights {
    constraint: 1,
    nogood: 0,
    latency: 0,
};

/// The weights of messages.
const MESSAGES_ALONE: Weights = Weights {
    constraint: 0,
    nogood: 0,
    latency: 1,
};

/// All that is counted in a run. After want of memory nothing is known of it.
#[derive(Drop)]
pub struct Measures {
    rows: Rows,
    all: RunClock,
    constraints: RunClock,
    messages: RunClock,
    /// How many messages were sent, and received.
    sent: u64,
    got: u64,
    /// The greatest number of messages in transit after an event.
    most_in_transit: u64,
    /// How many nogoods all agents have recorded, and the greatest such number after an event.
    recorded: u64,
    most_recorded: u64,
}

impl Model for Measures {
    ghost use Rattle.abt_measure.specs.Measuring.{MeasureState};

    ghost Value = { MeasureState };

    ghost use Rattle.std.specs.Prelude.{length};
    ghost use Rattle.abt_measure.specs.Measuring.{AreAlike};

    ghost invariant = { λ m. AreAlike (length m.rows) m.all m.constraints m.messages };

    ghost view = { λ m. record { rows = m.rows; all = m.all; constraints = m.constraints; messages = m.messages; sent = m.sent; got = m.got; most_in_transit = m.most_in_transit; recorded = m.recorded; most_recorded = m.most_recorded } };
}

impl Measures {
    /// Before the start of a run of so many agents.
    pub fn new(alloc: Global, agents: u32) -> Result<Measures, Memory>
        ensures counted { (p : Csp) → agents ≡ count p → IfOk result (IsCounted p []) }
        ensures long { IfOk result (λ m. length m.rows ≡ agents) }
        ensures events { IfOk result HasNoEvents }
    {
        Ok(Measures {
            rows: Rows::new(alloc, agents)?,
            all: RunClock::new(alloc, agents, ALL_CHECKS)?,
            constraints: RunClock::new(alloc, agents, CONSTRAINTS_ALONE)?,
            messages: RunClock::new(alloc, agents, MESSAGES_ALONE)?,
            sent: 0,
            got: 0,
            most_in_transit: 0,
            recorded: 0,
            most_recorded: 0,
        })
    }

    /// Counts what an agent did in an act.
    pub fn count(&mut self, deed: Deed<'_>) -> Result<(), Memory>
        requires exists { deed.agent < length self.old.rows }
        requires receivers { All (λ (x : TheSentTo). x.to < length self.old.rows) deed.sent.now }
        ensures counted { (p : Csp) (acts : List Act) (a : Act) → IsCounted p acts self.old → IsDeed p a deed.entry → OnOk result (IsCounted p (acts ++ a ∷ []) self.new) }
        ensures long { length self.new.rows ≡ length self.old.rows }
        ensures events { OnOk result (SameEvents self.old self.new) }
    {
        self.rows.count(deed)?;
        count_by_clock(&mut self.all, deed)?;
        count_by_clock(&mut self.constraints, deed)?;
        count_by_clock(&mut self.messages, deed)?;
        self.sent = plus(self.sent, deed.sent.len() as u64)?;
        self.got = plus(self.got, received(deed.came))?;
        Ok(())
    }
}

impl Measures {
    /// An event is over, in which one agent had recorded so many nogoods before it, and has so many then; in the start
    /// none has any.
    pub fn end_event(&mut self, before: u64, after: u64) -> Result<(), Memory>
        ensures ends { OnOk result (EndsEvent before after self.old self.new) }
        ensures long { length self.new.rows ≡ length self.old.rows }
    {
        self.recorded = plus(self.recorded.saturating_sub(before), after)?;
        self.most_recorded = greater(self.most_recorded, self.recorded);
        self.most_in_transit = greater(self.most_in_transit, self.sent.saturating_sub(self.got));
        Ok(())
    }
}

impl Measures {
    /// The rows of all agents.
    pub fn rows(&self) -> &[Row]
        ensures { result.now ≡ self.now.rows }
    {
        self.rows.rows()
    }

    /// The clock of checks of both kinds.
    pub fn all_checks(&self) -> u64
        ensures { (p : Csp) (acts : List Act) → IsCounted p acts self.now → result ≡ clock p all_checks acts }
    {
        self.all.greatest()
    }

    /// The clock of checks of constraints.
    pub fn constraints_alone(&self) -> u64
        ensures { (p : Csp) (acts : List Act) → IsCounted p acts self.now → result ≡ clock p constraints_alone acts }
    {
        self.constraints.greatest()
    }

    /// The clock of messages, which is the longest chain of them.
    pub fn longest_chain(&self) -> u64
        ensures { (p : Csp) (acts : List Act) → IsCounted p acts self.now → result ≡ clock p messages_alone acts }
    {
        self.messages.greatest()
    }

    /// The greatest number of messages in transit after an event.
    pub fn most_in_transit(&self) -> u64
        ensures { result ≡ self.now.most_in_transit }
    {
        self.most_in_transit
    }

    /// The greatest number of nogoods that all agents had recorded after an event.
    pub fn most_recorded(&self) -> u64
        ensures { result ≡ self.now.most_recorded }
    {
        self.most_recorded
    }
}

/// How many messages came.
fn received(came: Option<Came>) -> u64
    ensures { result ≡ received_in came }
{
    match came {
        Some(_) => 1,
        None => 0,
    }
}
