//! Rows and clocks, one act after another.

ghost use Rattle.std.specs.Prelude.{◌≡◌, ◌<◌, ◌∷◌, ◌++◌, [], All, List, IfOk, OnOk, length};
ghost use Rattle.dcsp_defs.specs.Csp.{Csp, count};
ghost use Rattle.abt_defs.specs.Events.{Act};
ghost use Rattle.abt_parts.specs.declared.message.SentTo.{SentTo as TheSentTo};
ghost use Rattle.abt_measure.specs.Clocks.{as_weights};
ghost use Rattle.abt_measure.specs.Counting.{kind_in, sender_in, AreRows, IsClock, IsDeed};

use crate::clock::RunClock;
use crate::row::Row;
use abt_agent::Checks;
use abt_parts::{MessageKind, SentTo};
use dcsp_common::Memory;
use std::alloc::Global;
use std::marker::Model;

/// A message that came.
#[derive(Clone, Copy, Debug, PartialEq, Eq)]
pub struct Came {
    /// Its sender, counted from 0.
    pub from: u32,
    pub kind: MessageKind,
}

/// What an agent did in an act.
#[derive(Clone, Copy)]
pub struct Deed<'s> {
    /// The agent, counted from 0.
    pub agent: u32,
    /// The message that it received, if one came.
    pub came: Option<Came>,
    /// The checks that it made.
    pub checks: Checks,
    /// How many nogoods it has recorded after the act.
    pub recorded: u64,
    /// What it sent.
    pub sent: &'s [SentTo],
}

/// The sender of what came.
fn sender_of(came: Option<Came>) -> Option<u32>
    ensures { result ≡ sender_in came }
{
    match came {
        Some(came) => Some(came.from),
        None => None,
    }
}

/// The kind of what came.
fn kind_of(came: Option<Came>) -> Option<MessageKind>
    ensures { result ≡ kind_in came }
{
    match came {
        Some(came) => Some(came.kind),
        None => None,
    }
}

/// Counts an act by the clock.
pub fn count_by_clock(clock: &mut RunClock, deed: Deed<'_>) -> Result<(), Memory>
    requires exists { deed.agent < length clock.old.agents }
    requires receivers { All (λ (x : TheSentTo). x.to < length clock.old.agents) deed.sent.now }
    ensures counts { (p : Csp) (acts : List Act) (a : Act) → IsClock p (as_weights clock.old.weights) acts clock.old → IsDeed p a deed.entry
        → OnOk result (IsClock p (as_weights clock.old.weights) (acts ++ a ∷ []) clock.new) }
    ensures long { length clock.new.agents ≡ length clock.old.agents }
{
    let work = clock.work(deed.checks.constraints, deed.checks.nogoods)?;
    clock.act(deed.agent, sender_of(deed.came), work, deed.sent)
}

/// The rows of all agents.
#[derive(Drop)]
pub struct Rows {
    rows: Vec<Row>,
}

impl Model for Rows {
    ghost use Rattle.std.specs.Prelude.{List};
    ghost use Rattle.abt_measure.specs.declared.row.Row.{Row};

    ghost Value = { List Row };

    ghost view = { λ r. r.rows.items };
}

impl Rows {
    /// Of so many agents, before the start.
    pub fn new(alloc: Global, agents: u32) -> Result<Rows, Memory>
        ensures none { (p : Csp) → agents ≡ count p → IfOk result (AreRows p []) }
        ensures long { IfOk result (λ rows. length rows ≡ agents) }
    {
        let mut rows = Vec::new(alloc);
        for _agent in 0..agents {
            rows.push(Row::none())?;
        }
        Ok(Rows { rows })
    }

    /// Counts an act.
    pub fn count(&mut self, deed: Deed<'_>) -> Result<(), Memory>
        requires { deed.agent < length self.old }
        ensures counts { (p : Csp) (acts : List Act) (a : Act) → AreRows p acts self.old → IsDeed p a deed.entry → OnOk result (AreRows p (acts ++ a ∷ []) self.new) }
        ensures long { length self.new ≡ length self.old }
    {
        let row = &mut self.rows[deed.agent as usize];
        row.act(kind_of(deed.came), deed.checks, deed.recorded, deed.sent)
    }

    /// All rows, by agent.
    pub fn rows(&self) -> &[Row]
        ensures { result.now ≡ self.now }
    {
        &self.rows
    }
}
