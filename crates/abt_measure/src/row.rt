//! What one agent does in a run, in numbers.

ghost use Rattle.std.specs.Prelude.{◌≡◌, OnOk};
ghost use Rattle.abt_measure.specs.Rows.{as_kinds, as_row, came_kinds, kind_counts, kinds_sent, more_kinds, no_row, row_after};
ghost use Rattle.abt_parts.specs.Checked.{as_checks};

use crate::clock::{greater, plus};
use abt_agent::Checks;
use abt_parts::{MessageKind, SentTo};
use dcsp_common::Memory;

/// How many ok? messages, nogoods and link requests.
#[derive(Clone, Copy, Debug, PartialEq, Eq)]
pub struct Kinds {
    pub ok: u64,
    pub nogood: u64,
    pub link: u64,
}

impl Kinds {
    /// One more of this kind. A number past its width counts as want of memory.
    pub fn add(&mut self, kind: MessageKind) -> Result<(), Memory>
        ensures { OnOk result (as_kinds self.new ≡ more_kinds (as_kinds self.old) (kind_counts kind)) }
    {
        match kind {
            MessageKind::Tell => {
                self.ok = plus(self.ok, 1)?;
                Ok(())
            }
            MessageKind::Refuse => {
                self.nogood = plus(self.nogood, 1)?;
                Ok(())
            }
            MessageKind::AddLink => {
                self.link = plus(self.link, 1)?;
                Ok(())
            }
        }
    }

    /// One more of its kind for each of the messages.
    pub fn add_all(&mut self, sent: &[SentTo]) -> Result<(), Memory>
        ensures { OnOk result (as_kinds self.new ≡ more_kinds (as_kinds self.old) (kinds_sent sent.now)) }
    {
        for message in sent {
            self.add(message.kind)?;
        }
        Ok(())
    }

    /// One more of the kind, if one came.
    pub fn add_came(&mut self, came: Option<MessageKind>) -> Result<(), Memory>
        ensures { OnOk result (as_kinds self.new ≡ more_kinds (as_kinds self.old) (came_kinds came)) }
    {
        match came {
            Some(kind) => self.add(kind),
            None => Ok(()),
        }
    }
}

/// What an agent did: messages sent and received by kind, checks, and the most nogoods that it had recorded.
#[derive(Clone, Copy, Debug, PartialEq, Eq)]
pub struct Row {
    pub sent: Kinds,
    pub got: Kinds,
    pub constraints: u64,
    pub nogoods: u64,
    pub recorded: u64,
}

impl Row {
    /// Nothing yet.
    pub fn none() -> Row
        ensures { as_row result ≡ no_row }
    {
        let none = Kinds {
            ok: 0,
            nogood: 0,
            link: 0,
        };
        Row {
            sent: none,
            got: none,
            constraints: 0,
            nogoods: 0,
            recorded: 0,
        }
    }

    /// The agent receives a message of this kind, if one came, makes checks, has then recorded so many nogoods, and
    /// sends.
    pub fn act(
        &mut self,
        came: Option<MessageKind>,
        checks: Checks,
        recorded: u64,
        sent: &[SentTo],
    ) -> Result<(), Memory>
        ensures { OnOk result (as_row self.new ≡ row_after (as_row self.old) (came_kinds came) (as_checks checks) recorded (kinds_sent sent.now)) }
    {
        self.got.add_came(came)?;
        self.sent.add_all(sent)?;
        self.constraints = plus(self.constraints, checks.constraints)?;
        self.nogoods = plus(self.nogoods, checks.nogoods)?;
        self.recorded = greater(self.recorded, recorded);
        Ok(())
    }
}
