//! Versions of logs, and where a reader of a log stands.
ghost use Rattle.std.specs.Prelude.{◌≡◌, OnOk, OnErr};
ghost use Rattle.ngd_log.specs.Pieces.{refusal_of, fault_of, Tells};

use crate::log::LogError;
use dcsp_common::Memory;

/// The version of a log.
#[derive(Clone, Copy, Debug, PartialEq, Eq)]
pub enum Version {
    /// It has steps alone, and its first line is `ngd 1`.
    One,
    /// It may have deletions, and its first line is `ngd 2`.
    Two,
}

/// What an entry is.
#[derive(Clone, Copy, Debug, PartialEq, Eq)]
pub enum EntryKind {
    /// A step.
    Step,
    /// A deletion.
    Delete,
}

/// After whole lines of a log.
#[derive(Clone, Copy, Debug, PartialEq, Eq)]
pub struct Place {
    pub version: Version,
    /// The number of the next step, from 1.
    pub step: u64,
    /// The number of the next line, from 1.
    pub line: u64,
}

/// Where a reader stands after the whole lines that it was fed.
#[derive(Clone, Copy, Debug, PartialEq, Eq)]
pub enum Standing {
    /// At the first line.
    Start,
    /// At the line of an entry, or `end`.
    Inside(Place),
    /// After the line `end`. A line after it would have this number.
    Ended(u64),
    /// At a line that is bad, or without memory.
    Refused(LogError),
}

impl Standing {
    /// The refusal that stands.
    pub fn answer(self) -> Result<(), LogError>
        ensures { Tells (refusal_of self) result }
    {
        match self {
            Standing::Refused(error) => Err(error),
            _ => Ok(()),
        }
    }

    /// The refusal for want of memory, if that stands.
    pub fn memory(self) -> Result<(), Memory>
        ensures ok { OnOk result (self ≡ Standing.Refused LogError.Memory → ⊥) }
        ensures err { OnErr result (self ≡ Standing.Refused LogError.Memory) }
    {
        match self {
            Standing::Refused(LogError::Memory) => Err(Memory),
            _ => Ok(()),
        }
    }

    /// Why a text that ends here is no log.
    pub fn answer_at_end(self) -> Result<(), LogError>
        ensures { Tells (fault_of self) result }
    {
        match self {
            Standing::Start => Err(LogError::Line { number: 1 }),
            Standing::Inside(place) => Err(LogError::Line { number: place.line }),
            Standing::Ended(_) => Ok(()),
            Standing::Refused(error) => Err(error),
        }
    }
}
