//! Entries of a log: steps, and deletions of earlier steps.
ghost use Rattle.std.specs.Prelude.{◌≡◌, ◌∷◌, ◌++◌, [], Some, IfSome, IfNone, OnOk, OnErr, IfErr};

use crate::Step;
use dcsp_common::{ItemList, Memory};
use std::alloc::Global;
use std::collections::VecDeque;
use std::marker::Model;

/// The numbers of steps, counted from 1.
pub type NumberList = ItemList<u64>;

/// An entry of a log.
#[derive(Debug, Drop)]
pub enum Entry {
    /// A derivation step. Steps have numbers from 1 in their order.
    Step(Step),
    /// No later step cites the steps with these numbers, which rise strictly.
    Delete(NumberList),
}

/// A list of entries that grows at its end and is taken from its front.
#[derive(Drop)]
pub struct Entries {
    entries: VecDeque<Entry>,
}

impl Model for Entries {
    ghost use Rattle.std.specs.Prelude.{List};
    ghost use Rattle.dcsp_defs.specs.declared.entry.Entry.{Entry};

    ghost Value = { List Entry };

    ghost view = { λ entries. entries.entries.items };
}

impl Entries {
    /// The list without entries.
    pub fn new(alloc: Global) -> Entries
        ensures { result ≡ [] }
    {
        Entries {
            entries: VecDeque::new(alloc),
        }
    }

    /// Adds an entry at the end. A refusal hands it back.
    pub fn push(&mut self, entry: Entry) -> Result<(), (Entry, Memory)>
        ensures ok { OnOk result (self.new ≡ self.old ++ entry ∷ []) }
        ensures handed_back { IfErr result (λ refused. refused.0 ≡ entry) }
        ensures err { OnErr result (self.new ≡ self.old) }
    {
        match self.entries.push_back(entry) {
            Ok(()) => Ok(()),
            Err(failed) => Err((failed.value, Memory)),
        }
    }

    /// Takes the first entry out; `None` comes exactly if there is none. It takes no memory.
    pub fn take_first(&mut self) -> Option<Entry>
        ensures first { IfSome result (λ entry. self.old ≡ entry ∷ self.new) }
        ensures none { IfNone result (self.old ≡ []) }
        ensures rest { IfNone result (self.new ≡ []) }
    {
        self.entries.pop_front()
    }
}
