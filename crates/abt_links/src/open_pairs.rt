//! The pairs that were opened.

ghost use Rattle.std.specs.Prelude.{◌≡◌, ◌<◌, ℕ, [], ◌∷◌, ◌++◌, length, OnErr, OnOk, Some, position, IsNone, IsSome};
ghost use Rattle.abt_links.specs.Transit.{is_pair};
ghost use Rattle.abt_links.specs.OpenPairs.{receivers_of};

use crate::receivers::Receivers;
use dcsp_common::Memory;
use std::alloc::Global;
use std::marker::Model;

/// Pairs of a sender and a receiver, in the order of their opening.
///
/// Beside them stand the receivers of each sender, by which a pair is found.
#[derive(Drop)]
pub(crate) struct OpenPairs {
    alloc: Global,
    pairs: Vec<(u32, u32)>,
    senders: Vec<Receivers>,
}

impl Model for OpenPairs {
    ghost use Rattle.std.specs.Prelude.{List, ℕ};
    ghost use Rattle.abt_links.specs.OpenPairs.{AreNumbered};

    ghost Value = { List (ℕ × ℕ) };

    ghost view = { λ o. o.pairs.items };

    ghost invariant = { λ o. AreNumbered o.pairs.items o.senders.items };
}

impl OpenPairs {
    /// No pair. It takes no memory.
    pub(crate) fn new(alloc: Global) -> OpenPairs
        ensures { result ≡ [] }
    {
        OpenPairs {
            alloc,
            pairs: Vec::new(alloc),
            senders: Vec::new(alloc),
        }
    }

    /// The number of the pair in the order of opening, if it was opened.
    #[inline(always)]
    pub(crate) fn find(&self, from: u32, to: u32) -> Option<usize>
        ensures { result ≡ position (is_pair from to) self.now }
    {
        let receivers = self.senders.get(from as usize)?;
        let number = receivers.number(to)?;
        Some(number as usize)
    }

    /// The number of a pair that was opened.
    pub(crate) fn place_of(&self, from: u32, to: u32) -> usize
        requires { IsSome (position (is_pair from to) self.now) }
        ensures { position (is_pair from to) self.now ≡ Some result }
    {
        self.find(from, to).unwrap()
    }

    /// Adds a pair that was not opened. A refusal changes nothing that is found.
    pub(crate) fn add(&mut self, from: u32, to: u32) -> Result<(), Memory>
        requires { IsNone (position (is_pair from to) self.old) }
        ensures ok { OnOk result (self.new ≡ self.old ++ (from, to) ∷ []) }
        ensures err { OnErr result (self.new ≡ self.old) }
    {
        let Ok(number) = u32::try_from(self.pairs.len()) else {
            return Err(Memory);
        };
        self.pairs.reserve(1)?;
        reach(&mut self.senders, self.alloc, from)?;
        self.senders[from as usize].add(to, number)?;
        self.pairs.push_reserved((from, to));
        Ok(())
    }
}

/// Makes room for the receivers of a sender.
fn reach(senders: &mut Vec<Receivers>, alloc: Global, from: u32) -> Result<(), Memory>
    ensures room { OnOk result (from < length senders.new.items) }
    ensures same { (k : ℕ) → receivers_of senders.new.items k ≡ receivers_of senders.old.items k }
{
    while senders.len() <= from as usize {
        senders.push(Receivers::new(alloc))?;
    }
    Ok(())
}
