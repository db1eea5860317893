//! The receivers of one sender's pairs.

ghost use Rattle.std.specs.Prelude.{◌≡◌, ◌==◌, ℕ, [], OnErr, OnOk, Some, if◌then◌else◌};
ghost use Rattle.abt_links.specs.OpenPairs.{number_in};

use dcsp_common::{Entry, Memory, item_of, put};
use std::alloc::Global;
use std::marker::Model;

/// How many of the first agents are near: as soon as one of them is a receiver, and the list has a slot for every fourth
/// agent before it, each of these gets one, so that theirs stand at their own numbers and are found without a search.
const NEAR: u32 = 128;

/// How many of them are so whatever slots there are.
const NEAREST: u32 = 16;

/// The receivers of one sender's pairs, each with the number of its pair.
#[derive(Drop)]
pub(crate) struct Receivers {
    /// Slots of receivers, rising. A slot without a number is of an agent that is none yet.
    list: Vec<Entry<Option<u32>>>,
}

impl Model for Receivers {
    ghost use Rattle.dcsp_common.specs.Entries.{AreRising};
    ghost use Rattle.abt_links.specs.OpenPairs.{Slots};

    ghost Value = { Slots };

    ghost view = { λ r. r.list.items };

    ghost invariant = { λ r. AreRising r.list.items };
}

impl Receivers {
    /// No receiver. It takes no memory.
    pub(crate) fn new(alloc: Global) -> Receivers
        ensures { result ≡ [] }
    {
        Receivers {
            list: Vec::new(alloc),
        }
    }

    /// The number of the pair with this receiver.
    pub(crate) fn number(&self, to: u32) -> Option<u32>
        ensures { result ≡ number_in self.now to }
    {
        item_of(&self.list, to)?
    }

    /// Adds a receiver. Where it is near, and slots are not few, the agents before it get theirs too. A refusal changes
    /// nothing that is found.
    pub(crate) fn add(&mut self, to: u32, number: u32) -> Result<(), Memory>
        ensures ok { OnOk result ((i : ℕ) → number_in self.new i ≡ (if i == to then Some number else number_in self.old i)) }
        ensures err { OnErr result ((i : ℕ) → number_in self.new i ≡ number_in self.old i) }
    {
        if self.is_near(to) {
            self.make_slots(to)?;
        }
        self.put(to, Some(number))
    }

    /// Whether an agent is near, and the nearest or with slots that are not few before it.
    fn is_near(&self, to: u32) -> bool {
        to < NEAREST || (to < NEAR && to as usize / 4 <= self.list.len())
    }

    /// Makes the slots of the agents before this one, where they are not there. Nothing that is found changes.
    fn make_slots(&mut self, to: u32) -> Result<(), Memory>
        ensures { (i : ℕ) → number_in self.new i ≡ number_in self.old i }
    {
        for near in 0..to {
            let number = self.number(near);
            self.put(near, number)?;
        }
        Ok(())
    }

    /// Puts a number into a receiver's slot. A refusal changes nothing.
    fn put(&mut self, to: u32, number: Option<u32>) -> Result<(), Memory>
        ensures ok { OnOk result ((i : ℕ) → number_in self.new i ≡ (if i == to then number else number_in self.old i)) }
        ensures err { OnErr result (self.new ≡ self.old) }
    {
        put(&mut self.list, to, number)
    }
}
