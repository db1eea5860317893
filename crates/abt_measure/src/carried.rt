//! The messages in transit to one agent, each with the clock that it carries.

ghost use Rattle.std.specs.Prelude.{◌≡◌, ◌==◌, ◌++◌, ◌∷◌, ◌<◌, ℕ, [], length, IfOk, IfSome, IsNone, OnOk, OnErr, if◌then◌else◌};
ghost use Rattle.abt_defs.specs.Clocks.{first_of, rest_of};
ghost use Rattle.abt_measure.specs.Carrying.{clocks_from, carried_at, NoneBefore};

use dcsp_common::Memory;
use std::alloc::Global;
use std::marker::Model;

/// A message in transit: who sent it, and its sender's clock then.
#[derive(Clone, Copy, Debug, PartialEq, Eq)]
pub struct Carried {
    pub from: u32,
    pub clock: u64,
}

/// The messages in transit to one agent, in the order in which they were sent.
#[derive(Drop)]
pub(crate) struct CarriedList {
    list: Vec<Carried>,
}

impl Model for CarriedList {
    ghost use Rattle.std.specs.Prelude.{List};
    ghost use Rattle.abt_measure.specs.declared.carried.Carried.{Carried};

    ghost Value = { List Carried };

    ghost view = { λ s. s.list.items };
}

impl CarriedList {
    /// None. It takes no memory.
    pub(crate) fn new(alloc: Global) -> CarriedList
        ensures { result ≡ [] }
    {
        CarriedList {
            list: Vec::new(alloc),
        }
    }

    /// Adds one. A refusal changes nothing.
    pub(crate) fn add(&mut self, from: u32, clock: u64) -> Result<(), Memory>
        ensures ok { OnOk result ((a : ℕ) → clocks_from a self.new ≡ (if a == from then clocks_from a self.old ++ clock ∷ [] else clocks_from a self.old)) }
        ensures err { OnErr result (self.new ≡ self.old) }
    {
        let Ok(()) = self.list.push(Carried { from, clock }) else {
            return Err(Memory);
        };
        Ok(())
    }

    /// Takes the oldest from this sender, and tells its clock; 0 where there is none.
    #[tactic(auto, using(crate::proofs::CarryLaws::taken_first, crate::proofs::CarryLaws::taken_rest, crate::proofs::CarryLaws::none_first, crate::proofs::CarryLaws::none_rest))]
    pub(crate) fn take(&mut self, from: u32) -> u64
        ensures first { result ≡ first_of (clocks_from from self.old) }
        ensures rest { (a : ℕ) → clocks_from a self.new ≡ (if a == from then rest_of (clocks_from a self.old) else clocks_from a self.old) }
    {
        match place_of(&self.list, from) {
            Some(place) => self.list.remove(place).clock,
            None => 0,
        }
    }
}

/// The place of the first message from this sender.
fn place_of(list: &[Carried], from: u32) -> Option<usize>
    ensures within { IfSome result (λ place. place < length list.now) }
    ensures found { IfSome result (λ place. (carried_at list.now place).from ≡ from) }
    ensures first { IfSome result (NoneBefore from list.now) }
    ensures absent { IsNone result → NoneBefore from list.now (length list.now) }
{
    for (place, carried) in list.iter().enumerate() {
        if carried.from == from {
            return Some(place);
        }
    }
    None
}
