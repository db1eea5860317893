//! What the two ends of each pair of agents have counted.

ghost use Rattle.std.specs.Prelude.{◌≡◌, ◌<◌, ◌^◌, ℕ, OnErr, OnOk};
ghost use Rattle.law_runs.specs.Worlds.{raised};
ghost use Rattle.abt_lossy.specs.Carries.{acknowledged_of, handed_up_of};

use dcsp_common::Memory;
use std::alloc::Global;
use std::collections::BTreeMap;
use std::marker::Model;

/// How many messages of a pair its receiver has handed up, and how many of these its sender knows to
/// be acknowledged.
#[derive(Clone, Copy, Debug, PartialEq, Eq)]
pub struct PairCounts {
    pub handed_up: u64,
    pub acknowledged: u64,
}

/// The counts of all ordered pairs of agents. A pair that is not kept has 0 and 0.
#[derive(Drop)]
pub struct Counts {
    pairs: BTreeMap<(u32, u32), PairCounts>,
}

impl Model for Counts {
    ghost use Rattle.std.specs.Prelude.{List, ℕ};
    ghost use Rattle.abt_lossy.specs.declared.counts.PairCounts.{PairCounts};

    ghost Value = { List ((ℕ × ℕ) × PairCounts) };

    ghost view = { λ counts. counts.pairs.entries };
}

impl Counts {
    /// All counts are 0. It keeps the allocator.
    pub fn new(alloc: Global) -> Counts
        ensures handed_up { (k i : ℕ) → handed_up_of result k i ≡ 0 }
        ensures acknowledged { (k i : ℕ) → acknowledged_of result k i ≡ 0 }
    {
        Counts {
            pairs: BTreeMap::new(alloc),
        }
    }

    fn of_pair(&self, sender: u32, receiver: u32) -> PairCounts
        ensures handed_up { result.handed_up ≡ handed_up_of self.now sender receiver }
        ensures acknowledged { result.acknowledged ≡ acknowledged_of self.now sender receiver }
    {
        match self.pairs.get(&(sender, receiver)) {
            Some(counts) => *counts,
            None => PairCounts {
                handed_up: 0,
                acknowledged: 0,
            },
        }
    }

    /// How many messages of the pair its receiver has handed up.
    pub fn handed_up(&self, sender: u32, receiver: u32) -> u64
        ensures { result ≡ handed_up_of self.now sender receiver }
    {
        self.of_pair(sender, receiver).handed_up
    }

    /// How many messages of the pair its sender knows to be acknowledged.
    pub fn acknowledged(&self, sender: u32, receiver: u32) -> u64
        ensures { result ≡ acknowledged_of self.now sender receiver }
    {
        self.of_pair(sender, receiver).acknowledged
    }

    /// One message more of the pair was handed up. Where memory runs out, all counts are as they were.
    pub fn count_handed_up(&mut self, sender: u32, receiver: u32) -> Result<(), Memory>
        requires { handed_up_of self.old sender receiver < 2 ^ 63 }
        ensures handed_up { OnOk result (handed_up_of self.new ≡ raised (handed_up_of self.old) sender receiver) }
        ensures acknowledged { OnOk result (acknowledged_of self.new ≡ acknowledged_of self.old) }
        ensures handed_up_err { OnErr result (handed_up_of self.new ≡ handed_up_of self.old) }
        ensures acknowledged_err { OnErr result (acknowledged_of self.new ≡ acknowledged_of self.old) }
    {
        let counts = self.of_pair(sender, receiver);
        let more = PairCounts {
            handed_up: counts.handed_up + 1,
            acknowledged: counts.acknowledged,
        };
        let Ok(_) = self.pairs.insert((sender, receiver), more) else {
            return Err(Memory);
        };
        Ok(())
    }

    /// One message more of the pair is known to be acknowledged. Where memory runs out, all counts are
    /// as they were.
    pub fn count_acknowledged(&mut self, sender: u32, receiver: u32) -> Result<(), Memory>
        requires { acknowledged_of self.old sender receiver < 2 ^ 63 }
        ensures acknowledged { OnOk result (acknowledged_of self.new ≡ raised (acknowledged_of self.old) sender receiver) }
        ensures handed_up { OnOk result (handed_up_of self.new ≡ handed_up_of self.old) }
        ensures handed_up_err { OnErr result (handed_up_of self.new ≡ handed_up_of self.old) }
        ensures acknowledged_err { OnErr result (acknowledged_of self.new ≡ acknowledged_of self.old) }
    {
        let counts = self.of_pair(sender, receiver);
        let more = PairCounts {
            handed_up: counts.handed_up,
            acknowledged: counts.acknowledged + 1,
        };
        let Ok(_) = self.pairs.insert((sender, receiver), more) else {
            return Err(Memory);
        };
        Ok(())
    }
}
