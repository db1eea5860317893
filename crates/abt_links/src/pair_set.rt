//! An ordered set of pairs of agents.

ghost use Rattle.std.specs.Prelude.{◌≡◌, ◌<◌, ◌≤◌, ℕ, ◌==◌, ◌&&◌, length, IfOk, IsTrue, Some, slice_get, true, false, not, if◌then◌else◌};
ghost use Rattle.dcsp_common.specs.Limits.{most};
ghost use Rattle.dcsp_common.specs.declared.limits.Which.TheVariants.{Variables};
ghost use Rattle.abt_links.specs.PairTables.{has_pair, members};

use crate::row::Row;
use crate::sums::Sums;
use dcsp_common::Memory;
use std::alloc::Global;
use std::marker::Model;

/// A set of ordered pairs of agents, ordered by sender and then by receiver.
///
/// It keeps one bit for each pair that there could be, in words of 64, and how many pairs each sender
/// has: 2 MiB of bits at 4,096 agents. Pair number `k` is found by at most 48 looks at counts and one at each
/// word of a sender that has a pair, the number of a pair by at most 272 and 64; at 64 agents either by at most
/// 16 looks at counts and one at a word. Only `new` takes memory.
#[derive(Drop)]
pub struct PairSet {
    agents: u32,
    rows: Vec<Row>,
    sums: Sums,
}

impl Model for PairSet {
    ghost use Rattle.abt_links.specs.PairTables.{PairTable};
    ghost use Rattle.abt_links.specs.Marks.{IsCounted, table_of};

    ghost Value = { PairTable };

    ghost view = { λ set. table_of (record { agents = set.agents; rows = set.rows.items }) };

    ghost invariant = { λ set. IsCounted (record { agents = set.agents; rows = set.rows.items }) set.sums };
}

impl PairSet {
    /// No pair of this many agents.
    pub fn new(alloc: Global, agents: u32) -> Result<PairSet, Memory>
        requires { agents ≤ most Variables }
        ensures agents { IfOk result (λ set. set.agents ≡ agents) }
        ensures none { IfOk result (λ set. (k i : ℕ) → has_pair set k i ≡ false) }
    {
        let sums = Sums::new(alloc, agents)?;
        let mut rows = Vec::new(alloc);
        for _ in 0..agents {
            rows.push(Row::new(alloc, agents)?)?;
        }
        Ok(PairSet { agents, rows, sums })
    }

    /// Whether the pair is in.
    pub fn contains(&self, from: u32, to: u32) -> bool
        requires sender { from < self.now.agents }
        requires receiver { to < self.now.agents }
        ensures { result ≡ has_pair self.now from to }
    {
        self.rows[from as usize].contains(to)
    }

    /// Puts the pair in or takes it out. Where it is so already, nothing changes.
    pub fn set(&mut self, from: u32, to: u32, is_in: bool)
        requires sender { from < self.old.agents }
        requires receiver { to < self.old.agents }
        ensures agents { self.new.agents ≡ self.old.agents }
        ensures pairs { (k i : ℕ) → has_pair self.new k i ≡ (if k == from && i == to then is_in else has_pair self.old k i) }
    {
        let row = &mut self.rows[from as usize];
        if row.contains(to) == is_in {
            return;
        }
        if is_in {
            row.insert(to);
            self.sums.raise(from);
            return;
        }
        row.remove(to);
        self.sums.lower(from);
    }

    /// Puts the pair in, where its list was empty before: else it is in already.
    #[inline(always)]
    pub(crate) fn enter(&mut self, from: u32, to: u32, was_empty: bool)
        requires sender { from < self.old.agents }
        requires receiver { to < self.old.agents }
        requires is_in { was_empty ≡ false → has_pair self.old from to ≡ true }
        ensures agents { self.new.agents ≡ self.old.agents }
        ensures pairs { (k i : ℕ) → has_pair self.new k i ≡ (if k == from && i == to then true else has_pair self.old k i) }
    {
        if was_empty {
            self.set(from, to, true);
        }
    }

    /// Takes the pair out, where its list is empty now: else it stays in.
    #[inline(always)]
    pub(crate) fn leave(&mut self, from: u32, to: u32, is_empty: bool)
        requires sender { from < self.old.agents }
        requires receiver { to < self.old.agents }
        requires is_in { has_pair self.old from to ≡ true }
        ensures agents { self.new.agents ≡ self.old.agents }
        ensures pairs { (k i : ℕ) → has_pair self.new k i ≡ (if k == from && i == to then not is_empty else has_pair self.old k i) }
    {
        if is_empty {
            self.set(from, to, false);
        }
    }

    /// How many pairs are in.
    pub fn count(&self) -> u32
        ensures { result ≡ length (members self.now) }
    {
        self.sums.total()
    }

    /// Pair number `number` in their order, counted from 0.
    #[inline(always)]
    pub fn nth(&self, number: u32) -> (u32, u32)
        requires { number < length (members self.now) }
        ensures { slice_get (members self.now) number ≡ Some result }
    {
        let (from, rest) = self.sums.find(number);
        let row = &self.rows[from as usize];
        let to = row.nth(rest);
        (from, to)
    }

    /// The number of a pair that is in, in their order.
    pub fn number(&self, from: u32, to: u32) -> u32
        requires { IsTrue (has_pair self.now from to) }
        ensures { slice_get (members self.now) result ≡ Some (from, to) }
    {
        self.sums.before(from) + self.rows[from as usize].rank(to)
    }
}
