//! Which higher agents are linked.

ghost use Rattle.std.specs.Prelude.{◌≡◌, ◌&&◌, ◌||◌, ℕ, length, nat_lt};
ghost use Rattle.std.specs.List.{list_any};
ghost use Rattle.dcsp_defs.specs.Csp.{names};
ghost use Rattle.abt_defs.specs.Steps.{is_named};
ghost use Rattle.abt_marks.specs.Marks.{has_mark};
ghost use Rattle.abt_marks.specs.Links.{is_unlinked, AreLinkedBefore};

use crate::marks::mark_pairs;
use dcsp_defs::Pair;
use dcsp_row::Row;
use std::marker::Model;

/// For each higher agent whether it is linked or asked. An agent that is linked stays so.
#[derive(Drop)]
pub struct LinkTable {
    marks: Row,
    /// Each agent before this one is marked.
    all_before: usize,
}

impl Model for LinkTable {
    ghost use Rattle.std.specs.Prelude.{List, Bool};
    ghost use Rattle.abt_marks.specs.Links.{AreLinkedBefore};

    ghost Value = { List Bool };

    ghost view = { λ table. table.marks };

    ghost invariant = { λ table. AreLinkedBefore table.all_before table.marks };
}

impl LinkTable {
    /// The table in which the agents with these marks are linked.
    pub fn of(marks: Row) -> LinkTable
        ensures { result ≡ marks }
    {
        let all_before = first_unmarked(&marks, 0);
        LinkTable { marks, all_before }
    }

    /// Whether the agent has a place in the table, and is not marked there.
    #[inline(always)]
    pub fn is_unlinked(&self, to: u32) -> bool
        ensures { result ≡ is_unlinked self.now to }
    {
        (to as usize) < self.marks.len() && !self.marks.has(to as usize)
    }

    /// Whether an agent that the pairs name is unlinked. Few are, and where each higher agent is linked the pairs
    /// are not looked at.
    #[inline(always)]
    pub fn wants_link(&self, pairs: &[Pair]) -> bool
        ensures { result ≡ list_any (is_unlinked self.now) (names pairs.now) }
    {
        if self.all_before == self.marks.len() {
            return false;
        }
        self.names_unlinked(pairs)
    }

    /// Whether an agent that the pairs name is unlinked.
    fn names_unlinked(&self, pairs: &[Pair]) -> bool
        ensures { result ≡ list_any (is_unlinked self.now) (names pairs.now) }
    {
        for pair in pairs {
            if self.is_unlinked(pair.var) {
                return true;
            }
        }
        false
    }

    /// Marks each agent that the pairs name and that has a place in the table.
    pub fn mark_pairs(&mut self, pairs: &[Pair])
        ensures size { length self.new ≡ length self.old }
        ensures marks { (k : ℕ) → has_mark self.new k ≡ (has_mark self.old k || (nat_lt k (length self.old) && is_named k pairs.now)) }
    {
        mark_pairs(&mut self.marks, pairs);
        self.all_before = first_unmarked(&self.marks, self.all_before);
    }
}

/// The first agent that is not marked, or how many there are, where all before this one are marked.
fn first_unmarked(marks: &Row, from: usize) -> usize
    requires { AreLinkedBefore from marks.now }
    ensures { AreLinkedBefore result marks.now }
{
    for agent in from..marks.len() {
        if !marks.has(agent) {
            return agent;
        }
    }
    marks.len()
}
