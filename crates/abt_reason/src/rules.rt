//! Which values the owned rules rule out, after the view has changed at one variable.

ghost use Rattle.std.specs.Prelude.{◌<◌, All, IfOk, None, length};
ghost use Rattle.dcsp_rule.specs.Problems.{csp_of, AreInDomains};
ghost use Rattle.abt_reason.specs.declared.named.Naming.{Naming as TheNaming};
ghost use Rattle.abt_reason.specs.Grids.{rows_of};
ghost use Rattle.abt_reason.specs.Cached.{rows_for, rules_of, size_of, told_to, AreListsOf, AreRightAt, AreRows, HasMarksOf, IsOwner, IsRightAt, IsRoom, KeepsOthers, KeepsRows, RowsStoodBefore, StaysRight};

use crate::grid::{OwnedRules, RuledOut};
use crate::named::{NamedIn, Naming};
use crate::under::ViewValues;
use abt_parts::View;
use dcsp_common::Memory;
use dcsp_problem::Problem;
use dcsp_row::{Marks, OpenVariable, Row, fill_row, span_of};
use std::alloc::Global;

/// An agent that owns rules of a problem, and what it was told.
#[derive(Clone, Copy)]
pub struct Owner<'a> {
    pub problem: &'a Problem,
    pub agent: u32,
    /// The rules that it owns.
    pub rules: &'a [u32],
    /// The number of its values.
    pub values: usize,
    pub view: &'a View,
}

/// For each rule that the agent owns the values that it rules out.
#[derive(Drop)]
pub struct FirstRules {
    pub ruled_out: RuledOut,
    pub named: NamedIn,
    /// Room for the bits of one row.
    pub room: Marks,
}

impl FirstRules {
    /// For an agent that was told nothing: a rule over its own variable alone may be false.
    pub fn new(alloc: Global, problem: &Problem, agent: u32) -> Result<FirstRules, Memory>
        requires { agent < length problem.now.domains }
        ensures lists { IfOk result (λ rules. AreListsOf problem.now agent rules) }
        ensures kept { IfOk result (λ rules. KeepsRows problem.now agent (λ k. None) (rows_of (size_of problem.now agent) rules.ruled_out.rows.items)) }
    {
        let values = problem.domain(agent).len();
        let owned = problem.owned(agent);
        let _variables = problem.vars();
        let view = View::new(alloc, 0)?;
        let named = NamedIn::new(alloc, problem, owned)?;
        let empty = OwnedRules {
            problem,
            rules: owned,
            agent,
            values,
        };
        let mut ruled_out = RuledOut::new(alloc, &empty)?;
        let mut room = Marks::Row(Row::new(alloc, values)?);
        let owner = Owner {
            problem,
            agent,
            rules: owned,
            values,
            view: &view,
        };
        refresh_all(&mut ruled_out, &mut room, &owner);
        Ok(FirstRules {
            ruled_out,
            named,
            room,
        })
    }

    /// Takes in that the view has changed at one variable. It takes no memory.
    pub fn after_view(&mut self, owner: &Owner, var: u32)
        requires owner { IsOwner owner.now.problem.now owner.now.agent owner.now.rules.now owner.now.values }
        requires lists { AreListsOf owner.now.problem.now owner.now.agent self.old }
        requires domains { AreInDomains (csp_of owner.now.problem.now) (told_to owner.now) }
        requires stood { RowsStoodBefore owner.now.problem.now owner.now.agent var (told_to owner.now) (rows_for owner.now self.old.ruled_out) }
        ensures lists { AreListsOf owner.now.problem.now owner.now.agent self.new }
        ensures kept { KeepsRows owner.now.problem.now owner.now.agent (told_to owner.now) (rows_for owner.now self.new.ruled_out) }
    {
        let namings = self.named.of(var);
        refresh_each(&mut self.ruled_out, &mut self.room, owner, namings);
    }
}

/// Brings the row of each rule up to date.
fn refresh_all(ruled_out: &mut RuledOut, room: &mut Marks, owner: &Owner)
    requires owner { IsOwner owner.now.problem.now owner.now.agent owner.now.rules.now owner.now.values }
    requires domains { AreInDomains (csp_of owner.now.problem.now) (told_to owner.now) }
    requires room { IsRoom (size_of owner.now.problem.now owner.now.agent) room.old }
    requires rows { AreRows owner.now.problem.now owner.now.agent ruled_out.old.rows.items ruled_out.old.counts.items ruled_out.old.firsts.items }
    ensures room { IsRoom (size_of owner.now.problem.now owner.now.agent) room.new }
    ensures rows { AreRows owner.now.problem.now owner.now.agent ruled_out.new.rows.items ruled_out.new.counts.items ruled_out.new.firsts.items }
    ensures right { KeepsRows owner.now.problem.now owner.now.agent (told_to owner.now) (rows_for owner.now ruled_out.new) }
{
    for place in 0..owner.rules.len() {
        refresh(ruled_out, room, owner, place);
    }
}

/// Brings the rows of these rules up to date.
fn refresh_each(ruled_out: &mut RuledOut, room: &mut Marks, owner: &Owner, namings: &[Naming])
    requires within { All (λ (n : TheNaming). n.place < rules_of owner.now.problem.now owner.now.agent) namings.now }
    requires owner { IsOwner owner.now.problem.now owner.now.agent owner.now.rules.now owner.now.values }
    requires domains { AreInDomains (csp_of owner.now.problem.now) (told_to owner.now) }
    requires room { IsRoom (size_of owner.now.problem.now owner.now.agent) room.old }
    requires rows { AreRows owner.now.problem.now owner.now.agent ruled_out.old.rows.items ruled_out.old.counts.items ruled_out.old.firsts.items }
    ensures room { IsRoom (size_of owner.now.problem.now owner.now.agent) room.new }
    ensures rows { AreRows owner.now.problem.now owner.now.agent ruled_out.new.rows.items ruled_out.new.counts.items ruled_out.new.firsts.items }
    ensures kept { StaysRight owner.now.problem.now owner.now.agent (told_to owner.now) ruled_out.old.rows.items ruled_out.new.rows.items }
    ensures right { AreRightAt owner.now.problem.now owner.now.agent (told_to owner.now) (rows_for owner.now ruled_out.new) namings.now }
{
    for naming in namings {
        refresh(ruled_out, room, owner, naming.place as usize);
    }
}

/// Brings the row of one rule up to date.
#[inline(always)]
fn refresh(ruled_out: &mut RuledOut, room: &mut Marks, owner: &Owner, place: usize)
    requires owner { IsOwner owner.now.problem.now owner.now.agent owner.now.rules.now owner.now.values }
    requires place { place < rules_of owner.now.problem.now owner.now.agent }
    requires domains { AreInDomains (csp_of owner.now.problem.now) (told_to owner.now) }
    requires room { IsRoom (size_of owner.now.problem.now owner.now.agent) room.old }
    requires rows { AreRows owner.now.problem.now owner.now.agent ruled_out.old.rows.items ruled_out.old.counts.items ruled_out.old.firsts.items }
    ensures room { IsRoom (size_of owner.now.problem.now owner.now.agent) room.new }
    ensures rows { AreRows owner.now.problem.now owner.now.agent ruled_out.new.rows.items ruled_out.new.counts.items ruled_out.new.firsts.items }
    ensures right { IsRightAt owner.now.problem.now owner.now.agent (told_to owner.now) (rows_for owner.now ruled_out.new) place }
    ensures others { KeepsOthers (size_of owner.now.problem.now owner.now.agent) place ruled_out.old.rows.items ruled_out.new.rows.items }
{
    let rule = owner.rules[place];
    let known = ViewValues { view: owner.view };
    let open_var = OpenVariable {
        var: owner.agent,
        lookup: &known,
    };
    match span_of(owner.problem, rule, &open_var) {
        Some(span) => ruled_out.replace_span(place, owner.values, span),
        None => {
            fill(owner, rule, room);
            ruled_out.replace(place, owner.values, room);
        }
    }
}

/// Marks as bits the values that the rule rules out.
#[inline(never)]
fn fill(owner: &Owner, rule: u32, room: &mut Marks)
    requires agent { owner.now.agent < length owner.now.problem.now.domains }
    requires rule { rule < length owner.now.problem.now.rules }
    requires domains { AreInDomains (csp_of owner.now.problem.now) (told_to owner.now) }
    requires room { IsRoom (size_of owner.now.problem.now owner.now.agent) room.old }
    ensures room { IsRoom (size_of owner.now.problem.now owner.now.agent) room.new }
    ensures marks { HasMarksOf owner.now.problem.now rule owner.now.agent (told_to owner.now) room.new }
{
    if let Marks::Row(row) = room {
        let known = ViewValues { view: owner.view };
        let open_var = OpenVariable {
            var: owner.agent,
            lookup: &known,
        };
        fill_row(owner.problem, rule, &open_var, row);
    }
}
