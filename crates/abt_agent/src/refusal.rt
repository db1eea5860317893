//! The step that says why an agent has no value left.

ghost use Rattle.std.specs.Prelude.{◌≡◌, ◌<◌, ◌∷◌, ◌++◌, [], ◌&&◌, ◌||◌, ◌^◌, ◌+◌, ◌≤◌, ℕ, IfOk, IfSome, OnOk, filter, filter_map, length, nat_lt, option_to_list, vec_capacity, vec_len};
ghost use Rattle.std.specs.Option.{ForSome};
ghost use Rattle.dcsp_defs.specs.Words.{below};
ghost use Rattle.abt_defs.specs.Reasons.{pair_at, step_of};
ghost use Rattle.dcsp_rule.specs.Problems.{csp_of};
ghost use Rattle.abt_parts.specs.Messages.{with_stamps};
ghost use Rattle.abt_parts.specs.Stores.{records_of};
ghost use Rattle.abt_parts.specs.Views.{stamped_in, view_of};
ghost use Rattle.abt_agent.specs.Bodies.{AreProper, IsInStep};
ghost use Rattle.abt_parts.specs.Outgoing.{ArePositive, AreStampsOf, IsStampedView};
ghost use Rattle.abt_reason.specs.Cached.{AreFirstsOf};
ghost use Rattle.abt_marks.specs.Marks.{has_mark};
ghost use Rattle.dcsp_defs.specs.Csp.{domain};
ghost use Rattle.abt_agent.specs.Causes.{all_causes, blames, blames_one, derived_by, reasons_at, item_at, told_of, AreBlamed, IsCause, NamesOther};

use crate::knowledge::Knowledge;
use crate::search::Cause;
use abt_marks::{make_blank, mark, mark_pairs, mark_variables};
use abt_parts::{StampList, StampedValue, add_told};
use abt_reason::ValueRun;
use dcsp_common::Memory;
use dcsp_defs::{Nogood, Pair, Reason, ReasonList};
use dcsp_row::Row;
use ngd_log::Step;
use std::alloc::Global;
use std::mem;

/// A step without pairs and reasons, in whose place others are made. It takes no memory.
pub fn no_step(alloc: Global) -> Step {
    Step {
        variable: None,
        nogood: Nogood::of_rising(Vec::new(alloc)),
        reasons: ReasonList::new(alloc),
    }
}

/// Empty lists of pairs and reasons, with the room of a step's.
fn lists_of(alloc: Global, step: &mut Step) -> (Vec<Pair>, Vec<Reason>)
    ensures pairs { result.0.items ≡ [] }
    ensures reasons { result.1.items ≡ [] }
{
    let old = mem::replace(step, no_step(alloc));
    let mut pairs = old.nogood.into_pairs();
    pairs.clear();
    let mut reasons = old.reasons.into_vec();
    reasons.clear();
    (pairs, reasons)
}

impl<'p> Knowledge<'p> {
    /// Makes the step at the agent's variable that the reasons against all its values make, in place of one that is no
    /// longer needed, and gives the stamps of its nogood. The row is room for marks, whatever it has, and `stamps` for
    /// the stamps.
    pub fn refuse(
        &self,
        marks: &mut Row,
        stamps: Vec<u64>,
        made: &mut Step,
    ) -> Result<StampList, Memory>
        requires stamps { stamps.items ≡ [] }
        requires in_step { IsInStep self.now }
        requires proper { AreProper self.now.problem.now self.now.me self.now.store }
        ensures step { OnOk result (made.new ≡ step_of (csp_of self.now.problem.now) self.now.me (view_of self.now.view) (records_of self.now.store)) }
        ensures pairs { IfOk result (λ stamps. with_stamps made.new.nogood stamps ≡ derived_by self.now) }
        ensures stamped { IfOk result (λ stamps. AreStampsOf made.new.nogood stamps) }
    {
        make_blank(self.alloc, marks, self.me as usize)?;
        let (pairs, reasons) = lists_of(self.alloc, made);
        let reasons = self.blame(marks, reasons)?;
        let (nogood, stamps) = self.gather(marks, reasons.len(), pairs, stamps)?;
        *made = Step {
            variable: Some(self.me),
            nogood,
            reasons,
        };
        Ok(stamps)
    }

    /// What a step cites against the agent's values, in order. The higher agents that this names are
    /// marked.
    fn blame(&self, marks: &mut Row, mut reasons: Vec<Reason>) -> Result<ReasonList, Memory>
        requires empty { reasons.items ≡ [] }
        requires in_step { IsInStep self.now }
        requires proper { AreProper self.now.problem.now self.now.me self.now.store }
        requires size { length marks.old ≡ self.now.me }
        ensures reasons { IfOk result (λ reasons. reasons ≡ reasons_at self.now.problem.now self.now.store (all_causes self.now)) }
        ensures size { OnOk result (length marks.new ≡ length marks.old) }
        ensures marks { OnOk result (AreBlamed self.now marks.old marks.new) }
    {
        let values = self.problem.domain(self.me).len();
        reasons.reserve(values)?;
        let firsts = self.reasons.firsts();
        if firsts.len() == values {
            self.blame_counted(firsts, &mut reasons, marks);
        } else {
            self.blame_runs(&mut reasons, marks);
        }
        Ok(ReasonList::from_vec(reasons))
    }

    /// The same, value by value, where for each the first rule against it is kept. There is room for the reasons.
    #[inline(always)]
    fn blame_counted(&self, firsts: &[Option<u32>], reasons: &mut Vec<Reason>, marks: &mut Row)
        requires in_step { IsInStep self.now }
        requires proper { AreProper self.now.problem.now self.now.me self.now.store }
        requires size { length marks.old ≡ self.now.me }
        requires firsts { AreFirstsOf self.now.reasons firsts.now }
        requires each { length firsts.now ≡ length (domain (csp_of self.now.problem.now) self.now.me) }
        requires empty { reasons.old.items ≡ [] }
        requires none { vec_len reasons.old ≡ 0 }
        requires room { length (domain (csp_of self.now.problem.now) self.now.me) ≤ vec_capacity reasons.old }
        ensures reasons { reasons.new.items ≡ reasons_at self.now.problem.now self.now.store (all_causes self.now) }
        ensures size { length marks.new ≡ length marks.old }
        ensures marks { AreBlamed self.now marks.old marks.new }
    {
        // Each rule that the agent owns is one of the problem's.
        let _rules = self.problem.owned(self.me);
        for place in 0..firsts.len() {
            let run = ValueRun {
                first: firsts[place],
                end: place + 1,
            };
            let other = self.reasons.other_in(place, run);
            self.blame_one(reasons, marks, self.cause_in(place, run), other);
        }
    }

    /// The same, where the rules are gone over: once for values that stand one after another and have the same first
    /// rule against them.
    fn blame_runs(&self, reasons: &mut Vec<Reason>, marks: &mut Row)
        requires in_step { IsInStep self.now }
        requires proper { AreProper self.now.problem.now self.now.me self.now.store }
        requires size { length marks.old ≡ self.now.me }
        requires empty { reasons.old.items ≡ [] }
        requires none { vec_len reasons.old ≡ 0 }
        requires room { length (domain (csp_of self.now.problem.now) self.now.me) ≤ vec_capacity reasons.old }
        ensures reasons { reasons.new.items ≡ reasons_at self.now.problem.now self.now.store (all_causes self.now) }
        ensures size { length marks.new ≡ length marks.old }
        ensures marks { AreBlamed self.now marks.old marks.new }
    {
        let _rules = self.problem.owned(self.me);
        let values = self.problem.domain(self.me).len();
        let mut run = ValueRun {
            first: None,
            end: 0,
        };
        for place in 0..values {
            run = self.reasons.run_from(place, run);
            let other = self.reasons.other_in(place, run);
            self.blame_one(reasons, marks, self.cause_in(place, run), other);
        }
    }

    /// Adds what a step cites for the cause, if there is one, and marks the higher agents that it names: the
    /// other one, if that is known to be the only one. There is room for the reason.
    #[inline(always)]
    fn blame_one(
        &self,
        reasons: &mut Vec<Reason>,
        marks: &mut Row,
        cause: Option<Cause>,
        other: Option<u32>,
    )
        requires cause { IfSome cause (IsCause self.now.problem.now self.now.store) }
        requires other { IfSome cause (λ x. NamesOther self.now.problem.now self.now.store (length marks.old) x other) }
        requires room { vec_len reasons.old < vec_capacity reasons.old }
        ensures reasons { reasons.new.items ≡ reasons.old.items ++ reasons_at self.now.problem.now self.now.store (option_to_list cause) }
        ensures len { vec_len reasons.new ≤ vec_len reasons.old + 1 }
        ensures capacity { vec_capacity reasons.new ≡ vec_capacity reasons.old }
        ensures size { length marks.new ≡ length marks.old }
        ensures marks { (k : ℕ) → has_mark marks.new k ≡ (has_mark marks.old k || (nat_lt k (length marks.old) && blames self.now.problem.now self.now.store (option_to_list cause) k)) }
    {
        if let Some(cause) = cause {
            self.name_one(marks, cause, other);
            reasons.push_reserved(self.reason_of(cause));
        }
    }

    /// Marks the higher agents that the cause names, or the other one alone, if it is told.
    #[inline(always)]
    fn name_one(&self, marks: &mut Row, cause: Cause, other: Option<u32>)
        requires cause { IsCause self.now.problem.now self.now.store cause }
        requires other { NamesOther self.now.problem.now self.now.store (length marks.old) cause other }
        ensures size { length marks.new ≡ length marks.old }
        ensures marks { (k : ℕ) → has_mark marks.new k ≡ (has_mark marks.old k || (nat_lt k (length marks.old) && blames_one self.now.problem.now self.now.store cause k)) }
    {
        if let Some(var) = other {
            mark(marks, var);
            return;
        }
        match cause {
            Cause::OwnedRule(rule) => mark_variables(marks, self.problem.scope(rule)),
            Cause::KeptNogood(place) => mark_pairs(marks, self.store.items()[place].nogood.pairs()),
        }
    }

    /// What the view has of the marked agents, in order, with its stamps. At first there is room for so many pairs, if
    /// there are as many agents.
    fn gather(
        &self,
        marks: &Row,
        many: usize,
        mut pairs: Vec<Pair>,
        mut stamps: Vec<u64>,
    ) -> Result<(Nogood, StampList), Memory>
        requires none { pairs.items ≡ [] }
        requires empty { stamps.items ≡ [] }
        requires few { length marks.now < 2 ^ 32 }
        requires stamps { IsStampedView (view_of self.now.view) }
        ensures told { IfOk result (λ basis. with_stamps basis.0 basis.1 ≡ filter_map (told_of (view_of self.now.view)) (filter (has_mark marks.now) (below (length marks.now)))) }
        ensures stamped { IfOk result (λ basis. AreStampsOf basis.0 basis.1) }
    {
        pairs.reserve(marks.len().min(many))?;
        let mut walk = marks.walk();
        while let Some(agent) = marks.next_of(&mut walk) {
            let var = agent as u32;
            add_told(&mut pairs, &mut stamps, var, self.stamped_value(var))?;
        }
        // The agents rise.
        Ok((Nogood::of_rising(pairs), StampList::from_vec(stamps)))
    }

    /// What the view has of the agent.
    #[inline(always)]
    fn stamped_value(&self, var: u32) -> Option<StampedValue>
        requires { IsStampedView (view_of self.now.view) }
        ensures told { pair_at var (stamped_in result) ≡ told_of (view_of self.now.view) var }
        ensures stamped { ForSome result (λ told. 0 < told.stamp) }
    {
        self.view.stamped_value(var)
    }

    /// What a step cites for the cause.
    #[inline(always)]
    fn reason_of(&self, cause: Cause) -> Reason
        requires { IsCause self.now.problem.now self.now.store cause }
        ensures { result ≡ (item_at self.now.problem.now self.now.store cause).reason }
    {
        match cause {
            Cause::OwnedRule(rule) => Reason::Rule(rule),
            Cause::KeptNogood(place) => Reason::Earlier(self.store.items()[place].step),
        }
    }
}
