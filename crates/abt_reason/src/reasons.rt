//! The first reason for each value, kept while the view and the store change.

ghost use Rattle.std.specs.Prelude.{◌≡◌, ◌<◌, ◌≤◌, ℕ, List, None, Some, [], IfOk, IfSome, OnOk, length};
ghost use Rattle.dcsp_defs.specs.declared.Reason.TheVariants.{Rule};
ghost use Rattle.dcsp_defs.specs.Csp.{PartialAssignment};
ghost use Rattle.abt_defs.specs.Agents.{values_in};
ghost use Rattle.dcsp_rule.specs.Problems.{csp_of, AreInDomains};
ghost use Rattle.abt_parts.specs.declared.recorded.Recorded.{Recorded as TheRecorded};
ghost use Rattle.abt_parts.specs.Views.{view_of};
ghost use Rattle.abt_reason.specs.Grids.{IsValueRun};
ghost use Rattle.abt_reason.specs.Cached.{rules_of, size_of, AreFirstsOf, HasRoom, owned_at, IsFirstFalseAt, IsFirstFree, IsFirstFreeBetween, IsOtherIn, IsReasonAt, IsValueRunFrom, NoneFreeBetween, StandsFor, StoodBefore, StoodWithoutFitting, StoodWithoutLast};

use crate::grid::ValueRun;
use crate::kept::KeptSteps;
use crate::named::others_of;
use crate::rules::{FirstRules, Owner};
use crate::search::earlier;
use crate::under::{Seat, ViewValues};
use abt_parts::{Store, View};
use dcsp_common::Memory;
use dcsp_defs::Reason;
use dcsp_problem::Problem;
use std::alloc::Global;
use std::marker::Model;

/// For each value of one agent's domain the first violated item.
#[derive(Drop)]
pub struct Reasons<'p> {
    problem: &'p Problem,
    agent: u32,
    /// The rules that the agent owns. They are kept at hand, since each step asks for some for each value.
    owned: &'p [u32],
    /// For each of them the one variable that it names beside the agent's own, if it names just one.
    others: Vec<Option<u32>>,
    rules: FirstRules,
    kept: KeptSteps,
}

impl<'p> Model for Reasons<'p> {
    ghost use Rattle.abt_reason.specs.Cached.{shown, Cached, IsCacheOf};

    ghost Value = { Cached };

    ghost view = { λ r. shown r.problem.now r.agent r.rules r.kept };

    ghost invariant = { λ r. IsCacheOf r.problem.now r.agent r.owned.now r.others.items r.rules r.kept };
}

impl<'p> Reasons<'p> {
    /// For an agent that was told nothing and keeps no nogood.
    pub fn new(alloc: Global, problem: &'p Problem, agent: u32) -> Result<Reasons<'p>, Memory>
        requires { agent < length problem.now.domains }
        ensures problem { IfOk result (λ reasons. reasons.problem ≡ problem.now) }
        ensures agent { IfOk result (λ reasons. reasons.agent ≡ agent) }
        ensures stands { IfOk result (λ reasons. StandsFor reasons (λ k. None) []) }
    {
        let _values = problem.domain(agent).len();
        let rules = FirstRules::new(alloc, problem, agent)?;
        let owned = problem.owned(agent);
        Ok(Reasons {
            problem,
            agent,
            owned,
            others: others_of(alloc, problem, owned, agent)?,
            rules,
            kept: KeptSteps::new(alloc),
        })
    }

    /// Takes in that the view has changed at one variable, and that the store has taken out the items
    /// that disagree with it there. It takes no memory.
    pub fn after_view(&mut self, var: u32, view: &View, store: &Store)
        requires domains { AreInDomains (csp_of self.old.problem) (values_in (view_of view.now)) }
        requires stood { StoodBefore self.old var (values_in (view_of view.now)) store.now }
        ensures problem { self.new.problem ≡ self.old.problem }
        ensures agent { self.new.agent ≡ self.old.agent }
        ensures stands { StandsFor self.new (values_in (view_of view.now)) store.now }
    {
        let domain = self.problem.domain(self.agent);
        let owner = Owner {
            problem: self.problem,
            agent: self.agent,
            rules: self.owned,
            values: domain.len(),
            view,
        };
        self.rules.after_view(&owner, var);
        let seat = Seat {
            domain,
            agent: self.agent,
            known: &ViewValues { view },
        };
        self.kept.after_view(&seat, var, store);
    }

    /// Makes room for the steps of nogoods, which is to be done before one is recorded. An `Err` changes nothing.
    pub fn make_room(&mut self, alloc: Global) -> Result<(), Memory>
        ensures room { OnOk result (HasRoom self.new) }
        ensures problem { self.new.problem ≡ self.old.problem }
        ensures agent { self.new.agent ≡ self.old.agent }
        ensures stands { (known : PartialAssignment) (items : List TheRecorded) → StandsFor self.old known items → StandsFor self.new known items }
    {
        let values = self.problem.domain(self.agent).len();
        self.kept.make_room(alloc, values)
    }

    /// Takes in that the store has a last item more, for which there is room. It takes no memory.
    pub fn after_record(&mut self, view: &View, store: &Store)
        requires room { HasRoom self.old }
        requires stood { StoodWithoutLast self.old (values_in (view_of view.now)) store.now }
        ensures problem { self.new.problem ≡ self.old.problem }
        ensures agent { self.new.agent ≡ self.old.agent }
        ensures stands { StandsFor self.new (values_in (view_of view.now)) store.now }
    {
        let seat = Seat {
            domain: self.problem.domain(self.agent),
            agent: self.agent,
            known: &ViewValues { view },
        };
        self.kept.after_record(&seat, store);
    }

    /// The same, where the last item is the agent's and agrees with what is known where the agent has the value
    /// of its lowest pair. Nothing known is looked at.
    pub fn after_fitting_record(&mut self, store: &Store)
        requires room { HasRoom self.old }
        requires some { 0 < length store.now }
        ensures problem { self.new.problem ≡ self.old.problem }
        ensures agent { self.new.agent ≡ self.old.agent }
        ensures stands { (known : PartialAssignment) → StoodWithoutFitting self.old known store.now → StandsFor self.new known store.now }
    {
        let domain = self.problem.domain(self.agent);
        self.kept.after_fitting_record(domain, store);
    }

    /// The reason for the value at a place of the agent's domain; `None` exactly if the value is not
    /// ruled out.
    pub fn first(&self, place: usize) -> Option<Reason>
        requires { place < size_of self.now.problem self.now.agent }
        ensures { IsReasonAt self.now place result }
    {
        self.first_in(place, self.run(place))
    }

    /// The same, where it is known in which run the value is.
    #[inline(always)]
    pub fn first_in(&self, place: usize, run: ValueRun) -> Option<Reason>
        requires place { place < size_of self.now.problem self.now.agent }
        requires run { IsValueRunFrom self.now place run }
        requires within { place < run.end }
        ensures reason { IsReasonAt self.now place result }
        ensures rule { (at : ℕ) → run.first ≡ Some at → result ≡ Some (Rule (owned_at self.now at)) }
    {
        match run.first {
            Some(at) => Some(Reason::Rule(self.owned[at as usize])),
            None => earlier(self.kept.step(place)),
        }
    }

    /// The one variable that the run's rule names beside the agent's own, if there is a rule and it names just one.
    #[inline(always)]
    pub fn other_in(&self, place: usize, run: ValueRun) -> Option<u32>
        requires run { IsValueRunFrom self.now place run }
        requires within { place < run.end }
        ensures { IfSome result (λ var. IsOtherIn self.now run var) }
    {
        match run.first {
            Some(at) => self.others[at as usize],
            None => None,
        }
    }

    /// The run in which the value at a place is: the last one if that goes so far, else one that begins here.
    #[inline(always)]
    pub fn run_from(&self, place: usize, last: ValueRun) -> ValueRun
        requires place { place < size_of self.now.problem self.now.agent }
        requires last { IsValueRunFrom self.now place last }
        ensures run { IsValueRunFrom self.now place result }
        ensures within { place < result.end }
    {
        if place < last.end {
            last
        } else {
            self.run(place)
        }
    }

    /// The place, among the rules that the agent owns, of the first that is violated at the value at a place of
    /// the agent's domain; `None` exactly if none is.
    pub fn first_rule(&self, place: usize) -> Option<u32>
        requires { place < size_of self.now.problem self.now.agent }
        ensures { IsFirstFalseAt self.now place result }
    {
        self.run(place).first
    }

    /// For each value of the agent's domain the place, among the rules that the agent owns, of the first that rules it
    /// out; for no value where none are kept.
    #[inline(always)]
    pub fn firsts(&self) -> &[Option<u32>]
        ensures { AreFirstsOf self.now result.now }
    {
        &self.rules.ruled_out.firsts
    }

    /// The place of the first value of the agent's domain that is not ruled out.
    pub fn first_free(&self) -> Option<usize>
        ensures { IsFirstFree self.now result }
    {
        let size = self.problem.domain(self.agent).len();
        let mut place = self.pass_ruled_out(0);
        while place < size {
            let run = self.run(place);
            if let Some(free) = self.free_in(place, run) {
                return Some(free);
            }
            place = self.pass_ruled_out(run.end);
        }
        None
    }

    /// Passes values that are ruled out, from the one at a place on.
    #[inline(always)]
    fn pass_ruled_out(&self, place: usize) -> usize
        ensures later { place ≤ result }
        ensures passed { NoneFreeBetween self.now place result }
    {
        self.rules.ruled_out.pass_ruled_out(place)
    }

    /// The place of the first value of a run, which begins here, that is not ruled out.
    #[inline(always)]
    fn free_in(&self, place: usize, run: ValueRun) -> Option<usize>
        requires { IsValueRun self.now.rows (rules_of self.now.problem self.now.agent) (size_of self.now.problem self.now.agent) place run.first run.end }
        ensures { IsFirstFreeBetween self.now place run.end result }
    {
        match run.first {
            Some(_) => None,
            None => self.kept.first_without(place, run.end),
        }
    }

    /// How far the values from the one at this place on have the same first rule that rules them out, and which
    /// of the rules that the agent owns it is.
    #[inline(always)]
    fn run(&self, place: usize) -> ValueRun
        requires { place < size_of self.now.problem self.now.agent }
        ensures { IsValueRun self.now.rows (rules_of self.now.problem self.now.agent) (size_of self.now.problem self.now.agent) place result.first result.end }
    {
        let values = self.problem.domain(self.agent).len();
        self.rules.ruled_out.run(values, place)
    }
}
