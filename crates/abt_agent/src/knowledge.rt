//! What an agent was told, which nogoods it keeps, and why its values are ruled out.

ghost use Rattle.std.specs.Prelude.{◌≡◌, ◌<◌, ◌∷◌, ◌++◌, [], IfOk, None, OnOk, Some, false, length, true, if◌then◌else◌};
ghost use Rattle.std.specs.Option.{ForSome};
ghost use Rattle.dcsp_defs.specs.Words.{In, update};
ghost use Rattle.dcsp_defs.specs.Csp.{domain};
ghost use Rattle.dcsp_rule.specs.Problems.{csp_of};
ghost use Rattle.abt_defs.specs.Agents.{value_in, values_in};
ghost use Rattle.abt_defs.specs.Steps as steps;
ghost use Rattle.abt_parts.specs.Views.{stamped_in, stamped_of, view_of};
ghost use Rattle.abt_parts.specs.Stores.{is_ruled_out, lowest_value, records_of};
ghost use Rattle.abt_reason.specs.Kept.{IsFitting};
ghost use Rattle.abt_agent.specs.Bodies.{owner_of, IsInStep};

use abt_parts::{Recorded, StampedValue, Store, View, has_value, is_news};
use abt_reason::Reasons;
use dcsp_common::Memory;
use dcsp_problem::Problem;
use std::alloc::Global;

/// What an agent was told of higher agents, which nogoods it keeps, and for each of its values the first
/// reason against it: all three change together.
#[derive(Drop)]
pub struct Knowledge<'p> {
    pub alloc: Global,
    pub problem: &'p Problem,
    /// The agent's number.
    pub me: u32,
    pub view: View,
    pub store: Store,
    /// For each value of the agent the first reason under the view and the store.
    pub reasons: Reasons<'p>,
}

impl<'p> Knowledge<'p> {
    /// What an agent knows that was told nothing.
    pub fn new(alloc: Global, problem: &'p Problem, me: u32) -> Result<Knowledge<'p>, Memory>
        requires { me < length problem.now.domains }
        ensures owner { IfOk result (λ known. owner_of known ≡ (problem.now, me)) }
        ensures view { IfOk result (λ known. view_of known.view ≡ (λ k. None)) }
        ensures store { IfOk result (λ known. known.store ≡ []) }
        ensures in_step { IfOk result IsInStep }
    {
        let reasons = Reasons::new(alloc, problem, me)?;
        Ok(Knowledge {
            alloc,
            problem,
            me,
            view: View::without_places(alloc, me),
            store: Store::new(alloc),
            reasons,
        })
    }

    /// Takes in a value that is newer than what the view has, and forgets what disagrees with it. True
    /// exactly if it is newer.
    pub fn learn(&mut self, from: u32, told: StampedValue) -> Result<bool, Memory>
        requires in_step { IsInStep self.old }
        requires higher { from < self.old.me }
        requires value { In told.value (domain (csp_of self.old.problem.now) from) }
        requires stamped { 0 < told.stamp }
        ensures news { IfOk result (λ news. news ≡ steps.is_newer (view_of self.old.view from) told.stamp) }
        ensures view { IfOk result (λ news. view_of self.new.view ≡ (if news then update (view_of self.old.view) from (Some (stamped_of told)) else view_of self.old.view)) }
        ensures store { IfOk result (λ news. records_of self.new.store ≡ (if news then steps.forget from told.value (records_of self.old.store) else records_of self.old.store)) }
        ensures owner { owner_of self.new ≡ owner_of self.old }
        ensures in_step { OnOk result (IsInStep self.new) }
    {
        let before = self.view.tell(from, told)?;
        if !is_news(before, told.stamp) {
            return Ok(false);
        }
        let was_known = has_value(before, told.value);
        let kept = self.store.len();
        self.store.forget(from, told.value);
        // A newer stamp alone changes no reason.
        if was_known && self.store.len() == kept {
            return Ok(true);
        }
        self.reasons.after_view(from, &self.view, &self.store);
        Ok(true)
    }

    /// Keeps a nogood that fits the view, as the first for its value of the agent.
    pub fn keep(&mut self, recorded: Recorded) -> Result<(), Memory>
        requires in_step { IsInStep self.old }
        requires fits { IsFitting self.old.me (values_in (view_of self.old.view)) recorded }
        requires first { ForSome (lowest_value recorded.nogood) (λ value. is_ruled_out value self.old.store ≡ false) }
        ensures store { OnOk result (self.new.store ≡ self.old.store ++ recorded ∷ []) }
        ensures view { OnOk result (self.new.view ≡ self.old.view) }
        ensures owner { owner_of self.new ≡ owner_of self.old }
        ensures in_step { OnOk result (IsInStep self.new) }
    {
        let Recorded { nogood, step } = recorded;
        self.reasons.make_room(self.alloc)?;
        let Ok(()) = self.store.keep(nogood, step) else {
            return Err(Memory);
        };
        self.reasons.after_fitting_record(&self.store);
        Ok(())
    }
}
