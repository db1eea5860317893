//! The search for what rules a value out.

ghost use Rattle.std.specs.Prelude.{◌≡◌, ◌<◌, ℕ, Some, is_some, length, not};
ghost use Rattle.dcsp_defs.specs.Csp.{domain};
ghost use Rattle.dcsp_rule.specs.Problems.{csp_of};
ghost use Rattle.abt_reason.specs.Cached.{owned_at, IsValueRunFrom};
ghost use Rattle.abt_agent.specs.declared.search.Cause.TheVariants.{OwnedRule};
ghost use Rattle.abt_reason.specs.Causes.{reason_for, value_at};
ghost use Rattle.abt_parts.specs.Stores.{IsOncePerValue};
ghost use Rattle.abt_agent.specs.Bodies.{AreProper, IsInStep};
ghost use Rattle.abt_agent.specs.Causes.{cause_at, first_against, least_free, own_value, told_to};

use crate::knowledge::Knowledge;
use abt_reason::ValueRun;
use dcsp_defs::Reason;

/// What rules a value out.
#[derive(Clone, Copy, Debug, PartialEq, Eq)]
pub enum Cause {
    /// The rule with this number, which the agent owns.
    OwnedRule(u32),
    /// The nogood at this place of the store.
    KeptNogood(usize),
}

impl<'p> Knowledge<'p> {
    /// What rules out the value at a place of the agent's domain first, if anything does, where it is known in which
    /// run of its values this is.
    #[inline(always)]
    pub fn cause_in(&self, place: usize, run: ValueRun) -> Option<Cause>
        requires in_step { IsInStep self.now }
        requires proper { AreProper self.now.problem.now self.now.me self.now.store }
        requires place { place < length (domain (csp_of self.now.problem.now) self.now.me) }
        requires run { IsValueRunFrom self.now.reasons place run }
        requires within { place < run.end }
        ensures cause { result ≡ cause_at self.now place }
        ensures rule { (at : ℕ) → run.first ≡ Some at → result ≡ Some (OwnedRule (owned_at self.now.reasons at)) }
    {
        match self.reasons.first_in(place, run) {
            None => None,
            Some(Reason::Rule(rule)) => Some(Cause::OwnedRule(rule)),
            Some(Reason::Earlier(_)) => self.against(self.value_at(place)),
        }
    }

    /// The first reason against the value at a place of the agent's domain.
    pub fn reason_at(&self, place: usize) -> Option<Reason>
        requires in_step { IsInStep self.now }
        requires place { place < length (domain (csp_of self.now.problem.now) self.now.me) }
        ensures { result ≡ reason_for self.now.problem.now self.now.me (told_to self.now) self.now.store (own_value self.now place) }
    {
        self.reasons.first(place)
    }

    /// The nogood that is kept against the value, if there is one.
    fn against(&self, value: i64) -> Option<Cause>
        ensures cause { result ≡ first_against value 0 self.now.store }
        ensures once { IsOncePerValue self.now.store }
    {
        let _items = self.store.items();
        match self.store.against(value) {
            Some(place) => Some(Cause::KeptNogood(place)),
            None => None,
        }
    }

    /// The value at a place of the agent's domain.
    pub fn value_at(&self, place: usize) -> i64
        requires agent { self.now.me < length self.now.problem.now.domains }
        requires place { place < length (domain (csp_of self.now.problem.now) self.now.me) }
        ensures { result ≡ value_at self.now.problem.now self.now.me place }
    {
        self.problem.domain(self.me).value(place)
    }

    /// Whether nothing rules out the value at a place of the agent's domain.
    pub fn is_free_at(&self, place: usize) -> bool
        requires in_step { IsInStep self.now }
        requires place { place < length (domain (csp_of self.now.problem.now) self.now.me) }
        ensures { result ≡ not (is_some (cause_at self.now place)) }
    {
        self.reasons.first(place).is_none()
    }

    /// The least value of the agent's domain that nothing rules out.
    pub fn least_free(&self) -> Option<i64>
        requires { IsInStep self.now }
        ensures { result ≡ least_free self.now.problem.now self.now.me (told_to self.now) self.now.store (domain (csp_of self.now.problem.now) self.now.me) }
    {
        match self.reasons.first_free() {
            Some(place) => Some(self.value_at(place)),
            None => None,
        }
    }
}
