//! How much an agent looks at as it settles.

ghost use Rattle.std.specs.Prelude.{◌≡◌, ◌<◌, ◌≤◌, ◌+◌, ℤ, Some, IfOk, filter, is_some, length, take};
ghost use Rattle.dcsp_defs.specs.Words.{In};
ghost use Rattle.dcsp_defs.specs.Csp.{domain, with_value};
ghost use Rattle.dcsp_rule.specs.Problems.{csp_of};
ghost use Rattle.dcsp_problem.specs.Index.{owned_rules};
ghost use Rattle.abt_defs.specs.Checks.{checks, constraint_checks, nogood_checks};
ghost use Rattle.abt_parts.specs.Stores.{records_of};
ghost use Rattle.abt_agent.specs.Bodies.{IsInStep};
ghost use Rattle.abt_parts.specs.Checked.{as_checks, sum_of};
ghost use Rattle.abt_agent.specs.Causes.{own_value, told_to};
ghost use Rattle.abt_agent.specs.Examined.{is_decided_with, other_checks, AreLookedAt};

use crate::knowledge::Knowledge;
use abt_parts::Checks;
use dcsp_common::Memory;
use dcsp_defs::Reason;

impl<'p> Knowledge<'p> {
    /// Whether each variable of the rule, but for the agent's own, has a value in the view.
    fn is_decided(&self, rule: u32) -> bool
        requires { rule < length self.now.problem.now.rules }
        ensures { (v : ℤ) → result ≡ is_decided_with self.now v rule }
    {
        self.view.knows_all(self.me, self.problem.scope(rule))
    }

    /// How many of so many first rules that the agent owns are decided.
    fn decided_among(&self, end: usize) -> u64
        requires agent { self.now.me < length self.now.problem.now.domains }
        requires end { end ≤ length (owned_rules self.now.problem.now self.now.me) }
        ensures { (v : ℤ) → result ≡ length (filter (is_decided_with self.now v) (take end (owned_rules self.now.problem.now self.now.me))) }
    {
        let owned = self.problem.owned(self.me);
        let mut count = 0;
        for place in 0..end {
            count += u64::from(self.is_decided(owned[place]));
        }
        count
    }

    /// The checks of the value at a place of the agent's domain.
    fn value_checks(&self, place: usize) -> Checks
        requires in_step { IsInStep self.now }
        requires place { place < length (domain (csp_of self.now.problem.now) self.now.me) }
        ensures constraints { result.constraints ≡ constraint_checks (csp_of self.now.problem.now) self.now.me (told_to self.now) (own_value self.now place) }
        ensures nogoods { result.nogoods ≡ nogood_checks (csp_of self.now.problem.now) self.now.me (told_to self.now) (records_of self.now.store) (own_value self.now place) }
    {
        let nogoods = match self.reasons.first(place) {
            Some(Reason::Earlier(_)) => 1,
            Some(Reason::Rule(_)) | None => 0,
        };
        let end = self.looked_at(place);
        Checks {
            constraints: self.decided_among(end),
            nogoods,
        }
    }

    /// How many first rules that the agent owns are looked at for the value at a place of its domain: those up to
    /// the first that is violated, or all.
    fn looked_at(&self, place: usize) -> usize
        requires in_step { IsInStep self.now }
        requires place { place < length (domain (csp_of self.now.problem.now) self.now.me) }
        ensures within { result ≤ length (owned_rules self.now.problem.now self.now.me) }
        ensures looked_at { AreLookedAt self.now.problem.now self.now.me (with_value self.now.me (own_value self.now place) (told_to self.now)) result }
    {
        match self.reasons.first_rule(place) {
            Some(at) => at as usize + 1,
            None => self.problem.owned(self.me).len(),
        }
    }

    /// The checks of the values of the agent's domain but its own, up to the first that is not ruled out, and
    /// those so far.
    fn other_checks(&self, own: Option<i64>, so_far: Checks) -> Result<Checks, Memory>
        requires { IsInStep self.now }
        ensures { IfOk result (λ sum. as_checks sum ≡ sum_of (as_checks so_far) (other_checks self.now own)) }
    {
        let domain = self.problem.domain(self.me);
        let mut sum = so_far;
        for place in 0..domain.len() {
            if own == Some(self.value_at(place)) {
                continue;
            }
            sum = sum.plus(self.value_checks(place))?;
            if self.is_free_at(place) {
                return Ok(sum);
            }
        }
        Ok(sum)
    }

    /// The checks of the agent as it settles with this value of its own.
    pub fn checks(&self, own: Option<i64>) -> Result<Checks, Memory>
        requires in_step { IsInStep self.now }
        requires own { (v : ℤ) → own ≡ Some v → In v (domain (csp_of self.now.problem.now) self.now.me) }
        ensures { IfOk result (λ sum. as_checks sum ≡ checks (csp_of self.now.problem.now) self.now.me (told_to self.now) (records_of self.now.store) own) }
    {
        let none = Checks {
            constraints: 0,
            nogoods: 0,
        };
        let Some(value) = own else {
            return self.other_checks(own, none);
        };
        let Some(place) = self.problem.domain(self.me).place_of(value) else {
            return Ok(none);
        };
        let first = self.value_checks(place);
        if self.is_free_at(place) {
            return Ok(first);
        }
        self.other_checks(own, first)
    }
}
