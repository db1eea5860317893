//! What an agent learns of higher agents, and which nogoods it keeps.

ghost use Rattle.std.specs.Prelude.{◌≡◌, ◌<◌, ◌∷◌, [], ◌&&◌, IfOk, IfSome, OnOk, false, is_some, length, nat_lt, not, true, if◌then◌else◌};
ghost use Rattle.std.specs.Option.{ForSome};
ghost use Rattle.dcsp_defs.specs.Pairs.{pair_of, IsRising as PairsRise};
ghost use Rattle.dcsp_defs.specs.declared.nogood.Pair.{Pair as ThePair};
ghost use Rattle.dcsp_defs.specs.Words.{In};
ghost use Rattle.dcsp_defs.specs.Csp.{domain};
ghost use Rattle.dcsp_rule.specs.Problems.{csp_of};
ghost use Rattle.abt_defs.specs.Steps as steps;
ghost use Rattle.abt_parts.specs.Messages.{with_stamps};
ghost use Rattle.abt_parts.specs.Views.{view_of, stamped_of};
ghost use Rattle.abt_parts.specs.Stores.{is_ruled_out, lowest_value, record_of};
ghost use Rattle.abt_agent.specs.Bodies.{agent_of, is_wanted, owner_of, AreProper, IsProper, IsSized};
ghost use Rattle.abt_parts.specs.Outgoing.{AreStampsOf};

use crate::body::AgentBody;
use abt_parts::{Outbox, Recorded, StampedValue};
use dcsp_common::Memory;
use dcsp_defs::{Nogood, Pair};

/// What is told by a nogood.
#[derive(Clone, Copy)]
pub struct Learned {
    /// Whether each pair of a higher agent is as the view has it.
    pub fits: bool,
    /// Whether something was newer than the view.
    pub is_news: bool,
}

impl<'p> AgentBody<'p> {
    /// Takes in a value that is newer than what the view has, and forgets what disagrees with it. True
    /// exactly if it is newer.
    pub fn learn(&mut self, from: u32, told: StampedValue) -> Result<bool, Memory>
        requires sized { IsSized self.old }
        requires higher { from < self.old.known.me }
        requires value { In told.value (domain (csp_of self.old.known.problem.now) from) }
        requires stamped { 0 < told.stamp }
        ensures news { IfOk result (λ news. news ≡ steps.is_newer (view_of self.old.known.view from) told.stamp) }
        ensures agent { OnOk result (agent_of self.new ≡ steps.learn from (stamped_of told) (agent_of self.old)) }
        ensures owner { owner_of self.new.known ≡ owner_of self.old.known }
        ensures sized { OnOk result (IsSized self.new) }
    {
        let is_news = self.known.learn(from, told)?;
        Ok(is_news)
    }

    /// Takes in what is told of an agent, if that is higher. True exactly if the view then has this value, or
    /// the agent is not higher.
    #[inline(always)]
    fn learn_higher(&mut self, var: u32, told: StampedValue) -> Result<bool, Memory>
        requires sized { IsSized self.old }
        requires value { In told.value (domain (csp_of self.old.known.problem.now) var) }
        requires stamped { 0 < told.stamp }
        ensures fits { IfOk result (λ fits. fits ≡ steps.fits self.old.known.me (pair_of var told.value ∷ []) (agent_of self.new)) }
        ensures agent { OnOk result (agent_of self.new ≡ (if nat_lt var self.old.known.me then steps.learn var (stamped_of told) (agent_of self.old) else agent_of self.old)) }
        ensures owner { owner_of self.new.known ≡ owner_of self.old.known }
        ensures sized { OnOk result (IsSized self.new) }
    {
        if var >= self.known.me {
            return Ok(true);
        }
        // Most of what a nogood tells is known.
        if let Some(known) = self.known.view.stamped_value(var) {
            if told.stamp <= known.stamp {
                return Ok(known.value == told.value);
            }
        }
        let is_news = self.learn(var, told)?;
        Ok(is_news)
    }

    /// Takes in what is told of higher agents, in order. Mostly nothing is newer than the view.
    pub fn learn_all(&mut self, pairs: &[Pair], stamps: &[u64]) -> Result<Learned, Memory>
        requires sized { IsSized self.old }
        requires rising { PairsRise pairs.now }
        requires stamped { AreStampsOf pairs.now stamps.now }
        requires values { (pair : ThePair) → In pair pairs.now → In pair.value (domain (csp_of self.old.known.problem.now) pair.var) }
        ensures news { IfOk result (λ learned. learned.is_news ≡ steps.is_news self.old.known.me (with_stamps pairs.now stamps.now) (agent_of self.old)) }
        ensures fits { IfOk result (λ learned. learned.fits ≡ steps.fits self.old.known.me pairs.now (agent_of self.new)) }
        ensures agent { OnOk result (agent_of self.new ≡ steps.learn_all self.old.known.me (with_stamps pairs.now stamps.now) (agent_of self.old)) }
        ensures owner { owner_of self.new.known ≡ owner_of self.old.known }
        ensures sized { OnOk result (IsSized self.new) }
    {
        match self.fits_known(pairs, stamps) {
            Some(fits) => Ok(Learned {
                fits,
                is_news: false,
            }),
            None => {
                let fits = self.learn_each(pairs, stamps)?;
                Ok(Learned {
                    fits,
                    is_news: true,
                })
            }
        }
    }

    /// Takes in what is told of higher agents, in order. True exactly if each pair of a higher agent is then
    /// as the view has it.
    fn learn_each(&mut self, pairs: &[Pair], stamps: &[u64]) -> Result<bool, Memory>
        requires sized { IsSized self.old }
        requires rising { PairsRise pairs.now }
        requires stamped { AreStampsOf pairs.now stamps.now }
        requires values { (pair : ThePair) → In pair pairs.now → In pair.value (domain (csp_of self.old.known.problem.now) pair.var) }
        ensures fits { IfOk result (λ fits. fits ≡ steps.fits self.old.known.me pairs.now (agent_of self.new)) }
        ensures agent { OnOk result (agent_of self.new ≡ steps.learn_all self.old.known.me (with_stamps pairs.now stamps.now) (agent_of self.old)) }
        ensures owner { owner_of self.new.known ≡ owner_of self.old.known }
        ensures sized { OnOk result (IsSized self.new) }
    {
        let mut fits = true;
        for place in 0..pairs.len() {
            let pair = pairs[place];
            let told = StampedValue {
                value: pair.value,
                stamp: stamps[place],
            };
            // As the pairs rise, what is learned later is of other agents.
            let is_so = self.learn_higher(pair.var, told)?;
            fits = is_so && fits;
        }
        Ok(fits)
    }

    /// Whether the view has each pair of a higher agent; `None` if something that is told of one is newer than the
    /// view.
    fn fits_known(&self, pairs: &[Pair], stamps: &[u64]) -> Option<bool>
        requires { length stamps.now ≡ length pairs.now }
        ensures news { is_some result ≡ not (steps.is_news self.now.known.me (with_stamps pairs.now stamps.now) (agent_of self.now)) }
        ensures fits { IfSome result (λ fits. fits ≡ steps.fits self.now.known.me pairs.now (agent_of self.now)) }
    {
        let view = &self.known.view;
        let mut fits = true;
        for place in 0..pairs.len() {
            match view.fits(self.known.me, pairs[place], stamps[place]) {
                None => return None,
                Some(is_so) => fits = fits && is_so,
            }
        }
        Some(fits)
    }

    /// Whether something that is told of a higher agent is newer than the view.
    pub fn is_news(&self, pairs: &[Pair], stamps: &[u64]) -> bool
        requires { length stamps.now ≡ length pairs.now }
        ensures { result ≡ steps.is_news self.now.known.me (with_stamps pairs.now stamps.now) (agent_of self.now) }
    {
        self.fits_known(pairs, stamps).is_none()
    }

    /// Whether the nogood is to be kept, where it is known whether it fits the view.
    fn is_wanted(&self, nogood: &Nogood, fits: bool) -> bool
        requires fits { fits ≡ steps.fits self.now.known.me nogood.now (agent_of self.now) }
        requires nogood { IsProper self.now.known.problem.now self.now.known.me nogood.now }
        requires kept { AreProper self.now.known.problem.now self.now.known.me self.now.known.store }
        ensures wanted { result ≡ is_wanted self.now nogood.now }
        ensures free { result ≡ true → ForSome (lowest_value nogood.now) (λ value. is_ruled_out value self.now.known.store ≡ false) }
    {
        match nogood.lowest() {
            Some(lowest) => fits && !self.known.store.rules_out(lowest.value),
            None => false,
        }
    }

    /// Keeps the nogood, if it agrees with the view, as `fits` tells, and is the first for its value of the
    /// agent. The room of one that is not goes back to the outbox.
    pub fn keep(&mut self, recorded: Recorded, fits: bool, out: &mut Outbox) -> Result<(), Memory>
        requires sized { IsSized self.old }
        requires fits { fits ≡ steps.fits self.old.known.me recorded.nogood (agent_of self.old) }
        requires nogood { IsProper self.old.known.problem.now self.old.known.me recorded.nogood }
        requires kept { AreProper self.old.known.problem.now self.old.known.me self.old.known.store }
        ensures out { out.new ≡ out.old }
        ensures agent { OnOk result (agent_of self.new ≡ steps.keep self.old.known.me (record_of recorded) (agent_of self.old)) }
        ensures owner { owner_of self.new.known ≡ owner_of self.old.known }
        ensures sized { OnOk result (IsSized self.new) }
    {
        if !self.is_wanted(&recorded.nogood, fits) {
            out.give_back_nogood(recorded.nogood);
            return Ok(());
        }
        self.known.keep(recorded)
    }
}
