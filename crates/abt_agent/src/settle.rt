//! Settling: an agent keeps its value, takes one, or says why it has none.

ghost use Rattle.std.specs.Prelude.{◌≡◌, ◌<◌, ◌^◌, IfOk, None, OnOk};
ghost use Rattle.abt_defs.specs.Agents.{Tell};
ghost use Rattle.abt_defs.specs.Steps as steps;
ghost use Rattle.dcsp_rule.specs.Problems.{csp_of};
ghost use Rattle.abt_parts.specs.Views.{stamped_of};
ghost use Rattle.abt_agent.specs.Bodies.{agent_of, owner_of, Does, DoesRefuse, DoesSettle, IsGood, IsSized};
ghost use Rattle.abt_parts.specs.Outgoing.{Posts};
ghost use Rattle.dcsp_defs.specs.declared.Step.{Step as TheStep};
ghost use Rattle.abt_agent.specs.Turns.{turn_with};

use crate::TurnKind;
use crate::body::AgentBody;
use abt_parts::{Message, Outbox, StampedValue, post, tell_all};
use dcsp_common::Memory;
use ngd_log::Step;

impl<'p> AgentBody<'p> {
    /// Whether there is a value, and it is not ruled out.
    fn is_own_free(&self) -> bool
        requires { IsGood self.now }
        ensures { result ≡ steps.is_free (csp_of self.now.known.problem.now) self.now.known.me (agent_of self.now) self.now.value }
    {
        match self.value {
            Some(value) => match self.known.problem.domain(self.known.me).place_of(value) {
                Some(place) => self.known.is_free_at(place),
                None => false,
            },
            None => false,
        }
    }

    /// The value to take: the agent's own where it is free, that is not ruled out, else the least that is.
    fn choice(&self, is_free: bool) -> Option<i64>
        requires good { IsGood self.now }
        requires free { is_free ≡ steps.is_free (csp_of self.now.known.problem.now) self.now.known.me (agent_of self.now) self.now.value }
        ensures { result ≡ steps.choice (csp_of self.now.known.problem.now) self.now.known.me (agent_of self.now) }
    {
        if is_free {
            self.value
        } else {
            self.known.least_free()
        }
    }

    /// Takes the value, with the next stamp, and tells it.
    fn take_value(&mut self, value: i64, out: &mut Outbox) -> Result<TurnKind, Memory>
        requires sized { IsSized self.old }
        requires stamp { self.old.stamp < 2 ^ 62 }
        ensures does { (made : TheStep) → IfOk result (λ kind. Does (steps.take_value (csp_of self.old.known.problem.now) (agent_of self.old) value) self.old self.new out.old out.new (turn_with kind made)) }
        ensures owner { owner_of self.new.known ≡ owner_of self.old.known }
    {
        self.value = Some(value);
        self.stamp += 1;
        self.waits = false;
        let told = StampedValue {
            value,
            stamp: self.stamp,
        };
        tell_all(&self.tells, told, out)?;
        Ok(TurnKind::Announced)
    }

    /// Makes the step that says why no value is left, in place of one that is no longer needed, and sends its nogood to
    /// the lowest agent of it.
    fn give_up(
        &mut self,
        number: u64,
        out: &mut Outbox,
        made: &mut Step,
    ) -> Result<TurnKind, Memory>
        requires { IsGood self.old }
        ensures does { IfOk result (λ kind. DoesRefuse number self.old self.new out.old out.new (turn_with kind made.new)) }
        ensures owner { owner_of self.new.known ≡ owner_of self.old.known }
    {
        let room = out.stamp_room(self.known.alloc);
        let stamps = self.known.refuse(&mut self.room, room, made)?;
        match made.nogood.lowest() {
            None => Ok(TurnKind::Empty),
            Some(lowest) => {
                let message = Message::Refuse {
                    nogood: out.copy_nogood(self.known.alloc, &made.nogood)?,
                    stamps,
                    step: number,
                };
                post(out, lowest.var, message)?;
                self.waits = true;
                Ok(TurnKind::Derived)
            }
        }
    }

    /// Settles: the agent keeps its value, takes one, or makes a step with this number, in place of one that is no longer
    /// needed.
    pub fn settle(
        &mut self,
        number: u64,
        out: &mut Outbox,
        made: &mut Step,
    ) -> Result<TurnKind, Memory>
        requires good { IsGood self.old }
        requires stamp { self.old.stamp < 2 ^ 62 }
        ensures does { IfOk result (λ kind. DoesSettle number self.old self.new out.old out.new (turn_with kind made.new)) }
        ensures owner { owner_of self.new.known ≡ owner_of self.old.known }
        ensures good { OnOk result (IsGood self.new) }
    {
        law_agent::agents_stay_sound();
        let is_free = self.is_own_free();
        if !self.waits && is_free {
            return Ok(TurnKind::Quiet);
        }
        match self.choice(is_free) {
            Some(value) => self.take_value(value, out),
            None => self.give_up(number, out, made),
        }
    }
}
