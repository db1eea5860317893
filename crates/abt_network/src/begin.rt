//! The start: a false rule without variables refutes, else the agents settle in order.

ghost use Rattle.std.specs.Prelude.{◌≡◌, ◌≢◌, ◌<◌, ◌∷◌, ◌++◌, [], ℕ, length, IfOk, OnOk, false, true};
ghost use Rattle.abt_defs.specs.Network.{Network as TheNetwork, start};
ghost use Rattle.dcsp_rule.specs.Problems.{csp_of};
ghost use Rattle.abt_agent.specs.States.{IsFresh, Settles};
ghost use Rattle.abt_agent.specs.Turns.{IsFirstTurn};
ghost use Rattle.abt_network.specs.Standing.{state_at, Starts};
ghost use Rattle.abt_network.specs.Bodies.{shown, AreFreshFrom, IsBlank, IsKept, IsSized, IsTidy, StandsIn};
ghost use Rattle.abt_network.specs.Settling.{all_settled, first_false, HasSettled, HaveSettled, IsRuleStep};

use crate::Begun;
use crate::body::NetworkBody;
use crate::deliver::step_of;
use crate::post::post;
use abt_agent::{Agent, Turn};
use abt_parts::Outbox;
use dcsp_common::Memory;
use dcsp_defs::{Nogood, Reason, ReasonList};
use dcsp_problem::{Lookup, Problem};
use ngd_log::Step;
use std::alloc::Global;

/// Gives no variable a value.
#[derive(Drop)]
struct NoValues;

impl Lookup for NoValues {
    ghost use Rattle.std.specs.Prelude.{None};

    ghost values = { λ _ k. None };

    fn value_of(&self, var: u32) -> Option<i64> {
        None
    }
}

/// The first rule without variables that is false.
fn first_false(problem: &Problem) -> Option<u32>
    ensures { result ≡ first_false (csp_of problem.now) }
{
    for rule in 0..problem.rules() {
        if problem.violated_by(rule, &NoValues) {
            return Some(rule);
        }
    }
    None
}

/// The step that this rule alone makes.
fn step_of_rule(alloc: Global, rule: u32) -> Result<Step, Memory>
    ensures { IfOk result (IsRuleStep rule) }
{
    let mut reasons = Vec::new(alloc);
    reasons.push(Reason::Rule(rule))?;
    Ok(Step {
        variable: None,
        nogood: Nogood::of_rising(Vec::new(alloc)),
        reasons: ReasonList::from_vec(reasons),
    })
}

impl<'p> NetworkBody<'p> {
    /// An agent settles, and what it puts out is sent. The step that it made, if it made one, refutes.
    fn settle_one(&mut self, agent: u32) -> Result<Option<Step>, Memory>
        requires tidy { IsTidy self.old }
        requires exists { agent < length self.old.problem.now.domains }
        requires fresh { IsFresh self.old.problem.now agent (state_at self.old.agents.items agent) }
        ensures settles { (net : TheNetwork) → StandsIn self.old net → IfOk result (λ step. HasSettled self.old.problem.now self.new.agents.items self.new.links net agent step) }
        ensures tidy { OnOk result (IsTidy self.new) }
        ensures others { (k : ℕ) → k ≢ agent → state_at self.new.agents.items k ≡ state_at self.old.agents.items k }
        ensures sized { IsSized self.new }
        ensures problem { self.new.problem.now ≡ self.old.problem.now }
    {
        self.problem.denotes_csp();
        let turn = start_agent(&mut self.agents, agent, &mut self.out)?;
        self.sent.clear();
        post(&mut self.links, agent, &mut self.out, &mut self.sent)?;
        Ok(step_of(turn))
    }

    /// The agents settle in order, until one makes a step, which refutes.
    fn settle_all(&mut self) -> Result<Option<Step>, Memory>
        requires tidy { IsTidy self.old }
        requires blank { IsBlank self.old.problem.now self.old }
        ensures settles { IfOk result (λ step. HaveSettled self.old.problem.now self.new.agents.items self.new.links (all_settled self.old.problem.now) step) }
        ensures tidy { OnOk result (IsTidy self.new) }
        ensures sized { IsSized self.new }
        ensures problem { self.new.problem.now ≡ self.old.problem.now }
    {
        for agent in 0..self.problem.vars() {
            match self.settle_one(agent)? {
                Some(step) => return Ok(Some(step)),
                None => {}
            }
        }
        Ok(None)
    }

    /// What the start makes of agents and links, and the step that refutes, if one does.
    fn begin(&mut self) -> Result<Option<Step>, Memory>
        requires tidy { IsTidy self.old }
        requires blank { IsBlank self.old.problem.now self.old }
        ensures begins { IfOk result (λ step. HaveSettled self.old.problem.now self.new.agents.items self.new.links (start (csp_of self.old.problem.now)) step) }
        ensures tidy { OnOk result (IsTidy self.new) }
        ensures sized { IsSized self.new }
        ensures problem { self.new.problem.now ≡ self.old.problem.now }
    {
        match first_false(self.problem) {
            Some(rule) => Ok(Some(step_of_rule(self.alloc, rule)?)),
            None => self.settle_all(),
        }
    }

    /// Starts all agents.
    pub fn start(&mut self) -> Result<Begun, Memory>
        requires kept { IsKept self.old }
        requires can { self.old.begun ≡ false }
        ensures starts { IfOk result (λ told. Starts self.old.problem.now (shown self.new false) told) }
        ensures kept { OnOk result (IsKept self.new) }
        ensures begun { OnOk result (self.new.begun ≡ true) }
        ensures sized { IsSized self.new }
        ensures problem { self.new.problem.now ≡ self.old.problem.now }
    {
        self.problem.denotes_csp();
        let step = self.begin()?;
        self.begun = true;
        self.deliveries = 0;
        match step {
            Some(step) => {
                self.refuted = true;
                self.steps = 1;
                Ok(Begun::Refuted(step))
            }
            None => {
                self.refuted = false;
                self.steps = 0;
                Ok(Begun::Running)
            }
        }
    }
}

/// Starts an agent.
fn start_agent(agents: &mut Vec<Agent>, agent: u32, out: &mut Outbox) -> Result<Turn, Memory>
    requires exists { agent < length agents.old.items }
    requires fresh { let old = state_at agents.old.items agent in IsFresh old.problem old.me old }
    ensures does { (number : ℕ) → IfOk result (λ turn. Settles (state_at agents.old.items agent) (state_at agents.new.items agent) number out.old out.new turn) }
    ensures first { IfOk result IsFirstTurn }
    ensures others { (k : ℕ) → k ≢ agent → state_at agents.new.items k ≡ state_at agents.old.items k }
    ensures long { length agents.new.items ≡ length agents.old.items }
{
    let agent = &mut agents[agent as usize];
    agent.start(out)
}

/// The agents of a problem before their start.
pub fn fresh_agents<'p>(alloc: Global, problem: &'p Problem) -> Result<Vec<Agent<'p>>, Memory>
    ensures long { IfOk result (λ agents. length agents.items ≡ length problem.now.domains) }
    ensures fresh { IfOk result (λ agents. AreFreshFrom problem.now agents.items 0) }
{
    let mut agents = Vec::new(alloc);
    for agent in 0..problem.vars() {
        let agent = Agent::new(alloc, problem, agent)?;
        add_agent(&mut agents, agent)?;
    }
    Ok(agents)
}

/// Adds an agent at the end.
fn add_agent<'p>(agents: &mut Vec<Agent<'p>>, agent: Agent<'p>) -> Result<(), Memory>
    ensures { OnOk result (agents.new.items ≡ agents.old.items ++ agent.entry ∷ []) }
{
    agents.push(agent)?;
    Ok(())
}
