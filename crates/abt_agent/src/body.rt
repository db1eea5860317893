//! What an agent has, and what that is before the start.

ghost use Rattle.std.specs.Prelude.{◌≡◌, ◌<◌, [], IfOk, length, map};
ghost use Rattle.dcsp_defs.specs.Words.{below};
ghost use Rattle.abt_defs.specs.Agents.{fresh, shares};
ghost use Rattle.dcsp_problem.specs.Lower.{lower_owners};
ghost use Rattle.dcsp_rule.specs.Problems.{csp_of};
ghost use Rattle.abt_agent.specs.Bodies.{agent_of, owner_of, IsGood};

use crate::knowledge::Knowledge;
use abt_marks::{LinkTable, named_by};
use dcsp_common::Memory;
use dcsp_problem::Problem;
use dcsp_row::Row;
use std::alloc::Global;

/// What an agent has.
#[derive(Drop)]
pub struct AgentBody<'p> {
    pub known: Knowledge<'p>,
    pub value: Option<i64>,
    /// How many values it has taken.
    pub stamp: u64,
    /// Whether it has sent a nogood and has learned nothing since.
    pub waits: bool,
    /// The agents that are told of each value, rising.
    pub tells: Vec<u32>,
    /// For each higher agent whether it is linked or asked.
    pub linked: LinkTable,
    /// Room for marks of higher agents, of which nothing is known. It takes none before the first step.
    pub room: Row,
}

impl<'p> AgentBody<'p> {
    /// What an agent has before its start.
    pub fn new(alloc: Global, problem: &'p Problem, me: u32) -> Result<AgentBody<'p>, Memory>
        requires { me < length problem.now.domains }
        ensures owner { IfOk result (λ body. owner_of body.known ≡ (problem.now, me)) }
        ensures agent { IfOk result (λ body. agent_of body ≡ fresh (csp_of problem.now) me) }
        ensures good { IfOk result IsGood }
    {
        law_agent::agents_start_sound();
        problem.denotes_csp();
        let known = Knowledge::new(alloc, problem, me)?;
        let tells = first_tells(alloc, problem, me)?;
        let linked = first_linked(alloc, problem, me)?;
        let room = Row::new(alloc, 0)?;
        Ok(AgentBody {
            known,
            value: None,
            stamp: 0,
            waits: false,
            tells,
            linked,
            room,
        })
    }
}

/// The higher agents that are linked at first.
fn first_linked(alloc: Global, problem: &Problem, me: u32) -> Result<LinkTable, Memory>
    requires { me < length problem.now.domains }
    ensures { IfOk result (λ marks. marks ≡ map (shares (csp_of problem.now) me) (below me)) }
{
    let marks = named_by(alloc, problem, problem.owned(me), me)?;
    Ok(LinkTable::of(marks))
}

/// The lower agents that are told at first, rising.
fn first_tells(alloc: Global, problem: &Problem, me: u32) -> Result<Vec<u32>, Memory>
    requires { me < length problem.now.domains }
    ensures { IfOk result (λ tells. tells.items ≡ lower_owners (csp_of problem.now) me) }
{
    let lower = problem.lower_owners(me);
    Vec::from_slice(alloc, lower)
}
