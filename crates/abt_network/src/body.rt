//! What a network keeps.

ghost use Rattle.std.specs.Prelude.{◌≡◌, false, IfOk};
ghost use Rattle.abt_network.specs.Bodies.{IsBlank, IsKept, IsSized};

use crate::begin::fresh_agents;
use abt_agent::Agent;
use abt_links::Links;
use abt_parts::{Outbox, SentTo};
use dcsp_common::Memory;
use dcsp_problem::Problem;
use std::alloc::Global;

/// What a network keeps.
#[derive(Drop)]
pub struct NetworkBody<'p> {
    pub problem: &'p Problem,
    pub alloc: Global,
    /// One for each variable, in order.
    pub agents: Vec<Agent<'p>>,
    pub links: Links,
    /// What an agent puts out, until it is sent. It is empty between deliveries.
    pub out: Outbox,
    /// What is told of the messages that were sent last, in order.
    pub sent: Vec<SentTo>,
    pub refuted: bool,
    /// How many deliveries were made.
    pub deliveries: u64,
    /// How many steps were made.
    pub steps: u64,
    /// Whether it was started.
    pub begun: bool,
}

impl<'p> NetworkBody<'p> {
    /// Fresh agents, and nothing in transit.
    pub fn new(alloc: Global, problem: &'p Problem) -> Result<NetworkBody<'p>, Memory>
        ensures kept { IfOk result (λ body. IsKept body) }
        ensures blank { IfOk result (λ body. IsBlank problem.now body) }
    {
        let agents = fresh_agents(alloc, problem)?;
        let links = Links::new(alloc, problem.vars())?;
        Ok(NetworkBody {
            problem,
            alloc,
            agents,
            links,
            out: Outbox::new(alloc),
            sent: Vec::new(alloc),
            refuted: false,
            deliveries: 0,
            steps: 0,
            begun: false,
        })
    }
}
