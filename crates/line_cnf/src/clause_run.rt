//! A run that keeps the clauses of its steps.

ghost use Rattle.std.specs.Prelude.{◌≡◌, ◌≤◌, ◌^◌, ◌++◌, All, IfOk, IfSome, OnOk, option_to_list};
ghost use Rattle.dcsp_rule.specs.Problems.{csp_of};
ghost use Rattle.abt_defs.specs.Network.{Network as TheNetwork, deliver, start};
ghost use Rattle.abt_network.specs.Rooms.{made_in};
ghost use Rattle.abt_network.specs.Standing.{steps_of, CanDeliver};
ghost use Rattle.abt_session.specs.Running.{IsOnRun};
ghost use Rattle.line_cnf.specs.ClauseRows.{steps_row};
ghost use Rattle.line_cnf.specs.ClauseRuns.{answered_run, IsRunAt, StopsAs};
ghost use Rattle.line_cnf.specs.CnfOutcomes.{IsBinaryStep, IsFormula};

use crate::clause_row::{ClauseRow, push_clause};
use abt_defs::End;
use abt_network::{Begun, DeliveryRoom, Network, Standing};
use abt_schedule::Choices;
use dcsp_problem::Problem;
use std::alloc::{AllocError, Global};

/// A run on its way.
#[derive(Drop)]
pub struct ClauseRun<'p> {
    pub network: Network<'p>,
    /// The last delivery, in whose place the next one is told.
    pub room: DeliveryRoom,
    /// The clauses of the steps that were made, in order.
    pub clauses: ClauseRow,
}

/// The run of a formula's problem after its start.
pub fn started(alloc: Global, problem: &Problem) -> Result<ClauseRun<'_>, AllocError>
    requires { IsFormula problem.now }
    ensures { IfOk result (IsRunAt problem.now (start (csp_of problem.now))) }
{
    let mut network = Network::new(alloc, problem)?;
    let begun = network.start()?;
    let room = DeliveryRoom::new(alloc);
    let clauses = clauses_of(alloc, begun)?;
    Ok(ClauseRun {
        network,
        room,
        clauses,
    })
}

/// The clauses of the steps that a start made: one, or none.
fn clauses_of(alloc: Global, begun: Begun) -> Result<ClauseRow, AllocError>
    requires { All IsBinaryStep (steps_of begun) }
    ensures { IfOk result (λ clauses. clauses ≡ steps_row (steps_of begun)) }
{
    let mut clauses = ClauseRow::new(alloc);
    match begun {
        Begun::Running => Ok(clauses),
        Begun::Refuted(step) => {
            push_clause(&step.nogood, &mut clauses)?;
            Ok(clauses)
        }
    }
}

impl ClauseRun<'_> {
    /// Makes the deliveries of the run under the choices, until one of its four stops.
    pub fn deliver_all<C: Choices>(
        &mut self,
        choices: &mut C,
        most: u64,
    ) -> Result<End<()>, AllocError>
        requires most { most ≤ 2 ^ 40 }
        requires formula { IsFormula self.old.network.problem }
        requires starts { IsRunAt self.old.network.problem (start (csp_of self.old.network.problem)) self.old }
        ensures { IfOk result (StopsAs self.old.network.problem (answered_run self.old.network.problem most (C.answers choices.old)) self.new) }
    {
        for _made in 0..most {
            match self.network.state() {
                Standing::Refuted => return Ok(End::Refuted),
                Standing::Quiet => return Ok(End::Solved(())),
                Standing::Open => {}
            }
            let Some(choice) = choices.next() else {
                return Ok(End::Spent);
            };
            self.deliver(choice)?;
        }
        match self.network.state() {
            Standing::Refuted => Ok(End::Refuted),
            Standing::Quiet => Ok(End::Solved(())),
            Standing::Open => Ok(End::Capped),
        }
    }

    /// Makes one delivery, and keeps the clause of its step, if it makes one.
    fn deliver(&mut self, choice: u32) -> Result<(), AllocError>
        requires can { CanDeliver self.old.network }
        requires formula { IsFormula self.old.network.problem }
        requires on_run { IsOnRun self.old.network }
        ensures { (net : TheNetwork) → IsRunAt self.old.network.problem net self.old
            → OnOk result (IsRunAt self.old.network.problem (deliver (csp_of self.old.network.problem) choice net) self.new) }
    {
        self.network.deliver_into(choice, &mut self.room)?;
        self.keep_made()
    }

    /// Keeps the clause of the step that the last delivery made, if it made one.
    fn keep_made(&mut self) -> Result<(), AllocError>
        requires { IfSome (made_in self.old.room) IsBinaryStep }
        ensures clauses { OnOk result (self.new.clauses ≡ self.old.clauses ++ steps_row (option_to_list (made_in self.old.room))) }
        ensures network { self.new.network ≡ self.old.network }
    {
        match self.room.made() {
            Some(step) => push_clause(&step.nogood, &mut self.clauses),
            None => Ok(()),
        }
    }
}
