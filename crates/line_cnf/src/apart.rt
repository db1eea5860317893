//! A formula's run, apart from folder and output.

ghost use Rattle.std.specs.Prelude.{◌≡◌, IfOk};
ghost use Rattle.abt_defs.specs.Network.{Network as TheNetwork};
ghost use Rattle.dcsp_rule.specs.Problems.{csp_of};
ghost use Rattle.abt_network.specs.Standing.{StandsAt};
ghost use Rattle.abt_session.specs.Ends.{end_of};
ghost use Rattle.abt_session.specs.Running.{values_of, IsOutcome};
ghost use Rattle.line_cnf.specs.CnfRuns.{cnf_run};
ghost use Rattle.line_cnf.specs.CnfOutcomes.{kept_at, HasMade, IsFormula};

use crate::clause_row::ClauseRow;
use crate::clause_run::started;
use abt_network::Network;
use abt_schedule::{ChoiceList, Seeded};
use abt_session::{End, IntList, MOST_DELIVERIES, Outcome};
use dcsp_problem::Problem;
use std::alloc::{AllocError, Global};

/// What a run came to.
#[derive(Drop)]
pub struct Made {
    pub outcome: Outcome,
    /// The clauses of the run's steps, where they are a refutation.
    pub refutation: Option<ClauseRow>,
}

/// Runs the agents of a formula's problem under the choices of the seed. Of each step its clause alone is kept. It
/// refuses only for want of memory.
pub fn run_apart(alloc: Global, problem: &Problem, seed: u64) -> Result<Made, AllocError>
    requires { IsFormula problem.now }
    ensures { IfOk result (HasMade problem.now (cnf_run problem.now seed)) }
{
    let mut run = started(alloc, problem)?;
    let mut choices = Seeded::new(seed);
    let end = run.deliver_all(&mut choices, MOST_DELIVERIES)?;
    let outcome = outcome_of(alloc, problem, &run.network, end)?;
    let refutation = refutation_at(end, run.clauses);
    Ok(Made {
        outcome,
        refutation,
    })
}

/// The clauses of a run that ended so, where they are a refutation.
fn refutation_at(end: End<()>, clauses: ClauseRow) -> Option<ClauseRow>
    ensures { result ≡ kept_at (end_of end) clauses }
{
    match end {
        End::Refuted => Some(clauses),
        End::Solved(()) | End::Spent | End::Capped => None,
    }
}

/// What a run of the problem gives that has stopped.
fn outcome_of(
    alloc: Global,
    problem: &Problem,
    network: &Network,
    end: End<()>,
) -> Result<Outcome, AllocError>
    requires { network.now.problem ≡ problem.now }
    ensures { (net : TheNetwork) → StandsAt network.now net → IfOk result (IsOutcome None (csp_of problem.now) net (end_of end)) }
{
    let told = match end {
        End::Solved(()) => End::Solved(values_of(alloc, problem, network)?),
        End::Refuted => End::Refuted,
        End::Spent => End::Spent,
        End::Capped => End::Capped,
    };
    Ok(Outcome {
        end: told,
        deliveries: network.deliveries(),
        steps: network.steps(),
        numbers: ChoiceList::new(alloc),
    })
}

/// The values of all variables, in order.
fn values_of(alloc: Global, problem: &Problem, network: &Network) -> Result<IntList, AllocError>
    requires { network.now.problem ≡ problem.now }
    ensures { (net : TheNetwork) → StandsAt network.now net → IfOk result (λ list. list ≡ values_of None (csp_of problem.now) net) }
{
    let mut list = IntList::new(alloc);
    for variable in 0..problem.vars() {
        let value = network.value(variable).unwrap_or(0);
        if list.push(value).is_err() {
            return Err(AllocError);
        }
    }
    Ok(list)
}
