//! A whole run with its measures.

ghost use Rattle.std.specs.Prelude.{◌≡◌, ◌≤◌, ◌^◌, ◌∷◌, ◌++◌, [], ℕ, List, IfOk, OnOk, false, length, true};
ghost use Rattle.dcsp_defs.specs.Csp.{IsCsp};
ghost use Rattle.dcsp_rule.specs.Problems.{Contents, csp_of};
ghost use Rattle.abt_defs.specs.Events.{acts};
ghost use Rattle.abt_network.specs.Standing.{reached, CanDeliver, StandsAt};
ghost use Rattle.abt_session.specs.Answers.{first_answers};
ghost use Rattle.abt_measure.specs.Learning.{AreLearned};
ghost use Rattle.abt_measure.specs.Measuring.{IsOnRun};
ghost use Rattle.abt_measure.specs.Whole.{IsAfter, IsMeasuredRun};

use crate::delivery::deliver_one;
use crate::learned::Learned;
use crate::measures::Measures;
use crate::starting::start;
use abt_network::{Network, Standing};
use abt_schedule::Choices;
use dcsp_common::Memory;
use dcsp_problem::Problem;
use std::alloc::Global;

/// A run, and what was counted of it.
#[derive(Drop)]
pub struct MeasuredRun<'p> {
    pub network: Network<'p>,
    pub measures: Measures,
    /// Whether what agents are told of others is kept.
    pub listens: bool,
    pub learned: Learned,
}

/// Makes the run of a problem's agents under the choices, with at most `most` deliveries, and counts what they do; what
/// they are told of others is kept where `listens` is true. How many answers of `choices` a run took that refused, for want
/// of memory, is left open.
pub fn measure_run<'p, C: Choices>(
    alloc: Global,
    problem: &'p Problem,
    choices: &mut C,
    most: u64,
    listens: bool,
) -> Result<MeasuredRun<'p>, Memory>
    requires { most ≤ 2 ^ 40 }
    ensures { IfOk result (IsMeasuredRun problem.now most (first_answers most (C.answers choices.old)) listens) }
{
    problem.denotes_csp();
    let mut run = started(alloc, problem, listens)?;
    run.deliver_all(choices, most)?;
    Ok(run)
}

/// The run after its start.
fn started<'p>(
    alloc: Global,
    problem: &'p Problem,
    listens: bool,
) -> Result<MeasuredRun<'p>, Memory>
    ensures after { IfOk result (IsAfter problem.now []) }
    ensures listens { IfOk result (λ run. run.listens ≡ listens) }
{
    let agents = problem.vars();
    let mut network = Network::new(alloc, problem)?;
    let mut measures = Measures::new(alloc, agents)?;
    start(alloc, problem, &mut network, &mut measures)?;
    Ok(MeasuredRun {
        network,
        measures,
        listens,
        learned: Learned::new(alloc, agents)?,
    })
}

impl MeasuredRun<'_> {
    /// Makes the deliveries of the run, until one of its four stops.
    fn deliver_all<C: Choices>(&mut self, choices: &mut C, most: u64) -> Result<(), Memory>
        requires most { most ≤ 2 ^ 40 }
        requires csp { IsCsp (csp_of self.old.network.problem) }
        requires starts { IsAfter self.old.network.problem [] self.old }
        ensures { OnOk result (IsMeasuredRun self.old.network.problem most (first_answers most (C.answers choices.old)) self.old.listens self.new) }
    {
        for _made in 0..most {
            match self.network.state() {
                Standing::Open => {}
                Standing::Refuted | Standing::Quiet => return Ok(()),
            }
            let Some(choice) = choices.next() else {
                return Ok(());
            };
            self.deliver(choice)?;
        }
        Ok(())
    }

    /// Makes one delivery, and counts it.
    fn deliver(&mut self, choice: u32) -> Result<(), Memory>
        requires can { CanDeliver self.old.network }
        requires csp { IsCsp (csp_of self.old.network.problem) }
        requires after { (choices : List ℕ) × IsAfter self.old.network.problem choices self.old }
        ensures after { (choices : List ℕ) → IsAfter self.old.network.problem choices self.old → OnOk result (IsAfter self.old.network.problem (choices ++ choice ∷ []) self.new) }
        ensures listens { self.new.listens ≡ self.old.listens }
    {
        listen_if(&self.network, choice, self.listens, &mut self.learned)?;
        deliver_one(&mut self.network, choice, &mut self.measures)
    }
}

/// Keeps what the delivery that comes tells its receiver, where that is asked for.
fn listen_if(
    network: &Network,
    choice: u32,
    listens: bool,
    learned: &mut Learned,
) -> Result<(), Memory>
    requires sound { network.now.spent ≡ false }
    requires can { CanDeliver network.now }
    requires on_run { IsOnRun network.now }
    requires long { length learned.old ≡ length network.now.problem.domains }
    ensures learned { (choices : List ℕ) → StandsAt network.now (reached network.now choices) → (listens ≡ true → AreLearned (acts (csp_of network.now.problem) choices) learned.old)
        → OnOk result (listens ≡ true → AreLearned (acts (csp_of network.now.problem) (choices ++ choice ∷ [])) learned.new) }
    ensures long { length learned.new ≡ length learned.old }
{
    if !listens {
        return Ok(());
    }
    listen(network, choice, learned)
}

/// Keeps what the delivery that comes tells its receiver.
fn listen(network: &Network, choice: u32, learned: &mut Learned) -> Result<(), Memory>
    requires sound { network.now.spent ≡ false }
    requires can { CanDeliver network.now }
    requires on_run { IsOnRun network.now }
    requires long { length learned.old ≡ length network.now.problem.domains }
    ensures learned { (choices : List ℕ) → StandsAt network.now (reached network.now choices) → AreLearned (acts (csp_of network.now.problem) choices) learned.old
        → OnOk result (AreLearned (acts (csp_of network.now.problem) (choices ++ choice ∷ [])) learned.new) }
    ensures long { length learned.new ≡ length learned.old }
{
    let (from, to) = network.ready_pair(choice % network.ready());
    let message = network.first(from, to).unwrap();
    learned.receive(to, from, message)
}
