//! How a run over the medium ended, and as text.

ghost use Rattle.std.specs.Prelude.{◌≡◌, ℕ, ◌<◌, List, [], ◌∷◌, ◌++◌, length, codes, decimal, Err, IfOk, IfSome, OnErr, OnOk, option_copied};
ghost use Rattle.dcsp_defs.specs.Csp.{IsCsp};
ghost use Rattle.dcsp_outside.specs.Outside.{Place, Stream};
ghost use Rattle.dcsp_rule.specs.Problems.{csp_of};
ghost use Rattle.dcsp_script.specs.Scripts.{Put, outside};
ghost use Rattle.dcsp_script.specs.Ways.{Wrote};
ghost use Rattle.dcsp_order.specs.Told.{place_told, Fits};
ghost use Rattle.abt_lossy.specs.InWorld.{reached, IsAfter};
ghost use Rattle.abt_session.specs.Running.{values_of, IsOutcome};
ghost use Rattle.line_replay.specs.Outcomes.{outcome_text, HasAllValues};
ghost use Rattle.line_lossy.specs.Asked.{end_of, events_text};
ghost use Rattle.line_lossy.specs.Runners.{order_of, HasMade};

use crate::runner::LossyRunner;
use abt_lossy::{Lossy, Standing};
use abt_schedule::ChoiceList;
use abt_session::{End, Outcome};
use dcsp_common::{Memory, push_number};
use dcsp_domain::IntList;
use dcsp_order::Order;
use dcsp_outside::Sink;
use dcsp_problem::Problem;
use dcsp_script::{Stop, put};
use line_replay::push_outcome;
use std::alloc::{AllocError, Global};

/// What a run over the medium gives.
#[derive(Debug, Drop)]
pub struct LossyOutcome {
    pub outcome: Outcome,
    /// How many events were made.
    pub events: u64,
}

/// What the run of a model's problem gives that has stopped.
pub fn outcome_of(
    alloc: Global,
    problem: &Problem,
    runner: &LossyRunner<'_, '_>,
) -> Result<Outcome, Stop>
    requires csp { IsCsp (csp_of runner.now.medium.problem) }
    requires fits { Fits (order_of runner.now) problem.now }
    requires count { length runner.now.medium.problem.domains ≡ length problem.now.domains }
    ensures gives { let p = csp_of runner.now.medium.problem in (words : List ℕ) → HasMade words runner.now
        → IfOk result (IsOutcome (order_of runner.now) p (reached runner.now.medium words).network (end_of p (reached runner.now.medium words))) }
    ensures only_memory { OnErr result (result ≡ Err Stop.Memory) }
{
    law_runs::lossy::handed_up_bounded();
    let end = match runner.medium.state() {
        Standing::Refuted => End::Refuted,
        Standing::Open => End::Capped,
        Standing::Quiet => {
            let Ok(list) = values_of(alloc, runner.order, problem, &runner.medium) else {
                return Err(Stop::Memory);
            };
            End::Solved(list)
        }
    };
    Ok(Outcome {
        end,
        deliveries: runner.deliveries,
        steps: runner.steps,
        numbers: ChoiceList::new(alloc),
    })
}

/// The values of all variables of a model, by their own numbers.
fn values_of(
    alloc: Global,
    order: Option<&Order>,
    problem: &Problem,
    medium: &Lossy<'_>,
) -> Result<IntList, Memory>
    requires fits { Fits (option_copied order) problem.now }
    requires count { length medium.now.problem.domains ≡ length problem.now.domains }
    ensures { (words : List ℕ) → IsAfter medium.now words → IfOk result (λ list. list ≡ values_of (option_copied order.entry) (csp_of medium.now.problem) (reached medium.now words).network) }
{
    let mut list = IntList::new(alloc);
    for number in 0..problem.vars() {
        let value = medium.value(place_in(order, number)).unwrap_or(0);
        if list.push(value).is_err() {
            return Err(Memory);
        }
    }
    Ok(list)
}

/// The place of a variable in the order that a run has.
fn place_in(order: Option<&Order>, number: u32) -> u32
    requires { IfSome (option_copied order) (λ numbers. number < length numbers) }
    ensures place { result ≡ place_told (option_copied order.entry) number }
    ensures within { (n : ℕ) → IfSome (option_copied order.entry) (λ numbers. length numbers ≡ n) → number < n → result < n }
{
    match order {
        Some(order) => order.place(number),
        None => number,
    }
}

/// Puts how the run ended, in one piece: its solution or what stands in its place, and how many deliveries, steps
/// and events were made.
pub fn tell<S: Sink>(
    alloc: Global,
    problem: &Problem,
    ended: &LossyOutcome,
    out: &mut S,
) -> Result<(), Stop>
    requires { HasAllValues problem.now ended.now.outcome.end }
    ensures { (folder : Place) → Wrote (Put (outcome_text problem.now ended.now.outcome ++ events_text ended.now.events) ∷ [])
        (outside folder (S.stream out.old)) (outside folder (S.stream out.new)) result }
{
    let mut text = Vec::new(alloc);
    push_ended(problem, ended, &mut text)?;
    put(out, &text)
}

fn push_ended(problem: &Problem, ended: &LossyOutcome, into: &mut Vec<u8>) -> Result<(), AllocError>
    requires { HasAllValues problem.now ended.now.outcome.end }
    ensures { OnOk result (into.new.items ≡ into.old.items ++ (outcome_text problem.now ended.now.outcome ++ events_text ended.now.events)) }
{
    push_outcome(problem, &ended.outcome, None, into)?;
    push_events(ended.events, into)
}

/// How many events were made.
fn push_events(events: u64, into: &mut Vec<u8>) -> Result<(), AllocError>
    ensures { OnOk result (into.new.items ≡ into.old.items ++ events_text events) }
{
    into.extend_from_slice(b"% events ")?;
    push_number(into, events)?;
    into.extend_from_slice(b"\n")
}
