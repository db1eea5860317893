//! What `measure` tells of each agent.

ghost use Rattle.std.specs.Prelude.{◌≡◌, ◌<◌, ◌++◌, ◌==◌, List, IfSome, OnOk, filter, length, option_copied};
ghost use Rattle.dcsp_defs.specs.declared.nogood.Pair.{Pair as ThePair};
ghost use Rattle.dcsp_rule.specs.Problems.{csp_of};
ghost use Rattle.dcsp_order.specs.Told.{place_told, IsOrderFor};
ghost use Rattle.abt_defs.specs.Events.{Act};
ghost use Rattle.abt_defs.specs.Network.{Network as TheNetwork};
ghost use Rattle.abt_network.specs.Standing.{StandsAt};
ghost use Rattle.abt_measure.specs.Counting.{AreRows};
ghost use Rattle.abt_measure.specs.Learning.{AreLearned};
ghost use Rattle.abt_measure.specs.Rows.{as_row};
ghost use Rattle.line_measure.specs.Texts.{agent_line, agents_text, learned_line, learned_text, learner_lines};

use crate::texts::{push_kinds, push_number};
use abt_measure::{Learned, MeasuredRun, Row};
use dcsp_defs::Pair;
use dcsp_order::Order;
use dcsp_problem::Problem;
use std::alloc::AllocError;

/// The place of the variable with this number under the order, at which its agent stands in the run. Where no order is given,
/// it is the number itself.
fn place_of(order: Option<&Order>, number: u32) -> u32
    requires { IfSome (option_copied order) (λ numbers. number < length numbers) }
    ensures { result ≡ place_told (option_copied order.entry) number }
{
    match order {
        Some(order) => order.place(number),
        None => number,
    }
}

/// Pushes one line for each variable's agent, in the order of the variables' own numbers.
pub fn push_agents(
    order: Option<&Order>,
    problem: &Problem,
    run: &MeasuredRun,
    into: &mut Vec<u8>,
) -> Result<(), AllocError>
    requires order { IsOrderFor (option_copied order) problem.now }
    requires problem { run.now.network.problem ≡ problem.now }
    requires rows { length run.now.measures.rows ≡ length problem.now.domains }
    ensures { (done : List Act) (net : TheNetwork) → AreRows (csp_of problem.now) done run.now.measures.rows → StandsAt run.now.network net
        → OnOk result (into.new.items ≡ into.old.items ++ agents_text (option_copied order.entry) (csp_of problem.now) done net) }
{
    for number in 0..problem.vars() {
        let place = place_of(order, number);
        let row = run.measures.rows()[place as usize];
        push_agent(number, &row, run.network.agent(place).stamp(), into)?;
    }
    Ok(())
}

/// The line of a variable's agent: what it sent and received by kind, its checks, the most nogoods that it had recorded, and how
/// many values it took.
fn push_agent(number: u32, row: &Row, values: u64, into: &mut Vec<u8>) -> Result<(), AllocError>
    ensures { OnOk result (into.new.items ≡ into.old.items ++ agent_line number (as_row row.now) values) }
{
    push_number(b"v", number as u64 + 1, into)?;
    into.extend_from_slice(b" sent")?;
    push_kinds(row.sent, into)?;
    into.extend_from_slice(b" got")?;
    push_kinds(row.got, into)?;
    push_number(b" checks ", row.constraints, into)?;
    push_number(b" ", row.nogoods, into)?;
    push_number(b" recorded ", row.recorded, into)?;
    push_number(b" values ", values, into)?;
    into.extend_from_slice(b"\n")
}

/// Pushes one line for each pair of variables of which the agent of the first learned values of the second, by the first and
/// then by the second.
pub fn push_learned(
    order: Option<&Order>,
    problem: &Problem,
    learned: &Learned,
    into: &mut Vec<u8>,
) -> Result<(), AllocError>
    requires order { IsOrderFor (option_copied order) problem.now }
    requires lists { length learned.now ≡ length problem.now.domains }
    ensures { (done : List Act) → AreLearned done learned.now
        → OnOk result (into.new.items ≡ into.old.items ++ learned_text (option_copied order.entry) (csp_of problem.now) done) }
{
    for number in 0..problem.vars() {
        let pairs = learned.pairs(place_of(order, number));
        push_learner(order, problem, number, pairs, into)?;
    }
    Ok(())
}

/// The lines of one variable's agent, which learned these values.
fn push_learner(
    order: Option<&Order>,
    problem: &Problem,
    number: u32,
    pairs: &[Pair],
    into: &mut Vec<u8>,
) -> Result<(), AllocError>
    requires { IsOrderFor (option_copied order) problem.now }
    ensures { OnOk result (into.new.items ≡ into.old.items ++ learner_lines (option_copied order.entry) (csp_of problem.now) number pairs.now) }
{
    for owner in 0..problem.vars() {
        let place = place_of(order, owner);
        let size = problem.domain(place).len() as u64;
        push_pair(number, owner, count_of(pairs, place), size, into)?;
    }
    Ok(())
}

/// The line of a learner and an owner, where there is a value.
fn push_pair(
    learner: u32,
    owner: u32,
    count: u64,
    size: u64,
    into: &mut Vec<u8>,
) -> Result<(), AllocError>
    ensures { OnOk result (into.new.items ≡ into.old.items ++ learned_line learner owner count size) }
{
    if count == 0 {
        return Ok(());
    }
    push_number(b"v", learner as u64 + 1, into)?;
    push_number(b" learned v", owner as u64 + 1, into)?;
    push_number(b" ", count, into)?;
    push_number(b" of ", size, into)?;
    into.extend_from_slice(b"\n")
}

/// How many of the values are of this owner.
fn count_of(pairs: &[Pair], owner: u32) -> u64
    ensures { result ≡ length (filter (λ (y : ThePair). y.var == owner) pairs.now) }
{
    let mut count = 0;
    for pair in pairs {
        if pair.var == owner {
            count += 1;
        }
    }
    count
}
