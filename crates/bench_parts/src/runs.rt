//! Runs of one agent.

ghost use Rattle.std.specs.Prelude.{◌≡◌, length};

use crate::driver::{Counts, Driver};
use crate::problem::{AGENT, VALUES, VARIABLES};
use abt_parts::StampedValue;
use dcsp_defs::Pair;
use dcsp_problem::Problem;
use std::alloc::Global;

/// How many higher agents there are.
const HIGHER: usize = 50;

/// The first of the values that are told to an agent which keeps its own.
const LEAST_TOLD: i64 = 950;

/// The most nogoods that may be kept first: the agent's own value is then below `LEAST_TOLD`.
const MOST_KEPT: u32 = 900;

/// What a higher agent tells in this message.
fn value_at(message: u32) -> i64 {
    let value = u64::from(message) * 7 % u64::from(VALUES);
    i64::from(value as u16)
}

/// Hands the agent such messages as `mixed` says.
fn mix(driver: &mut Driver<'_>, messages: u32) -> Option<()> {
    let mut told: [Option<StampedValue>; HIGHER] = [None; HIGHER];
    for message in 0..messages {
        let step = u64::from(message) + 1;
        let is_tenth = message % 10 == 9;
        let var = if is_tenth {
            message / 10 % AGENT
        } else {
            message % AGENT
        };
        let last = if is_tenth { told[var as usize] } else { None };
        match last {
            Some(StampedValue { value, stamp }) => {
                let own = i64::from(message % VALUES);
                driver.refuse(Pair { var, value }, stamp, own, step)?;
            }
            None => {
                let value = value_at(message);
                told[var as usize] = Some(StampedValue { value, stamp: step });
                driver.tell(Pair { var, value }, step, step)?;
            }
        }
    }
    Some(())
}

/// Values of the higher agents in turn; every tenth message is a nogood instead, of a value last told and one of
/// the agent's own, if there is one last told.
pub fn mixed(alloc: Global, problem: &Problem, messages: u32) -> Option<Counts>
    requires { length problem.now.domains ≡ VARIABLES }
{
    let mut driver = Driver::new(alloc, problem)?;
    mix(&mut driver, messages)?;
    Some(driver.counts())
}

/// Hands the agent so many nogoods and then so many values, as `quiet` says.
fn keep_and_tell(driver: &mut Driver<'_>, messages: u32, kept: u32) -> Option<()> {
    let highest = Pair { var: 0, value: 0 };
    driver.tell(highest, 1, 1)?;
    for own in 0..kept {
        driver.refuse(highest, 1, i64::from(own) + 1, u64::from(own) + 1)?;
    }
    for message in 0..messages {
        let stamp = u64::from(message) + 1;
        let pair = Pair {
            var: 1 + message % (AGENT - 1),
            value: LEAST_TOLD + i64::from(message % 50),
        };
        driver.tell(pair, stamp, stamp)?;
    }
    Some(())
}

/// So many nogoods which name the highest agent alone beside the agent itself, then values of the other agents,
/// which leave the agent's own free. `None` is also more nogoods than 900.
pub fn quiet(alloc: Global, problem: &Problem, messages: u32, kept: u32) -> Option<Counts>
    requires { length problem.now.domains ≡ VARIABLES }
{
    if kept > MOST_KEPT {
        return None;
    }
    let mut driver = Driver::new(alloc, problem)?;
    keep_and_tell(&mut driver, messages, kept)?;
    Some(driver.counts())
}
