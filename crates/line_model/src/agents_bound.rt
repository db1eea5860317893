//! The greatest number of messages that a run can deliver, known before it starts.
//!
//! With `n` agents, `d` values of an agent and the product `P` of `1 + d` over all agents before it, each agent
//! counts `(n - 1 - i) * d * P + P - 1`, where `i` is its number; each pair of agents without a link at the start
//! counts 1.
ghost use Rattle.std.specs.Prelude.{◌≡◌, ◌+◌, ◌-◌, ◌*◌, ◌<◌, ◌≤◌, ◌^◌};
ghost use Rattle.std.specs.Option.{SomeIff};
ghost use Rattle.dcsp_rule.specs.Problems.{csp_of};
ghost use Rattle.abt_defs.specs.Bound.{message_bound, unlinked_pairs};

use dcsp_problem::Problem;

/// The greatest number of messages that a run of the problem's agents can deliver. `None` exactly where it is
/// above 2^128 - 1.
pub fn message_bound(problem: &Problem) -> Option<u128>
    ensures { SomeIff result (message_bound (csp_of problem.now) < 2 ^ 128) (message_bound (csp_of problem.now)) }
{
    let vars = problem.vars();
    let mut bound = u128::from(unlinked_pairs(problem));
    let mut product = Some(1);
    for var in 0..vars {
        let before = product?;
        let size = problem.domain(var).len() as u64;
        bound = bound.checked_add(most_of_one(vars - 1 - var, size, before)?)?;
        product = before.checked_mul(1 + u128::from(size));
    }
    Some(bound)
}

/// What an agent counts that has so many lower ones, so many values, and this product over those before it.
fn most_of_one(lower: u32, size: u64, product: u128) -> Option<u128>
    requires { 1 ≤ product }
    ensures { SomeIff result (lower * size * product + (product - 1) < 2 ^ 128) (lower * size * product + (product - 1)) }
{
    let told = u128::from(lower) * u128::from(size);
    told.checked_mul(product)?.checked_add(product - 1)
}

/// The number of pairs of agents without a link at the start.
fn unlinked_pairs(problem: &Problem) -> u64
    ensures { result ≡ unlinked_pairs (csp_of problem.now) }
{
    let vars = problem.vars();
    let mut pairs = 0;
    for var in 0..vars {
        let lower = u64::from(vars - 1 - var);
        pairs += lower - problem.lower_owners(var).len() as u64;
    }
    pairs
}
