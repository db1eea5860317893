//! All agents of a problem, under choices that are drawn.

ghost use Rattle.std.specs.Prelude.{◌≡◌, OnSome, false, true};

use abt_network::{Network, Standing};
use abt_schedule::{Choices, Seeded};
use dcsp_problem::Problem;
use std::alloc::Global;

/// How many deliveries are made at the most.
const MOST: u64 = 100_000_000;

/// Makes a delivery, if a message is in transit and fewer than the most were made, and tells whether it did.
/// `None` is want of memory.
fn goes_on(network: &mut Network<'_>, choice: u32) -> Option<bool>
    requires { network.old.begun ≡ true }
    ensures { OnSome result (network.new.begun ≡ true) }
{
    if network.state() != Standing::Open || network.deliveries() >= MOST {
        return Some(false);
    }
    match network.deliver(choice) {
        Ok(_) => Some(true),
        Err(_) => None,
    }
}

/// Starts the network, and makes deliveries until it ends. It tells how many were made and how the network
/// stands then.
fn run(network: &mut Network<'_>) -> Option<(u64, Standing)>
    requires { network.old.begun ≡ false }
{
    network.start().ok()?;
    let mut choices = Seeded::new(1);
    for _made in 0..MOST {
        if !goes_on(network, choices.next()?)? {
            break;
        }
    }
    Some((network.deliveries(), network.state()))
}

/// Lets the network go.
fn end(_network: Network<'_>) {}

/// Runs the agents under the choices of seed 1. It tells how many deliveries were made and how the
/// network stands then, or nothing where memory runs out.
pub fn run_network(alloc: Global, problem: &Problem) -> Option<(u64, Standing)> {
    let mut network = Network::new(alloc, problem).ok()?;
    let ended = run(&mut network);
    end(network);
    ended
}
