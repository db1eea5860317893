//! Agents that run out of memory.
//!
//! Where memory is ample, the runs come to their ends. Where an allocation fails, as each does in its turn by
//! `tests/hostile.sh`, whatever is asked of them from then on is answered by want of memory.

ghost use Rattle.std.specs.Prelude.{◌≡◌, true, false};

use crate::given::{THIRD, apart, let_go};
use crate::losses;
use crate::networks::end;
use abt_lossy::Lossy;
use abt_network::{Network, Standing};
use std::process::Abort;

/// A start of the spent network lacks memory.
fn start_lacks(network: &mut Network<'_>) -> bool
    requires { network.old.spent ≡ true }
    ensures { network.new.spent ≡ true }
{
    network.start().is_err()
}

/// A delivery of the spent network lacks memory.
fn delivery_lacks(network: &mut Network<'_>, choice: u32) -> bool
    requires { network.old.spent ≡ true }
    ensures { network.new.spent ≡ true }
{
    network.deliver(choice).is_err()
}

/// Whatever is asked of the spent network, it lacks memory.
fn expect_spent(rt: &impl Abort, network: &mut Network<'_>)
    requires { network.old.spent ≡ true }
{
    assert!(rt; delivery_lacks(network, 0));
    assert!(rt; start_lacks(network));
    assert!(rt; delivery_lacks(network, 7));
}

/// Makes a delivery while a message is in transit, and tells whether memory ran out.
fn runs_out(rt: &impl Abort, network: &mut Network<'_>) -> bool
    requires { network.old.begun ≡ true }
    ensures spent { result ≡ true → network.new.spent ≡ true }
    ensures begun { result ≡ false → network.new.begun ≡ true }
{
    assert!(rt; network.state() == Standing::Open);
    assert!(rt; network.deliveries() < 9);
    network.deliver(0).is_err()
}

/// Makes deliveries until nothing is in transit, which takes nine, or memory runs out.
fn deliver_all(rt: &impl Abort, network: &mut Network<'_>)
    requires { network.old.begun ≡ true }
{
    for _made in 0..9 {
        if runs_out(rt, network) {
            expect_spent(rt, network);
            return;
        }
    }
    assert!(rt; network.state() == Standing::Quiet);
}

/// Starts the network, and makes its deliveries.
fn run_network(rt: &impl Abort, network: &mut Network<'_>)
    requires { network.old.begun ≡ false }
{
    if network.start().is_err() {
        expect_spent(rt, network);
    } else {
        deliver_all(rt, network);
    }
}

#[test]
fn a_network_without_memory(rt: HostRuntime) {
    let problem = apart(&rt, rt.alloc(), [0, 1, 0], [1, 1, 1], THIRD);
    if let Ok(mut network) = Network::new(rt.alloc(), &problem) {
        run_network(&rt, &mut network);
        end(network);
    }
    let_go(problem);
}

/// A start of spent agents lacks memory.
fn medium_start_lacks(medium: &mut Lossy<'_>) -> bool
    requires { medium.old.spent ≡ true }
    ensures { medium.new.spent ≡ true }
{
    medium.start().is_err()
}

/// An event of spent agents lacks memory.
fn event_lacks(medium: &mut Lossy<'_>, word: u32) -> bool
    requires { medium.old.spent ≡ true }
    ensures { medium.new.spent ≡ true }
{
    medium.event(word).is_err()
}

/// Whatever is asked of spent agents over the medium, they lack memory.
fn expect_spent_medium(rt: &impl Abort, medium: &mut Lossy<'_>)
    requires { medium.old.spent ≡ true }
{
    assert!(rt; event_lacks(medium, 0));
    assert!(rt; medium_start_lacks(medium));
    assert!(rt; event_lacks(medium, 1));
}

/// Makes an event while something is not yet handed up, and tells whether memory ran out: each packet that is
/// sent arrives at once.
fn medium_runs_out(rt: &impl Abort, medium: &mut Lossy<'_>) -> bool
    requires { medium.old.begun ≡ true }
    ensures spent { result ≡ true → medium.new.spent ≡ true }
    ensures begun { result ≡ false → medium.new.begun ≡ true }
{
    assert!(rt; medium.state() == Standing::Open);
    assert!(rt; medium.events() < 100);
    let word = if medium.pool() == 0 { 0 } else { 1 };
    medium.event(word).is_err()
}

/// Makes events until all is handed up, or memory runs out.
fn make_events(rt: &impl Abort, medium: &mut Lossy<'_>)
    requires { medium.old.begun ≡ true }
{
    for _made in 0..100 {
        if medium.state() == Standing::Quiet {
            return;
        }
        if medium_runs_out(rt, medium) {
            expect_spent_medium(rt, medium);
            return;
        }
    }
    panic!(rt; "no verdict");
}

/// Starts the agents, and makes their events.
fn run_medium(rt: &impl Abort, medium: &mut Lossy<'_>)
    requires { medium.old.begun ≡ false }
{
    if medium.start().is_err() {
        expect_spent_medium(rt, medium);
    } else {
        make_events(rt, medium);
    }
}

#[test]
fn a_medium_without_memory(rt: HostRuntime) {
    let problem = apart(&rt, rt.alloc(), [0, 1, 0], [1, 1, 1], THIRD);
    if let Ok(mut medium) = Lossy::new(rt.alloc(), &problem) {
        run_medium(&rt, &mut medium);
        losses::end(medium);
    }
    let_go(problem);
}
